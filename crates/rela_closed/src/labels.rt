//! The labels of edges, sorted out once for all letters.
ghost use Rattle.std.specs.Prelude.{◌≡◌, ℕ, [], ◌∷◌, List, Bool, Contains, IfOk, length, map};
ghost use Rattle.std.specs.List.{All};
ghost use Rattle.std.specs.Option.{ForSome};
ghost use Rattle.rela_nfa.specs.Automaton.{moves_of};
ghost use Rattle.rela_nfa.specs.Stored.{move_of};
ghost use Rattle.rela_closed.specs.Sets.{AreMet};
ghost use Rattle.rela_closed.specs.Splitting.{AreSorted, IsMore, IsSorted};

use crate::single::only_letter;
use rela_labels::LabelSet;
use rela_nfa::{Edge, Nfa};
use std::alloc::{AllocError, Global};
use std::marker::Model;

/// Labels of edges. Most have one letter alone, and don't matter to any other letter. Contracts see
/// these letters, and the list of the other labels.
#[derive(Drop)]
pub(crate) struct Labels<'a, L: LabelSet> {
    /// The letters that some of the labels have alone.
    pub(crate) alone: L,
    /// The labels that have more letters than one, or none at all.
    pub(crate) others: Vec<&'a L>,
}

impl<'a, L: LabelSet> Model for Labels<'a, L> {
    ghost use Rattle.std.specs.Prelude.{◌≡◌, length, map};
    ghost use Rattle.std.specs.List.{All};
    ghost use Rattle.rela_closed.specs.Splitting.{Sorted};

    ghost Value = { Sorted };

    ghost view = { λ labels. record {
      alone = L.letters labels.alone;
      others = map (λ label. L.letters label.now) labels.others.items;
    } };

    ghost invariant = { λ labels. All (λ label. length label ≡ length (L.letters labels.alone))
        (map (λ label. L.letters label.now) labels.others.items) };
}

impl<'a, L: LabelSet> Labels<'a, L> {
    /// No labels yet, of letters below the size.
    pub(crate) fn none(alloc: Global, size: u32) -> Result<Labels<'a, L>, AllocError>
        requires { L.fits size }
        ensures { IfOk result (λ labels. length labels.alone ≡ size) }
    {
        let alone = L::none(alloc, size)?;
        Ok(Labels {
            alone,
            others: Vec::new(alloc),
        })
    }

    /// Puts in the labels of the edges out of the states of the set, of which the letters of `over`
    /// matter. Where the automaton doesn't read just as many letters as there are in `over`, all
    /// of these are to come by themselves. Time: constant for each edge by one letter, and a few
    /// set operations for each other.
    pub(crate) fn put_from(
        &mut self,
        alloc: Global,
        a: &'a Nfa<L>,
        set: &[usize],
        over: &L,
    ) -> Result<(), AllocError>
        requires met { AreMet (a.now ∷ []) (set.now ∷ []) }
        requires size { length self.old.alone ≡ length (L.letters over.now) }
        ensures more { IfOk result (λ _. IsMore (L.letters over.now) self.old self.new) }
        ensures sorted { IfOk result (λ _. (q : ℕ) → Contains set.now q →
            AreSorted (L.letters over.now) self.new (moves_of a.now q)) }
        ensures size { IfOk result (λ _. length self.new.alone ≡ length self.old.alone) }
    {
        if a.letters() != over.size() {
            self.alone = over.copy(alloc)?;
            return Ok(());
        }
        for q in set {
            self.put_all(alloc, a.edges(*q))?;
        }
        Ok(())
    }

    /// Puts in the labels of the edges.
    fn put_all(&mut self, alloc: Global, edges: &'a [Edge<L>]) -> Result<(), AllocError>
        requires { All (λ edge. ForSome edge.label (λ set. length (L.letters set)
            ≡ length self.old.alone)) edges.now }
        ensures more { IfOk result (λ _. (over : List Bool) → IsMore over self.old self.new) }
        ensures sorted { IfOk result (λ _. (over : List Bool) →
            AreSorted over self.new (map (move_of L.letters) edges.now)) }
        ensures size { IfOk result (λ _. length self.new.alone ≡ length self.old.alone) }
    {
        for edge in edges {
            self.put_of(alloc, edge)?;
        }
        Ok(())
    }

    /// Puts in the label of the edge, unless it is silent.
    fn put_of(&mut self, alloc: Global, edge: &'a Edge<L>) -> Result<(), AllocError>
        requires { ForSome edge.now.label (λ set. length (L.letters set)
            ≡ length self.old.alone) }
        ensures more { IfOk result (λ _. (over : List Bool) → IsMore over self.old self.new) }
        ensures sorted { IfOk result (λ _. (over : List Bool) →
            ForSome (move_of L.letters edge.now).label (IsSorted over self.new)) }
        ensures size { IfOk result (λ _. length self.new.alone ≡ length self.old.alone) }
    {
        match &edge.label {
            Some(label) => self.put(alloc, label),
            None => Ok(()),
        }
    }

    /// Puts in the label.
    fn put(&mut self, alloc: Global, label: &'a L) -> Result<(), AllocError>
        requires { length (L.letters label.now) ≡ length self.old.alone }
        ensures more { IfOk result (λ _. (over : List Bool) → IsMore over self.old self.new) }
        ensures sorted { IfOk result (λ _. (over : List Bool) →
            IsSorted over self.new (L.letters label.now)) }
        ensures size { IfOk result (λ _. length self.new.alone ≡ length self.old.alone) }
    {
        let Some(letter) = only_letter(alloc, label)? else {
            self.others.push(label)?;
            return Ok(());
        };
        self.alone.add(alloc, letter)?;
        Ok(())
    }
}
