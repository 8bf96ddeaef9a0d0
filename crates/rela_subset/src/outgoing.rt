//! The edges out of a set of states, sorted out once for all letters.
ghost use Rattle.std.specs.Prelude.{◌≡◌, ℕ, ◌<◌, ◌++◌, ◌∷◌, List, [], IfOk, Some, length, map};
ghost use Rattle.std.specs.List.{All};
ghost use Rattle.rela_nfa.specs.Automaton.{IsAutomaton, Move, states};
ghost use Rattle.rela_nfa.specs.Runs.{StepIn};
ghost use Rattle.rela_nfa.specs.StateSet.{Adds, Lists};
ghost use Rattle.rela_nfa.specs.Stored.{move_of};
ghost use Rattle.rela_subset.specs.Outgoing.{AreSortedOut, HasEnd, moves_from};
ghost use Rattle.rela_subset.specs.Sets.{NextFrom};
ghost use Rattle.rela_subset.specs.Silent.{IsSilentAs};

use crate::blocks::Blocks;
use crate::letter_edge::{LetterEdge, edges_by, sorted_by_letter};
use rela_labels::LabelSet;
use rela_nfa::{Edge, Nfa, StateSet};
use std::alloc::{AllocError, Global};
use std::marker::Model;
use std::mem::replace;

/// The edges of an automaton out of a set of its states, but for the silent ones. Those by one
/// letter alone are most, and stand apart, since they don't matter to any other letter. Those of
/// one set after the other are gathered here, and the memory is kept. Contracts see the automaton,
/// and the two lists of edges.
#[derive(Drop)]
pub(crate) struct Outgoing<'a, L: LabelSet> {
    /// The automaton.
    a: &'a Nfa<L>,
    /// Its silent edges alone.
    silent: &'a Nfa<L>,
    /// The edges by one letter, in ascending order of it.
    singles: Vec<LetterEdge>,
    /// The edges whose labels have more letters than one, or none at all.
    others: Vec<&'a Edge<L>>,
}

impl<'a, L: LabelSet> Model for Outgoing<'a, L> {
    ghost use Rattle.std.specs.Prelude.{map};
    ghost use Rattle.rela_nfa.specs.Stored.{move_of};
    ghost use Rattle.rela_subset.specs.Outgoing.{AreHeld, Sorted};
    ghost use Rattle.rela_subset.specs.Silent.{IsSilentAs};

    ghost Value = { Sorted };

    ghost view = { λ out. record {
      automaton = out.a.now;
      singles = out.singles.items;
      others = map (λ edge. move_of L.letters edge.now) out.others.items;
    } };

    ghost invariant = { λ out. AreHeld out.a.now out.singles.items (map (λ edge.
        move_of L.letters edge.now) out.others.items) × IsSilentAs out.a.now out.silent.now };
}

impl<'a, L: LabelSet> Outgoing<'a, L> {
    /// No edges of the automaton, whose silent ones alone the other has.
    pub(crate) fn new(alloc: Global, a: &'a Nfa<L>, silent: &'a Nfa<L>) -> Outgoing<'a, L>
        requires automaton { IsAutomaton a.now }
        requires silent { IsSilentAs a.now silent.now }
        ensures { result.automaton ≡ a.now }
    {
        Outgoing {
            a,
            silent,
            singles: Vec::new(alloc),
            others: Vec::new(alloc),
        }
    }

    /// Gathers the edges out of the states of the set, in place of those that were there. Time:
    /// n log n in the edges.
    pub(crate) fn gather(&mut self, alloc: Global, set: &[usize]) -> Result<(), AllocError>
        requires { All (λ q. q < states self.old.automaton) set.now }
        ensures automaton { self.new.automaton ≡ self.old.automaton }
        ensures sorted { IfOk result (λ _. AreSortedOut (moves_from self.old.automaton set.now)
            self.new.singles self.new.others) }
    {
        let singles = replace(&mut self.singles, Vec::new(alloc));
        let others = replace(&mut self.others, Vec::new(alloc));
        *self = Outgoing::within(self.a, self.silent, set, singles, others)?;
        Ok(())
    }

    /// The edges out of the states of the set, in these vectors in place of what they have.
    fn within(
        a: &'a Nfa<L>,
        silent: &'a Nfa<L>,
        set: &[usize],
        singles: Vec<LetterEdge>,
        others: Vec<&'a Edge<L>>,
    ) -> Result<Outgoing<'a, L>, AllocError>
        requires automaton { IsAutomaton a.now }
        requires silent { IsSilentAs a.now silent.now }
        requires states { All (λ q. q < states a.now) set.now }
        ensures automaton { IfOk result (λ out. out.automaton ≡ a.now) }
        ensures sorted { IfOk result (λ out.
            AreSortedOut (moves_from a.now set.now) out.singles out.others) }
    {
        let mut singles = singles;
        let mut others = others;
        singles.clear();
        others.clear();
        for q in set {
            sort_out(a.edges(*q), &mut singles, &mut others)?;
        }
        let singles = sorted_by_letter(singles);
        Ok(Outgoing {
            a,
            silent,
            singles,
            others,
        })
    }

    /// The letters of the set in blocks, by each of which the same of these edges may be taken.
    pub(crate) fn blocks<'b>(
        &'b self,
        alloc: Global,
        over: &'b L,
    ) -> Result<Blocks<'b, L>, AllocError>
        requires letters { length (L.letters over.now) ≡ self.now.automaton.letters }
        ensures singles { IfOk result (λ blocks. blocks.singles ≡ self.now.singles) }
        ensures others { IfOk result (λ blocks. blocks.others ≡ self.now.others) }
        ensures left { IfOk result (λ blocks. blocks.left ≡ L.letters over.now) }
    {
        Blocks::new(alloc, over, &self.singles, &self.others)
    }

    /// Visits the states that follow by the letter, with those that silent edges then lead to, and
    /// puts them in ascending order. Time: two binary searches, a look at each edge by this letter
    /// alone, at each by more than one and at each silent one out of the states that follow, and a
    /// sort of these.
    pub(crate) fn following(&self, letter: u32, visited: &mut StateSet) -> Result<(), AllocError>
        requires count { visited.old.count ≡ states self.now.automaton }
        ensures following { IfOk result (λ _. (set : List ℕ) →
            AreSortedOut (moves_from self.now.automaton set) self.now.singles self.now.others
            → Lists (NextFrom self.now.automaton set letter) visited.new.states) }
        ensures count { visited.new.count ≡ visited.old.count }
    {
        visited.clear();
        insert_singles(visited, edges_by(&self.singles, letter))?;
        insert_others(visited, &self.others, letter)?;
        prove!(visited.states().len() <= self.silent.states());
        self.silent.close(visited)?;
        visited.sort();
        Ok(())
    }
}

/// Puts the edges, but for the silent ones, behind those by one letter or behind the others.
fn sort_out<'a, L: LabelSet>(
    edges: &'a [Edge<L>],
    singles: &mut Vec<LetterEdge>,
    others: &mut Vec<&'a Edge<L>>,
) -> Result<(), AllocError>
    ensures { IfOk result (λ _. (moves : List Move) →
        AreSortedOut moves singles.old.items (map (λ edge. move_of L.letters edge.now)
        others.old.items)
        → AreSortedOut (moves ++ map (move_of L.letters) edges.now) singles.new.items (map (λ edge.
        move_of L.letters edge.now) others.new.items)) }
{
    for edge in edges {
        sort_out_one(edge, singles, others)?;
    }
    Ok(())
}

/// Puts the edge, unless it is silent, behind those by one letter or behind the others.
fn sort_out_one<'a, L: LabelSet>(
    edge: &'a Edge<L>,
    singles: &mut Vec<LetterEdge>,
    others: &mut Vec<&'a Edge<L>>,
) -> Result<(), AllocError>
    ensures { IfOk result (λ _. (moves : List Move) →
        AreSortedOut moves singles.old.items (map (λ edge. move_of L.letters edge.now)
        others.old.items)
        → AreSortedOut (moves ++ move_of L.letters edge.now ∷ []) singles.new.items (map (λ edge.
        move_of L.letters edge.now) others.new.items)) }
{
    let Some(label) = &edge.label else {
        return Ok(());
    };
    match label.only() {
        Some(letter) => singles.push(LetterEdge {
            letter,
            to: edge.to,
        })?,
        None => others.push(edge)?,
    }
    Ok(())
}

/// Puts the ends of the edges behind the other states, unless they are among them.
fn insert_singles(visited: &mut StateSet, edges: &[LetterEdge]) -> Result<(), AllocError>
    requires { All (λ edge. edge.to < visited.old.count) edges.now }
    ensures adds { IfOk result (λ _. Adds (λ q. (k : ℕ) × HasEnd edges.now k q) visited.old.states
        visited.new.states) }
    ensures count { visited.new.count ≡ visited.old.count }
{
    for edge in edges {
        visited.insert(edge.to)?;
    }
    Ok(())
}

/// Puts the ends of those edges that may be taken by the letter behind the other states, unless
/// they are among them.
fn insert_others<L: LabelSet>(
    visited: &mut StateSet,
    edges: &[&Edge<L>],
    letter: u32,
) -> Result<(), AllocError>
    requires { All (λ edge. edge.now.to < visited.old.count) edges.now }
    ensures adds { IfOk result (λ _. Adds
        (StepIn (map (λ edge. move_of L.letters edge.now) edges.now) (Some letter))
        visited.old.states visited.new.states) }
    ensures count { visited.new.count ≡ visited.old.count }
{
    for edge in edges {
        edge.follow(Some(letter), visited)?;
    }
    Ok(())
}
