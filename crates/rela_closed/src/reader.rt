//! Automata that read words together.
ghost use Rattle.std.specs.Prelude.{◌≡◌, ℕ, ◌≤◌, [], IfOk, length, map};
ghost use Rattle.std.specs.List.{All};
ghost use Rattle.rela_labels.specs.Letters.{has};
ghost use Rattle.rela_nfa.specs.Automaton.{states};
ghost use Rattle.rela_closed.specs.Sets.{AreMet, AreReached, Leads};
ghost use Rattle.rela_closed.specs.Splitting.{AreTold, remains};

use crate::blocks::Blocks;
use crate::closure::{first_set, next_set};
use crate::labels::Labels;
use rela_labels::LabelSet;
use rela_nfa::{Nfa, StateSet};
use std::alloc::{AllocError, Global};
use std::marker::Model;

/// Automata that read words together, with room to walk in each. Contracts see the automata.
#[derive(Drop)]
pub(crate) struct Reader<'a, L: LabelSet> {
    /// The automata.
    automata: &'a [&'a Nfa<L>],
    /// Room for the states of any one of them.
    visited: StateSet,
}

impl<'a, L: LabelSet> Model for Reader<'a, L> {
    ghost use Rattle.std.specs.Prelude.{List, ◌≤◌, map};
    ghost use Rattle.std.specs.List.{All};
    ghost use Rattle.rela_nfa.specs.Automaton.{Automaton, states};

    ghost Value = { List Automaton };

    ghost view = { λ reader. map (λ a. a.now) reader.automata.now };

    ghost invariant = { λ reader. All (λ a. states a ≤ reader.visited.count) (map (λ a. a.now)
        reader.automata.now) };
}

impl<'a, L: LabelSet> Reader<'a, L> {
    /// A reader of these automata. Time and space: linear in the states of the largest.
    pub(crate) fn new(
        alloc: Global,
        automata: &'a [&'a Nfa<L>],
    ) -> Result<Reader<'a, L>, AllocError>
        ensures { IfOk result (λ reader. reader ≡ map (λ a. a.now) automata.now) }
    {
        let visited = StateSet::new(alloc, most_states(automata))?;
        Ok(Reader { automata, visited })
    }

    /// The sets of states that the empty word reaches.
    pub(crate) fn first(&mut self, alloc: Global) -> Result<Vec<Vec<usize>>, AllocError>
        ensures first { IfOk result (λ sets.
            AreReached self.old [] (map (λ set. set.items) sets.items)) }
        ensures same { self.new ≡ self.old }
    {
        let mut sets = Vec::with_capacity(alloc, self.automata.len())?;
        for a in self.automata {
            sets.push(first_set(alloc, a, &mut self.visited)?)?;
        }
        Ok(sets)
    }

    /// The sets of states that a word reaches with the letter behind it, where the word reaches
    /// these sets. Time: for each automaton that of a walk from the set.
    pub(crate) fn next(
        &mut self,
        alloc: Global,
        sets: &[Vec<usize>],
        letter: u32,
    ) -> Result<Vec<Vec<usize>>, AllocError>
        requires { AreMet self.old (map (λ set. set.items) sets.now) }
        ensures leads { IfOk result (λ next. Leads self.old (map (λ set. set.items) sets.now)
            letter (map (λ set. set.items) next.items)) }
        ensures same { self.new ≡ self.old }
    {
        let mut next = Vec::with_capacity(alloc, sets.len())?;
        for i in 0..self.automata.len() {
            let a = self.automata[i];
            next.push(next_set(alloc, a, &sets[i], letter, &mut self.visited)?)?;
        }
        Ok(next)
    }

    /// The letters of `over` in blocks that lead alike from these sets. Time: a look at each edge
    /// out of the states of the sets, and a few set operations for each by more letters than one.
    pub(crate) fn blocks(
        &self,
        alloc: Global,
        over: &L,
        sets: &[Vec<usize>],
    ) -> Result<Blocks<'a, L>, AllocError>
        requires { AreMet self.now (map (λ set. set.items) sets.now) }
        ensures told { IfOk result (λ blocks. AreTold self.now (map (λ set. set.items) sets.now)
            blocks) }
        ensures all { IfOk result (λ blocks. (k : ℕ) → remains blocks k
            ≡ has (L.letters over.now) k) }
        ensures size { IfOk result (λ blocks. length blocks.rest ≡ length (L.letters over.now)) }
    {
        let mut labels = Labels::none(alloc, over.size())?;
        for i in 0..self.automata.len() {
            let a = self.automata[i];
            labels.put_from(alloc, a, &sets[i], over)?;
        }
        Blocks::new(alloc, over, labels)
    }
}

/// The number of states of the largest of the automata, 0 where there are none.
fn most_states<L: LabelSet>(automata: &[&Nfa<L>]) -> usize
    ensures { All (λ a. states a ≤ result) (map (λ a. a.now) automata.now) }
{
    let mut most = 0;
    for a in automata {
        let count = a.states();
        if count > most {
            most = count;
        }
    }
    most
}
