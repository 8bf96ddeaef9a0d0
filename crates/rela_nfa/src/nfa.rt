//! What an automaton is, and what it tells of itself.
ghost use Rattle.std.specs.Prelude.{◌≡◌, ℕ, ◌<◌, ◌↔◌, List, [], IsTrue, IfOk, length, map, slice_index_or};
ghost use Rattle.std.specs.List.{All};
ghost use Rattle.std.specs.Option.{ForSome};
ghost use Rattle.rela_nfa.specs.Automaton.{IsAutomaton, IsFinal, states, moves_of};
ghost use Rattle.rela_nfa.specs.Stored.{move_of, moves_in};

use crate::edge::Edge;
use crate::edge_lists::EdgeLists;
use rela_labels::LabelSet;
use std::alloc::{AllocError, Global};
use std::marker::Model;

/// A nondeterministic finite automaton with silent edges. It reads letters, which are numbered from
/// 0; its states are numbered from 0 too. Contracts see it as an `Automaton`, in which each label
/// is the list of the letters, whether each is in it.
#[derive(Drop)]
pub struct Nfa<L: LabelSet> {
    /// The number of letters.
    pub(crate) letters: u32,
    /// The state from which runs begin.
    pub(crate) start: usize,
    /// For each state whether it is final.
    pub(crate) finals: Vec<bool>,
    /// The edges that leave each state.
    pub(crate) edges: EdgeLists<L>,
}

impl<L: LabelSet> Model for Nfa<L> {
    ghost use Rattle.rela_nfa.specs.Automaton.{Automaton, IsAutomaton};

    ghost Value = { Automaton };

    ghost view = { λ nfa. record {
      letters = nfa.letters;
      start = nfa.start;
      finals = nfa.finals.items;
      edges = nfa.edges;
    } };

    ghost invariant = { λ nfa. L.fits nfa.letters × IsAutomaton (record {
      letters = nfa.letters;
      start = nfa.start;
      finals = nfa.finals.items;
      edges = nfa.edges;
    }) };
}

impl<L: LabelSet> Nfa<L> {
    /// The automaton with this number of letters, this start, and for each state whether it is
    /// final and which edges leave it. The edges are moved. Time and space: linear in the states
    /// and the edges.
    pub fn from_parts(
        alloc: Global,
        letters: u32,
        start: usize,
        finals: &[bool],
        edges: Vec<Vec<Edge<L>>>,
    ) -> Result<Nfa<L>, AllocError>
        requires fits { L.fits letters }
        requires automaton { IsAutomaton (record {
          letters = letters;
          start = start;
          finals = finals.now;
          edges = moves_in L.letters edges.items;
        }) }
        ensures letters { IfOk result (λ nfa. nfa.letters ≡ letters) }
        ensures start { IfOk result (λ nfa. nfa.start ≡ start) }
        ensures finals { IfOk result (λ nfa. nfa.finals ≡ finals.now) }
        ensures edges { IfOk result (λ nfa. nfa.edges ≡ moves_in L.letters edges.items) }
    {
        let finals = Vec::from_slice(alloc, finals)?;
        let edges = EdgeLists::from_lists(alloc, edges)?;
        Ok(Nfa::from_lists(letters, start, finals, edges))
    }

    /// The same automaton of lists that already stand one behind the other. It takes no memory, and
    /// constant time.
    pub fn from_lists(letters: u32, start: usize, finals: Vec<bool>, edges: EdgeLists<L>) -> Nfa<L>
        requires fits { L.fits letters }
        requires automaton { IsAutomaton (record {
          letters = letters;
          start = start;
          finals = finals.items;
          edges = edges;
        }) }
        ensures letters { result.letters ≡ letters }
        ensures start { result.start ≡ start }
        ensures finals { result.finals ≡ finals.items }
        ensures edges { result.edges ≡ edges }
    {
        Nfa {
            letters,
            start,
            finals,
            edges,
        }
    }

    /// The number of letters.
    pub fn letters(&self) -> u32
        ensures letters { result ≡ self.now.letters }
        ensures fits { L.fits self.now.letters }
        ensures automaton { IsAutomaton self.now }
    {
        self.letters
    }

    /// The number of states.
    pub fn states(&self) -> usize
        ensures states { result ≡ states self.now }
        ensures automaton { IsAutomaton self.now }
    {
        self.finals.len()
    }

    /// How many edges all states have, to reserve memory by. Time: constant.
    pub fn edge_count(&self) -> usize {
        self.edges.edges()
    }

    /// The state from which runs begin.
    pub fn start(&self) -> usize
        ensures start { result ≡ self.now.start }
        ensures state { result < states self.now }
        ensures automaton { IsAutomaton self.now }
    {
        self.start
    }

    /// Whether the state is final: a word that leads to it is accepted.
    pub fn is_final(&self, q: usize) -> bool
        requires { q < states self.now }
        ensures { IsTrue result ↔ IsFinal self.now q }
    {
        self.finals[q]
    }

    /// The edges that leave the state.
    pub fn edges(&self, q: usize) -> &[Edge<L>]
        requires { q < states self.now }
        ensures moves { map (move_of L.letters) result.now ≡ moves_of self.now q }
        ensures automaton { IsAutomaton self.now }
        ensures lead { All (λ edge. edge.to < states self.now) result.now }
        ensures sized { All (λ edge. ForSome edge.label (λ set. length (L.letters set)
            ≡ self.now.letters)) result.now }
    {
        self.edges.list(q)
    }
}
