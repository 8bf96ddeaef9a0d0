//! What an automaton is, and what it tells of itself.
ghost use Rattle.std.specs.Prelude.{◌≡◌, ◌<◌, ◌≤◌, ◌^◌, ◌↔◌, IfOk, IsTrue, length};
ghost use Rattle.std.specs.List.{All};
ghost use Rattle.rela_letter_nfa.specs.LetterAutomaton.{AreEdgesOf, IsFinal, IsLetterAutomaton, edges_of, silents_of, states};

use crate::edge::LetterEdge;
use crate::edge_lists::EdgeLists;
use crate::lists::Lists;
use std::alloc::{AllocError, Global};
use std::marker::Model;

/// The greatest number of states.
pub const MAX_STATES: usize = 1 << 31;

/// A nondeterministic finite automaton with one letter on each edge, and silent steps. Its states
/// are numbered from 0, and there are at most [`MAX_STATES`]. Contracts see it as a
/// `LetterAutomaton`.
#[derive(Drop)]
pub struct LetterNfa {
    /// The state from which runs begin.
    pub(crate) start: u32,
    /// For each state whether it is final.
    pub(crate) finals: Vec<bool>,
    /// The states to which each state goes silently.
    pub(crate) silents: Lists<u32>,
    /// The edges of each state.
    pub(crate) edges: Lists<LetterEdge>,
}

impl Model for LetterNfa {
    ghost use Rattle.std.specs.Prelude.{◌≤◌, ◌^◌, length};
    ghost use Rattle.rela_letter_nfa.specs.LetterAutomaton.{IsLetterAutomaton, LetterAutomaton};

    ghost Value = { LetterAutomaton };

    ghost view = { λ nfa. record {
      start = nfa.start;
      finals = nfa.finals.items;
      silents = nfa.silents.0;
      edges = nfa.edges.0;
    } };

    ghost invariant = { λ nfa. IsLetterAutomaton (record {
      start = nfa.start;
      finals = nfa.finals.items;
      silents = nfa.silents.0;
      edges = nfa.edges.0;
    }) × (length nfa.finals.items ≤ 2 ^ 31) };
}

impl LetterNfa {
    /// The number of states.
    pub fn states(&self) -> usize
        ensures states { result ≡ states self.now }
        ensures few { states self.now ≤ 2 ^ 31 }
        ensures automaton { IsLetterAutomaton self.now }
    {
        self.finals.len()
    }

    /// The state from which runs begin.
    pub fn start(&self) -> u32
        ensures start { result ≡ self.now.start }
        ensures automaton { IsLetterAutomaton self.now }
    {
        self.start
    }

    /// Whether the state is final: a word that leads to it is accepted.
    pub fn is_final(&self, q: u32) -> bool
        requires { q < states self.now }
        ensures { IsTrue result ↔ IsFinal self.now q }
    {
        self.finals[q as usize]
    }

    /// The states to which the state goes silently.
    pub fn silent(&self, q: u32) -> &[u32]
        requires { q < states self.now }
        ensures silent { result.now ≡ silents_of self.now q }
        ensures automaton { IsLetterAutomaton self.now }
    {
        self.silents.list(q as usize)
    }

    /// The edges that leave the state.
    pub fn edges(&self, q: u32) -> &[LetterEdge]
        requires { q < states self.now }
        ensures edges { result.now ≡ edges_of self.now q }
        ensures automaton { IsLetterAutomaton self.now }
    {
        self.edges.list(q as usize)
    }

    /// The automaton of the same states and silent steps, with these edges. Time: linear in the states
    /// and the silent steps, but many are copied at a time.
    pub fn with_edges(&self, alloc: Global, edges: EdgeLists) -> Result<LetterNfa, AllocError>
        requires each { length edges.0 ≡ states self.now }
        requires lead { AreEdgesOf (states self.now) edges.0 }
        ensures { IfOk result (λ made. made ≡ record {
          start = self.now.start;
          finals = self.now.finals;
          silents = self.now.silents;
          edges = edges.0;
        }) }
    {
        let finals = Vec::from_slice(alloc, &self.finals)?;
        let silents = self.silents.copy(alloc)?;
        Ok(LetterNfa {
            start: self.start,
            finals,
            silents,
            edges: edges.lists,
        })
    }
}
