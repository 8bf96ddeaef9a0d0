//! What a deterministic automaton is, and what it tells of itself.
ghost use Rattle.std.specs.Prelude.{◌≡◌, ℕ, ◌<◌, ◌↔◌, List, IsTrue, IfOk, length, map};
ghost use Rattle.rela_nfa.specs.Runs.{Reach, Accepts};
ghost use Rattle.rela_nfa.specs.Stored.{move_of, moves_in};
ghost use Rattle.rela_subset.specs.Deterministic.{IsDeterministic, IsFinal, IsAccepted, LeadsTo, automaton_of, moves_of, states};
ghost use Rattle.rela_subset.specs.Stored.{deterministic};

use rela_labels::LabelSet;
use rela_nfa::{Edge, Nfa};
use std::alloc::{AllocError, Global};
use std::marker::Model;

/// A deterministic automaton, complete over a set of letters: at each state each of these letters
/// is in the label of exactly one edge, and no other letter in any. Its states are numbered from 0.
/// Contracts see it as a `Deterministic`, in which each label is the list of the letters, whether
/// each is in it.
#[derive(Drop)]
pub struct Dfa<L: LabelSet> {
    /// The letters that are read.
    pub(crate) over: L,
    /// The state from which words are read.
    pub(crate) start: usize,
    /// For each state whether it is final.
    pub(crate) finals: Vec<bool>,
    /// The edges that leave each state. Each has a label.
    pub(crate) edges: Vec<Vec<Edge<L>>>,
}

impl<L: LabelSet> Model for Dfa<L> {
    ghost use Rattle.rela_subset.specs.Deterministic.{Deterministic, IsDeterministic};

    ghost Value = { Deterministic };

    ghost use Rattle.rela_subset.specs.Stored.{deterministic};

    ghost view = { λ dfa. deterministic L.letters (L.letters dfa.over) dfa.start dfa.finals.items
        dfa.edges.items };

    ghost invariant = { λ dfa. IsDeterministic (deterministic L.letters (L.letters dfa.over)
        dfa.start dfa.finals.items dfa.edges.items) };
}

impl<L: LabelSet> Dfa<L> {
    /// The automaton of these parts.
    pub(crate) fn new(over: L, start: usize, finals: Vec<bool>, edges: Vec<Vec<Edge<L>>>) -> Dfa<L>
        requires { IsDeterministic (deterministic L.letters (L.letters over) start
            finals.items edges.items) }
        ensures { result ≡ deterministic L.letters (L.letters over) start finals.items edges.items }
    {
        Dfa {
            over,
            start,
            finals,
            edges,
        }
    }

    /// The automaton over these letters, with this start, and for each state whether it is final
    /// and which edges leave it. The edges are moved. Time and space: linear in the states.
    pub fn from_parts(
        alloc: Global,
        over: &L,
        start: usize,
        finals: &[bool],
        edges: Vec<Vec<Edge<L>>>,
    ) -> Result<Dfa<L>, AllocError>
        requires { IsDeterministic (deterministic L.letters (L.letters over.now) start
            finals.now edges.items) }
        ensures over { IfOk result (λ dfa. dfa.over ≡ L.letters over.now) }
        ensures start { IfOk result (λ dfa. dfa.start ≡ start) }
        ensures finals { IfOk result (λ dfa. dfa.finals ≡ finals.now) }
        ensures edges { IfOk result (λ dfa. dfa.edges ≡ moves_in L.letters edges.items) }
    {
        let over = over.copy(alloc)?;
        let finals = Vec::from_slice(alloc, finals)?;
        Ok(Dfa::new(over, start, finals, edges))
    }

    /// The number of letters, of which those of `over` are read.
    pub fn letters(&self) -> u32
        ensures letters { result ≡ length self.now.over }
        ensures fits { L.fits (length self.now.over) }
    {
        self.over.size()
    }

    /// The letters that are read.
    pub fn over(&self) -> &L
        ensures { L.letters result.now ≡ self.now.over }
    {
        &self.over
    }

    /// The number of states.
    pub fn states(&self) -> usize
        ensures states { result ≡ states self.now }
        ensures deterministic { IsDeterministic self.now }
    {
        self.finals.len()
    }

    /// The state from which words are read.
    pub fn start(&self) -> usize
        ensures start { result ≡ self.now.start }
        ensures state { result < states self.now }
    {
        self.start
    }

    /// Whether the state is final: a word that leads to it is accepted.
    pub fn is_final(&self, q: usize) -> bool
        requires { q < states self.now }
        ensures { IsTrue result ↔ IsFinal self.now q }
    {
        self.finals[q]
    }

    /// The edges that leave the state.
    pub fn edges(&self, q: usize) -> &[Edge<L>]
        requires { q < states self.now }
        ensures { map (move_of L.letters) result.now ≡ moves_of self.now q }
    {
        self.edges[q].as_slice()
    }

    /// The same automaton, as one that need not be deterministic. Its edges are moved. Time and
    /// space: linear in the states and the edges.
    pub fn into_nfa(self, alloc: Global) -> Result<Nfa<L>, AllocError>
        ensures automaton { IfOk result (λ nfa. nfa ≡ automaton_of self) }
        ensures reach { IfOk result (λ nfa. (q : ℕ) (word : List ℕ) → Reach nfa q word ↔
            LeadsTo self q word) }
        ensures language { IfOk result (λ nfa. (word : List ℕ) → Accepts nfa word ↔
            IsAccepted self word) }
    {
        let letters = self.over.size();
        let Dfa {
            over: _,
            start,
            finals,
            edges,
        } = self;
        let nfa = Nfa::from_parts(alloc, letters, start, &finals, edges)?;
        Ok(nfa)
    }
}
