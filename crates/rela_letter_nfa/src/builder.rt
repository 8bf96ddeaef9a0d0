//! How an automaton is built, state after state.
ghost use Rattle.std.specs.Prelude.{◌≡◌, ◌≤◌, ◌^◌, IfOk, OnOk, length};
ghost use Rattle.rela_letter_nfa.specs.LetterAutomaton.{IsLetterAutomaton, from_parts, no_parts, with_edge, with_silent, with_state};

use crate::edge::LetterEdge;
use crate::lists::Lists;
use crate::nfa::LetterNfa;
use std::alloc::{AllocError, Global};
use std::marker::Model;

/// An automaton that is built state after state, which are numbered from 0: first the silent
/// targets and the edges of a state are pushed, in any order, and then the state is ended. Targets
/// may be states that are still to come. Contracts see the states that have been ended, and what
/// the next one has so far.
#[derive(Drop)]
pub struct LetterNfaBuilder {
    /// For each state that has been ended whether it is final.
    finals: Vec<bool>,
    /// The states to which each state goes silently.
    silents: Lists<u32>,
    /// The edges of each state.
    edges: Lists<LetterEdge>,
}

impl Model for LetterNfaBuilder {
    ghost use Rattle.rela_letter_nfa.specs.LetterAutomaton.{LetterParts};

    ghost Value = { LetterParts };

    ghost view = { λ builder. record {
      finals = builder.finals.items;
      silents = builder.silents.0;
      edges = builder.edges.0;
      next_silents = builder.silents.1;
      next_edges = builder.edges.1;
    } };
}

impl LetterNfaBuilder {
    /// No state, with room for so many states, silent steps and edges. More can be pushed: then the
    /// room grows.
    pub fn with_capacity(
        alloc: Global,
        states: usize,
        silents: usize,
        edges: usize,
    ) -> Result<LetterNfaBuilder, AllocError>
        ensures { IfOk result (λ builder. builder ≡ no_parts) }
    {
        let finals = Vec::with_capacity(alloc, states)?;
        let silents = Lists::with_capacity(alloc, states, silents)?;
        let edges = Lists::with_capacity(alloc, states, edges)?;
        Ok(LetterNfaBuilder {
            finals,
            silents,
            edges,
        })
    }

    /// How many states have been ended.
    pub fn states(&self) -> usize
        ensures { result ≡ length self.now.finals }
    {
        self.finals.len()
    }

    /// The next state goes silently to this state too.
    pub fn push_silent(&mut self, to: u32) -> Result<(), AllocError>
        ensures { OnOk result (self.new ≡ with_silent self.old to) }
    {
        self.silents.push(to)
    }

    /// The next state has this edge too.
    pub fn push_edge(&mut self, edge: LetterEdge) -> Result<(), AllocError>
        ensures { OnOk result (self.new ≡ with_edge self.old edge) }
    {
        self.edges.push(edge)
    }

    /// Ends the next state, and says whether it is final. Another one begins behind it.
    pub fn end_state(&mut self, is_final: bool) -> Result<(), AllocError>
        ensures { OnOk result (self.new ≡ with_state self.old is_final) }
    {
        self.silents.close()?;
        self.edges.close()?;
        self.finals.push(is_final)?;
        Ok(())
    }

    /// The automaton of the states that have been ended, from this start. What the next one has is
    /// left out. Nothing is copied.
    pub fn finish(self, start: u32) -> LetterNfa
        requires automaton { IsLetterAutomaton (from_parts self start) }
        requires few { length self.finals ≤ 2 ^ 31 }
        ensures { result ≡ from_parts self start }
    {
        let LetterNfaBuilder {
            finals,
            silents,
            edges,
        } = self;
        LetterNfa {
            start,
            finals,
            silents,
            edges,
        }
    }
}
