//! A builder of an automaton that may have so many edges.
ghost use Rattle.std.specs.Prelude.{◌≡◌, ◌+◌, ◌<◌, ◌≤◌, ◌^◌, IfErr, IfOk, OnOk, length};
ghost use Rattle.rela_letter_nfa.specs.Counted.{edge_to};
ghost use Rattle.rela_letter_nfa.specs.LetterAutomaton.{IsLetterAutomaton, from_parts, no_parts, with_edge, with_silent, with_state};

use crate::builder::LetterNfaBuilder;
use crate::edge::LetterEdge;
use crate::nfa::LetterNfa;
use rela_pairs::BuildError;
use std::alloc::{AllocError, Global};
use std::marker::Model;

/// A builder of an automaton, state after state, that may have so many edges and silent steps.
/// Contracts see what was built, and how many edges and silent steps may still be added.
#[derive(Drop)]
pub struct CountedBuilder {
    /// The states that were built, and the one that is next.
    builder: LetterNfaBuilder,
    /// How many edges and silent steps may still be added.
    room: usize,
}

impl Model for CountedBuilder {
    ghost use Rattle.rela_letter_nfa.specs.Counted.{CountedParts};

    ghost Value = { CountedParts };

    ghost view = { λ counted. record { parts = counted.builder; room = counted.room } };
}

impl CountedBuilder {
    /// No state, and at most `most` edges and silent steps, with room for so many states, silent
    /// steps and edges.
    pub fn with_capacity(
        alloc: Global,
        most: usize,
        states: usize,
        silents: usize,
        edges: usize,
    ) -> Result<CountedBuilder, AllocError>
        ensures none { IfOk result (λ counted. counted.parts ≡ no_parts) }
        ensures room { IfOk result (λ counted. counted.room ≡ most) }
    {
        let builder = LetterNfaBuilder::with_capacity(alloc, states, silents, edges)?;
        Ok(CountedBuilder {
            builder,
            room: most,
        })
    }

    /// How many states were built.
    pub fn states(&self) -> usize
        ensures { result ≡ length self.now.parts.finals }
    {
        self.builder.states()
    }

    /// Counts one more edge or silent step. `Limit` exactly where there would be too many.
    fn count(&mut self) -> Result<(), BuildError>
        ensures parts { self.new.parts ≡ self.old.parts }
        ensures falls { OnOk result (self.new.room + 1 ≡ self.old.room) }
        ensures limit { IfErr result (λ e. (e ≡ BuildError.Limit) × (self.old.room ≡ 0)) }
    {
        if self.room == 0 {
            return Err(BuildError::Limit);
        }
        self.room -= 1;
        Ok(())
    }

    /// The next state goes silently to this state too.
    ///
    /// # Errors
    ///
    /// - `Limit` where there would be more edges and silent steps than there may be.
    /// - `Memory` where there isn't memory for it.
    #[inline(always)]
    pub fn push_silent(&mut self, to: u32) -> Result<(), BuildError>
        ensures pushed { OnOk result (self.new.parts ≡ with_silent self.old.parts to) }
        ensures falls { OnOk result (self.new.room + 1 ≡ self.old.room) }
        ensures limit { IfErr result (λ e. e ≡ BuildError.Limit → self.old.room ≡ 0) }
        ensures memory { IfErr result (λ e. e ≡ BuildError.Memory → 0 < self.old.room) }
    {
        self.count()?;
        self.builder.push_silent(to)?;
        Ok(())
    }

    /// The next state has an edge by the letter to this state too. It fails as
    /// [`push_silent`](CountedBuilder::push_silent) does.
    #[inline(always)]
    pub fn push_edge(&mut self, letter: u32, to: u32) -> Result<(), BuildError>
        ensures pushed { OnOk result (self.new.parts
            ≡ with_edge self.old.parts (edge_to letter to)) }
        ensures falls { OnOk result (self.new.room + 1 ≡ self.old.room) }
        ensures limit { IfErr result (λ e. e ≡ BuildError.Limit → self.old.room ≡ 0) }
        ensures memory { IfErr result (λ e. e ≡ BuildError.Memory → 0 < self.old.room) }
    {
        self.count()?;
        let edge = LetterEdge { letter, to };
        self.builder.push_edge(edge)?;
        Ok(())
    }

    /// Ends the next state, and says whether it is final.
    pub fn end_state(&mut self, is_final: bool) -> Result<(), AllocError>
        ensures ended { OnOk result (self.new.parts ≡ with_state self.old.parts is_final) }
        ensures room { self.new.room ≡ self.old.room }
    {
        self.builder.end_state(is_final)
    }

    /// The automaton of the states that were built, from this start. What the next one has is left
    /// out. Nothing is copied.
    pub fn finish(self, start: u32) -> LetterNfa
        requires automaton { IsLetterAutomaton (from_parts self.parts start) }
        requires few { length self.parts.finals ≤ 2 ^ 31 }
        ensures { result ≡ from_parts self.parts start }
    {
        self.builder.finish(start)
    }
}
