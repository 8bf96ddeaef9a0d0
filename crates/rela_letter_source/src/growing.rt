//! An automaton of sources as it grows: configurations are found while the edges that lead to them
//! are made.
ghost use Rattle.std.specs.Prelude.{◌≡◌, ◌<◌, ◌≤◌, ◌^◌, [], ◌∷◌, None, Some, IfOk, OnOk, length, slice_get};
ghost use Rattle.std.specs.List.{All};
ghost use Rattle.rela_letter_nfa.specs.Counted.{edge_to};
ghost use Rattle.rela_letter_nfa.specs.LetterAutomaton.{IsLetterAutomaton, from_parts, no_parts, with_edge, with_silent, with_state};
ghost use Rattle.rela_letter_source.specs.Growth.{Fits, Grows, IsFoundIn, with_parts};
ghost use Rattle.rela_letter_source.specs.Steps.{step_to};

use crate::configuration::Configuration;
use crate::found::Found;
use rela_letter_nfa::{CountedBuilder, LetterNfa};
use rela_pairs::{BuildError, Shape};
use std::alloc::{AllocError, Global};
use std::marker::Model;

/// For how many states there is room at first, at most.
const MOST_ROOM: usize = 4096;

/// An automaton of sources as it grows. Its states are configurations, in the order in which they
/// were found; each is built once it is reached in this order, and what it leads to is found then.
/// Contracts see the configurations, and the states that were built.
#[derive(Drop)]
pub(crate) struct Growing {
    /// How many states the automaton and the transducer have.
    shape: Shape,
    /// The configurations that were found. The number of one is that of its state.
    found: Found,
    /// The states that were built.
    built: CountedBuilder,
    /// How many states there may be.
    most: usize,
}

impl Model for Growing {
    ghost use Rattle.std.specs.List.{All};
    ghost use Rattle.rela_letter_source.specs.Growth.{Fits, Growth};

    ghost Value = { Growth };

    ghost view = { λ g. record { shape = g.shape; found = g.found; parts = g.built.parts } };

    ghost invariant = { λ g. All (Fits g.shape) g.found };
}

impl Growing {
    /// No configuration and no state, where there may be at most `most` states and as many edges.
    /// There is room for as many states as the automaton has, but at most for `MOST_ROOM`.
    pub(crate) fn new(alloc: Global, shape: Shape, most: usize) -> Result<Growing, AllocError>
        ensures shape { IfOk result (λ growing. growing.shape ≡ shape) }
        ensures found { IfOk result (λ growing. growing.found ≡ []) }
        ensures parts { IfOk result (λ growing. growing.parts ≡ no_parts) }
    {
        let room = shape.lefts.min(most).min(MOST_ROOM);
        let found = Found::with_capacity(alloc, room)?;
        let built = CountedBuilder::with_capacity(alloc, most, room, room, room)?;
        Ok(Growing {
            shape,
            found,
            built,
            most,
        })
    }

    /// The configurations that were found, by their numbers.
    pub(crate) fn found(&self) -> &[Configuration]
        ensures found { result.now ≡ self.now.found }
        ensures fit { All (Fits self.now.shape) self.now.found }
        ensures few { length self.now.found ≤ 2 ^ 31 }
    {
        self.found.all()
    }

    /// How many states were built.
    pub(crate) fn states(&self) -> usize
        ensures { result ≡ length self.now.parts.finals }
    {
        self.built.states()
    }

    /// The number of the configuration, which is found now if it wasn't before.
    ///
    /// # Errors
    ///
    /// - `Limit` where there would be more states than there may be.
    /// - `Memory` where there isn't memory for it.
    pub(crate) fn number(&mut self, x: Configuration) -> Result<u32, BuildError>
        requires { Fits self.old.shape x }
        ensures numbered { IfOk result (λ number. slice_get self.new.found number ≡ Some x) }
        ensures found { IsFoundIn self.old.found self.new.found x }
        ensures shape { self.new.shape ≡ self.old.shape }
        ensures parts { self.new.parts ≡ self.old.parts }
    {
        self.found.number(x, self.most)
    }

    /// The next state has an edge by the letter to the state of this number.
    ///
    /// # Errors
    ///
    /// - `Limit` where there would be more edges than there may be.
    /// - `Memory` where there isn't memory for it.
    fn add_edge_to(&mut self, letter: u32, number: u32) -> Result<(), BuildError>
        ensures { OnOk result (self.new
            ≡ with_parts self.old (with_edge self.old.parts (edge_to letter number))) }
    {
        self.built.push_edge(letter, number)
    }

    /// The next state has an edge by the letter to the configuration. It fails as
    /// [`number`](Growing::number) and [`add_edge_to`](Growing::add_edge_to) do.
    pub(crate) fn add_edge(&mut self, letter: u32, to: Configuration) -> Result<(), BuildError>
        requires { Fits self.old.shape to }
        ensures { OnOk result (Grows (step_to (Some letter) to ∷ []) self.old self.new) }
    {
        let number = self.number(to)?;
        self.add_edge_to(letter, number)
    }

    /// The next state goes silently to the state of this number. It fails as
    /// [`add_edge_to`](Growing::add_edge_to) does.
    fn add_silent_to(&mut self, number: u32) -> Result<(), BuildError>
        ensures { OnOk result (self.new
            ≡ with_parts self.old (with_silent self.old.parts number)) }
    {
        self.built.push_silent(number)
    }

    /// The next state goes silently to the configuration. It fails as
    /// [`number`](Growing::number) and [`add_edge_to`](Growing::add_edge_to) do.
    pub(crate) fn add_silent(&mut self, to: Configuration) -> Result<(), BuildError>
        requires { Fits self.old.shape to }
        ensures { OnOk result (Grows (step_to None to ∷ []) self.old self.new) }
    {
        let number = self.number(to)?;
        self.add_silent_to(number)
    }

    /// Ends the next state, and says whether it is final.
    pub(crate) fn end_state(&mut self, is_final: bool) -> Result<(), AllocError>
        ensures { OnOk result (self.new
            ≡ with_parts self.old (with_state self.old.parts is_final)) }
    {
        self.built.end_state(is_final)
    }

    /// The automaton of the states that were built, from the first one.
    pub(crate) fn finish(self) -> LetterNfa
        requires few { length self.parts.finals ≤ 2 ^ 31 }
        requires automaton { IsLetterAutomaton (from_parts self.parts 0) }
        ensures { result ≡ from_parts self.parts 0 }
    {
        self.built.finish(0)
    }
}
