//! A product as it grows: pairs of states are found while the edges that lead to them are made.
ghost use Rattle.std.specs.Prelude.{◌≡◌, ◌<◌, ◌≤◌, ◌↔◌, ◌^◌, [], ◌∷◌, None, Some, IfOk, IsTrue, OnOk, length, slice_get};
ghost use Rattle.std.specs.List.{All};
ghost use Rattle.rela_letter_nfa.specs.Counted.{edge_to};
ghost use Rattle.rela_letter_nfa.specs.LetterAutomaton.{IsLetterAutomaton, from_parts, no_parts, with_edge, with_silent, with_state};
ghost use Rattle.rela_pairs.specs.Places.{Fits};
ghost use Rattle.rela_letter_image.specs.Growth.{Grows, IsFoundIn, with_parts};
ghost use Rattle.rela_letter_image.specs.Needs.{IsLive};
ghost use Rattle.rela_letter_image.specs.Steps.{step_to};

use crate::found::{Found, MOST_ROOM};
use crate::needs::{is_within, word_at};
use rela_letter_nfa::{CountedBuilder, LetterNfa};
use rela_pairs::{BuildError, Pair, Shape};
use std::alloc::{AllocError, Global};
use std::marker::Model;

/// The most states for which there is room at first for each state of the left machine.
const ROOM_FOR_EACH: usize = 8;

/// For how many states there is room at first, where there may be at most `most`: for all pairs of
/// states, but at most for `ROOM_FOR_EACH` for each state of the left machine, since a product is
/// seldom much larger than that, and at most for `MOST_ROOM`.
fn first_room(shape: Shape, most: usize) -> usize {
    let rights = shape.rights.min(ROOM_FOR_EACH);
    shape.lefts.saturating_mul(rights).min(most).min(MOST_ROOM)
}

/// A product of two machines as it grows. Its states are pairs of theirs, in the order in which
/// they were found; each is built once it is reached in this order, and what it leads to is found
/// then, but for pairs from which the right machine needs a letter that the left one no longer has.
/// Contracts see the pairs, the states that were built, and what is told of letters.
#[derive(Drop)]
pub(crate) struct Growing<'a> {
    /// How many states the two machines have.
    shape: Shape,
    /// For each state of the right machine letters that it needs.
    needs: &'a [u64],
    /// For each state of the left machine the letters that lie ahead.
    ahead: &'a [u64],
    /// The pairs that were found. The number of a pair is that of its state.
    found: Found,
    /// The states that were built.
    built: CountedBuilder,
    /// How many states there may be.
    most: usize,
}

impl<'a> Model for Growing<'a> {
    ghost use Rattle.std.specs.List.{All};
    ghost use Rattle.rela_pairs.specs.Places.{Fits};
    ghost use Rattle.rela_letter_image.specs.Growth.{Growth};

    ghost Value = { Growth };

    ghost view = { λ g. record {
      shape = g.shape;
      told = record { needs = g.needs.now; ahead = g.ahead.now };
      pairs = g.found;
      parts = g.built.parts;
    } };

    ghost invariant = { λ g. All (Fits g.shape) g.found };
}

impl<'a> Growing<'a> {
    /// No pair and no state, where there may be at most `most` states and as many edges, and these
    /// letters are needed and lie ahead. There is room for the first states, as by [`first_room`].
    pub(crate) fn new(
        alloc: Global,
        shape: Shape,
        needs: &'a [u64],
        ahead: &'a [u64],
        most: usize,
    ) -> Result<Growing<'a>, AllocError>
        ensures shape { IfOk result (λ growing. growing.shape ≡ shape) }
        ensures told { IfOk result (λ growing.
            growing.told ≡ record { needs = needs.now; ahead = ahead.now }) }
        ensures pairs { IfOk result (λ growing. growing.pairs ≡ []) }
        ensures parts { IfOk result (λ growing. growing.parts ≡ no_parts) }
    {
        let room = first_room(shape, most);
        let found = Found::with_capacity(alloc, shape, room)?;
        let built = CountedBuilder::with_capacity(alloc, most, room, room, room)?;
        Ok(Growing {
            shape,
            needs,
            ahead,
            found,
            built,
            most,
        })
    }

    /// The pairs that were found, by their numbers.
    pub(crate) fn pairs(&self) -> &[Pair]
        ensures pairs { result.now ≡ self.now.pairs }
        ensures fit { All (Fits self.now.shape) self.now.pairs }
        ensures few { length self.now.pairs ≤ 2 ^ 31 }
    {
        self.found.pairs()
    }

    /// How many states were built.
    pub(crate) fn states(&self) -> usize
        ensures { result ≡ length self.now.parts.finals }
    {
        self.built.states()
    }

    /// The number of the pair, which is found now if it wasn't before.
    ///
    /// # Errors
    ///
    /// - `Limit` where there would be more states than there may be.
    /// - `Memory` where there isn't memory for it.
    #[inline(always)]
    pub(crate) fn number(&mut self, pair: Pair) -> Result<u32, BuildError>
        requires { Fits self.old.shape pair }
        ensures numbered { IfOk result (λ number. slice_get self.new.pairs number ≡ Some pair) }
        ensures found { IsFoundIn self.old.pairs self.new.pairs pair }
        ensures shape { self.new.shape ≡ self.old.shape }
        ensures told { self.new.told ≡ self.old.told }
        ensures parts { self.new.parts ≡ self.old.parts }
    {
        self.found.number(pair, self.most)
    }

    /// Whether the letters lie ahead that are needed from the pair on.
    #[inline(always)]
    fn is_live(&self, pair: Pair) -> bool
        ensures { IsTrue result ↔ IsLive self.now.told pair }
    {
        is_within(
            word_at(self.needs, pair.right),
            word_at(self.ahead, pair.left),
        )
    }

    /// The next state has an edge by the letter to the state of this number.
    ///
    /// # Errors
    ///
    /// - `Limit` where there would be more edges than there may be.
    /// - `Memory` where there isn't memory for it.
    #[inline(always)]
    pub(crate) fn add_edge_to(&mut self, letter: u32, number: u32) -> Result<(), BuildError>
        ensures { OnOk result (self.new
            ≡ with_parts self.old (with_edge self.old.parts (edge_to letter number))) }
    {
        self.built.push_edge(letter, number)
    }

    /// The next state has an edge by the letter to the pair, if the letters that it needs lie ahead. It
    /// fails as [`number`](Growing::number) and [`add_edge_to`](Growing::add_edge_to) do.
    #[inline(always)]
    pub(crate) fn add_edge(&mut self, letter: u32, to: Pair) -> Result<(), BuildError>
        requires { Fits self.old.shape to }
        ensures { OnOk result (Grows (step_to (Some letter) to ∷ []) self.old self.new) }
    {
        if !self.is_live(to) {
            return Ok(());
        }
        let number = self.number(to)?;
        self.add_edge_to(letter, number)
    }

    /// The next state goes silently to the state of this number. It fails as
    /// [`add_edge_to`](Growing::add_edge_to) does.
    #[inline(always)]
    fn add_silent_to(&mut self, number: u32) -> Result<(), BuildError>
        ensures { OnOk result (self.new
            ≡ with_parts self.old (with_silent self.old.parts number)) }
    {
        self.built.push_silent(number)
    }

    /// The next state goes silently to the pair, if the letters that it needs lie ahead. It fails as
    /// [`number`](Growing::number) and [`add_edge_to`](Growing::add_edge_to) do.
    #[inline(always)]
    pub(crate) fn add_silent(&mut self, to: Pair) -> Result<(), BuildError>
        requires { Fits self.old.shape to }
        ensures { OnOk result (Grows (step_to None to ∷ []) self.old self.new) }
    {
        if !self.is_live(to) {
            return Ok(());
        }
        let number = self.number(to)?;
        self.add_silent_to(number)
    }

    /// Ends the next state, and says whether it is final.
    pub(crate) fn end_state(&mut self, is_final: bool) -> Result<(), AllocError>
        ensures { OnOk result (self.new
            ≡ with_parts self.old (with_state self.old.parts is_final)) }
    {
        self.built.end_state(is_final)
    }

    /// The automaton of the states that were built, from the first one.
    pub(crate) fn finish(self) -> LetterNfa
        requires few { length self.parts.finals ≤ 2 ^ 31 }
        requires automaton { IsLetterAutomaton (from_parts self.parts 0) }
        ensures { result ≡ from_parts self.entry.parts 0 }
    {
        self.built.finish(0)
    }
}
