//! What a transducer is, and what it tells of itself.
ghost use Rattle.std.specs.Prelude.{◌≡◌, ◌<◌, ◌↔◌, IsTrue, map};
ghost use Rattle.std.specs.List.{All};
ghost use Rattle.rela_trans.specs.Machine.{IsMachine, IsFinal, IsSized, machine_states, moves_of};
ghost use Rattle.rela_trans.specs.Stored.{kind_of, move_of};

use crate::moves::Move;
use rela_labels::LabelSet;
use std::marker::Model;

/// A finite transducer with silent moves: it reads one word while it writes another. The letters of
/// both are numbered from 0; its states are numbered from 0 too. Contracts see it as a `Machine`,
/// in which each set of letters is the list of the letters, whether each is in it.
#[derive(Drop)]
pub struct Transducer<L: LabelSet> {
    /// The number of letters.
    pub(crate) letters: u32,
    /// The state from which runs begin.
    pub(crate) start: usize,
    /// For each state whether it is final.
    pub(crate) finals: Vec<bool>,
    /// The moves that leave each state.
    pub(crate) moves: Vec<Vec<Move<L>>>,
}

impl<L: LabelSet> Model for Transducer<L> {
    ghost use Rattle.rela_trans.specs.Machine.{Machine, IsMachine};

    ghost Value = { Machine };

    ghost use Rattle.rela_trans.specs.Stored.{moves_in};

    ghost view = { λ transducer. record {
      letters = transducer.letters;
      start = transducer.start;
      finals = transducer.finals.items;
      moves = moves_in L.letters transducer.moves.items;
    } };

    ghost invariant = { λ transducer. L.fits transducer.letters × IsMachine (record {
      letters = transducer.letters;
      start = transducer.start;
      finals = transducer.finals.items;
      moves = moves_in L.letters transducer.moves.items;
    }) };
}

impl<L: LabelSet> Transducer<L> {
    /// The number of letters.
    pub fn letters(&self) -> u32
        ensures letters { result ≡ self.now.letters }
        ensures fits { L.fits self.now.letters }
        ensures machine { IsMachine self.now }
    {
        self.letters
    }

    /// The number of states.
    pub fn states(&self) -> usize
        ensures states { result ≡ machine_states self.now }
        ensures machine { IsMachine self.now }
    {
        self.finals.len()
    }

    /// The state from which runs begin.
    pub fn start(&self) -> usize
        ensures start { result ≡ self.now.start }
        ensures state { result < machine_states self.now }
        ensures machine { IsMachine self.now }
    {
        self.start
    }

    /// Whether the state is final: a pair of words that leads to it is related.
    pub fn is_final(&self, q: usize) -> bool
        requires { q < machine_states self.now }
        ensures { IsTrue result ↔ IsFinal self.now q }
    {
        self.finals[q]
    }

    /// The moves that leave the state.
    pub fn moves(&self, q: usize) -> &[Move<L>]
        requires { q < machine_states self.now }
        ensures moves { map (move_of L.letters) result.now ≡ moves_of self.now q }
        ensures machine { IsMachine self.now }
        ensures lead { All (λ edge. edge.to < machine_states self.now) result.now }
        ensures sized { All (λ edge. IsSized self.now.letters (kind_of L.letters edge.kind))
            result.now }
    {
        self.moves[q].as_slice()
    }
}
