//! A transducer laid out for reading letter by letter.
ghost use Rattle.std.specs.Prelude.{◌≡◌, ℕ, ◌<◌, ◌↔◌, List, IsTrue, IfOk};
ghost use Rattle.rela_trans.specs.Machine.{IsFinal, IsMachine, machine_states, moves_of};
ghost use Rattle.rela_trans.specs.Runs.{Relates};
ghost use Rattle.rela_letter_image.specs.LetterMoves.{AreLettersOf, LeadBelow, all_moves, laid};
ghost use Rattle.rela_letter_image.specs.Needs.{AreNeeds};

use crate::branches::branch_ends;
use crate::laying_out::{finals_of, states_of};
use crate::letter_moves::StateMoves;
use crate::move_lists::MoveLists;
use crate::needs::needs_of;
use rela_labels::LabelSet;
use rela_trans::Transducer;
use std::alloc::{AllocError, Global};
use std::marker::Model;

/// A transducer for reading letter by letter: the moves of a state that read one letter, and no
/// other, stand apart with that letter, and so do those that read nothing. Silent branches are
/// passed over: moves lead at once to where these lead. It is made once, and then used for many
/// images. Contracts see it as a `Machine`.
#[derive(Drop)]
pub struct LetterRelation {
    /// The number of letters.
    letters: u32,
    /// The state from which runs begin.
    start: usize,
    /// For each state whether it is final.
    finals: Vec<bool>,
    /// The moves that leave each state.
    states: MoveLists,
    /// For each state a word of letters that it needs, as by `needs_of`.
    needs: Vec<u64>,
}

impl Model for LetterRelation {
    ghost use Rattle.std.specs.Prelude.{map};
    ghost use Rattle.std.specs.List.{All};
    ghost use Rattle.rela_trans.specs.Machine.{Machine, IsMachine};
    ghost use Rattle.rela_letter_image.specs.LetterMoves.{AreLettersOf, all_moves};
    ghost use Rattle.rela_letter_image.specs.Needs.{AreNeeds};

    ghost Value = { Machine };

    ghost view = { λ relation. record {
      letters = relation.letters;
      start = relation.start;
      finals = relation.finals.items;
      moves = map (all_moves relation.letters) relation.states.0;
    } };

    ghost invariant = { λ relation. IsMachine (record {
      letters = relation.letters;
      start = relation.start;
      finals = relation.finals.items;
      moves = map (all_moves relation.letters) relation.states.0;
    }) × All (AreLettersOf relation.letters) relation.states.0 × AreNeeds (record {
      letters = relation.letters;
      start = relation.start;
      finals = relation.finals.items;
      moves = map (all_moves relation.letters) relation.states.0;
    }) relation.needs.items };
}

impl LetterRelation {
    /// The relation of the transducer. A state is a silent branch if it isn't final and each of its
    /// moves is silent; a move to one gives way to moves to the states to which it leads, where
    /// these are few. So each move is copied a bounded number of times. Time and space: linear in
    /// the states and moves; besides, a move whose set has several letters costs a step for each
    /// letter, and a bit for each.
    pub fn new<M: LabelSet>(
        alloc: Global,
        relation: &Transducer<M>,
    ) -> Result<LetterRelation, AllocError>
        ensures letters { IfOk result (λ made. made.letters ≡ relation.now.letters) }
        ensures relation { IfOk result (λ made. (read : ℕ → ℕ) (u v : List ℕ) →
            Relates read made u v ↔ Relates read relation.now u v) }
    {
        let letters = relation.letters();
        let start = relation.start();
        let finals = finals_of(alloc, relation)?;
        let kept = branch_ends(alloc, relation)?;
        let states = states_of(alloc, relation, &kept)?;
        let needs = needs_of(alloc, &states, &finals)?;
        Ok(LetterRelation {
            letters,
            start,
            finals,
            states,
            needs,
        })
    }

    /// The number of letters.
    pub fn letters(&self) -> u32
        ensures letters { result ≡ self.now.letters }
        ensures machine { IsMachine self.now }
    {
        self.letters
    }

    /// The number of states.
    pub fn states(&self) -> usize
        ensures states { result ≡ machine_states self.now }
        ensures machine { IsMachine self.now }
    {
        self.finals.len()
    }

    /// The state from which runs begin.
    pub fn start(&self) -> usize
        ensures start { result ≡ self.now.start }
        ensures machine { IsMachine self.now }
    {
        self.start
    }

    /// Whether the state is final.
    pub fn is_final(&self, q: usize) -> bool
        requires { q < machine_states self.now }
        ensures { IsTrue result ↔ IsFinal self.now q }
    {
        self.finals[q]
    }

    /// The moves that leave the state.
    pub fn moves(&self, q: usize) -> StateMoves<'_>
        requires { q < machine_states self.now }
        ensures moves { all_moves self.now.letters (laid result) ≡ moves_of self.now q }
        ensures below { AreLettersOf self.now.letters (laid result) }
        ensures lead { LeadBelow (machine_states self.now) (laid result) }
        ensures machine { IsMachine self.now }
    {
        self.states.get(q)
    }

    /// For each state a word of letters that it needs.
    pub(crate) fn needs(&self) -> &[u64]
        ensures needs { AreNeeds self.now result.now }
        ensures machine { IsMachine self.now }
    {
        &self.needs
    }
}
