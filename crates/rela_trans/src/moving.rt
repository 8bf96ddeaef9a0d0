//! Transducers that become parts of larger ones.
ghost use Rattle.std.specs.Prelude.{◌≡◌, ℕ, ◌+◌, ◌<◌, ◌≤◌, ◌↔◌, ◌⊎◌, ◌^◌, ◌++◌, List, [], IfOk, OnOk, map, if◌then◌else◌};
ghost use Rattle.std.specs.List.{All};
ghost use Rattle.std.specs.Option.{option_to_list};
ghost use Rattle.rela_trans.specs.Machine.{machine_states};
ghost use Rattle.rela_trans.specs.Construction.{shifted, silent, copied};
ghost use Rattle.rela_trans.specs.Relations.{PairJoins, PairRepeats};
ghost use Rattle.rela_trans.specs.Runs.{ReachR, Relates};
ghost use Rattle.rela_trans.specs.Stored.{move_of, moves_in};

use crate::moves::{Move, MoveKind};
use crate::transducer::Transducer;
use rela_labels::LabelSet;
use std::alloc::{AllocError, Global};
use std::mem::replace;

/// A silent move to each of these states.
fn silent_moves<L: LabelSet>(alloc: Global, ends: &[usize]) -> Result<Vec<Move<L>>, AllocError>
    ensures { IfOk result (λ moves. map (move_of L.letters) moves.items ≡ map silent ends.now) }
{
    let mut moves = Vec::with_capacity(alloc, ends.len())?;
    for to in ends {
        moves.push(Move {
            kind: MoveKind::Silent,
            to: *to,
        })?;
    }
    Ok(moves)
}

/// Lets each of the moves lead to a state `by` later.
fn shift<L: LabelSet>(moves: &mut [Move<L>], by: usize)
    requires { All (λ edge. by + edge.to < 2 ^ 64) moves.old }
    ensures { map (move_of L.letters) moves.new
        ≡ map (shifted by) (map (move_of L.letters) moves.old) }
{
    for edge in moves.iter_mut() {
        edge.to = by + edge.to;
    }
}

/// The moves, each of which leads to a state `by` later, and a silent one to the exit if the state
/// that they leave is final.
fn shifted_leaving<L: LabelSet>(
    moves: Vec<Move<L>>,
    by: usize,
    is_final: bool,
    exit: Option<usize>,
) -> Result<Vec<Move<L>>, AllocError>
    requires { All (λ edge. by + edge.to < 2 ^ 64) moves.items }
    ensures { IfOk result (λ new. map (move_of L.letters) new.items
        ≡ map (shifted by) (map (move_of L.letters) moves.items)
        ++ (if is_final then map silent (option_to_list exit) else [])) }
{
    let mut new = moves;
    shift(&mut new, by);
    if is_final {
        if let Some(to) = exit {
            new.reserve_exact(1)?;
            new.push(Move {
                kind: MoveKind::Silent,
                to,
            })?;
        }
    }
    Ok(new)
}

impl<L: LabelSet> Transducer<L> {
    /// Adds the moves of each state, their ends `by` later, and for each that is final a silent move
    /// to the exit. The moves are moved. Time: linear in the states and the moves.
    pub(crate) fn move_onto(
        self,
        alloc: Global,
        moves: &mut Vec<Vec<Move<L>>>,
        by: usize,
        exit: Option<usize>,
    ) -> Result<(), AllocError>
        requires { by + machine_states self ≤ 2 ^ 64 }
        ensures { OnOk result (moves_in L.letters moves.new.items
            ≡ moves_in L.letters moves.old.items ++ copied self by exit) }
    {
        let Transducer {
            letters: _,
            start: _,
            finals,
            moves: mut lists,
        } = self;
        for q in 0..finals.len() {
            let list = replace(&mut lists[q], Vec::new(alloc));
            moves.push(shifted_leaving(list, by, finals[q], exit)?)?;
        }
        Ok(())
    }

    /// The pairs of one relation or the other. State 0 is a start of its own; the states of `self`
    /// come after it, and then those of `other`. Both are let go, and no move is copied. Time:
    /// linear in the states and the moves of both; space: linear in the states.
    pub fn into_union(
        self,
        alloc: Global,
        other: Transducer<L>,
    ) -> Result<Transducer<L>, AllocError>
        requires letters { self.letters ≡ other.letters }
        ensures letters { IfOk result (λ t. t.letters ≡ self.letters) }
        ensures states { IfOk result (λ t. machine_states t ≡ 1 + machine_states self
            + machine_states other) }
        ensures start { IfOk result (λ t. (read : ℕ → ℕ) (u v : List ℕ) → ReachR read t 0 u v ↔
            ((u ≡ []) × (v ≡ []))) }
        ensures first { IfOk result (λ t. (read : ℕ → ℕ) (q : ℕ) (u v : List ℕ) →
            q < machine_states self
            → ReachR read t (1 + q) u v ↔ ReachR read self q u v) }
        ensures second { IfOk result (λ t. (read : ℕ → ℕ) (q : ℕ) (u v : List ℕ)
            → ReachR read t (1 + machine_states self + q) u v ↔ ReachR read other q u v) }
        ensures relation { IfOk result (λ t. (read : ℕ → ℕ) (u v : List ℕ)
            → Relates read t u v ↔ (Relates read self u v ⊎ Relates read other u v)) }
    {
        let letters = self.letters();
        let count = self.states();
        let mut finals = Vec::new(alloc);
        finals.push(false)?;
        finals.extend_from_slice(&self.finals)?;
        finals.extend_from_slice(&other.finals)?;
        let mut moves = Vec::with_capacity(alloc, finals.len())?;
        moves.push(silent_moves(alloc, &[1 + self.start(), 1 + count + other.start()])?)?;
        self.move_onto(alloc, &mut moves, 1, None)?;
        other.move_onto(alloc, &mut moves, 1 + count, None)?;
        Ok(Transducer {
            letters,
            start: 0,
            finals,
            moves,
        })
    }

    /// A pair of `self` followed by one of `other`. The states of `self` come first, and then those
    /// of `other`. Both are let go, and no move is copied. Time: linear in the states and the moves
    /// of both; space: linear in the states.
    pub fn into_concat(
        self,
        alloc: Global,
        other: Transducer<L>,
    ) -> Result<Transducer<L>, AllocError>
        requires letters { self.letters ≡ other.letters }
        ensures letters { IfOk result (λ t. t.letters ≡ self.letters) }
        ensures states { IfOk result (λ t. machine_states t ≡ machine_states self
            + machine_states other) }
        ensures first { IfOk result (λ t. (read : ℕ → ℕ) (q : ℕ) (u v : List ℕ) →
            q < machine_states self
            → ReachR read t q u v ↔ ReachR read self q u v) }
        ensures second { IfOk result (λ t. (read : ℕ → ℕ) (q : ℕ) (u v : List ℕ)
            → ReachR read t (machine_states self + q) u v ↔
            PairJoins (Relates read self) (ReachR read other q) u v) }
        ensures relation { IfOk result (λ t. (read : ℕ → ℕ) (u v : List ℕ)
            → Relates read t u v ↔ PairJoins (Relates read self) (Relates read other) u v) }
    {
        let letters = self.letters();
        let start = self.start();
        let count = self.states();
        let mut finals = vec![in alloc; false; count]?;
        finals.extend_from_slice(&other.finals)?;
        let mut moves = Vec::with_capacity(alloc, finals.len())?;
        let entry = count + other.start();
        self.move_onto(alloc, &mut moves, 0, Some(entry))?;
        other.move_onto(alloc, &mut moves, count, None)?;
        Ok(Transducer {
            letters,
            start,
            finals,
            moves,
        })
    }

    /// Any number of pairs of `self`, one after the other. State 0 is a start of its own, to which
    /// no move leads; the states of `self` come after it. `self` is let go, and no move is copied.
    /// Time: linear in the states and the moves; space: linear in the states.
    pub fn into_star(self, alloc: Global) -> Result<Transducer<L>, AllocError>
        ensures letters { IfOk result (λ t. t.letters ≡ self.letters) }
        ensures states { IfOk result (λ t. machine_states t ≡ 1 + machine_states self) }
        ensures start { IfOk result (λ t. (read : ℕ → ℕ) (u v : List ℕ) → ReachR read t 0 u v ↔
            ((u ≡ []) × (v ≡ []))) }
        ensures copies { IfOk result (λ t. (read : ℕ → ℕ) (q : ℕ) (u v : List ℕ)
            → ReachR read t (1 + q) u v ↔
            PairJoins (PairRepeats (Relates read self)) (ReachR read self q) u v) }
        ensures relation { IfOk result (λ t. (read : ℕ → ℕ) (u v : List ℕ)
            → Relates read t u v ↔ PairRepeats (Relates read self) u v) }
    {
        let letters = self.letters();
        let mut finals = Vec::new(alloc);
        finals.push(true)?;
        finals.extend_from_slice(&self.finals)?;
        let entry = 1 + self.start();
        let mut moves = Vec::with_capacity(alloc, finals.len())?;
        moves.push(silent_moves(alloc, &[entry])?)?;
        self.move_onto(alloc, &mut moves, 1, Some(entry))?;
        Ok(Transducer {
            letters,
            start: 0,
            finals,
            moves,
        })
    }
}
