//! The inverse of a transducer.
ghost use Rattle.std.specs.Prelude.{◌≡◌, ℕ, ◌↔◌, List, IfOk, map};
ghost use Rattle.rela_trans.specs.Construction.{turned_move};
ghost use Rattle.rela_trans.specs.Machine.{machine_states};
ghost use Rattle.rela_trans.specs.Runs.{ReachR, Relates};
ghost use Rattle.rela_trans.specs.Stored.{move_of, moves_in};

use crate::moves::Move;
use crate::transducer::Transducer;
use rela_labels::LabelSet;
use std::alloc::{AllocError, Global};

/// Copies of the moves, with what they read and what they write exchanged.
fn turned_moves<L: LabelSet>(alloc: Global, moves: &[Move<L>]) -> Result<Vec<Move<L>>, AllocError>
    ensures { IfOk result (λ new. map (move_of L.letters) new.items
        ≡ map turned_move (map (move_of L.letters) moves.now)) }
{
    let mut new = Vec::with_capacity(alloc, moves.len())?;
    for edge in moves {
        new.push(edge.turned(alloc)?)?;
    }
    Ok(new)
}

/// Copies of the moves of each state, with what they read and what they write exchanged.
fn turned_lists<L: LabelSet>(
    alloc: Global,
    lists: &[Vec<Move<L>>],
) -> Result<Vec<Vec<Move<L>>>, AllocError>
    ensures { IfOk result (λ new. moves_in L.letters new.items
        ≡ map (map turned_move) (moves_in L.letters lists.now)) }
{
    let mut new = Vec::with_capacity(alloc, lists.len())?;
    for moves in lists {
        new.push(turned_moves(alloc, moves)?)?;
    }
    Ok(new)
}

impl<L: LabelSet> Transducer<L> {
    /// The pairs of `self` turned round. The states are the same. Time and space: linear in the
    /// states and the moves, whose sets are copied.
    pub fn inverse(&self, alloc: Global) -> Result<Transducer<L>, AllocError>
        ensures letters { IfOk result (λ t. t.letters ≡ self.now.letters) }
        ensures states { IfOk result (λ t. machine_states t ≡ machine_states self.now) }
        ensures reached { IfOk result (λ t. (read : ℕ → ℕ) (q : ℕ) (u v : List ℕ) →
            ReachR read t q u v ↔ ReachR read self.now q v u) }
        ensures relation { IfOk result (λ t. (read : ℕ → ℕ) (u v : List ℕ) → Relates read t u v ↔
            Relates read self.now v u) }
    {
        let finals = Vec::from_slice(alloc, &self.finals)?;
        let moves = turned_lists(alloc, &self.moves)?;
        Ok(Transducer {
            letters: self.letters,
            start: self.start,
            finals,
            moves,
        })
    }
}
