//! Transducers without silent detours.
ghost use Rattle.std.specs.Prelude.{◌≡◌, ℕ, ◌<◌, ◌↔◌, List, IfOk, length, map};
ghost use Rattle.std.specs.List.{All, Contains};
ghost use Rattle.rela_trans.specs.Coaccessible.{next_states};
ghost use Rattle.rela_trans.specs.Detours.{IsEnd, redirected};
ghost use Rattle.rela_trans.specs.Machine.{machine_states};
ghost use Rattle.rela_trans.specs.Runs.{ReachR, Relates};
ghost use Rattle.rela_trans.specs.Stored.{move_of, moves_in};

use crate::detours::detour_ends;
use crate::moves::Move;
use crate::transducer::Transducer;
use rela_labels::LabelSet;
use std::alloc::{AllocError, Global};

/// Lets each move lead on at once to the end of the detours that it led to.
fn redirect<L: LabelSet>(moves: &mut [Move<L>], ends: &[usize])
    requires { All (λ edge. edge.to < length ends.now) moves.old }
    ensures { map (move_of L.letters) moves.new
        ≡ map (redirected ends.now) (map (move_of L.letters) moves.old) }
{
    for edge in moves.iter_mut() {
        edge.to = ends[edge.to];
    }
}

/// Lets each move of each state lead on at once to the end of the detours that it led to.
fn redirect_each<L: LabelSet>(lists: &mut [Vec<Move<L>>], ends: &[usize])
    requires { All (All (λ move. move.to < length ends.now)) (moves_in L.letters lists.old) }
    ensures { moves_in L.letters lists.new
        ≡ map (map (redirected ends.now)) (moves_in L.letters lists.old) }
{
    for moves in lists.iter_mut() {
        redirect(moves, ends);
    }
}

impl<L: LabelSet> Transducer<L> {
    /// The same pairs, without silent detours. A state is a detour if it is not final and its only
    /// move is silent. Each move, and the start, leads to the end of the chain of detours that it
    /// led to; where silent moves lead in a circle, to some state of it. The states keep their
    /// numbers. It is the removal of silent moves (M. Mohri, *Generic epsilon-removal and input
    /// epsilon-normalization algorithms for weighted transducers*, 2002) where it adds no move.
    /// Time: linear in the states and the moves, however long the chains; space: linear in the
    /// states, and no move is copied.
    pub fn shortened(self, alloc: Global) -> Result<Transducer<L>, AllocError>
        ensures letters { IfOk result (λ t. t.letters ≡ self.letters) }
        ensures states { IfOk result (λ t. machine_states t ≡ machine_states self) }
        ensures begins { IfOk result (λ t. IsEnd self t.start) }
        ensures direct { IfOk result (λ t. (p q : ℕ) →
            Contains (next_states t p) q → IsEnd self q) }
        ensures reached { IfOk result (λ t. (read : ℕ → ℕ) (q : ℕ) (u v : List ℕ) →
            ReachR read t q u v → ReachR read self q u v) }
        ensures relation { IfOk result (λ t. (read : ℕ → ℕ) (u v : List ℕ) → Relates read t u v ↔
            Relates read self u v) }
    {
        let ends = detour_ends(alloc, &self)?;
        let Transducer {
            letters,
            start,
            finals,
            mut moves,
        } = self;
        redirect_each(&mut moves, &ends);
        Ok(Transducer {
            letters,
            start: ends[start],
            finals,
            moves,
        })
    }
}
