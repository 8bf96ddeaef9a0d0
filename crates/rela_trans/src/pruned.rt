//! Transducers without the moves that lead to no final state.
ghost use Rattle.std.specs.Prelude.{◌≡◌, ℕ, ◌↔◌, List, false, IfOk, map, slice_index_or};
ghost use Rattle.std.specs.List.{Contains};
ghost use Rattle.rela_trans.specs.Coaccessible.{LeadsOn, kept_by, next_states};
ghost use Rattle.rela_trans.specs.Machine.{machine_states};
ghost use Rattle.rela_trans.specs.Runs.{ReachR, Relates};
ghost use Rattle.rela_trans.specs.Stored.{move_of, moves_in};

use crate::leading::leading_on;
use crate::moves::Move;
use crate::transducer::Transducer;
use rela_labels::LabelSet;
use std::alloc::{AllocError, Global};

/// Whether the state's flag is set, which none past the end is.
fn is_set(flags: &[bool], q: usize) -> bool
    ensures { result ≡ slice_index_or flags.now q false }
{
    flags.get(q).copied().unwrap_or(false)
}

/// Keeps only the moves that lead to a state whose flag is set.
fn keep<L: LabelSet>(moves: &mut Vec<Move<L>>, flags: &[bool])
    ensures { map (move_of L.letters) moves.new.items
        ≡ kept_by flags.now (map (move_of L.letters) moves.old.items) }
{
    moves.retain(|edge| is_set(flags, edge.to));
}

/// Keeps only the moves of each state that lead to a state whose flag is set.
fn keep_each<L: LabelSet>(lists: &mut [Vec<Move<L>>], flags: &[bool])
    ensures { moves_in L.letters lists.new
        ≡ map (kept_by flags.now) (moves_in L.letters lists.old) }
{
    for moves in lists.iter_mut() {
        keep(moves, flags);
    }
}

impl<L: LabelSet> Transducer<L> {
    /// The same pairs, without the moves that lead to no final state. The states are the same, and
    /// of each state's moves those are kept, in their order, from whose ends moves lead on to a
    /// final state: the transducer is made coaccessible (J. Berstel, *Transductions and
    /// Context-Free Languages*, 1979). Time and space: linear in the states and the moves; no move
    /// is copied.
    pub fn pruned(self, alloc: Global) -> Result<Transducer<L>, AllocError>
        ensures letters { IfOk result (λ t. t.letters ≡ self.letters) }
        ensures states { IfOk result (λ t. machine_states t ≡ machine_states self) }
        ensures useful { IfOk result (λ t. (p q : ℕ) → Contains (next_states t p) q →
            LeadsOn self q) }
        ensures reached { IfOk result (λ t. (read : ℕ → ℕ) (q : ℕ) (u v : List ℕ) →
            ReachR read t q u v → ReachR read self q u v) }
        ensures relation { IfOk result (λ t. (read : ℕ → ℕ) (u v : List ℕ) → Relates read t u v ↔
            Relates read self u v) }
    {
        let flags = leading_on(alloc, &self)?;
        let Transducer {
            letters,
            start,
            finals,
            mut moves,
        } = self;
        keep_each(&mut moves, &flags);
        Ok(Transducer {
            letters,
            start,
            finals,
            moves,
        })
    }
}
