//! Transducers over a finer partition of the symbols.
ghost use Rattle.std.specs.Prelude.{◌≡◌, ℕ, ◌<◌, ◌^◌, ◌↔◌, List, IfOk, length, map};
ghost use Rattle.std.specs.List.{All};
ghost use Rattle.rela_labels.specs.Partition.{block_of, block_count};
ghost use Rattle.rela_nfa.specs.Relabelling.{Refines};
ghost use Rattle.rela_trans.specs.Machine.{machine_states};
ghost use Rattle.rela_trans.specs.Relabelling.{relabelled_kind, relabelled_move};
ghost use Rattle.rela_trans.specs.Runs.{ReachR, Relates};
ghost use Rattle.rela_trans.specs.Stored.{kind_of, move_of, moves_in};

use crate::moves::{Move, MoveKind};
use crate::transducer::Transducer;
use rela_labels::{LabelSet, Partition};
use rela_nfa::{parents_of, relabelled_set};
use std::alloc::{AllocError, Global};

/// The kind by the fine letters that lie in its set.
fn relabelled_kind<L: LabelSet, M: LabelSet>(
    alloc: Global,
    kind: &MoveKind<L>,
    parents: &[u32],
) -> Result<MoveKind<M>, AllocError>
    requires few { length parents.now < 2 ^ 32 }
    requires fits { M.fits (length parents.now) }
    ensures { IfOk result (λ new. kind_of M.letters new
        ≡ relabelled_kind parents.now (kind_of L.letters kind.now)) }
{
    match kind {
        MoveKind::Silent => Ok(MoveKind::Silent),
        MoveKind::In(set) => Ok(MoveKind::In(relabelled_set(alloc, set, parents)?)),
        MoveKind::Out(set) => Ok(MoveKind::Out(relabelled_set(alloc, set, parents)?)),
        MoveKind::Same(set) => Ok(MoveKind::Same(relabelled_set(alloc, set, parents)?)),
    }
}

/// Each of the moves by the fine letters that lie in its set.
pub(crate) fn relabelled_moves<L: LabelSet, M: LabelSet>(
    alloc: Global,
    moves: &[Move<L>],
    parents: &[u32],
) -> Result<Vec<Move<M>>, AllocError>
    requires few { length parents.now < 2 ^ 32 }
    requires fits { M.fits (length parents.now) }
    ensures { IfOk result (λ new. map (move_of M.letters) new.items
        ≡ map (relabelled_move parents.now) (map (move_of L.letters) moves.now)) }
{
    let mut new = Vec::with_capacity(alloc, moves.len())?;
    for edge in moves {
        let kind = relabelled_kind(alloc, &edge.kind, parents)?;
        new.push(Move { kind, to: edge.to })?;
    }
    Ok(new)
}

/// The moves of each state by the fine letters that lie in their sets.
fn relabelled_lists<L: LabelSet, M: LabelSet>(
    alloc: Global,
    lists: &[Vec<Move<L>>],
    parents: &[u32],
) -> Result<Vec<Vec<Move<M>>>, AllocError>
    requires few { length parents.now < 2 ^ 32 }
    requires fits { M.fits (length parents.now) }
    ensures { IfOk result (λ new. moves_in M.letters new.items
        ≡ map (map (relabelled_move parents.now)) (moves_in L.letters lists.now)) }
{
    let mut new = Vec::with_capacity(alloc, lists.len())?;
    for moves in lists {
        new.push(relabelled_moves(alloc, moves, parents)?)?;
    }
    Ok(new)
}

impl<L: LabelSet> Transducer<L> {
    /// The same pairs of words of symbols over a finer partition: the letters of `self` are the
    /// blocks of `from`, and those of the result the blocks of `to`. The states are the same, and
    /// each is reached by the same pairs of words of symbols. Time: for each move with a set a look
    /// at each block of `to`, and a step for each state; space: linear in the states and the moves,
    /// with their sets.
    pub fn relabel<M: LabelSet>(
        &self,
        alloc: Global,
        from: &Partition,
        to: &Partition,
    ) -> Result<Transducer<M>, AllocError>
        requires refines { Refines to.now from.now }
        requires letters { self.now.letters ≡ block_count from.now }
        requires fits { M.fits (block_count to.now) }
        ensures letters { IfOk result (λ t. t.letters ≡ block_count to.now) }
        ensures states { IfOk result (λ t. machine_states t ≡ machine_states self.now) }
        ensures reached { IfOk result (λ t. (q : ℕ) (u v : List ℕ) →
            All (λ s. s < length to.now) u → All (λ s. s < length to.now) v
            → ReachR (block_of to.now) t q u v ↔ ReachR (block_of from.now) self.now q u v) }
        ensures relation { IfOk result (λ t. (u v : List ℕ) → All (λ s. s < length to.now) u →
            All (λ s. s < length to.now) v
            → Relates (block_of to.now) t u v ↔ Relates (block_of from.now) self.now u v) }
    {
        let letters = to.blocks();
        let parents = parents_of(alloc, from, to)?;
        let finals = Vec::from_slice(alloc, &self.finals)?;
        let moves = relabelled_lists(alloc, &self.moves, &parents)?;
        Ok(Transducer {
            letters,
            start: self.start,
            finals,
            moves,
        })
    }
}
