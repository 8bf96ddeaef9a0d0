//! Transducers over a finer partition of the symbols, for the words of an automaton.
ghost use Rattle.std.specs.Prelude.{◌≡◌, ℕ, ◌<◌, ◌^◌, ◌↔◌, List, [], false, IsTrue, IfOk, length, map, slice_index_or, if◌then◌else◌};
ghost use Rattle.std.specs.List.{All, Contains, range_with_len};
ghost use Rattle.rela_labels.specs.Partition.{block_of, block_count};
ghost use Rattle.rela_nfa.specs.Meeting.{pair_of};
ghost use Rattle.rela_nfa.specs.Relabelling.{Refines, blocks_of};
ghost use Rattle.rela_nfa.specs.Runs.{Reach, Accepts};
ghost use Rattle.rela_pairs.specs.declared.pair.Pair.{Pair};
ghost use Rattle.rela_trans.specs.Machine.{machine_states};
ghost use Rattle.rela_trans.specs.Reached.{MayReach, kept_moves};
ghost use Rattle.rela_trans.specs.Relabelling.{relabelled_move};
ghost use Rattle.rela_trans.specs.Runs.{ReachR, Relates};
ghost use Rattle.rela_trans.specs.Stored.{move_of, moves_in};

use crate::moves::Move;
use crate::reading_finer::ReadingFiner;
use crate::relabel::relabelled_moves;
use crate::transducer::Transducer;
use rela_labels::{LabelSet, Partition};
use rela_nfa::{Nfa, parents_of};
use rela_pairs::{Pair, explore};
use std::alloc::{AllocError, Global};

/// For each state below `states` whether it is the right one of some pair.
fn right_states(alloc: Global, states: usize, pairs: &[Pair]) -> Result<Vec<bool>, AllocError>
    requires { All (λ x. x.right < states) pairs.now }
    ensures len { IfOk result (λ are_right. length are_right.items ≡ states) }
    ensures right { IfOk result (λ are_right. (q : ℕ) →
        IsTrue (slice_index_or are_right.items q false) ↔
        ((p : ℕ) × Contains pairs.now (pair_of p q))) }
{
    let mut are_right = vec![in alloc; false; states]?;
    for pair in pairs {
        are_right[pair.right] = true;
    }
    Ok(are_right)
}

/// The moves by the fine letters that lie in their sets, if they are to be kept, and else none.
fn moves_if<L: LabelSet, M: LabelSet>(
    alloc: Global,
    is_kept: bool,
    moves: &[Move<L>],
    parents: &[u32],
) -> Result<Vec<Move<M>>, AllocError>
    requires few { length parents.now < 2 ^ 32 }
    requires fits { M.fits (length parents.now) }
    ensures { IfOk result (λ new. map (move_of M.letters) new.items
        ≡ if is_kept then map (relabelled_move parents.now) (map (move_of L.letters) moves.now)
        else []) }
{
    if is_kept {
        relabelled_moves(alloc, moves, parents)
    } else {
        Ok(Vec::new(alloc))
    }
}

impl<L: LabelSet> Transducer<L> {
    /// For each state whether the transducer may come to it while it reads a word of the automaton.
    fn may_reach<M: LabelSet>(
        &self,
        alloc: Global,
        sources: &Nfa<M>,
        parents: &[u32],
    ) -> Result<Vec<bool>, AllocError>
        requires { sources.now.letters ≡ length parents.now }
        ensures len { IfOk result (λ kept. length kept.items ≡ machine_states self.now) }
        ensures reached { IfOk result (λ kept. (q : ℕ) →
            IsTrue (slice_index_or kept.items q false) ↔
            MayReach parents.now sources.now self.now q) }
    {
        let reading = ReadingFiner {
            sources,
            transducer: self,
            parents,
        };
        let start = Pair {
            left: sources.start(),
            right: self.start(),
        };
        match explore(alloc, &reading, start, usize::MAX) {
            Ok(explored) => right_states(alloc, self.states(), explored.pairs()),
            // With the greatest limit memory is the only error.
            Err(_) => Err(AllocError),
        }
    }

    /// The moves of each state that is kept, by the fine letters that lie in their sets, and none
    /// of any other.
    fn kept_lists<M: LabelSet>(
        &self,
        alloc: Global,
        kept: &[bool],
        parents: &[u32],
    ) -> Result<Vec<Vec<Move<M>>>, AllocError>
        requires each { length kept.now ≡ machine_states self.now }
        requires few { length parents.now < 2 ^ 32 }
        requires fits { M.fits (length parents.now) }
        ensures { IfOk result (λ new. moves_in M.letters new.items
            ≡ map (kept_moves parents.now kept.now self.now)
            (range_with_len 0 (machine_states self.now))) }
    {
        let mut new = Vec::with_capacity(alloc, self.states())?;
        for q in 0..self.states() {
            new.push(moves_if(alloc, kept[q], self.moves(q), parents)?)?;
        }
        Ok(new)
    }

    /// The same pairs of words of symbols over a finer partition, as by [`relabel`], of those whose
    /// first word the automaton reads: moves of a state that no such pair reaches may be left out.
    /// The letters of `self` are the blocks of `from`, and those of the automaton and the result
    /// the blocks of `to`. Time: the pairs of states that are reached and what follows each, a look
    /// at each block of `to` for each move that is kept, and a step for each state; space: linear
    /// in these pairs and in the result.
    ///
    /// [`relabel`]: Transducer::relabel
    pub fn relabel_reached<M: LabelSet>(
        &self,
        alloc: Global,
        sources: &Nfa<M>,
        from: &Partition,
        to: &Partition,
    ) -> Result<Transducer<M>, AllocError>
        requires refines { Refines to.now from.now }
        requires letters { self.now.letters ≡ block_count from.now }
        requires sources { sources.now.letters ≡ block_count to.now }
        ensures letters { IfOk result (λ t. t.letters ≡ block_count to.now) }
        ensures states { IfOk result (λ t. machine_states t ≡ machine_states self.now) }
        ensures reached { IfOk result (λ t. (p q : ℕ) (u v : List ℕ) →
            All (λ s. s < length to.now) u → All (λ s. s < length to.now) v
            → Reach sources.now p (blocks_of to.now u) → ReachR (block_of to.now) t q u v ↔
            ReachR (block_of from.now) self.now q u v) }
        ensures relation { IfOk result (λ t. (u v : List ℕ) → All (λ s. s < length to.now) u →
            All (λ s. s < length to.now) v
            → Accepts sources.now (blocks_of to.now u) → Relates (block_of to.now) t u v ↔
            Relates (block_of from.now) self.now u v) }
    {
        let letters = sources.letters();
        let parents = parents_of(alloc, from, to)?;
        let kept = self.may_reach(alloc, sources, &parents)?;
        let finals = Vec::from_slice(alloc, &self.finals)?;
        let moves = self.kept_lists(alloc, &kept, &parents)?;
        Ok(Transducer {
            letters,
            start: self.start,
            finals,
            moves,
        })
    }
}
