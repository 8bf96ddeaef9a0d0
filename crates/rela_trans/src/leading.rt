//! The states from which moves lead on to a final one, which the literature calls coaccessible.
ghost use Rattle.std.specs.Prelude.{◌≡◌, ◌⊎◌, ℕ, ◌<◌, ◌↔◌, [], false, IsTrue, IfOk, length, map, slice_index_or};
ghost use Rattle.std.specs.List.{All, Contains};
ghost use Rattle.rela_nfa.specs.StateSet.{AreFlagged, Inserts, Adds};
ghost use Rattle.rela_pairs.specs.Reachable.{Reachable};
ghost use Rattle.rela_trans.specs.Coaccessible.{LeadsOn, ends_of, list_at, next_states};
ghost use Rattle.rela_trans.specs.Machine.{IsFinal, machine_states};
ghost use Rattle.rela_trans.specs.Stored.{lists_of, move_of};

use crate::moves::Move;
use crate::transducer::Transducer;
use rela_labels::LabelSet;
use std::alloc::{AllocError, Global};

/// As many empty lists as `count`.
fn empty_lists(alloc: Global, count: usize) -> Result<Vec<Vec<usize>>, AllocError>
    ensures each { IfOk result (λ lists. length lists.items ≡ count) }
    ensures empty { IfOk result (λ lists. (q : ℕ) → list_at (lists_of lists.items) q ≡ []) }
{
    let mut lists = Vec::with_capacity(alloc, count)?;
    for _state in 0..count {
        lists.push(Vec::new(alloc))?;
    }
    Ok(lists)
}

/// Puts the state into the list of the end of each of the moves.
fn put_at_ends<L: LabelSet>(
    lists: &mut Vec<Vec<usize>>,
    moves: &[Move<L>],
    p: usize,
) -> Result<(), AllocError>
    requires { All (λ edge. edge.to < length lists.old.items) moves.now }
    ensures each { IfOk result (λ _. length lists.new.items ≡ length lists.old.items) }
    ensures put { IfOk result (λ _. (q r : ℕ) → Contains (list_at (lists_of lists.new.items) q) r
        ↔ (Contains (list_at (lists_of lists.old.items) q) r
        ⊎ ((r ≡ p) × Contains (ends_of (map (move_of L.letters) moves.now)) q))) }
{
    for edge in moves {
        lists[edge.to].push(p)?;
    }
    Ok(())
}

/// For each state, the states from which a move leads to it, each once for each such move.
fn predecessors<L: LabelSet>(
    alloc: Global,
    transducer: &Transducer<L>,
) -> Result<Vec<Vec<usize>>, AllocError>
    ensures each { IfOk result (λ lists. length lists.items ≡ machine_states transducer.now) }
    ensures turned { IfOk result (λ lists. (p q : ℕ) →
        Contains (list_at (lists_of lists.items) q) p ↔ Contains (next_states transducer.now p) q) }
{
    let mut lists = empty_lists(alloc, transducer.states())?;
    for p in 0..transducer.states() {
        put_at_ends(&mut lists, transducer.moves(p), p)?;
    }
    Ok(lists)
}

/// Puts the state behind the others and sets its flag, unless it is among them.
fn insert(flags: &mut [bool], states: &mut Vec<usize>, q: usize) -> Result<(), AllocError>
    requires flagged { AreFlagged flags.old states.old.items }
    requires state { q < length flags.old }
    ensures flagged { IfOk result (λ _. AreFlagged flags.new states.new.items) }
    ensures inserted { IfOk result (λ _. Inserts states.old.items states.new.items q) }
{
    if !flags[q] {
        states.push(q)?;
        flags[q] = true;
    }
    Ok(())
}

/// Puts each of these states behind the others, unless it is among them.
fn insert_all(flags: &mut [bool], states: &mut Vec<usize>, more: &[usize]) -> Result<(), AllocError>
    requires flagged { AreFlagged flags.old states.old.items }
    requires states { All (λ q. q < length flags.old) more.now }
    ensures flagged { IfOk result (λ _. AreFlagged flags.new states.new.items) }
    ensures added { IfOk result (λ _. Adds (Contains more.now) states.old.items states.new.items) }
{
    for q in more {
        insert(flags, states, *q)?;
    }
    Ok(())
}

/// Puts the final states behind the others, unless they are among them.
fn insert_finals<L: LabelSet>(
    flags: &mut [bool],
    states: &mut Vec<usize>,
    transducer: &Transducer<L>,
) -> Result<(), AllocError>
    requires flagged { AreFlagged flags.old states.old.items }
    requires count { length flags.old ≡ machine_states transducer.now }
    ensures flagged { IfOk result (λ _. AreFlagged flags.new states.new.items) }
    ensures added { IfOk result (λ _. Adds (IsFinal transducer.now) states.old.items
        states.new.items) }
{
    for q in 0..transducer.states() {
        if transducer.is_final(q) {
            insert(flags, states, q)?;
        }
    }
    Ok(())
}

/// Puts behind the states all those to which the lists lead on from them: a breadth-first search.
fn close(
    flags: &mut [bool],
    states: &mut Vec<usize>,
    lists: &[Vec<usize>],
) -> Result<(), AllocError>
    requires flagged { AreFlagged flags.old states.old.items }
    requires count { length lists.now ≡ length flags.old }
    requires states { (q : ℕ) → All (λ p. p < length flags.old) (list_at (lists_of lists.now) q) }
    ensures flagged { IfOk result (λ _. AreFlagged flags.new states.new.items) }
    ensures closed { IfOk result (λ _. (q : ℕ) → Contains states.new.items q
        ↔ ((p : ℕ) × Contains states.old.items p × Reachable (list_at (lists_of lists.now)) p q)) }
{
    // The states stand in a queue: those before `done` have been followed.
    let mut done = 0;
    while done < states.len() {
        insert_all(flags, states, &lists[states[done]])?;
        done += 1;
    }
    Ok(())
}

/// For each state whether moves lead on from it to a final one, found backwards from the final
/// states. Time and space: linear in the states and the moves.
pub(crate) fn leading_on<L: LabelSet>(
    alloc: Global,
    transducer: &Transducer<L>,
) -> Result<Vec<bool>, AllocError>
    ensures len { IfOk result (λ flags. length flags.items ≡ machine_states transducer.now) }
    ensures leading { IfOk result (λ flags. (q : ℕ) → IsTrue (slice_index_or flags.items q false) ↔
        LeadsOn transducer.now q) }
{
    let lists = predecessors(alloc, transducer)?;
    let mut flags = vec![in alloc; false; transducer.states()]?;
    let mut states = Vec::new(alloc);
    insert_finals(&mut flags, &mut states, transducer)?;
    close(&mut flags, &mut states, &lists)?;
    Ok(flags)
}
