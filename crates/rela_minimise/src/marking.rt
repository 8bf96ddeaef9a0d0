//! States from which letters lead to new classes.
ghost use Rattle.std.specs.Prelude.{◌≡◌, ℕ, ◌<◌, [], IfOk, Contains, length, slice_index_or};
ghost use Rattle.std.specs.List.{All};
ghost use Rattle.rela_minimise.specs.Refining.{Marks, PrecedesNew};
ghost use Rattle.rela_minimise.specs.Stored.{lists_of};

use std::alloc::AllocError;

/// Marks the states from which an edge leads to a member of one of the classes from `first` on: as
/// stale, and as waiting to be looked at. Time: a step for each such member, and for each edge that
/// leads to one.
pub(crate) fn mark_before_new(
    stale: &mut [bool],
    waiting: &mut Vec<usize>,
    predecessors: &[Vec<usize>],
    members: &[Vec<usize>],
    first: usize,
) -> Result<(), AllocError>
    requires predecessors { (q : ℕ) → All (λ p. p < length stale.old)
        (slice_index_or (lists_of predecessors.now) q []) }
    requires members { (c : ℕ) → All (λ q. q < length predecessors.now)
        (slice_index_or (lists_of members.now) c []) }
    ensures { IfOk result (λ _. Marks (PrecedesNew (lists_of predecessors.now)
        (lists_of members.now) first (length members.now)) stale.old waiting.old.items stale.new
        waiting.new.items) }
{
    for class in first..members.len() {
        mark_before(stale, waiting, predecessors, &members[class])?;
    }
    Ok(())
}

/// Marks the states from which an edge leads to one of these.
fn mark_before(
    stale: &mut [bool],
    waiting: &mut Vec<usize>,
    predecessors: &[Vec<usize>],
    states: &[usize],
) -> Result<(), AllocError>
    requires predecessors { (q : ℕ) → All (λ p. p < length stale.old)
        (slice_index_or (lists_of predecessors.now) q []) }
    requires states { All (λ q. q < length predecessors.now) states.now }
    ensures { IfOk result (λ _. Marks (λ p. (q : ℕ) × Contains states.now q
        × Contains (slice_index_or (lists_of predecessors.now) q []) p) stale.old waiting.old.items
        stale.new waiting.new.items) }
{
    for q in states {
        mark_all(stale, waiting, &predecessors[*q])?;
    }
    Ok(())
}

/// Marks each of the states.
fn mark_all(
    stale: &mut [bool],
    waiting: &mut Vec<usize>,
    states: &[usize],
) -> Result<(), AllocError>
    requires { All (λ q. q < length stale.old) states.now }
    ensures { IfOk result (λ _. Marks (Contains states.now) stale.old waiting.old.items stale.new
        waiting.new.items) }
{
    for q in states {
        mark(stale, waiting, *q)?;
    }
    Ok(())
}

/// Marks the state as stale, and puts it with those that wait, unless it was stale.
fn mark(stale: &mut [bool], waiting: &mut Vec<usize>, q: usize) -> Result<(), AllocError>
    requires { q < length stale.old }
    ensures { IfOk result (λ _. Marks (λ p. p ≡ q) stale.old waiting.old.items stale.new
        waiting.new.items) }
{
    if stale[q] {
        return Ok(());
    }
    stale[q] = true;
    waiting.push(q)?;
    Ok(())
}
