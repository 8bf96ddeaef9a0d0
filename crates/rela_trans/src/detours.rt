//! Where silent detours lead.
ghost use Rattle.std.specs.Prelude.{◌≡◌, ◌⊎◌, ℕ, ◌<◌, ◌↔◌, [], ◌∷◌, Some, IfOk, length, map, slice_index};
ghost use Rattle.std.specs.List.{All, Contains};
ghost use Rattle.rela_trans.specs.Construction.{silent};
ghost use Rattle.rela_trans.specs.Detours.{Detours, IsDetour, IsEnd, IsPassed, IsWalked};
ghost use Rattle.rela_trans.specs.Machine.{machine_states};
ghost use Rattle.rela_trans.specs.Stored.{move_of};

use crate::moves::{Move, MoveKind};
use crate::transducer::Transducer;
use rela_labels::LabelSet;
use std::alloc::{AllocError, Global};

/// Where the only move leads, if it is silent, and else `None`.
fn only_silent<L: LabelSet>(moves: &[Move<L>]) -> Option<usize>
    ensures { (r : ℕ) → result ≡ Some r ↔ map (move_of L.letters) moves.now ≡ silent r ∷ [] }
{
    match moves {
        [edge] if matches!(edge.kind, MoveKind::Silent) => Some(edge.to),
        _ => None,
    }
}

/// Where the state leads if it is a detour, and else the state itself.
fn next<L: LabelSet>(transducer: &Transducer<L>, q: usize) -> usize
    requires { q < machine_states transducer.now }
    ensures state { result < machine_states transducer.now }
    ensures next { IsDetour transducer.now q result
        ⊎ ((result ≡ q) × ((r : ℕ) → ¬ IsDetour transducer.now q r)) }
{
    if transducer.is_final(q) {
        return q;
    }
    only_silent(transducer.moves(q)).unwrap_or(q)
}

/// Goes on by detours from the state to one that has been passed, and gives that one. Each state on
/// the way is flagged, and put into the path.
fn walk<L: LabelSet>(
    transducer: &Transducer<L>,
    q: usize,
    flags: &mut [bool],
    path: &mut Vec<usize>,
) -> Result<usize, AllocError>
    requires state { q < machine_states transducer.now }
    requires count { length flags.old ≡ machine_states transducer.now }
    requires empty { path.old.items ≡ [] }
    ensures walked { IfOk result (λ end. IsWalked transducer.now flags.old flags.new
        path.new.items end) }
    ensures passed { IfOk result (λ _. IsPassed flags.new q) }
{
    let mut end = q;
    while !flags[end] {
        flags[end] = true;
        path.push(end)?;
        end = next(transducer, end);
    }
    Ok(end)
}

/// Writes the end for each state of the path.
fn settle(ends: &mut [usize], path: &[usize], end: usize)
    requires { All (λ p. p < length ends.old) path.now }
    ensures settled { (p : ℕ) → Contains path.now p → slice_index ends.new p ≡ end }
    ensures kept { (p : ℕ) → Contains path.now p
        ⊎ (slice_index ends.new p ≡ slice_index ends.old p) }
{
    for p in path {
        ends[*p] = end;
    }
}

/// The numbers below `count`, in order.
fn numbers(alloc: Global, count: usize) -> Result<Vec<usize>, AllocError>
    ensures count { IfOk result (λ numbers. length numbers.items ≡ count) }
    ensures each { IfOk result (λ numbers. (q : ℕ) → q < count → slice_index numbers.items q ≡ q) }
{
    let mut numbers = Vec::with_capacity(alloc, count)?;
    for q in 0..count {
        numbers.push(q)?;
    }
    Ok(numbers)
}

/// For each state the end of the detours that lead from it; itself where it is no detour. Each
/// state is passed once, whatever the length of the chains. Time and space: linear in the states.
pub(crate) fn detour_ends<L: LabelSet>(
    alloc: Global,
    transducer: &Transducer<L>,
) -> Result<Vec<usize>, AllocError>
    ensures count { IfOk result (λ ends. length ends.items ≡ machine_states transducer.now) }
    ensures led { IfOk result (λ ends. (q : ℕ) → q < machine_states transducer.now →
        Detours transducer.now q (slice_index ends.items q)) }
    ensures ended { IfOk result (λ ends. (q : ℕ) → q < machine_states transducer.now →
        IsEnd transducer.now (slice_index ends.items q)) }
{
    let mut ends = numbers(alloc, transducer.states())?;
    let mut flags = vec![in alloc; false; transducer.states()]?;
    let mut path = Vec::new(alloc);
    for q in 0..transducer.states() {
        path.clear();
        let end = walk(transducer, q, &mut flags, &mut path)?;
        let end = ends[end];
        settle(&mut ends, &path, end);
    }
    Ok(ends)
}
