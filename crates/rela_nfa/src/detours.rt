//! Where silent detours lead.
ghost use Rattle.std.specs.Prelude.{◌≡◌, ◌⊎◌, ℕ, ◌<◌, ◌↔◌, [], ◌∷◌, Some, IfOk, length, map, slice_index};
ghost use Rattle.std.specs.List.{All, Contains};
ghost use Rattle.rela_nfa.specs.Construction.{silent};
ghost use Rattle.rela_nfa.specs.Detours.{Detours, IsDetour, IsEnd, IsWalked};
ghost use Rattle.rela_nfa.specs.Automaton.{states};
ghost use Rattle.rela_nfa.specs.StateSet.{HasFlag};
ghost use Rattle.rela_nfa.specs.Stored.{move_of};

use crate::edge::Edge;
use crate::nfa::Nfa;
use rela_labels::LabelSet;
use std::alloc::{AllocError, Global};

/// Where the only edge leads, if it is silent, and else `None`.
fn only_silent<L: LabelSet>(edges: &[Edge<L>]) -> Option<usize>
    ensures { (r : ℕ) → result ≡ Some r ↔ map (move_of L.letters) edges.now ≡ silent r ∷ [] }
{
    match edges {
        [edge] if edge.label.is_none() => Some(edge.to),
        _ => None,
    }
}

/// Where the state leads if it is a detour, and else the state itself.
fn next<L: LabelSet>(nfa: &Nfa<L>, q: usize) -> usize
    requires { q < states nfa.now }
    ensures state { result < states nfa.now }
    ensures next { IsDetour nfa.now q result ⊎ ((result ≡ q) × ((r : ℕ) → ¬ IsDetour nfa.now q r)) }
{
    if nfa.is_final(q) {
        return q;
    }
    only_silent(nfa.edges(q)).unwrap_or(q)
}

/// Goes on by detours from the state to one that has been passed, and gives that one. Each state on
/// the way is flagged, and put into the path.
fn walk<L: LabelSet>(
    nfa: &Nfa<L>,
    q: usize,
    flags: &mut [bool],
    path: &mut Vec<usize>,
) -> Result<usize, AllocError>
    requires state { q < states nfa.now }
    requires count { length flags.old ≡ states nfa.now }
    requires empty { path.old.items ≡ [] }
    ensures walked { IfOk result (λ end. IsWalked nfa.now flags.old flags.new path.new.items end) }
    ensures passed { IfOk result (λ _. HasFlag flags.new q) }
{
    let mut end = q;
    while !flags[end] {
        flags[end] = true;
        path.push(end)?;
        end = next(nfa, end);
    }
    Ok(end)
}

/// Writes the end for each state of the path.
fn settle(ends: &mut [usize], path: &[usize], end: usize)
    requires { All (λ p. p < length ends.old) path.now }
    ensures settled { (p : ℕ) → Contains path.now p → slice_index ends.new p ≡ end }
    ensures kept { (p : ℕ) → Contains path.now p
        ⊎ (slice_index ends.new p ≡ slice_index ends.old p) }
{
    for p in path {
        ends[*p] = end;
    }
}

/// The numbers below `count`, in order.
fn numbers(alloc: Global, count: usize) -> Result<Vec<usize>, AllocError>
    ensures count { IfOk result (λ numbers. length numbers.items ≡ count) }
    ensures each { IfOk result (λ numbers. (q : ℕ) → q < count → slice_index numbers.items q ≡ q) }
{
    let mut numbers = Vec::with_capacity(alloc, count)?;
    for q in 0..count {
        numbers.push(q)?;
    }
    Ok(numbers)
}

/// For each state the end of the detours that lead from it; itself where it is no detour. Each
/// state is passed once, whatever the length of the chains. Time and space: linear in the states.
pub(crate) fn detour_ends<L: LabelSet>(
    alloc: Global,
    nfa: &Nfa<L>,
) -> Result<Vec<usize>, AllocError>
    ensures count { IfOk result (λ ends. length ends.items ≡ states nfa.now) }
    ensures states { IfOk result (λ ends. All (λ end. end < states nfa.now) ends.items) }
    ensures led { IfOk result (λ ends. (q : ℕ) → q < states nfa.now →
        Detours nfa.now q (slice_index ends.items q)) }
    ensures ended { IfOk result (λ ends. (q : ℕ) → q < states nfa.now →
        IsEnd nfa.now (slice_index ends.items q)) }
{
    let mut ends = numbers(alloc, nfa.states())?;
    let mut flags = vec![in alloc; false; nfa.states()]?;
    let mut path = Vec::new(alloc);
    for q in 0..nfa.states() {
        path.clear();
        let end = walk(nfa, q, &mut flags, &mut path)?;
        let end = ends[end];
        settle(&mut ends, &path, end);
    }
    Ok(ends)
}
