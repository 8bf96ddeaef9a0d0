//! Where silent chains lead.
ghost use Rattle.std.specs.Prelude.{◌≡◌, ◌⊎◌, ℕ, ◌<◌, [], IfOk, length, slice_index};
ghost use Rattle.std.specs.List.{All, Contains};
ghost use Rattle.rela_letter_nfa.specs.Chains.{AreEnds, IsLink, IsWalked};
ghost use Rattle.rela_letter_nfa.specs.LetterAutomaton.{states};
ghost use Rattle.rela_letter_nfa.specs.Sets.{HasFlag};

use crate::nfa::LetterNfa;
use std::alloc::{AllocError, Global};

/// Where the state leads if it is a link, which isn't final and has a silent step alone, and else
/// the state itself.
fn next(nfa: &LetterNfa, q: u32) -> u32
    requires { q < states nfa.now }
    ensures state { result < states nfa.now }
    ensures next { IsLink nfa.now q result ⊎ ((result ≡ q) × ((r : ℕ) → ¬ IsLink nfa.now q r)) }
{
    if nfa.is_final(q) || !nfa.edges(q).is_empty() {
        return q;
    }
    match nfa.silent(q) {
        [to] => *to,
        _ => q,
    }
}

/// Goes on by links from the state to one that has been passed, and gives that one. Each state on
/// the way is flagged, and put into the path.
fn walk(nfa: &LetterNfa, q: u32, flags: &mut [bool], path: &mut Vec<u32>) -> Result<u32, AllocError>
    requires state { q < states nfa.now }
    requires count { length flags.old ≡ states nfa.now }
    requires empty { path.old.items ≡ [] }
    ensures walked { IfOk result (λ end. IsWalked nfa.now flags.old flags.new path.new.items end) }
    ensures passed { IfOk result (λ _. HasFlag flags.new q) }
{
    let mut end = q;
    while !flags[end as usize] {
        flags[end as usize] = true;
        path.push(end)?;
        end = next(nfa, end);
    }
    Ok(end)
}

/// Writes the end for each state of the path.
fn settle(ends: &mut [u32], path: &[u32], end: u32)
    requires { All (λ p. p < length ends.old) path.now }
    ensures settled { (p : ℕ) → Contains path.now p → slice_index ends.new p ≡ end }
    ensures kept { (p : ℕ) → Contains path.now p
        ⊎ (slice_index ends.new p ≡ slice_index ends.old p) }
{
    for p in path {
        ends[*p as usize] = end;
    }
}

/// The numbers below `count`, in order.
fn numbers(alloc: Global, count: u32) -> Result<Vec<u32>, AllocError>
    ensures count { IfOk result (λ numbers. length numbers.items ≡ count) }
    ensures each { IfOk result (λ numbers. (q : ℕ) → q < count → slice_index numbers.items q ≡ q) }
{
    let mut numbers = Vec::with_capacity(alloc, count as usize)?;
    for q in 0..count {
        numbers.push(q)?;
    }
    Ok(numbers)
}

/// For each state the end of the chain of links that leads from it, the state itself where it is no
/// link; where links lead in a circle, some state of it. Each state is passed once, whatever the
/// length of the chains. Time and space: linear in the states.
pub(crate) fn chain_ends(alloc: Global, nfa: &LetterNfa) -> Result<Vec<u32>, AllocError>
    ensures ends { IfOk result (λ ends. AreEnds nfa.now ends.items) }
    ensures states { IfOk result (λ ends. All (λ end. end < states nfa.now) ends.items) }
{
    let count = nfa.states() as u32;
    let mut ends = numbers(alloc, count)?;
    let mut flags = vec![in alloc; false; count as usize]?;
    let mut path = Vec::new(alloc);
    for q in 0..count {
        path.clear();
        let end = walk(nfa, q, &mut flags, &mut path)?;
        let end = ends[end as usize];
        settle(&mut ends, &path, end);
    }
    Ok(ends)
}
