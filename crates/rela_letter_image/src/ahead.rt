//! Letters that are still to come on paths.
ghost use Rattle.std.specs.Prelude.{◌≡◌, ◌<◌, IfOk, IsTrue, length, slice_index};
ghost use Rattle.std.specs.List.{All};
ghost use Rattle.std.specs.Option.{ForSome};
ghost use Rattle.rela_letter_nfa.specs.LetterAutomaton.{states};
ghost use Rattle.rela_letter_image.specs.Coarse.{coarse_of};
ghost use Rattle.rela_letter_image.specs.Needs.{AreAhead, IsEdgeAhead, IsWithin};

use crate::needs::{is_within, with_letter, word_at};
use crate::product::coarse_letter;
use rela_letter_nfa::{LetterEdge, LetterNfa};
use std::alloc::{AllocError, Global};

/// How often the words of all states are widened at most.
const ROUNDS: usize = 8;

/// Whether what is ahead of the edge's end, and the coarse letter of the edge, are among these.
fn is_edge_ahead(coarse: &[u32], letters: u32, ahead: &[u64], here: u64, edge: LetterEdge) -> bool
    ensures { IsTrue result → IsEdgeAhead (coarse_of letters coarse.now) ahead.now here edge }
{
    let letter = coarse_letter(coarse, letters, edge.letter);
    is_within(with_letter(word_at(ahead, edge.to as usize), letter), here)
}

/// Whether what is ahead of each edge's end, and its coarse letter, are among these.
fn are_edges_ahead(
    coarse: &[u32],
    letters: u32,
    ahead: &[u64],
    here: u64,
    edges: &[LetterEdge],
) -> bool
    ensures { IsTrue result → All (IsEdgeAhead (coarse_of letters coarse.now) ahead.now here)
        edges.now }
{
    for edge in edges {
        if !is_edge_ahead(coarse, letters, ahead, here, *edge) {
            return false;
        }
    }
    true
}

/// Whether what is ahead of each of the states is among these.
fn are_silents_ahead(ahead: &[u64], here: u64, ends: &[u32]) -> bool
    ensures { IsTrue result → All (λ q. IsWithin (slice_index ahead.now q) here) ends.now }
{
    for end in ends {
        if !is_within(word_at(ahead, *end as usize), here) {
            return false;
        }
    }
    true
}

/// Whether what is ahead where each state leads is ahead of it too. Time: linear in the states, the
/// edges and the silent steps.
fn are_ahead(paths: &LetterNfa, letters: u32, coarse: &[u32], ahead: &[u64]) -> bool
    ensures { IsTrue result → AreAhead (coarse_of letters coarse.now) paths.now ahead.now }
{
    for q in 0..paths.states() as u32 {
        let here = word_at(ahead, q as usize);
        if !are_silents_ahead(ahead, here, paths.silent(q))
            || !are_edges_ahead(coarse, letters, ahead, here, paths.edges(q))
        {
            return false;
        }
    }
    true
}

/// What is ahead of the states.
fn behind_silents(ahead: &[u64], ends: &[u32]) -> u64 {
    let mut word = 0;
    for end in ends {
        word |= word_at(ahead, *end as usize);
    }
    word
}

/// What is ahead of the ends of the edges, and the coarse letters of these.
fn behind_edges(coarse: &[u32], letters: u32, ahead: &[u64], edges: &[LetterEdge]) -> u64 {
    let mut word = 0;
    for edge in edges {
        let letter = coarse_letter(coarse, letters, edge.letter);
        word |= with_letter(word_at(ahead, edge.to as usize), letter);
    }
    word
}

/// Widens what is ahead of each state by what is ahead where it leads, from the last state to the
/// first.
fn widen(paths: &LetterNfa, letters: u32, coarse: &[u32], ahead: &mut [u64])
    requires { length ahead.old ≡ states paths.now }
    ensures { length ahead.new ≡ states paths.now }
{
    let mut q = paths.states() as u32;
    while q > 0 {
        q -= 1;
        let silents = behind_silents(ahead, paths.silent(q));
        let edges = behind_edges(coarse, letters, ahead, paths.edges(q));
        ahead[q as usize] |= silents | edges;
    }
}

/// For each state a word of at least the coarse letters below 64 that are spelled from there; `None`
/// where that takes more than `ROUNDS` rounds. A round is enough where all steps lead to later
/// states. Time: linear in the states, the edges and the silent steps, for each round.
pub(crate) fn ahead_of(
    alloc: Global,
    paths: &LetterNfa,
    letters: u32,
    coarse: &[u32],
) -> Result<Option<Vec<u64>>, AllocError>
    ensures { IfOk result (λ found. ForSome found (λ ahead.
        AreAhead (coarse_of letters coarse.now) paths.now ahead.items)) }
{
    let mut ahead = vec![in alloc; 0; paths.states()]?;
    for _ in 0..ROUNDS {
        widen(paths, letters, coarse, &mut ahead);
        if are_ahead(paths, letters, coarse, &ahead) {
            return Ok(Some(ahead));
        }
    }
    Ok(None)
}
