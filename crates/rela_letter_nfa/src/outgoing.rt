//! The edges out of a set of states, letter after letter.
ghost use Rattle.std.specs.Prelude.{◌≡◌, ◌<◌, ◌≤◌, IfOk, OnOk, IsTrue};
ghost use Rattle.std.specs.List.{All, flat_map};
ghost use Rattle.std.specs.List.Sorted.{IsNonDecreasingBy, IsPermutation};
ghost use Rattle.rela_letter_nfa.specs.LetterAutomaton.{edges_of, states};
ghost use Rattle.rela_letter_nfa.specs.Outgoing.{HasEnd, IsRest, NextBy};
ghost use Rattle.rela_letter_nfa.specs.Pair.{joined};
ghost use Rattle.rela_letter_nfa.specs.Sets.{Adds, Lists};

use crate::both::Both;
use crate::closure::close;
use crate::edge::LetterEdge;
use crate::visited::Visited;
use std::alloc::AllocError;

/// Puts the edges out of the states of the set in place of those that are there, in ascending order
/// of their letters. Time: linear in the edges where they are, and else n log n.
pub(crate) fn edges_out(
    both: &Both,
    set: &[u32],
    edges: &mut Vec<LetterEdge>,
) -> Result<(), AllocError>
    requires { All (λ q. q < states (joined both.now)) set.now }
    ensures rising { OnOk result (IsNonDecreasingBy (λ edge. edge.letter) edges.new.items) }
    ensures same { OnOk result (IsPermutation (flat_map (edges_of (joined both.now)) set.now)
        edges.new.items) }
{
    edges.clear();
    for q in set {
        both.push_edges(*q, edges)?;
    }
    sort_by_letter(edges);
    Ok(())
}

/// Puts the edges into ascending order of their letters. Time: linear where they are, and else n log
/// n.
fn sort_by_letter(edges: &mut Vec<LetterEdge>)
    ensures rising { IsNonDecreasingBy (λ edge. edge.letter) edges.new.items }
    ensures same { IsPermutation edges.old.items edges.new.items }
{
    if is_rising(edges) {
        return;
    }
    edges.sort_unstable_by_key(|edge| edge.letter);
}

/// Whether no edge comes behind one of a later letter.
fn is_rising(edges: &[LetterEdge]) -> bool
    ensures { IsTrue result → IsNonDecreasingBy (λ edge. edge.letter) edges.now }
{
    let mut last = 0;
    for edge in edges {
        if edge.letter < last {
            return false;
        }
        last = edge.letter;
    }
    true
}

/// Visits, in place of what was visited, the states that follow by the letter, with those to which
/// silent steps then lead, in ascending order. The edges of this letter come first: the others are
/// given back. Time: a look at each edge of the letter and at each silent step on the way, and a
/// sort of the states.
pub(crate) fn follow<'a>(
    both: &Both,
    edges: &'a [LetterEdge],
    letter: u32,
    visited: &mut Visited,
) -> Result<&'a [LetterEdge], AllocError>
    requires count { visited.old.count ≡ states (joined both.now) }
    requires lead { All (λ edge. edge.to < states (joined both.now)) edges.now }
    requires rising { IsNonDecreasingBy (λ edge. edge.letter) edges.now }
    requires first { All (λ edge. letter ≤ edge.letter) edges.now }
    ensures next { IfOk result (λ _. Lists (NextBy (joined both.now) edges.now letter)
        visited.new.states) }
    ensures rest { IfOk result (λ rest. IsRest letter edges.now rest.now) }
    ensures count { visited.new.count ≡ visited.old.count }
{
    visited.clear();
    let rest = insert_ends(edges, letter, visited)?;
    close(both, visited)?;
    visited.sort()?;
    Ok(rest)
}

/// Puts the ends of the edges of the letter, which come first, behind the other states, unless they
/// are among them, and gives the other edges back.
fn insert_ends<'a>(
    edges: &'a [LetterEdge],
    letter: u32,
    visited: &mut Visited,
) -> Result<&'a [LetterEdge], AllocError>
    requires lead { All (λ edge. edge.to < visited.old.count) edges.now }
    requires rising { IsNonDecreasingBy (λ edge. edge.letter) edges.now }
    requires first { All (λ edge. letter ≤ edge.letter) edges.now }
    ensures adds { IfOk result (λ _. Adds (HasEnd edges.now letter) visited.old.states
        visited.new.states) }
    ensures rest { IfOk result (λ rest. IsRest letter edges.now rest.now) }
    ensures count { visited.new.count ≡ visited.old.count }
{
    let mut rest = edges;
    while let Some((first, later)) = rest.split_first() {
        if first.letter != letter {
            return Ok(rest);
        }
        visited.insert(first.to)?;
        rest = later;
    }
    Ok(rest)
}
