//! Whether an automaton accepts no word over some letters.
ghost use Rattle.std.specs.Prelude.{◌≡◌, ℕ, ◌<◌, ◌↔◌, List, [], ◌∷◌, IsTrue, IfOk, length, map};
ghost use Rattle.std.specs.List.{All};
ghost use Rattle.std.specs.Option.{ForSome};
ghost use Rattle.rela_nfa.specs.Runs.{Accepts};
ghost use Rattle.rela_nfa.specs.StateSet.{HasFlag};
ghost use Rattle.rela_nfa.specs.Stored.{move_of};
ghost use Rattle.rela_restriction.specs.Emptiness.{Finds, IsOpen, OpensTo};
ghost use Rattle.rela_subset.specs.Deterministic.{IsOver};

use rela_labels::LabelSet;
use rela_nfa::{Edge, Nfa};
use std::alloc::{AllocError, Global};

/// Whether no word over the letters is accepted: a depth-first search from the start for a final
/// state, along edges that are silent or have a letter in common with these. Time: linear in the
/// states and the edges that are found, with a set operation for each edge to a state that wasn't
/// found before. Space: a flag for each state, and those that wait.
pub(crate) fn accepts_none<L: LabelSet>(
    alloc: Global,
    nfa: &Nfa<L>,
    over: &L,
) -> Result<bool, AllocError>
    requires { length (L.letters over.now) ≡ nfa.now.letters }
    ensures { IfOk result (λ none. IsTrue none ↔ ((w : List ℕ) →
        IsOver (L.letters over.now) w → ¬ Accepts nfa.now w)) }
{
    let mut found = vec![in alloc; false; nfa.states()]?;
    let mut waiting = Vec::new(alloc);
    insert(&mut found, &mut waiting, nfa.start())?;
    while let Some(q) = waiting.pop() {
        if nfa.is_final(q) {
            return Ok(false);
        }
        insert_ends(alloc, nfa.edges(q), over, &mut found, &mut waiting)?;
    }
    Ok(true)
}

/// Puts in the ends of those edges that are silent or have a letter in common with `over`.
fn insert_ends<L: LabelSet>(
    alloc: Global,
    edges: &[Edge<L>],
    over: &L,
    found: &mut [bool],
    waiting: &mut Vec<usize>,
) -> Result<(), AllocError>
    requires states { All (λ edge. edge.to < length found.old) edges.now }
    requires sized { All (λ edge. ForSome edge.label (λ set. length (L.letters set)
        ≡ length (L.letters over.now))) edges.now }
    requires waiting { All (λ q. q < length found.old) waiting.old.items }
    ensures finds { IfOk result (λ _. Finds (OpensTo (L.letters over.now) (map (move_of L.letters)
        edges.now)) found.old waiting.old.items found.new waiting.new.items) }
    ensures waiting { IfOk result (λ _. All (λ q. q < length found.new) waiting.new.items) }
{
    for edge in edges {
        insert_end(alloc, edge, over, found, waiting)?;
    }
    Ok(())
}

/// Puts in the end of the edge, unless it was found before, if the edge is silent or has a letter
/// in common with `over`.
fn insert_end<L: LabelSet>(
    alloc: Global,
    edge: &Edge<L>,
    over: &L,
    found: &mut [bool],
    waiting: &mut Vec<usize>,
) -> Result<(), AllocError>
    requires state { edge.now.to < length found.old }
    requires sized { ForSome edge.now.label (λ set. length (L.letters set)
        ≡ length (L.letters over.now)) }
    requires waiting { All (λ q. q < length found.old) waiting.old.items }
    ensures finds { IfOk result (λ _. Finds (OpensTo (L.letters over.now)
        (move_of L.letters edge.now ∷ [])) found.old waiting.old.items found.new
        waiting.new.items) }
    ensures waiting { IfOk result (λ _. All (λ q. q < length found.new) waiting.new.items) }
{
    if found[edge.to] {
        return Ok(());
    }
    if is_open(alloc, edge, over)? {
        insert(found, waiting, edge.to)?;
    }
    Ok(())
}

/// Whether the edge is silent or has a letter in common with `over`. Time: a set operation.
fn is_open<L: LabelSet>(alloc: Global, edge: &Edge<L>, over: &L) -> Result<bool, AllocError>
    requires { ForSome edge.now.label (λ set. length (L.letters set)
        ≡ length (L.letters over.now)) }
    ensures { IfOk result (λ is. IsTrue is ↔
        IsOpen (L.letters over.now) (move_of L.letters edge.now).label) }
{
    match &edge.label {
        Some(label) => {
            let common = label.meet(alloc, over)?;
            Ok(common.least().is_some())
        }
        None => Ok(true),
    }
}

/// Puts in a state that wasn't found before: it is flagged, and waits for its edges to be followed.
fn insert(found: &mut [bool], waiting: &mut Vec<usize>, q: usize) -> Result<(), AllocError>
    requires state { q < length found.old }
    requires lacking { ¬ HasFlag found.old q }
    requires waiting { All (λ p. p < length found.old) waiting.old.items }
    ensures finds { IfOk result (λ _. Finds (λ p. p ≡ q) found.old waiting.old.items found.new
        waiting.new.items) }
    ensures waiting { IfOk result (λ _. All (λ p. p < length found.new) waiting.new.items) }
{
    waiting.push(q)?;
    found[q] = true;
    Ok(())
}
