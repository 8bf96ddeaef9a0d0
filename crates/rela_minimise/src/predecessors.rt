//! The states from which edges lead to a state.
ghost use Rattle.std.specs.Prelude.{◌≡◌, ℕ, ◌<◌, [], IfOk, length, map, slice_index_or};
ghost use Rattle.std.specs.List.{All};
ghost use Rattle.rela_nfa.specs.Stored.{move_of};
ghost use Rattle.rela_subset.specs.Deterministic.{IsDeterministic, states};
ghost use Rattle.rela_minimise.specs.Refining.{ArePredecessors, HasAdded};
ghost use Rattle.rela_minimise.specs.Stored.{lists_of};

use crate::lists::put;
use rela_labels::LabelSet;
use rela_nfa::Edge;
use rela_subset::Dfa;
use std::alloc::{AllocError, Global};

/// For each state, the states from which an edge leads to it, each once for each such edge. Time
/// and space: linear in the states and the edges.
pub(crate) fn predecessors<L: LabelSet>(
    alloc: Global,
    dfa: &Dfa<L>,
) -> Result<Vec<Vec<usize>>, AllocError>
    requires { IsDeterministic dfa.now }
    ensures { IfOk result (λ lists. ArePredecessors dfa.now (lists_of lists.items)) }
{
    let mut lists = empty_lists(alloc, dfa.states())?;
    for p in 0..dfa.states() {
        add_all(&mut lists, dfa.edges(p), p)?;
    }
    Ok(lists)
}

/// As many empty lists as `count`.
fn empty_lists(alloc: Global, count: usize) -> Result<Vec<Vec<usize>>, AllocError>
    ensures each { IfOk result (λ lists. length lists.items ≡ count) }
    ensures empty { IfOk result (λ lists. (i : ℕ) →
        slice_index_or (lists_of lists.items) i [] ≡ []) }
{
    let mut lists = Vec::with_capacity(alloc, count)?;
    for _i in 0..count {
        lists.push(Vec::new(alloc))?;
    }
    Ok(lists)
}

/// Puts the state into the list of the end of each of the edges.
fn add_all<L: LabelSet>(
    lists: &mut Vec<Vec<usize>>,
    edges: &[Edge<L>],
    p: usize,
) -> Result<(), AllocError>
    requires { All (λ edge. edge.to < length lists.old.items) edges.now }
    ensures each { IfOk result (λ _. length lists.new.items ≡ length lists.old.items) }
    ensures added { IfOk result (λ _. HasAdded (map (move_of L.letters) edges.now) p
        (lists_of lists.old.items) (lists_of lists.new.items)) }
{
    for edge in edges {
        put(lists, edge.to, p)?;
    }
    Ok(())
}
