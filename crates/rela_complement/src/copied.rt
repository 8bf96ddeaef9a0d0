//! Copies of automata.
ghost use Rattle.std.specs.Prelude.{◌≡◌, ◌++◌, IfOk, OnOk, map};
ghost use Rattle.rela_nfa.specs.Stored.{move_of};

use rela_labels::LabelSet;
use rela_nfa::{Edge, EdgeLists, Nfa};
use std::alloc::{AllocError, Global};

/// A copy of the automaton. Time and space: linear in the states and the edges, whose labels are
/// copied. The only error is want of memory.
pub(crate) fn copied<L: LabelSet>(alloc: Global, nfa: &Nfa<L>) -> Result<Nfa<L>, AllocError>
    ensures { IfOk result (λ copy. copy ≡ nfa.now) }
{
    let finals = finals_of(alloc, nfa)?;
    let edges = edges_of(alloc, nfa)?;
    Ok(Nfa::from_lists(nfa.letters(), nfa.start(), finals, edges))
}

/// For each state whether it is final. The only error is want of memory.
pub(crate) fn finals_of<L: LabelSet>(alloc: Global, nfa: &Nfa<L>) -> Result<Vec<bool>, AllocError>
    ensures { IfOk result (λ finals. finals.items ≡ nfa.now.finals) }
{
    let mut finals = Vec::with_capacity(alloc, nfa.states())?;
    for q in 0..nfa.states() {
        finals.push(nfa.is_final(q))?;
    }
    Ok(finals)
}

/// Copies of the edges that leave each state. The only error is want of memory.
fn edges_of<L: LabelSet>(alloc: Global, nfa: &Nfa<L>) -> Result<EdgeLists<L>, AllocError>
    ensures { IfOk result (λ edges. edges ≡ nfa.now.edges) }
{
    let mut edges = EdgeLists::with_capacity(alloc, nfa.states(), nfa.edge_count())?;
    let mut leaving = Vec::new(alloc);
    for q in 0..nfa.states() {
        push_copies(alloc, &mut leaving, nfa.edges(q))?;
        edges.push(&mut leaving)?;
    }
    Ok(edges)
}

/// Adds copies of the other edges to these. The only error is want of memory.
fn push_copies<L: LabelSet>(
    alloc: Global,
    edges: &mut Vec<Edge<L>>,
    others: &[Edge<L>],
) -> Result<(), AllocError>
    ensures { OnOk result (map (move_of L.letters) edges.new.items
        ≡ map (move_of L.letters) edges.old.items ++ map (move_of L.letters) others.now) }
{
    for edge in others {
        edges.push(copy_of(alloc, edge)?)?;
    }
    Ok(())
}

/// A copy of the edge. The only error is want of memory.
fn copy_of<L: LabelSet>(alloc: Global, edge: &Edge<L>) -> Result<Edge<L>, AllocError>
    ensures { IfOk result (λ copy. move_of L.letters copy ≡ move_of L.letters edge.now) }
{
    let to = edge.to;
    match &edge.label {
        Some(label) => Ok(Edge {
            label: Some(label.copy(alloc)?),
            to,
        }),
        None => Ok(Edge { label: None, to }),
    }
}
