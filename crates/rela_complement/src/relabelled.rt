//! The same automaton by other letters.
ghost use Rattle.std.specs.Prelude.{◌≡◌, ◌^◌, ◌<◌, ◌++◌, IfOk, OnOk, length, map};
ghost use Rattle.rela_nfa.specs.Relabelling.{IsRelabelled, relabelled_move};
ghost use Rattle.rela_nfa.specs.Stored.{move_of};

use crate::copied::finals_of;
use rela_labels::WideSet;
use rela_nfa::{Edge, EdgeLists, Nfa, relabelled_set};
use std::alloc::{AllocError, Global};

/// The automaton that reads each letter as the one that is given for it. Time: a step for each state
/// and each edge, with a look at each letter for each label; space: linear in the states and the edges,
/// with their labels. The only error is want of memory.
pub(crate) fn relabelled(
    alloc: Global,
    nfa: &Nfa<WideSet>,
    letters: &[u32],
) -> Result<Nfa<WideSet>, AllocError>
    requires { length letters.now < 2 ^ 32 }
    ensures { IfOk result (IsRelabelled letters.now nfa.now) }
{
    let finals = finals_of(alloc, nfa)?;
    let edges = relabelled_edges(alloc, nfa, letters)?;
    Ok(Nfa::from_lists(letters.len() as u32, nfa.start(), finals, edges))
}

/// The edges that leave each state, by these letters. The only error is want of memory.
fn relabelled_edges(
    alloc: Global,
    nfa: &Nfa<WideSet>,
    letters: &[u32],
) -> Result<EdgeLists<WideSet>, AllocError>
    requires { length letters.now < 2 ^ 32 }
    ensures { IfOk result (λ edges. edges ≡ map (map (relabelled_move letters.now)) nfa.now.edges) }
{
    let mut edges = EdgeLists::with_capacity(alloc, nfa.states(), nfa.edge_count())?;
    let mut leaving = Vec::new(alloc);
    for q in 0..nfa.states() {
        push_relabelled(alloc, &mut leaving, nfa.edges(q), letters)?;
        edges.push(&mut leaving)?;
    }
    Ok(edges)
}

/// Adds the other edges to these, by these letters. The only error is want of memory.
fn push_relabelled(
    alloc: Global,
    edges: &mut Vec<Edge<WideSet>>,
    others: &[Edge<WideSet>],
    letters: &[u32],
) -> Result<(), AllocError>
    requires { length letters.now < 2 ^ 32 }
    ensures { OnOk result (map (move_of (λ set. set)) edges.new.items
        ≡ map (move_of (λ set. set)) edges.old.items
        ++ map (relabelled_move letters.now) (map (move_of (λ set. set)) others.now)) }
{
    for edge in others {
        edges.push(relabelled_edge(alloc, edge, letters)?)?;
    }
    Ok(())
}

/// The edge by these letters. The only error is want of memory.
fn relabelled_edge(
    alloc: Global,
    edge: &Edge<WideSet>,
    letters: &[u32],
) -> Result<Edge<WideSet>, AllocError>
    requires { length letters.now < 2 ^ 32 }
    ensures { IfOk result (λ new. move_of (λ set. set) new
        ≡ relabelled_move letters.now (move_of (λ set. set) edge.now)) }
{
    let to = edge.to;
    match &edge.label {
        Some(set) => Ok(Edge {
            label: Some(relabelled_set(alloc, set, letters)?),
            to,
        }),
        None => Ok(Edge { label: None, to }),
    }
}
