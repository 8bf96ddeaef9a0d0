//! The silent edges of automata.
ghost use Rattle.std.specs.Prelude.{◌≡◌, ◌++◌, IfOk, OnOk, map};
ghost use Rattle.rela_nfa.specs.Stored.{move_of};
ghost use Rattle.rela_subset.specs.Silent.{IsSilentAs, if_silent, silents};

use rela_labels::LabelSet;
use rela_nfa::{Edge, EdgeLists, Nfa};
use std::alloc::{AllocError, Global};

/// The automaton with the same states, of whose edges only the silent ones are left. Where sets of
/// states are closed again and again, no other edge is looked at then. Time: linear in the states
/// and the edges; space: linear in the states and the silent edges.
pub(crate) fn silent_part<L: LabelSet>(alloc: Global, a: &Nfa<L>) -> Result<Nfa<L>, AllocError>
    ensures { IfOk result (IsSilentAs a.now) }
{
    let finals = vec![in alloc; false; a.states()]?;
    let edges = silent_lists(alloc, a)?;
    Ok(Nfa::from_lists(a.letters(), a.start(), finals, edges))
}

/// The silent edges of each state.
fn silent_lists<L: LabelSet>(alloc: Global, a: &Nfa<L>) -> Result<EdgeLists<L>, AllocError>
    ensures { IfOk result (λ edges. edges ≡ map silents a.now.edges) }
{
    let mut edges = EdgeLists::with_capacity(alloc, a.states(), 0)?;
    let mut leaving = Vec::new(alloc);
    for q in 0..a.states() {
        push_silent(&mut leaving, a.edges(q))?;
        edges.push(&mut leaving)?;
    }
    Ok(edges)
}

/// Puts those of the other edges that are silent behind these.
fn push_silent<L: LabelSet>(edges: &mut Vec<Edge<L>>, others: &[Edge<L>]) -> Result<(), AllocError>
    ensures { OnOk result (map (move_of L.letters) edges.new.items
        ≡ map (move_of L.letters) edges.old.items ++ silents (map (move_of L.letters) others.now)) }
{
    for edge in others {
        push_if_silent(edges, edge)?;
    }
    Ok(())
}

/// Puts the edge behind the others, if it is silent.
fn push_if_silent<L: LabelSet>(edges: &mut Vec<Edge<L>>, edge: &Edge<L>) -> Result<(), AllocError>
    ensures { OnOk result (map (move_of L.letters) edges.new.items
        ≡ map (move_of L.letters) edges.old.items
        ++ if_silent (move_of L.letters edge.now).label edge.now.to) }
{
    if edge.label.is_none() {
        edges.push(Edge {
            label: None,
            to: edge.to,
        })?;
    }
    Ok(())
}
