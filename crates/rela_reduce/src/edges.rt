//! Edges for arrows.
ghost use Rattle.std.specs.Prelude.{◌≡◌, ◌<◌, IfOk, length, map, take};
ghost use Rattle.std.specs.List.{All};
ghost use Rattle.std.specs.Option.{ForSome};
ghost use Rattle.rela_nfa.specs.Stored.{move_of};
ghost use Rattle.rela_reduce.specs.Numbered.{edges_by, labelled};
ghost use Rattle.rela_reduce.specs.Stored.{lists_of};

use crate::arrow::Arrow;
use crate::labels::Labels;
use rela_labels::LabelSet;
use rela_nfa::{Edge, EdgeLists};
use std::alloc::{AllocError, Global};

/// The edges of the arrows of each state, each with a copy of its label.
pub(crate) fn edge_lists<L: LabelSet>(
    alloc: Global,
    lists: &[Vec<Arrow>],
    labels: &Labels<'_, L>,
) -> Result<EdgeLists<L>, AllocError>
    requires { All (All (λ arrow. ForSome arrow.label (λ k. k < length labels.now)))
        (lists_of lists.now) }
    ensures { IfOk result (λ edges. edges ≡ edges_by labels.now (lists_of lists.now)) }
{
    let mut edges = EdgeLists::with_capacity(alloc, lists.len(), 0)?;
    for arrows in lists {
        let mut list = edges_of(alloc, arrows, labels)?;
        edges.push(&mut list)?;
    }
    Ok(edges)
}

/// The edges of the arrows.
fn edges_of<L: LabelSet>(
    alloc: Global,
    arrows: &[Arrow],
    labels: &Labels<'_, L>,
) -> Result<Vec<Edge<L>>, AllocError>
    requires { All (λ arrow. ForSome arrow.label (λ k. k < length labels.now)) arrows.now }
    ensures { IfOk result (λ edges. map (move_of L.letters) edges.items
        ≡ map (labelled labels.now) arrows.now) }
{
    let mut edges = Vec::with_capacity(alloc, arrows.len())?;
    for arrow in arrows {
        edges.push(edge_of(alloc, *arrow, labels)?)?;
    }
    Ok(edges)
}

/// The edge of the arrow.
fn edge_of<L: LabelSet>(
    alloc: Global,
    arrow: Arrow,
    labels: &Labels<'_, L>,
) -> Result<Edge<L>, AllocError>
    requires { ForSome arrow.label (λ k. k < length labels.now) }
    ensures { IfOk result (λ edge. move_of L.letters edge ≡ labelled labels.now arrow) }
{
    let to = arrow.to;
    match arrow.label {
        Some(number) => Ok(Edge {
            label: Some(labels.get(number).copy(alloc)?),
            to,
        }),
        None => Ok(Edge { label: None, to }),
    }
}
