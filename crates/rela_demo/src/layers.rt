//! The layers of a graph and the edges between them.

ghost use Rattle.std.specs.Prelude.{◌≡◌, ◌≤◌, ◌++◌, IfOk, OnOk};
ghost use Rattle.rela_demo.specs.Layers.{a_place, b_place, edges_from, edges_into, edges_of, layer, not_into, without};

use rela_graph::Link;
use std::alloc::{AllocError, Global};

/// The place of a of a layer among the nodes.
pub(crate) fn a_place(layer: u32) -> u32
    requires { layer ≤ 200 }
    ensures { result ≡ a_place layer }
{
    (2 * layer).saturating_sub(3)
}

/// The place of b of a layer among the nodes.
pub(crate) fn b_place(layer: u32) -> u32
    requires { layer ≤ 200 }
    ensures { result ≡ b_place layer }
{
    (2 * layer).saturating_sub(2)
}

/// The places of the nodes of a layer.
///
/// # Errors
///
/// Only where memory is wanted.
pub(crate) fn layer(alloc: Global, number: u32) -> Result<Vec<u32>, AllocError>
    requires { number ≤ 200 }
    ensures { IfOk result (λ places. places.items ≡ layer number) }
{
    let mut places = Vec::with_capacity(alloc, 2)?;
    places.push(a_place(number))?;
    if number == 1 {
        return Ok(places);
    }
    places.push(b_place(number))?;
    Ok(places)
}

/// Adds the edges from a node to both nodes of a layer.
fn push_edges_from(edges: &mut Vec<Link>, layer: u32, node: u32) -> Result<(), AllocError>
    requires { layer ≤ 200 }
    ensures { OnOk result (edges.new.items ≡ edges.old.items ++ edges_from layer node) }
{
    edges.push(Link {
        a: node,
        b: a_place(layer),
    })?;
    edges.push(Link {
        a: node,
        b: b_place(layer),
    })?;
    Ok(())
}

/// Adds the edges from every node of the layer before.
fn push_edges_into(edges: &mut Vec<Link>, layer: u32) -> Result<(), AllocError>
    requires from_second { 2 ≤ layer }
    requires at_most { layer ≤ 200 }
    ensures { OnOk result (edges.new.items ≡ edges.old.items ++ edges_into layer) }
{
    push_edges_from(edges, layer, a_place(layer - 1))?;
    if layer == 2 {
        return Ok(());
    }
    push_edges_from(edges, layer, b_place(layer - 1))
}

/// The edges of the layered graph of `n` layers. Time and space: linear in `n`.
///
/// # Errors
///
/// Only where memory is wanted.
pub(crate) fn edges_of(alloc: Global, n: u32) -> Result<Vec<Link>, AllocError>
    requires from_one { 1 ≤ n }
    requires at_most { n ≤ 200 }
    ensures { IfOk result (λ edges. edges.items ≡ edges_of n) }
{
    let mut edges = Vec::with_capacity(alloc, 4 * n as usize)?;
    for layer in 2..n + 1 {
        push_edges_into(&mut edges, layer)?;
    }
    Ok(edges)
}

/// Leaves out the edges into a node.
pub(crate) fn leave_out(edges: &mut Vec<Link>, node: u32)
    ensures { edges.new.items ≡ not_into node edges.old.items }
{
    edges.retain(|edge| edge.b != node);
}

/// Leaves out a place.
pub(crate) fn remove(places: &mut Vec<u32>, place: u32)
    ensures { places.new.items ≡ without place places.old.items }
{
    places.retain(|other| *other != place);
}
