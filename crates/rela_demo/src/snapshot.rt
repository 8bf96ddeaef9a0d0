//! The texts of the snapshots.

ghost use Rattle.std.specs.Prelude.{◌≡◌, ◌≤◌, ◌++◌, IfOk, OnOk};
ghost use Rattle.rela_demo.specs.Layers.{cut, cut_off, layered, lost, node_labels};
ghost use Rattle.rela_demo.specs.Pieces.{Writes, flow_text, nodes_text, snapshot_text};

use crate::labels::push_labels;
use crate::layers::{a_place, b_place, edges_of, layer, leave_out, remove};
use crate::pieces::{push_edges, push_nodes, push_numbers};
use rela_graph::Link;
use std::alloc::{AllocError, Global};

/// The number of bytes of the name of an interface in quotes, and a comma.
const NODE_BYTES: usize = 9;

/// The greatest number of bytes of an edge and a comma.
const EDGE_BYTES: usize = 10;

/// The greatest number of bytes of a list of at most two places.
const PLACES_BYTES: usize = 9;

/// The greatest number of bytes of a flow beside its nodes and edges, with its share of what stands
/// round the flows.
const FLOW_BYTES: usize = 116;

/// The lists of a graph as JSON arrays.
#[derive(Drop)]
pub(crate) struct GraphText {
    /// The edges.
    pub(crate) edges: Vec<u8>,
    /// The places of the nodes that deliver.
    pub(crate) delivered: Vec<u8>,
    /// The places of the nodes that drop.
    pub(crate) dropped: Vec<u8>,
}

/// An array of the names of the nodes of the input of `n` layers. Time and space: linear in `n`.
///
/// # Errors
///
/// Only where memory is wanted.
pub(crate) fn nodes_text(alloc: Global, n: u32) -> Result<Vec<u8>, AllocError>
    requires from_one { 1 ≤ n }
    requires at_most { n ≤ 200 }
    ensures { IfOk result (λ text. text.items ≡ nodes_text (node_labels n)) }
{
    let mut labels = Vec::with_capacity(alloc, 2 * n as usize)?;
    labels.push((b'a', 1))?;
    push_labels(&mut labels, 2, n + 1)?;
    let mut text = Vec::with_capacity(alloc, 2 * NODE_BYTES * n as usize)?;
    push_nodes(&mut text, labels.as_slice())?;
    Ok(text)
}

/// The text of a graph of these edges and nodes that deliver and drop. Time: linear in their
/// number.
fn graph_text(
    alloc: Global,
    edges: &[Link],
    delivered: &[u32],
    dropped: &[u32],
) -> Result<GraphText, AllocError>
    ensures { IfOk result (λ text. Writes (record {
      edges = edges.now;
      delivered = delivered.now;
      dropped = dropped.now;
    }) text) }
{
    let mut text = GraphText {
        edges: Vec::with_capacity(
            alloc,
            edges.len().saturating_mul(EDGE_BYTES).saturating_add(2),
        )?,
        delivered: Vec::with_capacity(alloc, PLACES_BYTES)?,
        dropped: Vec::with_capacity(alloc, PLACES_BYTES)?,
    };
    push_edges(&mut text.edges, edges)?;
    push_numbers(&mut text.delivered, delivered)?;
    push_numbers(&mut text.dropped, dropped)?;
    Ok(text)
}

/// The text of the layered graph.
pub(crate) fn layered_text(alloc: Global, n: u32) -> Result<GraphText, AllocError>
    requires from_one { 1 ≤ n }
    requires at_most { n ≤ 200 }
    ensures { IfOk result (λ text. Writes (layered n) text) }
{
    let edges = edges_of(alloc, n)?;
    let last = layer(alloc, n)?;
    graph_text(alloc, edges.as_slice(), last.as_slice(), &[])
}

/// The text of the graph in which b of the last layer is cut off, and the layer before drops.
fn cut_off_text(alloc: Global, n: u32) -> Result<GraphText, AllocError>
    requires from_one { 1 ≤ n }
    requires at_most { n ≤ 200 }
    ensures { IfOk result (λ text. Writes (cut_off n) text) }
{
    let mut edges = edges_of(alloc, n)?;
    leave_out(&mut edges, b_place(n));
    let mut delivered = layer(alloc, n)?;
    remove(&mut delivered, b_place(n));
    let dropped = layer(alloc, n - 1)?;
    graph_text(
        alloc,
        edges.as_slice(),
        delivered.as_slice(),
        dropped.as_slice(),
    )
}

/// The text of the graph of f7 after the change.
pub(crate) fn cut_text(alloc: Global, n: u32) -> Result<GraphText, AllocError>
    requires from_one { 1 ≤ n }
    requires at_most { n ≤ 200 }
    ensures { IfOk result (λ text. Writes (cut n) text) }
{
    if n == 1 {
        layered_text(alloc, n)
    } else {
        cut_off_text(alloc, n)
    }
}

/// The text of the graph of f8 after the change, in which a of the last layer doesn't deliver.
pub(crate) fn lost_text(alloc: Global, n: u32) -> Result<GraphText, AllocError>
    requires from_one { 1 ≤ n }
    requires at_most { n ≤ 200 }
    ensures { IfOk result (λ text. Writes (lost n) text) }
{
    let edges = edges_of(alloc, n)?;
    let mut delivered = layer(alloc, n)?;
    remove(&mut delivered, a_place(n));
    graph_text(alloc, edges.as_slice(), delivered.as_slice(), &[])
}

/// Adds the flow of a number from 1 to 8, with its graph and its nodes.
fn push_flow(
    text: &mut Vec<u8>,
    number: u8,
    nodes: &[u8],
    graph: &GraphText,
) -> Result<(), AllocError>
    requires { number ≤ 8 }
    ensures { OnOk result (text.new.items
        ≡ text.old.items ++ flow_text number nodes.now graph.now) }
{
    let digit = b'0' + number;
    text.extend_from_slice(b"{\"delivered\":")?;
    text.extend_from_slice(graph.delivered.as_slice())?;
    text.extend_from_slice(b",\"dropped\":")?;
    text.extend_from_slice(graph.dropped.as_slice())?;
    text.extend_from_slice(b",\"dst\":\"10.0.")?;
    text.push(digit)?;
    text.extend_from_slice(b".0/24\",\"edges\":")?;
    text.extend_from_slice(graph.edges.as_slice())?;
    text.extend_from_slice(b",\"name\":\"f")?;
    text.push(digit)?;
    text.extend_from_slice(b"\",\"nodes\":")?;
    text.extend_from_slice(nodes)?;
    text.extend_from_slice(b",\"starts\":[0]}")?;
    Ok(())
}

/// The text of the snapshot of f1 to f8 on these nodes. The first six have the layered graph, f7
/// and f8 the graphs that are given. Time: linear in the text.
///
/// # Errors
///
/// Only where memory is wanted.
pub(crate) fn snapshot_text(
    alloc: Global,
    nodes: &[u8],
    layered: &GraphText,
    seventh: &GraphText,
    eighth: &GraphText,
) -> Result<Vec<u8>, AllocError>
    ensures { IfOk result (λ text. text.items
        ≡ snapshot_text nodes.now layered.now seventh.now eighth.now) }
{
    let lists = nodes.len().saturating_add(layered.edges.len());
    let bytes = lists.saturating_add(FLOW_BYTES).saturating_mul(8);
    let mut text = Vec::with_capacity(alloc, bytes)?;
    text.extend_from_slice(b"{\"version\":1,\"flows\":[")?;
    for number in 1..7 {
        push_flow(&mut text, number, nodes, layered)?;
        text.push(b',')?;
    }
    push_flow(&mut text, 7, nodes, seventh)?;
    text.push(b',')?;
    push_flow(&mut text, 8, nodes, eighth)?;
    text.extend_from_slice(b"]}")?;
    Ok(text)
}
