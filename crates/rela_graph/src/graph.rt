//! What a forwarding graph is, and what it tells of itself.
ghost use Rattle.std.specs.Prelude.{◌≡◌, ℕ, ◌<◌, ◌≤◌, ◌↔◌, IsTrue, IfOk, Contains, length, vec_len};
ghost use Rattle.std.specs.List.{All, AllWithin};
ghost use Rattle.std.specs.List.Sorted.{IsSorted, IsPartitionPoint};
ghost use Rattle.rela_graph.specs.Adjacency.{IsIndexed, link_cmp};
ghost use Rattle.rela_graph.specs.Topology.{IsTopology, JoinsNodes, IsEdgeFrom, HasEdge, IsStart, IsDelivered, IsDropped, HasFlag};
ghost use Rattle.rela_graph.specs.declared.node.Link.{Link};

use crate::node::{Link, Node};
use std::alloc::{AllocError, Global};
use std::marker::Model;

/// The greatest number of nodes of one graph.
pub const MAX_NODES: usize = 10_000;

/// The greatest number of edges of one graph.
pub const MAX_EDGES: usize = 100_000;

/// How one class of traffic is forwarded: a directed graph of nodes that are numbered from 0, some
/// of which are starts, and some of which are listed as those that deliver or drop the traffic. It
/// has at most [`MAX_NODES`] nodes and [`MAX_EDGES`] edges. Contracts see it as a [`Topology`]: the
/// lists of its nodes and edges, and a flag of each kind for each node.
#[derive(Debug, Drop)]
pub struct Graph {
    /// The nodes, in the order of their numbers.
    nodes: Vec<Node>,
    /// The edges, each once, in ascending order of the node that they come from and then of the one
    /// that they lead to.
    edges: Vec<Link>,
    /// For each node, and for the number after the last, how many edges come from nodes before it.
    offsets: Vec<u32>,
    /// For each node whether a walk may begin at it.
    starts: Vec<bool>,
    /// For each node whether it is listed as one that delivers.
    delivered: Vec<bool>,
    /// For each node whether it is listed as one that drops.
    dropped: Vec<bool>,
}

impl Model for Graph {
    ghost use Rattle.rela_graph.specs.Topology.{Topology};

    ghost Value = { Topology };

    ghost use Rattle.rela_graph.specs.Stored.{topology, IsStored};

    ghost view = { topology };

    ghost invariant = { IsStored };
}

impl Graph {
    /// The graph of these nodes, edges, starts and lists of nodes that deliver and that drop.
    /// Repetitions count once. Nodes are named by their place in the list. Time: n log n in the
    /// edges, and linear in the nodes and the lists; space: linear in the nodes and the edges.
    pub fn new(
        alloc: Global,
        nodes: Vec<Node>,
        edges: &[Link],
        starts: &[u32],
        delivered: &[u32],
        dropped: &[u32],
    ) -> Result<Graph, AllocError>
        requires few_nodes { length nodes.items ≤ MAX_NODES }
        requires few_edges { length edges.now ≤ MAX_EDGES }
        requires edges_join { All (JoinsNodes (length nodes.items)) edges.now }
        requires starts_exist { All (λ n. n < length nodes.items) starts.now }
        requires delivered_exist { All (λ n. n < length nodes.items) delivered.now }
        requires dropped_exist { All (λ n. n < length nodes.items) dropped.now }
        ensures topology { IfOk result IsTopology }
        ensures nodes { IfOk result (λ graph. graph.nodes ≡ nodes.items) }
        ensures edges { IfOk result (λ graph. (a b : ℕ) → HasEdge graph a b ↔
            Contains edges.now (record { a = a; b = b })) }
        ensures starts { IfOk result (λ graph. (n : ℕ) → IsStart graph n ↔ Contains starts.now n) }
        ensures delivered { IfOk result (λ graph. (n : ℕ) → IsDelivered graph n ↔
            Contains delivered.now n) }
        ensures dropped { IfOk result (λ graph. (n : ℕ) → IsDropped graph n ↔
            Contains dropped.now n) }
    {
        let count = nodes.len();
        let edges = sorted(alloc, edges)?;
        let offsets = offsets_of(alloc, &edges, count)?;
        let starts = flags_of(alloc, starts, count)?;
        let delivered = flags_of(alloc, delivered, count)?;
        let dropped = flags_of(alloc, dropped, count)?;
        Ok(Graph {
            nodes,
            edges,
            offsets,
            starts,
            delivered,
            dropped,
        })
    }

    /// The nodes, in the order of their numbers.
    pub fn nodes(&self) -> &[Node]
        ensures nodes { result.now ≡ self.now.nodes }
        ensures topology { IsTopology self.now }
    {
        self.nodes.as_slice()
    }

    /// Whether a walk may begin at the node. `false` for a number that is no node's.
    pub(crate) fn is_start(&self, n: u32) -> bool
        ensures start { IsTrue result ↔ IsStart self.now n }
        ensures node { IsTrue result → n < length self.now.nodes }
    {
        self.starts.get(n as usize).copied().unwrap_or(false)
    }

    /// Whether the node is listed as one that delivers. `false` for a number that is no node's.
    pub(crate) fn is_delivered(&self, n: u32) -> bool
        ensures delivered { IsTrue result ↔ IsDelivered self.now n }
        ensures node { IsTrue result → n < length self.now.nodes }
    {
        self.delivered.get(n as usize).copied().unwrap_or(false)
    }

    /// Whether the node is listed as one that drops. `false` for a number that is no node's.
    pub(crate) fn is_dropped(&self, n: u32) -> bool
        ensures dropped { IsTrue result ↔ IsDropped self.now n }
        ensures node { IsTrue result → n < length self.now.nodes }
    {
        self.dropped.get(n as usize).copied().unwrap_or(false)
    }

    /// For each node whether a walk may begin at it.
    pub(crate) fn starts(&self) -> &[bool]
        ensures { result.now ≡ self.now.starts }
    {
        self.starts.as_slice()
    }

    /// For each node whether it is listed as one that delivers.
    pub(crate) fn delivered(&self) -> &[bool]
        ensures delivered { result.now ≡ self.now.delivered }
        ensures topology { IsTopology self.now }
    {
        self.delivered.as_slice()
    }

    /// For each node whether it is listed as one that drops.
    pub(crate) fn dropped(&self) -> &[bool]
        ensures { result.now ≡ self.now.dropped }
    {
        self.dropped.as_slice()
    }

    /// The edges, in ascending order of the node that they come from and then of the one that they
    /// lead to.
    pub(crate) fn edges(&self) -> &[Link]
        ensures edges { result.now ≡ self.now.edges }
        ensures topology { IsTopology self.now }
    {
        self.edges.as_slice()
    }

    /// The edges that come from a node.
    pub(crate) fn edges_from(&self, n: u32) -> &[Link]
        requires { n < length self.now.nodes }
        ensures few { length result.now ≤ length self.now.edges }
        ensures each { All (IsEdgeFrom self.now n) result.now }
        ensures all { (b : ℕ) → HasEdge self.now n b →
            Contains result.now (record { a = n; b = b }) }
    {
        let from = self.offsets[n as usize] as usize;
        let to = self.offsets[n as usize + 1] as usize;
        &self.edges[from..to]
    }
}

/// The edges in ascending order, each once.
fn sorted(alloc: Global, edges: &[Link]) -> Result<Vec<Link>, AllocError>
    ensures same { IfOk result (λ v. (link : Link) → Contains v.items link ↔
        Contains edges.now link) }
    ensures ordered { IfOk result (λ v. IsSorted link_cmp v.items) }
    ensures few { IfOk result (λ v. vec_len v ≤ length edges.now) }
{
    let mut edges = Vec::from_slice(alloc, edges)?;
    edges.sort_unstable();
    edges.dedup();
    Ok(edges)
}

/// For each node, and for the number after the last, how many edges come from nodes before it.
fn offsets_of(alloc: Global, edges: &[Link], count: usize) -> Result<Vec<u32>, AllocError>
    requires ordered { IsSorted link_cmp edges.now }
    requires few_edges { length edges.now ≤ MAX_EDGES }
    requires few_nodes { count ≤ MAX_NODES }
    ensures { IfOk result (λ v. IsIndexed count edges.now v.items) }
{
    let mut offsets = Vec::with_capacity(alloc, count + 1)?;
    let mut before = 0;
    for n in 0..count + 1 {
        before = edges_before(edges, before, n);
        offsets.push(before as u32)?;
    }
    Ok(offsets)
}

/// How many edges come from nodes before `n`, as the first `from` do. Time: linear in the others
/// that do.
fn edges_before(edges: &[Link], from: usize, n: usize) -> usize
    requires ordered { IsSorted link_cmp edges.now }
    requires within { from ≤ length edges.now }
    requires before { AllWithin (λ link. link.a < n) edges.now 0 from }
    ensures parted { IsPartitionPoint (λ link. link.a < n) (λ link. n ≤ link.a) edges.now result }
    ensures within { result ≤ length edges.now }
{
    let mut before = from;
    'edges: while before < edges.len() && (edges[before].a as usize) < n {
        before += 1;
    }
    before
}

/// A flag for each number below `count`, which is set for those that are listed.
fn flags_of(alloc: Global, listed: &[u32], count: usize) -> Result<Vec<bool>, AllocError>
    requires { All (λ n. n < count) listed.now }
    ensures len { IfOk result (λ v. vec_len v ≡ count) }
    ensures flags { IfOk result (λ v. (n : ℕ) → HasFlag v.items n ↔ Contains listed.now n) }
{
    let mut flags = vec![in alloc; false; count]?;
    for n in listed {
        flags[*n as usize] = true;
    }
    Ok(flags)
}
