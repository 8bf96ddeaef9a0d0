//! The edges into each node.
ghost use Rattle.std.specs.Prelude.{◌<◌, ◌≤◌, IfOk, length};
ghost use Rattle.std.specs.List.{All};
ghost use Rattle.rela_graph.specs.Incoming.{IsChained};

use crate::node::Link;
use std::alloc::{AllocError, Global};

/// The edges into each node, as a chain that leads from the last of them to the first. A place is
/// that of an edge among all edges.
#[derive(Drop)]
pub(crate) struct Incoming {
    /// For each node the place of the last edge into it, and `None` where there is none.
    pub(crate) last: Vec<Option<u32>>,
    /// For each edge the place of the last edge before it into the same node, and `None` where
    /// there is none.
    pub(crate) before: Vec<Option<u32>>,
}

impl Incoming {
    /// The edges into each node below `count`. Time and space: linear in the nodes and the edges.
    pub(crate) fn new(alloc: Global, edges: &[Link], count: usize) -> Result<Incoming, AllocError>
        requires ends { All (λ link. link.b < count) edges.now }
        requires few { length edges.now ≤ 100000 }
        ensures { IfOk result (λ incoming. IsChained count edges.now incoming.last.items
            incoming.before.items) }
    {
        let mut last = vec![in alloc; None; count]?;
        let mut before = Vec::with_capacity(alloc, edges.len())?;
        for (place, edge) in edges.iter().enumerate() {
            before.push(last[edge.b as usize])?;
            last[edge.b as usize] = Some(place as u32);
        }
        Ok(Incoming { last, before })
    }
}
