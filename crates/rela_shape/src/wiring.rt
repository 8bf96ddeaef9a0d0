//! What a graph tells of its nodes but for their locations.

ghost use Rattle.std.specs.Prelude.{◌≡◌, IfOk};
ghost use Rattle.rela_graph.specs.Topology.{IsTopology};
ghost use Rattle.rela_shape.specs.Wiring.{wiring_of};

use crate::recorder::Recorder;
use rela_graph::{Graph, MAX_EDGES};
use rela_names::Level;
use std::alloc::{AllocError, Global};
use std::hash::Hash;

/// The edges of the graph and the flags of its nodes, as bytes: those that it feeds a hasher after
/// the locations of its nodes. Time and space: linear in the nodes and the edges, and room for the
/// most edges that a graph may have is asked for while it runs.
pub(crate) fn wiring_of(alloc: Global, graph: &Graph) -> Result<Vec<u8>, AllocError>
    ensures wiring { IfOk result (λ wiring. wiring.items ≡ wiring_of graph.now) }
    ensures topology { IfOk result (λ _. IsTopology graph.now) }
{
    let nodes = graph.nodes().len();
    // A list is fed as its length in 8 bytes and then its items: a location has 4 bytes, an edge 8
    // and a flag one. The graph has five lists, and three of them are of flags.
    let room = 5 * 8 + 4 * nodes + 8 * MAX_EDGES + 3 * nodes;
    let mut recorder = Recorder::with_room(alloc, room)?;
    graph.at(Level::Device).hash(&mut recorder);
    recorder.bytes_from(alloc, 8 + 4 * nodes)
}
