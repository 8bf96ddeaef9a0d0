//! How graphs look at a level.

ghost use Rattle.std.specs.Prelude.{◌<◌};
ghost use Rattle.rela_graph.specs.Topology.{JoinsNodes};

use rela_graph::{Graph, Link, Node};
use rela_names::Level;
use std::alloc::{AllocError, Global};
use std::collections::HashMap;

/// The first node, at which the walk begins.
const IN: Node = Node {
    interface: 0,
    device: 0,
    group: 0,
};

/// The second node.
const OUT: Node = Node {
    interface: 1,
    device: 1,
    group: 1,
};

/// Another device of the second node's group.
const OTHER_OUT: Node = Node {
    interface: 2,
    device: 2,
    group: 1,
};

/// The edge from the first node to the second.
const FORTH: Link = Link { a: 0, b: 1 };

/// The edge from the second node to the first.
const BACK: Link = Link { a: 1, b: 0 };

/// The graph of two nodes with one edge, one start, one node that delivers and one that drops.
fn two(
    alloc: Global,
    nodes: [Node; 2],
    edge: Link,
    start: u32,
    delivered: u32,
    dropped: u32,
) -> Result<Graph, AllocError>
    requires edge { JoinsNodes 2 edge }
    requires start { start < 2 }
    requires delivered { delivered < 2 }
    requires dropped { dropped < 2 }
{
    let nodes = Vec::from_array(alloc, nodes)?;
    Graph::new(alloc, nodes, &[edge], &[start], &[delivered], &[dropped])
}

/// Whether a map has for how the one graph looks at the level what it was given for how the other
/// does, and `None` where there is no memory to tell.
fn is_found(alloc: Global, graph: &Graph, moved: &Graph, level: Level) -> Option<bool> {
    let mut seen = HashMap::new(alloc);
    match seen.insert(graph.at(level), 7) {
        Ok(_) => Some(seen.get(&moved.at(level)).copied() == Some(7)),
        Err(_) => None,
    }
}

/// Whether the two look the same at the level of groups alone.
fn look_the_same_as_groups(alloc: Global, graph: &Graph, moved: &Graph) -> bool {
    graph.at(Level::Group) == moved.at(Level::Group)
        && graph.at(Level::Interface) != moved.at(Level::Interface)
        && graph.at(Level::Device) == graph.at(Level::Interface)
        && is_found(alloc, graph, moved, Level::Group) == Some(true)
        && is_found(alloc, graph, moved, Level::Device) == Some(false)
}

/// Whether the graph looks the same with its second node moved, at the level of groups alone.
fn looks_the_same_moved(alloc: Global, graph: &Graph) -> bool {
    match two(alloc, [IN, OTHER_OUT], FORTH, 0, 1, 0) {
        Ok(moved) => look_the_same_as_groups(alloc, graph, &moved),
        Err(_) => false,
    }
}

/// Whether the two look otherwise at the level of groups.
fn look_otherwise(graph: &Graph, other: &Graph) -> bool {
    graph.at(Level::Group) != other.at(Level::Group)
        && other.at(Level::Group) == other.at(Level::Group)
}

/// Whether the graph looks otherwise with this edge, start, node that delivers and node that drops.
fn looks_otherwise(
    alloc: Global,
    graph: &Graph,
    edge: Link,
    start: u32,
    delivered: u32,
    dropped: u32,
) -> bool
    requires edge { JoinsNodes 2 edge }
    requires start { start < 2 }
    requires delivered { delivered < 2 }
    requires dropped { dropped < 2 }
{
    match two(alloc, [IN, OUT], edge, start, delivered, dropped) {
        Ok(other) => look_otherwise(graph, &other),
        Err(_) => false,
    }
}

/// Whether the graph looks otherwise with its edge, its start, the node that delivers and the one
/// that drops changed, each alone.
fn looks_otherwise_changed(alloc: Global, graph: &Graph) -> bool {
    looks_otherwise(alloc, graph, BACK, 0, 1, 0)
        && looks_otherwise(alloc, graph, FORTH, 1, 1, 0)
        && looks_otherwise(alloc, graph, FORTH, 0, 0, 0)
        && looks_otherwise(alloc, graph, FORTH, 0, 1, 1)
}

/// What is asked of the graph that leads from the first of two nodes to the second.
#[derive(Clone, Copy)]
enum Question {
    /// Whether it looks the same at one level alone once its second node is moved.
    Levels,
    /// Whether it looks otherwise with another edge, start, node that delivers or node that drops.
    EdgesAndFlags,
}

/// Whether the answer to the question is yes. It is false where there is no memory to tell.
fn is_so(alloc: Global, question: Question) -> bool {
    match two(alloc, [IN, OUT], FORTH, 0, 1, 0) {
        Ok(graph) => match question {
            Question::Levels => looks_the_same_moved(alloc, &graph),
            Question::EdgesAndFlags => looks_otherwise_changed(alloc, &graph),
        },
        Err(_) => false,
    }
}

/// Graphs with nodes of one group look the same at the level of groups alone.
#[test]
fn levels(rt: HostRuntime) {
    assert!(rt; is_so(rt.alloc(), Question::Levels));
}

/// Graphs with other edges or flags look otherwise.
#[test]
fn edges_and_flags(rt: HostRuntime) {
    assert!(rt; is_so(rt.alloc(), Question::EdgesAndFlags));
}
