//! Snapshots over a small network, and their pairing.

use crate::network::{Question, is_so};
use rela_graph::{Graph, Link, Node};
use rela_json::LoadError;
use rela_locations::Locations;
use rela_names::Level;
use rela_snapshot::{FlowPair, PairError, Snapshot, pair};
use std::alloc::{AllocError, Global};

/// A flow f1 along r1, r2 and both interfaces of r4, with nodes that are numbered.
const NUMBERED: &[u8] =
    b"{\"version\":1,\"flows\":[{\"name\":\"f1\",\"dst\":\"10.0.0.0/24\",\"nodes\":[\"r1:0\",\"r2:0\",\"r4:0\",\"r4:1\"],\"edges\":[[0,1],[1,2],[2,3]],\"starts\":[0],\"delivered\":[3]}]}";

/// A flow f1 along the same path, with nodes that are named, to another destination.
const NAMED: &[u8] =
    b"{\"version\":2,\"flows\":[{\"name\":\"f1\",\"dst\":\"2001:db8::/32\",\"nodes\":[{\"id\":\"a\",\"at\":\"r1:0\"},{\"id\":\"b\",\"at\":\"r2:0\"},{\"id\":\"c\",\"at\":\"r4:0\"},{\"id\":\"d\",\"at\":\"r4:1\"}],\"edges\":[[\"a\",\"b\"],[\"b\",\"c\"],[\"c\",\"d\"]],\"starts\":[\"a\"],\"delivered\":[\"d\"]}]}";

/// The snapshot of a text of at most 1,000 bytes over these locations; `Memory` for a longer one.
fn decoded(alloc: Global, text: &[u8], locations: &Locations) -> Result<Snapshot, LoadError> {
    if text.len() > 1_000 {
        return Err(LoadError::Memory);
    }
    Snapshot::decode(alloc, text, locations)
}

/// The nodes of r1, r2 and both interfaces of r4, by their symbols.
const NODES: [Node; 4] = [
    Node {
        interface: 0,
        device: 0,
        group: 1,
    },
    Node {
        interface: 1,
        device: 1,
        group: 0,
    },
    Node {
        interface: 3,
        device: 3,
        group: 1,
    },
    Node {
        interface: 4,
        device: 3,
        group: 1,
    },
];

/// The edges from each of these nodes to the next.
const EDGES: [Link; 3] = [
    Link { a: 0, b: 1 },
    Link { a: 1, b: 2 },
    Link { a: 2, b: 3 },
];

/// The graph of a walk from r1 by r2 to r4, where it goes in by one interface and is delivered at the
/// other.
fn drawn_path(alloc: Global) -> Result<Graph, AllocError> {
    Graph::new(
        alloc,
        Vec::from_array(alloc, NODES)?,
        &EDGES,
        &[0],
        &[3],
        &[],
    )
}

/// Whether the graphs look the same at each level.
fn are_alike(graph: &Graph, other: &Graph) -> bool {
    graph.at(Level::Interface) == other.at(Level::Interface)
        && graph.at(Level::Device) == other.at(Level::Device)
        && graph.at(Level::Group) == other.at(Level::Group)
}

/// Whether the graph is that path, and has nothing else.
fn is_the_path(alloc: Global, graph: &Graph) -> bool {
    match drawn_path(alloc) {
        Ok(path) => are_alike(graph, &path),
        Err(_) => false,
    }
}

/// Whether the snapshot is of one flow, named f1 and of the default class, along the path.
fn is_read(alloc: Global, snapshot: &Snapshot) -> bool {
    if snapshot.flows() != 1 {
        return false;
    }
    let class = snapshot.class(0);
    class.name.as_bytes() == b"f1".as_slice()
        && class.class.as_bytes() == b"default".as_slice()
        && is_the_path(alloc, snapshot.graph(0))
}

/// Whether a text writes that snapshot.
#[derive(Drop)]
struct Path<'a> {
    /// The text.
    text: &'a [u8],
}

impl Question for Path<'_> {
    fn is_so(&self, alloc: Global, locations: &Locations) -> bool {
        match decoded(alloc, self.text, locations) {
            Ok(snapshot) => is_read(alloc, &snapshot),
            Err(_) => false,
        }
    }
}

/// Nodes are read by their numbers and by their names.
#[test]
fn reads_nodes(rt: HostRuntime) {
    for text in [NUMBERED, NAMED] {
        assert!(rt; is_so(rt.alloc(), &Path { text }), "{text:?}");
    }
}

/// Whether a text is refused with this error.
#[derive(Drop)]
struct Faulty<'a> {
    /// The text.
    text: &'a [u8],
    /// The error.
    error: LoadError,
}

impl Question for Faulty<'_> {
    fn is_so(&self, alloc: Global, locations: &Locations) -> bool {
        match decoded(alloc, self.text, locations) {
            Ok(_) => false,
            Err(error) => error == self.error,
        }
    }
}

/// A snapshot is refused for its first fault.
#[test]
fn refuses_the_first_fault(rt: HostRuntime) {
    for (text, error) in [
        (b"{".as_slice(), LoadError::NotJson),
        (b"{\"version\":3}", LoadError::BadVersion),
        (
            b"{\"version\":1,\"flows\":[7]}",
            LoadError::WrongShape { rule: 24, row: 0 },
        ),
        (
            b"{\"version\":2,\"flows\":[{\"name\":\"f\",\"dst\":\"::/0\",\"src\":\"10.0.0.0/8\"}]}",
            LoadError::BadPrefix { row: 0 },
        ),
        (
            b"{\"version\":1,\"flows\":[{\"name\":\"f\",\"dst\":\"10.0.0.0/8\",\"nodes\":[\"r9:0\"]}]}",
            LoadError::UnknownLocation { row: 0 },
        ),
        (
            b"{\"version\":1,\"flows\":[{\"name\":\"f\",\"dst\":\"10.0.0.0/8\",\"nodes\":[\"r1:0\"],\"edges\":[[0,1]]}]}",
            LoadError::BadIndex { row: 0 },
        ),
        (
            b"{\"version\":2,\"flows\":[{\"name\":\"f\",\"dst\":\"::/0\",\"nodes\":[{\"id\":\"a\",\"at\":\"r1:0\"}],\"edges\":[[\"a\",\"z\"]]}]}",
            LoadError::UnknownNode { row: 0 },
        ),
    ] {
        assert!(rt; is_so(rt.alloc(), &Faulty { text, error }), "{text:?}");
    }
}

/// The flows f1, of one node, and f3, of none.
const EARLIER: &[u8] =
    b"{\"version\":1,\"flows\":[{\"name\":\"f1\",\"dst\":\"10.0.0.0/24\",\"nodes\":[\"r1:0\"],\"edges\":[],\"starts\":[0]},{\"name\":\"f3\",\"dst\":\"10.9.0.0/24\",\"nodes\":[],\"edges\":[],\"starts\":[]}]}";

/// The flows f2, of one node, and f1, of two.
const LATER: &[u8] =
    b"{\"version\":1,\"flows\":[{\"name\":\"f2\",\"dst\":\"10.0.1.0/24\",\"nodes\":[\"r2:0\"],\"edges\":[],\"starts\":[0]},{\"name\":\"f1\",\"dst\":\"10.0.0.0/24\",\"nodes\":[\"r1:0\",\"r1:0\"],\"edges\":[],\"starts\":[0]}]}";

/// The flows of two texts of at most 1,000 bytes each, paired. The outer errors are those of
/// reading them.
fn paired(
    alloc: Global,
    before: &[u8],
    after: &[u8],
    locations: &Locations,
) -> Result<Result<Vec<FlowPair>, PairError>, LoadError> {
    let before = decoded(alloc, before, locations)?;
    let after = decoded(alloc, after, locations)?;
    Ok(pair(alloc, before, after))
}

/// Whether the flow has this name, and this many nodes before and after.
fn is_pair(pair: &FlowPair, name: &[u8], before: usize, after: usize) -> bool {
    pair.class.name.as_bytes() == name
        && [pair.before.nodes().len(), pair.after.nodes().len()] == [before, after]
}

/// Whether these are f1, f3 and f2, in this order, each with the nodes that it has on either side.
fn are_paired(pairs: &[FlowPair]) -> bool {
    match pairs {
        [first, second, third] => {
            is_pair(first, b"f1", 1, 2)
                && is_pair(second, b"f3", 0, 0)
                && is_pair(third, b"f2", 0, 1)
        }
        _ => false,
    }
}

/// Whether the flows of `EARLIER` and `LATER` are paired as they should be.
#[derive(Drop)]
struct Pairs;

impl Question for Pairs {
    fn is_so(&self, alloc: Global, locations: &Locations) -> bool {
        match paired(alloc, EARLIER, LATER, locations) {
            Ok(Ok(pairs)) => are_paired(&pairs),
            _ => false,
        }
    }
}

/// Flows are paired by their names: first those of the earlier snapshot, and then those of the
/// later one alone.
#[test]
fn pairs_flows_by_name(rt: HostRuntime) {
    assert!(rt; is_so(rt.alloc(), &Pairs));
}

/// Whether the error is that the flow of row 0 has another destination.
fn is_of_destinations(error: &PairError) -> bool {
    match error {
        PairError::FlowDiffers { row, before, after } => *row == 0 && before.dst != after.dst,
        PairError::Memory => false,
    }
}

/// Whether `NUMBERED` and `NAMED` can't be paired for that error.
#[derive(Drop)]
struct Difference;

impl Question for Difference {
    fn is_so(&self, alloc: Global, locations: &Locations) -> bool {
        match paired(alloc, NUMBERED, NAMED, locations) {
            Ok(Err(error)) => is_of_destinations(&error),
            _ => false,
        }
    }
}

/// A flow whose two classes differ is not paired.
#[test]
fn names_the_first_flow_that_differs(rt: HostRuntime) {
    assert!(rt; is_so(rt.alloc(), &Difference));
}
