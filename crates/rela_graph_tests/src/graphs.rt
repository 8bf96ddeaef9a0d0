//! Forwarding graphs, their paths and their automata.

ghost use Rattle.std.specs.Prelude.{◌<◌, ◌≤◌, IfOk, length};
ghost use Rattle.std.specs.Bool.{OnTrue};
ghost use Rattle.std.specs.List.{All};
ghost use Rattle.rela_graph.specs.Topology.{JoinsNodes, symbol_at};

use rela_graph::{Graph, Link, Node};
use rela_labels::{Partition, WideSet};
use rela_names::{Alphabet, Level, Name, NameError, Symbol};
use rela_nfa::Nfa;
use std::alloc::{AllocError, Global};
use std::process::Abort;

/// Interface `r1:0`, of device r1 and group edge. Group core (symbol 0) has the devices r2 and r3,
/// and group edge (symbol 1) has r1 and r4. Each device has the interface of its name with `:0`,
/// and r4 has `r4:1` besides.
const R1: Node = Node {
    interface: 0,
    device: 0,
    group: 1,
};

/// Interface `r2:0`, of device r2 and group core.
const R2: Node = Node {
    interface: 1,
    device: 1,
    group: 0,
};

/// Interface `r3:0`, of device r3 and group core.
const R3: Node = Node {
    interface: 2,
    device: 2,
    group: 0,
};

/// Interface `r4:0`, of device r4 and group edge.
const R4: Node = Node {
    interface: 3,
    device: 3,
    group: 1,
};

/// Interface `r4:1`, of device r4 and group edge.
const R4_OUT: Node = Node {
    interface: 4,
    device: 3,
    group: 1,
};

/// The symbol of `drop` in the alphabet of the devices.
const DROP: Symbol = 4;

/// The symbol of `loop` in the alphabet of the devices.
const LOOP: Symbol = 5;

/// The alphabet of the devices.
fn devices(alloc: Global) -> Result<Alphabet, NameError> {
    let r1 = Name::location(alloc, b"r1".as_slice())?;
    let r2 = Name::location(alloc, b"r2".as_slice())?;
    let r3 = Name::location(alloc, b"r3".as_slice())?;
    let r4 = Name::location(alloc, b"r4".as_slice())?;
    Ok(Alphabet::new(Vec::from_array(alloc, [r1, r2, r3, r4])?))
}

/// The alphabet of the groups.
fn groups(alloc: Global) -> Result<Alphabet, NameError> {
    let core = Name::location(alloc, b"core".as_slice())?;
    let edge = Name::location(alloc, b"edge".as_slice())?;
    Ok(Alphabet::new(Vec::from_array(alloc, [core, edge])?))
}

/// A graph that starts at its node 0.
struct Drawing<'a> {
    /// The nodes, in the order of their numbers.
    nodes: &'a [Node],
    /// The nodes that each edge joins.
    edges: &'a [(u32, u32)],
    /// The node that delivers.
    delivered: u32,
}

/// A path from r1 by r2 to r4 and out, with one edge listed twice.
const P2: &Drawing<'static> = &Drawing {
    nodes: &[R1, R2, R4, R4_OUT],
    edges: &[(0, 1), (1, 2), (2, 3), (0, 1)],
    delivered: 3,
};

/// Two nodes without an edge, of which the first drops.
const X1: &Drawing<'static> = &Drawing {
    nodes: &[R1, R2],
    edges: &[],
    delivered: 1,
};

/// The path of `P2`, and an edge from r1 to a cycle of r3 and another node of r2.
const C1: &Drawing<'static> = &Drawing {
    nodes: &[R1, R2, R4, R4_OUT, R3, R2],
    edges: &[(0, 1), (1, 2), (2, 3), (0, 4), (4, 5), (5, 4)],
    delivered: 3,
};

/// The path of `P2`, with an edge back from the node that delivers.
const C2: &Drawing<'static> = &Drawing {
    nodes: &[R1, R2, R4, R4_OUT],
    edges: &[(0, 1), (1, 2), (2, 3), (3, 2)],
    delivered: 3,
};

/// A path by r2 and r3, with an edge back from r3 to r2.
const Y1: &Drawing<'static> = &Drawing {
    nodes: &[R1, R2, R3, R4],
    edges: &[(0, 1), (1, 2), (2, 1), (2, 3)],
    delivered: 3,
};

/// A path by both devices of group core and both interfaces of r4.
const G: &Drawing<'static> = &Drawing {
    nodes: &[R1, R2, R3, R4, R4_OUT],
    edges: &[(0, 1), (1, 2), (2, 3), (3, 4)],
    delivered: 4,
};

/// The edges whose ends are nodes, of which there are `count`.
fn links(alloc: Global, pairs: &[(u32, u32)], count: usize) -> Result<Vec<Link>, AllocError>
    ensures joins { IfOk result (λ links. All (JoinsNodes count) links.items) }
    ensures few { IfOk result (λ links. length links.items ≤ length pairs.now) }
{
    let mut links = Vec::new(alloc);
    for (a, b) in pairs {
        if (*a as usize) < count && (*b as usize) < count {
            links.push(Link { a: *a, b: *b })?;
        }
    }
    Ok(links)
}

/// The graph that is drawn, where it is small and the node that delivers is there.
fn graph(alloc: Global, drawing: &Drawing<'_>) -> Result<Graph, AllocError> {
    let count = drawing.nodes.len();
    if count > 100 || drawing.edges.len() > 100 || drawing.delivered as usize >= count {
        return Err(AllocError);
    }
    let edges = links(alloc, drawing.edges, count)?;
    let nodes = Vec::from_slice(alloc, drawing.nodes)?;
    Graph::new(alloc, nodes, &edges, &[0], &[drawing.delivered], &[])
}

/// Whether the alphabet has each node's symbol.
fn is_placed(graph: &Graph, level: Level, alphabet: &Alphabet) -> bool
    ensures { OnTrue result (All (λ node. symbol_at level node < length alphabet.now)
        graph.now.nodes) }
{
    let locations = alphabet.drop_symbol();
    graph
        .nodes()
        .iter()
        .all(|node| node.symbol_at(level) < locations)
}

/// Whether the automaton accepts the word, where it was made, and `None` where it wasn't or there
/// is no memory to tell.
fn has(alloc: Global, made: Result<Nfa<WideSet>, AllocError>, word: &[Symbol]) -> Option<bool> {
    match made {
        Ok(nfa) => nfa.accepts(alloc, word).ok(),
        Err(_) => None,
    }
}

/// Whether the automaton of the graph's paths at the level accepts the word, where each symbol is a
/// letter. `None` where the alphabet lacks a node's symbol, or there is no memory to tell.
fn reads(
    alloc: Global,
    graph: &Graph,
    level: Level,
    alphabet: &Alphabet,
    word: &[Symbol],
) -> Option<bool> {
    if !is_placed(graph, level, alphabet) {
        return None;
    }
    match Partition::finest(alloc, alphabet.len()) {
        Ok(blocks) => has(alloc, graph.to_nfa(alloc, level, alphabet, &blocks), word),
        Err(_) => None,
    }
}

/// Whether the word is a path at the level, where the alphabet has each node's symbol, or not: the
/// level, the word, and whether it is a path.
struct Path<'a>(Level, &'a [Symbol], bool);

/// The alphabet of the level, of groups or of devices.
fn alphabet(alloc: Global, level: Level) -> Result<Alphabet, NameError> {
    match level {
        Level::Group => groups(alloc),
        Level::Device | Level::Interface => devices(alloc),
    }
}

impl Path<'_> {
    /// Whether the answer is yes for the graph.
    fn is_so_of(&self, alloc: Global, graph: &Graph) -> bool {
        match alphabet(alloc, self.0) {
            Ok(alphabet) => reads(alloc, graph, self.0, &alphabet, self.1) == Some(self.2),
            Err(_) => false,
        }
    }

    /// Asks the question of the graph that is drawn, and is false where there is no memory for it.
    /// What owns a large value lends it at once: the proof of a function that does more with it is
    /// long.
    fn is_so(&self, alloc: Global, drawing: &Drawing<'_>) -> bool {
        match graph(alloc, drawing) {
            Ok(graph) => self.is_so_of(alloc, &graph),
            Err(_) => false,
        }
    }
}

/// Says of each question that its answer is yes, of the graph that is drawn.
fn hold(rt: &impl Abort, alloc: Global, drawing: &Drawing<'_>, questions: &[Path<'_>]) {
    for place in 0..questions.len() {
        assert!(rt; questions[place].is_so(alloc, drawing), "question {place}");
    }
}

/// Questions about the paths of `P2`.
const OF_P2: &[Path<'static>] = &[
    Path(Level::Device, &[0, 1, 3], true),
    Path(Level::Device, &[0, 1, 3, 3], false),
    Path(Level::Device, &[], false),
    Path(Level::Device, &[0, 1], false),
    Path(Level::Device, &[1, 3], false),
    Path(Level::Device, &[0, 1, 0, 1, 3], false),
    Path(Level::Device, &[0, 1, 3, DROP], false),
    Path(Level::Device, &[0, 1, 3, LOOP], false),
];

/// A path is told from words that are empty, repeat a location, end or begin at another node, or go
/// back along an edge, and where it delivers nothing is dropped, nor does it lie on a cycle.
#[test]
fn a_path(rt: HostRuntime) {
    hold(&rt, rt.alloc(), P2, OF_P2);
}

/// Questions about the paths of `X1`.
const OF_X1: &[Path<'static>] = &[
    Path(Level::Device, &[0, DROP], true),
    Path(Level::Device, &[0], false),
];

/// A node without an edge drops, unless it is listed as one that delivers.
#[test]
fn a_path_that_drops(rt: HostRuntime) {
    hold(&rt, rt.alloc(), X1, OF_X1);
}

/// Questions about the paths of `C1`.
const OF_C1: &[Path<'static>] = &[
    Path(Level::Device, &[0, 1, 3], true),
    Path(Level::Device, &[0, 2, LOOP], true),
    Path(Level::Device, &[0, 2, 1, LOOP], true),
    Path(Level::Device, &[0, 1, LOOP], false),
];

/// Walks onto a cycle are paths with `loop`, and others aren't.
#[test]
fn a_cycle_apart(rt: HostRuntime) {
    hold(&rt, rt.alloc(), C1, OF_C1);
}

/// Questions about the paths of `C2`.
const OF_C2: &[Path<'static>] = &[
    Path(Level::Device, &[0, 1, 3], true),
    Path(Level::Device, &[0, 1, 3, LOOP], true),
    Path(Level::Device, &[0, 1, 3, DROP], false),
];

/// A walk that ends on a cycle where traffic is delivered is a path both ways.
#[test]
fn a_cycle_that_delivers(rt: HostRuntime) {
    hold(&rt, rt.alloc(), C2, OF_C2);
}

/// Questions about the paths of `Y1`.
const OF_Y1: &[Path<'static>] = &[
    Path(Level::Device, &[0, 1, 2, 1, 2, 3], true),
    Path(Level::Device, &[0, 1, 2, 1, 2, 1, LOOP], true),
    Path(Level::Device, &[0, 1, 3], false),
    Path(Level::Device, &[0, 1, LOOP], true),
    Path(Level::Device, &[0, 1, 2, LOOP], true),
    Path(Level::Device, &[0, 1, 2, 3, LOOP], false),
];

/// Walks may go round a cycle, and nothing is left out of their paths. Those that end on it are
/// paths with `loop`, and those that have left it aren't.
#[test]
fn a_way_round(rt: HostRuntime) {
    hold(&rt, rt.alloc(), Y1, OF_Y1);
}

/// Questions about the paths of `G`.
const OF_G: &[Path<'static>] = &[
    Path(Level::Group, &[1, 0, 1], true),
    Path(Level::Group, &[1, 0, 0, 1], false),
];

/// At the level of groups each run of equal neighbours is written once.
#[test]
fn a_path_of_groups(rt: HostRuntime) {
    hold(&rt, rt.alloc(), G, OF_G);
}

/// The graph of an edge from r1 to r4, which delivers, where no walk begins.
fn unentered(alloc: Global) -> Result<Graph, AllocError> {
    let nodes = Vec::from_slice(alloc, &[R1, R4])?;
    Graph::new(alloc, nodes, &[Link { a: 0, b: 1 }], &[], &[1], &[])
}

/// Whether the edge is no path of it.
fn unentered_has_no_path(alloc: Global) -> bool {
    match unentered(alloc) {
        Ok(graph) => Path(Level::Device, &[0, 3], false).is_so_of(alloc, &graph),
        Err(_) => false,
    }
}

/// A graph has no paths where no walk begins.
#[test]
fn no_start(rt: HostRuntime) {
    assert!(rt; unentered_has_no_path(rt.alloc()));
}
