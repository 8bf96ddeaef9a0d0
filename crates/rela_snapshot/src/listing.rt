//! A flow's graph as its file lists it.

ghost use Rattle.std.specs.Prelude.{◌≡◌, ◌<◌, Ok, Err, IfOk, IfErr, IfSome, length};
ghost use Rattle.rela_snapshot.specs.Names.{place_of};
ghost use Rattle.rela_snapshot.specs.Listed.{IsGraphOf};
ghost use Rattle.rela_snapshot.specs.Interfaces.{interfaces_in};
ghost use Rattle.rela_snapshot.specs.Nodes as spec;
ghost use Rattle.rela_snapshot.specs.Located.{StandsIn};

use rela_graph::{Graph, Link, Node};
use rela_json::LoadError;
use rela_locations::Locations;
use rela_names::{Level, Symbol};
use std::alloc::{AllocError, Global};
use std::marker::Model;

/// The nodes of a graph in order, and the edges and lists that name them by their indexes.
#[derive(Drop)]
pub(crate) struct Listing {
    /// The nodes, in the order of the file.
    pub(crate) nodes: Vec<Node>,
    /// The edges, by the indexes of their two nodes.
    pub(crate) edges: Vec<Link>,
    /// The indexes of the nodes where a walk may begin, as listed.
    pub(crate) starts: Vec<u32>,
    /// The indexes of the nodes that deliver the traffic, as listed.
    pub(crate) delivered: Vec<u32>,
    /// The indexes of the nodes that drop the traffic, as listed.
    pub(crate) dropped: Vec<u32>,
}

impl Model for Listing {
    ghost use Rattle.rela_snapshot.specs.Listed.{Listed};

    ghost Value = { Listed };

    ghost use Rattle.rela_snapshot.specs.Listed.{IsListed};
    ghost use Rattle.rela_snapshot.specs.Stored.{listed};

    ghost view = { listed };

    ghost invariant = { λ l. IsListed (listed l) };
}

impl Listing {
    /// The graph that is listed. Repetitions count once.
    ///
    /// # Errors
    ///
    /// Only where memory is wanted.
    pub(crate) fn into_graph(self, alloc: Global) -> Result<Graph, AllocError>
        ensures { IfOk result (IsGraphOf self) }
    {
        let Listing {
            nodes,
            edges,
            starts,
            delivered,
            dropped,
        } = self;
        Graph::new(
            alloc,
            nodes,
            edges.as_slice(),
            starts.as_slice(),
            delivered.as_slice(),
            dropped.as_slice(),
        )
    }
}

/// The symbol of the interface of this name, and `None` where no interface has it.
#[tactic(auto, unfolding(crate::specs::Interfaces::interfaces_in))]
fn interface_at(locations: &Locations, name: &[u8]) -> Option<Symbol>
    ensures place { result ≡ place_of (interfaces_in locations.now) name.now }
    ensures within { IfSome result (λ symbol. symbol < length (interfaces_in locations.now)) }
{
    locations.interface(name)
}

/// The node at the interface of this name.
///
/// # Errors
///
/// `UnknownLocation` where no interface has it.
#[tactic(auto, unfolding(crate::specs::Nodes::node_at))]
pub(crate) fn node_at(locations: &Locations, name: &[u8], row: u32) -> Result<Node, LoadError>
    ensures node { IfOk result (λ node. spec.node_at locations.now row name.now ≡ Ok node) }
    ensures fault { IfErr result (λ e. spec.node_at locations.now row name.now ≡ Err e) }
    ensures located { IfOk result (StandsIn locations.now) }
{
    let interface = interface_at(locations, name).ok_or(LoadError::UnknownLocation { row })?;
    Ok(node_in(locations, interface))
}

/// The node at this interface, with the device and the group that it lies in.
#[tactic(auto, unfolding(crate::specs::Nodes::node_in, crate::specs::Interfaces::interfaces_in))]
fn node_in(locations: &Locations, interface: Symbol) -> Node
    requires location { interface < length (interfaces_in locations.now) }
    ensures node { result ≡ spec.node_in locations.now interface }
    ensures located { StandsIn locations.now result }
{
    Node {
        interface,
        device: locations.lift(interface, Level::Device),
        group: locations.lift(interface, Level::Group),
    }
}
