//! Nodes and edges of graphs.
ghost use Rattle.std.specs.Prelude.{◌≡◌, ◌++◌, OnOk, map};
ghost use Rattle.rela_graph.specs.Topology.{symbol_at};

use rela_names::{Level, Symbol};
use std::alloc::AllocError;

/// What forwards traffic at one node of a graph.
#[derive(Clone, Copy, PartialEq, Eq, Debug)]
pub struct Node {
    /// The symbol of its interface in the alphabet of interfaces.
    pub interface: Symbol,
    /// The symbol of its device in the alphabet of devices.
    pub device: Symbol,
    /// The symbol of its group in the alphabet of groups.
    pub group: Symbol,
}

/// An edge from one node to another, by their numbers.
#[derive(Clone, Copy, PartialEq, Eq, PartialOrd, Ord, Hash, Debug)]
pub struct Link {
    /// The number of the node from which it comes.
    pub a: u32,
    /// The number of the node to which it leads.
    pub b: u32,
}

impl Node {
    /// The symbol of the node's location at a level.
    pub fn symbol_at(&self, level: Level) -> Symbol
        ensures { result ≡ symbol_at level self.now }
    {
        match level {
            Level::Interface => self.interface,
            Level::Device => self.device,
            Level::Group => self.group,
        }
    }
}

/// Appends the symbol of each node's location at a level. Time: linear in the nodes. The only error
/// is want of memory.
pub fn push_locations(
    locations: &mut Vec<Symbol>,
    nodes: &[Node],
    level: Level,
) -> Result<(), AllocError>
    ensures { OnOk result (locations.new.items ≡ locations.old.items
        ++ map (symbol_at level) nodes.now) }
{
    for node in nodes {
        locations.push(node.symbol_at(level))?;
    }
    Ok(())
}
