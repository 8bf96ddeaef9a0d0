//! Forwarding graphs: their walks, their cycles and the paths that they allow, and how they look at
//! a level. An `AllocError` comes only where memory is refused.
#![tactic(auto)]

mod automaton;
mod claimed;
mod component;
mod cycle;
mod graph;
mod incoming;
mod leaving;
mod letters;
mod node;
mod node_set;
mod outline;
mod reach;

pub use graph::{Graph, MAX_EDGES, MAX_NODES};
pub use node::{Link, Node, push_locations};
pub use outline::LevelGraph;
