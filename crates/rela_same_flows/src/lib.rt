//! Flows that no file can tell apart, and that they have the same paths.
#![tactic(auto)]

mod laws;

pub use laws::same_graphs_same_paths;
