//! Inputs that are made: locations, two snapshots and a specification, for networks of up to 200
//! layers.
#![tactic(auto)]

mod input;
mod labels;
mod laws;
mod layers;
mod locations;
mod numbers;
mod pieces;
mod snapshot;
mod specification;

pub use input::{DemoInput, generate};
pub use laws::flows_do_not_differ;
