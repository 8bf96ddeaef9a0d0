//! The command `demo`: the report on the layered input of a size.
#![tactic(auto)]

mod demonstrating;

pub use demonstrating::demonstrate;
