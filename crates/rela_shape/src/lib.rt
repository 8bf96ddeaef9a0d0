//! The shapes of flows. A check tells locations of one block of its symbols apart only by whether
//! they are one location, so flows that differ in no more than the names of locations, each within
//! its block, meet it alike.
#![tactic(auto)]

mod laws;
mod recorder;
mod shape;
mod wiring;

pub use laws::{one_shape_renames, renamed_flows_meet_alike};
pub use shape::Shape;
