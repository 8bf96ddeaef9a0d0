//! The command `rir`: from two snapshots, the locations and a file of assertions to the report on
//! what is told of each.
#![tactic(auto)]

mod asserting;
mod claiming;
mod loading;

pub use asserting::report_assertions;
pub use claiming::{Asserted, read_claims};
pub use loading::load_claims;
