//! The command `zone`: from the locations and a specification to the zone of one of its checks.
#![tactic(auto)]

mod zoning;

pub use zoning::show_zone;
