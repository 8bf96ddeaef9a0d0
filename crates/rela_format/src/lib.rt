//! The command `fmt`: from a specification to its canonical text.
#![tactic(auto)]

mod formatting;

pub use formatting::format;
