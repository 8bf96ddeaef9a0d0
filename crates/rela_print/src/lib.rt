//! The canonical text of a specification.
#![tactic(auto)]

mod canonical;
mod laws;
mod members;
mod names;
mod paths;
mod predicates;
mod specs;

pub use canonical::print;
pub use laws::canonical_texts_are_read;
