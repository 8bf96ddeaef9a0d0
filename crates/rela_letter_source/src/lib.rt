//! The first word of an automaton, in shortlex order, that a transducer over coarser letters
//! relates to a given word. A want of memory is told as `AllocError` or as `BuildError::Memory`.
#![tactic(auto)]

mod configuration;
mod found;
mod growing;
mod next;
mod source;
mod sources;

pub use source::first_source;
