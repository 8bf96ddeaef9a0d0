//! Automata whose words reach fewer sets of states, by silent edges to states that others simulate,
//! and smaller sets, by edges that lead past silent detours.
//! An `AllocError` comes only where memory is refused.
#![tactic(auto)]

mod answers;
mod arrow;
mod bits;
mod closed;
mod containment;
mod edges;
mod flags;
mod labels;
mod looks;
mod numbered;
mod passing;
mod ranking;
mod reducing;
mod simulation;
mod widening;

pub use passing::past_detours;
pub use reducing::reduce;
