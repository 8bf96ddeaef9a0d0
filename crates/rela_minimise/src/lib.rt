//! The minimal automaton of a language, by the refinement of classes of states. An `AllocError`
//! comes only where memory is refused.
#![tactic(auto)]

mod class_pairs;
mod columns;
mod cutting;
mod joining;
mod largest;
mod lists;
mod marking;
mod minimising;
mod ordering;
mod passes;
mod predecessors;
mod quotient;
mod refinement;
mod refining;
mod signature;
mod signatures;

pub use minimising::merge_equivalent;
