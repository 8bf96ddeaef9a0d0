//! Whether two automata accept the same words, or one of them no word but those of the other, and
//! the first word that tells.
#![tactic(auto)]

mod comparison;
mod difference;
mod letters;
mod sought;
mod verdict;

pub use comparison::{equal, included};
pub use rela_nfa::BuildError;
pub use verdict::{Verdict, Which};
