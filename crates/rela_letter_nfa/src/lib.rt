//! Finite automata with one letter on each edge, and the first word by which two of them differ. A
//! want of memory is told as `AllocError` or as `BuildError::Memory`.
#![tactic(auto)]

mod arrival;
mod both;
mod builder;
mod chains;
mod closure;
mod comparison;
mod counted;
mod difference;
mod edge;
mod edge_lists;
mod lists;
mod nfa;
mod outgoing;
mod search;
mod spreading;
mod state_sets;
mod visited;
mod without_chains;

pub use builder::LetterNfaBuilder;
pub use comparison::first_difference;
pub use counted::CountedBuilder;
pub use difference::{Difference, Sought, Which};
pub use edge::LetterEdge;
pub use edge_lists::EdgeLists;
pub use lists::Lists;
pub use nfa::{LetterNfa, MAX_STATES};
pub use rela_pairs::BuildError;
