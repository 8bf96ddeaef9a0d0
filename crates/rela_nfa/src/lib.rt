//! Finite automata with silent edges: the regular languages and their operations. An `AllocError`
//! comes only where memory is refused.
#![tactic(auto)]

mod copying;
mod detours;
mod directing;
mod edge;
mod edge_lists;
mod followers;
mod meet;
mod meeting;
mod nfa;
mod operations;
mod reading;
mod relabel;
mod shortened;
mod state_set;
mod words;

pub use directing::{add_directed, add_silent};
pub use edge::Edge;
pub use edge_lists::EdgeLists;
pub use nfa::Nfa;
pub use rela_pairs::BuildError;
pub use relabel::{parents_of, relabelled_set};
pub use state_set::StateSet;
