//! Terms as automata: the automaton of a path term and the transducer of a relation term, whose states
//! stand for the places of the term. How complements are made, and what the two path sets are, is the
//! caller's.
#![tactic(auto)]

mod builder;
mod combined;
mod complements;
mod laws;
mod letter_sets;
mod letters;
mod path_sets;
mod stop;
mod well_formed;

pub use builder::Builder;
pub use complements::{Answer, Complements};
pub use laws::{NamedPaths, images_are_placed, named_symbols_by_form, path_sets_are_made};
pub use letters::Letters;
pub use path_sets::{NoPaths, PathSets};
pub use stop::Stop;
