//! The first word of a regular language, of the shortest ones the least by its letters: of all its
//! words, or of those that are related to a word. An `AllocError` comes only where memory is
//! refused.
#![tactic(auto)]

mod distances;
mod letters;
mod links;
mod numbers;
mod onward;
mod related;
mod shortest;
mod sources;

pub use related::least_source;
pub use shortest::least_word;
