//! Lists of words that are closed for some automata: each listed word with one letter more reaches
//! the same states as some listed word. Such a list tells all that words of any length reach. An
//! `AllocError` comes only where memory is refused.
#![tactic(auto)]

mod acceptance;
mod blocks;
mod bundle;
mod closed_laws;
mod closedness;
mod closure;
mod complementing;
mod finding;
mod followers;
mod following;
mod labels;
mod numbering;
mod reader;
mod single;
mod step;
mod table;
mod transitions;

pub use closed_laws::{closed_lists_decide, listed_words_are_over};
pub use complementing::complement;
pub use finding::find;
pub use following::{Followed, follow};
pub use step::Step;
