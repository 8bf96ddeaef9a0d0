//! The names of locations, the symbols that stand for them, words of symbols and their order.
#![tactic(auto)]

mod alphabet;
mod boxed;
mod level;
mod list;
mod name;
mod name_order;
mod shortlex;
mod word;

pub use alphabet::{Alphabet, MAX_LOCATIONS, MAX_MARKERS};
pub use boxed::Boxed;
pub use level::Level;
pub use list::List;
pub use name::{MAX_NAME_LEN, Name, NameError, is_name, is_name_byte};
pub use name_order::{ascending_when_keys, ascending_when_sorted};
pub use shortlex::{
    WordSet, first_is_unique, shortlex_is_irreflexive, shortlex_is_total, shortlex_is_transitive,
};
pub use word::{Symbol, Word};
