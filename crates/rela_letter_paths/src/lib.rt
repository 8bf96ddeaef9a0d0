//! The automaton of a graph's paths, made once with symbols for letters, and then given over any
//! blocks of the symbols: only its letters are renamed. A want of memory is told as `AllocError`.
#![tactic(auto)]

mod blocks;
mod letters;
mod paths;

pub use blocks::over_blocks;
pub use paths::LetterPaths;
