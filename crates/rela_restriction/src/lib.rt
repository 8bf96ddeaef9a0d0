//! Which pairs of words one relation has beyond another, by the letters that are read: where a
//! first word keeps to letters by which nothing is beyond, two transducers relate it alike. An
//! `AllocError` comes only where memory is refused.
#![tactic(auto)]

mod acting;
mod acts;
mod emptiness;
mod excess;
mod letters;
mod moved;

pub use excess::Excess;
pub use rela_nfa::BuildError;
