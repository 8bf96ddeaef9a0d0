//! The image of an automaton's words under a transducer over coarser letters, as an automaton with
//! one letter on each edge. A want of memory is told as `AllocError` or as `BuildError::Memory`.
#![tactic(auto)]

mod ahead;
mod branches;
mod found;
mod growing;
mod imaging;
mod laying_out;
mod letter_by_letter;
mod letter_moves;
mod letter_relation;
mod move_lists;
mod needs;
mod product;
mod reads;

pub use imaging::letter_image;
pub use letter_by_letter::by_letters;
pub use letter_moves::{AloneMove, LetterMove, SetMove, StateMoves};
pub use letter_relation::LetterRelation;
