//! Finite transducers with silent moves: the rational relations between words and their operations.
//! An `AllocError` comes only where memory is refused.
#![tactic(auto)]

mod compose;
mod detours;
mod image_edges;
mod image_pairs;
mod imaging;
mod inverse;
mod joint;
mod laws;
mod leading;
mod moves;
mod moving;
mod pruned;
mod reading_finer;
mod relabel;
mod relabel_reached;
mod shortened;
mod tapes;
mod transducer;

pub use imaging::{are_letters, image};
pub use laws::{letters_give_symbols, related_words_have_letters, symbols_give_letters};
pub use moves::{Move, MoveKind};
pub use rela_pairs::BuildError;
pub use transducer::Transducer;
