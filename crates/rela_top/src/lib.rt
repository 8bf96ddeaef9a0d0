//! What the program does, from its words and the files they name to the bytes it writes.
#![tactic(auto)]

mod delivering;
mod running;

pub use delivering::deliver;
pub use rela_inputs::{
    BAD_WORDS, MET, NO_MEMORY, READ_FAULT, REFUSED, UNDECIDED, VIOLATED, WRITE_FAULT, read_asked,
};
pub use running::run;
