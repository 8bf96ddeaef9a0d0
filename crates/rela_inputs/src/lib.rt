//! From the files of a command to what they stand for, or the first refusal.
#![tactic(auto)]

mod answer;
mod asking;
mod assertions;
mod change;
mod halts;
mod laws;
mod loading;
mod reading;
mod refusal;
mod step_laws;
mod texts;

pub use answer::{
    Answer, BAD_WORDS, MET, NO_MEMORY, READ_FAULT, REFUSED, UNDECIDED, VIOLATED, WRITE_FAULT,
};
pub use asking::{Asked, Written, ask, read_asked, read_tree, read_written};
pub use assertions::read_assertions;
pub use change::{Loaded, load_change};
pub use halts::{fib_halt, refused, spec_halt};
pub use laws::{loads_are_the_same, same_checks_are_equal};
pub use loading::{
    load_locations, load_pairs, load_snapshot, load_spec, load_tables, load_tree, load_written,
};
pub use reading::{Halt, MAX_FILE_BYTES, read_input};
pub use refusal::{Input, Reason, Refusal, refusal_line};
pub use step_laws::{Steps, calls_inside_end, steps_chain, texts_are_refused};
pub use texts::{pair_flows, read_locations, read_snapshot, read_tables};
