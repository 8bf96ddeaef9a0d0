//! The verdict on a check for a flow, and checks compiled once for all flows: the two relations of a
//! check as transducers, whose letters are blocks of the check's symbols.
#![tactic(auto)]

mod assertion;
mod automaton_lines;
mod block_paths;
mod by_automata;
mod by_letters;
mod by_sets;
mod case;
mod compiled;
mod decision;
mod differing;
mod finer_blocks;
mod flow_letters;
mod laws;
mod leaf;
mod letter_offence;
mod letter_targets;
mod limits;
mod named;
mod offence;
mod plain_blocks;
mod relation;
mod relations;
mod row_laws;
mod seen;
mod sides;
mod state_lines;
mod symbol_targets;
mod terms;
mod told;
mod witnesses;
mod zone;
mod zone_laws;

pub use assertion::decide_assertion;
pub use compiled::{Compiled, compile};
pub use decision::decide_with_letters;
pub use flow_letters::FlowLetters;
pub use leaf::Leaf;
pub use row_laws::{TwoPathSets, rows_carry_over};
pub use zone::zone_text;
pub use zone_laws::zone_texts_are_one;
