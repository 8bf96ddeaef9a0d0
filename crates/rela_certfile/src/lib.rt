//! The text of a certificate of compliance, as data and back.
//!
//! A certificate lists rows of a plan, each with blocks of words. Its text is made of lines, each
//! ended by a line feed: `rela certificate 1`, the lines of each listed row, and `end`. A row has
//! the line `row FLOW CHECK`, and then its blocks: for each complement of its check the line
//! `complement` and the words, and last the line `images` and the words. Word 0 of a block is the
//! empty word, and isn't written; for each further word there is a line `P S`, two decimals without
//! leading zeros, which says that it is word `P`, an earlier one, followed by the symbol `S`.
#![tactic(auto)]

mod builder;
mod certificate;
mod error;
mod item;
mod laws;
mod layout;
mod lines;
mod numbers;
mod parsing;
mod rows;
mod writing;

pub use certificate::Certificate;
pub use error::CertificateError;
pub use laws::{
    block_lines, block_steps, block_words, breaks_once, in_order, listed_as, listed_blocks,
    one_reading, planned_rows, row_appended, unbroken,
};
pub use layout::{CheckShape, PlanLayout};
pub use parsing::parse;
pub use rows::{ListedRow, Step};
pub use writing::{Writer, text};
