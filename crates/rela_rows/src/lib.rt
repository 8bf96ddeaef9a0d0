//! The rows of a report on a change: which there are, and the verdict of each.
#![tactic(auto)]

mod laws;
mod repeats;
mod rows;
mod shapes;
mod sharing;
mod verdict;

pub use laws::right_rows_agree;
pub use rows::{rows_of, write_rows};
