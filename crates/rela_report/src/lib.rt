//! The rows of a run and their text.
#![tactic(auto)]

mod counts;
mod lines;
mod rows;
mod statuses;
mod texts;
mod writing;
mod zones;

pub use rows::{ReportRow, Row, Side};
pub use statuses::{STATUS_MET, STATUS_UNDECIDED, STATUS_VIOLATED, status};
pub use texts::{text, text_blamed, total};
pub use writing::ReportWriter;
pub use zones::Zone;
