//! The rows of a run over assertions: what is told of each assertion for each flow, their text, and
//! the exit status.
#![tactic(auto)]

mod deciding;
mod laws;
mod row;
mod statuses;
mod texts;

pub use deciding::rows_of;
pub use laws::right_rows_agree;
pub use row::AssertionRow;
pub use statuses::status;
pub use texts::text;
