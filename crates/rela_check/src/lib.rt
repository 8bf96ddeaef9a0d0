//! The command `check`: from two snapshots, the locations and a specification to the report on the
//! change.
#![tactic(auto)]

mod blaming;
mod checking;
mod reporting;

pub use blaming::report_blamed;
pub use checking::report_asked;
pub use reporting::report;
