//! The report on a loaded change, and how far it is settled by what was loaded.
#![tactic(auto)]

mod laws;
mod reporting;

pub use laws::same_changes_agree;
pub use reporting::report_on;
