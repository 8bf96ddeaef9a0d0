//! The commands on certificates: `certify`, which writes one, and `audit`, which checks one again.
#![tactic(auto)]

mod auditing;
mod certifying;

pub use auditing::audit_files;
pub use certifying::certify_files;
