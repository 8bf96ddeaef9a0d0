//! Checks that ask for the same. They can share what is made for one of them, and what is found by it.
#![tactic(auto)]

mod asked;
mod fingerprint;
mod same_body;
mod same_check;

pub use asked::{Asked, asked_by};
pub use same_check::ask_the_same;
