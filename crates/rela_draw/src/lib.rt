//! The command `fib`: from two table files and the locations to a snapshot.
#![tactic(auto)]

mod drawing;

pub use drawing::draw;
