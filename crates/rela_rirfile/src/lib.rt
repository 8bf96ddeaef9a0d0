//! Assertion files: what is asserted of the paths before and after a change, as it is written.
#![tactic(auto)]

mod parsing;
mod words;
mod written;

pub use parsing::parse;
pub use words::is_reserved;
pub use written::{Assert, AssertExpr, AssertFile, PathExpr, RelExpr};
