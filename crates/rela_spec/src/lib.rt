//! Specifications: their trees, and the reading of tokens as a tree.
#![tactic(auto)]

mod laws;
mod parsing;
mod tree;
mod words;

pub use laws::grammar_is_unambiguous;
pub use parsing::{Cursor, is_at_picking, level_line, parse, picked_by};
pub use tree::{Item, Member, Modifier, PathExpr, SpecExpr, SpecFile};
pub use words::is_keyword;
