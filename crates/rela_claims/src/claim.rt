//! What is claimed of the paths before and after a change.

use rela_names::{Boxed, Name};
use rela_rir::{Assertion, SymbolSet};

/// A claim with its name.
#[derive(Drop)]
pub struct Claim {
    /// The name that its rows are reported under.
    pub name: Name,
    /// What is claimed.
    pub tree: Tree,
    /// The class table: a class of the tree's terms is an entry of it, by its place from 0.
    pub classes: Vec<SymbolSet>,
}

/// Assertions, put together.
#[derive(Drop)]
pub enum Tree {
    /// One assertion.
    Leaf(Assertion),
    /// Both parts hold.
    And(Boxed<Tree>, Boxed<Tree>),
    /// One of the parts holds, or both do.
    Or(Boxed<Tree>, Boxed<Tree>),
    /// The part does not hold.
    Not(Boxed<Tree>),
}
