//! What may be asserted of two sets of words.

use crate::term::PathTerm;

/// An assertion about two sets of words.
#[derive(Drop)]
pub enum Assertion {
    /// They have the same words.
    Equal(PathTerm, PathTerm),
    /// Each word of the first is in the second.
    Included(PathTerm, PathTerm),
}
