//! How sets of states are found.

/// How a set of states was found: from another set, by a letter.
#[derive(Clone, Copy, Debug)]
pub(crate) struct Arrival {
    /// The number of the other set.
    pub(crate) from: usize,
    /// The letter by which it was left.
    pub(crate) letter: u32,
}
