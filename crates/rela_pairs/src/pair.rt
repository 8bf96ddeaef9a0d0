//! Pairs of states.
/// Two states, each of a machine of its own.
#[derive(Clone, Copy, Debug, PartialEq, Eq, Hash)]
pub struct Pair {
    /// The state of the left machine.
    pub left: usize,
    /// The state of the right machine.
    pub right: usize,
}
