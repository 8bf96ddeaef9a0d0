//! Where an automaton and a transducer stand.

/// Where an automaton and a transducer that reads its words, and writes a given one, stand.
#[derive(Clone, Copy, Debug, PartialEq, Eq, Hash)]
pub(crate) struct Configuration {
    /// The state of the automaton.
    pub(crate) path: u32,
    /// The state of the transducer.
    pub(crate) machine: usize,
    /// How many letters of the word have been written.
    pub(crate) written: usize,
}
