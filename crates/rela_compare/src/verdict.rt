//! What a comparison tells.
use rela_names::Word;

/// One of two automata.
#[derive(Clone, Copy, Debug, PartialEq, Eq)]
pub enum Which {
    /// The one that was given first.
    First,
    /// The one that was given second.
    Second,
}

/// What a comparison of two automata tells.
#[derive(Drop)]
pub enum Verdict {
    /// No word tells them apart.
    Same,
    /// A word tells them apart.
    Differ {
        /// The first such word, in shortlex order.
        word: Word,
        /// The automaton that accepts it.
        side: Which,
    },
}
