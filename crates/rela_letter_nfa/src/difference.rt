//! What is sought of two automata, and what a search tells.
use rela_names::Word;

/// Which words are sought.
#[derive(Clone, Copy, Debug)]
pub enum Sought {
    /// Those that the first of two automata accepts and the second doesn't.
    FirstAlone,
    /// Those that one of two automata accepts and the other doesn't.
    EitherAlone,
}

/// One of two automata.
#[derive(Clone, Copy, Debug, PartialEq, Eq)]
pub enum Which {
    /// The one that was given first.
    First,
    /// The one that was given second.
    Second,
}

/// A word that one of two automata alone accepts.
#[derive(Debug, Drop)]
pub struct Difference {
    /// The word.
    pub word: Word,
    /// The automaton that accepts it.
    pub side: Which,
}
