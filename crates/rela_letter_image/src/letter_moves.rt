//! The moves that leave a state of a transducer, laid out by what they read.

use rela_labels::WideSet;

/// A move that reads nothing.
#[derive(Debug, Drop)]
pub struct AloneMove {
    /// The letters of which it writes one; `None` where it writes nothing.
    pub written: Option<WideSet>,
    /// The number of the state to which it leads.
    pub to: usize,
}

/// A move that reads a letter of a set.
#[derive(Debug, Drop)]
pub struct SetMove {
    /// The letters of which it reads one.
    pub set: WideSet,
    /// Whether it writes the letter that it read; else it writes nothing.
    pub writes: bool,
    /// The number of the state to which it leads.
    pub to: usize,
}

/// A move that reads one letter, and no other.
#[derive(Clone, Copy, Debug)]
pub struct LetterMove {
    /// The number of the state to which it leads.
    pub to: usize,
    /// The letter.
    pub letter: u32,
    /// Whether it writes the letter that it read; else it writes nothing.
    pub writes: bool,
}

/// The moves that leave a state.
#[derive(Clone, Copy, Debug)]
pub struct StateMoves<'a> {
    /// Those that read nothing.
    pub alone: &'a [AloneMove],
    /// Those that read a letter of several, or of none.
    pub by_set: &'a [SetMove],
    /// Those that read one letter alone.
    pub by_letter: &'a [LetterMove],
}
