//! The text that a run writes, and its exit status.

/// The status where every row is compliant or unselected, and where a canonical text or a snapshot
/// is written.
pub const MET: u8 = 0;

/// The status where some row is violated.
pub const VIOLATED: u8 = 1;

/// The status where the words of the command line aren't read.
pub const BAD_WORDS: u8 = 2;

/// The status where no row is violated, and some row is undecided.
pub const UNDECIDED: u8 = 3;

/// The status where an input is refused.
pub const REFUSED: u8 = 4;

/// The status where a file can't be read. Nothing is written.
pub const READ_FAULT: u8 = 5;

/// The status where the answer can't be written, or not to its end.
pub const WRITE_FAULT: u8 = 6;

/// The status where memory ran out. Nothing is written.
pub const NO_MEMORY: u8 = 7;

/// A text that is made whole before any of it is written, and the status that says what it is.
#[derive(Debug, Drop)]
pub struct Answer {
    /// The lines, each with its line feed.
    pub text: Vec<u8>,
    /// The exit status once they are written.
    pub status: u8,
}
