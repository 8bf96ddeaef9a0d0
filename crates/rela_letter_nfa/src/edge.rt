//! Edges by one letter.

/// An edge by one letter.
#[derive(Clone, Copy, Debug)]
pub struct LetterEdge {
    /// The letter.
    pub letter: u32,
    /// The state to which it leads.
    pub to: u32,
}
