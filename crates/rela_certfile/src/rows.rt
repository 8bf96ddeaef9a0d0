//! What a certificate lists: rows, and their blocks of words.

use rela_names::List;

/// A word line of a block: the word `parent` of the block, followed by the symbol `symbol`. The
/// words of a block are numbered from 0, which is the empty word, and each step adds the next.
#[derive(Clone, Copy, PartialEq, Eq)]
pub struct Step {
    /// The number of the word that is continued.
    pub parent: u32,
    /// The number of the symbol that is put behind it.
    pub symbol: u32,
}

/// A listed row: one of the plan, with a block for each complement of its check and a block of
/// images.
#[derive(Drop)]
pub struct ListedRow {
    /// The place of the row in the plan, counted from 0.
    pub place: usize,
    /// A block for each complement of the row's check.
    pub complements: List<List<Step>>,
    /// The block of the images.
    pub images: List<Step>,
}
