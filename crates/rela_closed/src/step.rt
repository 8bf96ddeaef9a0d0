//! How one word of a list goes on from another.
/// One word of a list: an earlier word with a letter behind it. In a list of words that is given by
/// steps, word 0 is the empty word, and word `i + 1` is that of step `i`.
#[derive(Clone, Copy)]
pub struct Step {
    /// The number of the earlier word.
    pub parent: u32,
    /// The letter.
    pub letter: u32,
}
