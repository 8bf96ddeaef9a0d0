//! What is found of a listed row.

/// What is found of the blocks of a listed row.
#[derive(Clone, Copy)]
pub(crate) enum Judgement {
    /// The row's check is met.
    Met,
    /// The complement block with this number is not closed.
    OpenComplement(usize),
    /// The images block is not closed, or has a word that offends.
    BadImages,
    /// The images have too many places.
    TooLarge,
}
