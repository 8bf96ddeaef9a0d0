//! What is found of a certificate.

/// What an audit finds of a text.
#[derive(Clone, Copy)]
pub enum Audit {
    /// It is a certificate, and the check of each row that it lists is met.
    Accepted {
        /// How many rows it lists.
        rows: u32,
    },
    /// It is no certificate, or one of its blocks is bad: it isn't closed, or has a word that
    /// offends.
    Rejected {
        /// The first line that breaks the shape, or the head of the bad block, counted from 1.
        line: u32,
    },
    /// The images of a listed row have too many places.
    TooLarge,
}
