//! Which alternative of its check's body claimed the source of a violated row.

/// An alternative of the body of a check, and where it stands.
#[derive(Clone, Copy)]
pub struct Zone {
    /// Its number among the alternatives of the body, from left to right and from 1 on.
    pub number: u32,
    /// The number of bytes of the specification's text before the `{` of its leftmost unit.
    pub at: u32,
}
