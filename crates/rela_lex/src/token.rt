//! What a specification's text is cut into.

use rela_names::Name;

/// A token, and how many bytes of the text stand before it.
#[derive(Drop)]
pub struct Token {
    /// The number of bytes of the text before it.
    pub at: u32,
    /// What it is.
    pub kind: TokenKind,
}

/// A mark, or a name with the way it is written.
#[derive(Drop)]
pub enum TokenKind {
    /// A mark of one byte: one of `(){}[]^*+?!&|,;=`, or a `.` or `:` that stands alone.
    Mark(u8),
    /// A longest run of 1 to 64 name bytes that is neither `.` nor `:`.
    Bare(Name),
    /// A name between two `"`.
    Quoted(Name),
    /// The name that stands directly after a `$`.
    Reference(Name),
}
