//! One symbol of a path, as an expression asks for it.

use rela_names::Symbol;

/// Some path symbols.
#[derive(Clone, Copy)]
pub(crate) enum Letter {
    /// Those in this entry of the class table, of which there are none where there is no such
    /// entry.
    Class(u32),
    /// This symbol alone.
    One(Symbol),
    /// All path symbols.
    Path,
}
