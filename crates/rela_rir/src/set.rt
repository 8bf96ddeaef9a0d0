//! The entries of class tables.

ghost use Rattle.std.specs.List.Sorted.{IsStrictlyIncreasing};

use rela_names::Word;

/// An entry of a class table: some path symbols, or all but those.
#[derive(PartialEq, Eq, Drop)]
pub struct SymbolSet {
    /// Whether the set is all path symbols but the members.
    pub negated: bool,
    /// The members, in ascending order.
    pub members: Word,
    ghost ascending: { IsStrictlyIncreasing members },
}
