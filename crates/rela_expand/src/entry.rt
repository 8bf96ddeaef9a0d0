//! The entries of a class table that is being made.

ghost use Rattle.std.specs.Prelude.{◌≡◌};
ghost use Rattle.std.specs.List.Sorted.{IsStrictlyIncreasing};

use rela_names::Symbol;

/// An entry of a class table: some path symbols, or all but those.
#[derive(PartialEq, Eq, Hash, Drop)]
pub(crate) struct Entry {
    /// Whether the entry is all path symbols but the members.
    pub(crate) negated: bool,
    /// The members, in strictly ascending order.
    pub(crate) members: Vec<Symbol>,
    ghost ascending: { IsStrictlyIncreasing members.items },
}

impl Entry {
    /// The entry of these members, which ascend strictly.
    pub(crate) fn new(negated: bool, members: Vec<Symbol>) -> Entry
        requires { IsStrictlyIncreasing members.items }
        ensures negated { result.negated ≡ negated }
        ensures members { result.members ≡ members }
    {
        Entry { negated, members }
    }
}
