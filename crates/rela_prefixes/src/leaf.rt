//! What the trie of some prefixes is made of.

use rela_flows::Ipv4Prefix;

/// A leaf of the trie, with what leaf pushing brings down to it.
#[derive(Clone, Copy)]
pub(crate) struct Leaf {
    /// The addresses of the leaf.
    pub(crate) cell: Ipv4Prefix,
    /// The index in the list of the longest prefix that holds them, and `None` where none does.
    pub(crate) longest: Option<u32>,
}

/// A prefix with its index in the list.
#[derive(Clone, Copy)]
pub(crate) struct Numbered {
    /// The prefix itself.
    pub(crate) prefix: Ipv4Prefix,
    /// Its index in the list, from 0.
    pub(crate) number: u32,
}

/// The prefixes inside a cell, by the half in which they lie.
#[derive(Clone, Copy)]
pub(crate) struct Halves<'a> {
    /// The index in the list of a prefix that is the cell itself, and `None` where none is. Of
    /// several it is the last in their order.
    pub(crate) here: Option<u32>,
    /// Those in the lower half, in their order.
    pub(crate) low: &'a [Numbered],
    /// Those in the upper half, in their order.
    pub(crate) high: &'a [Numbered],
}
