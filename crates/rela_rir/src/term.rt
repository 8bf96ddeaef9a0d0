//! The forms of terms: sets of words, and relations between words.

use rela_names::{Boxed, Symbol};

/// A set of words.
#[derive(Drop)]
#[cycle(term)]
pub enum PathTerm {
    /// No word.
    None,
    /// The empty word alone.
    Empty,
    /// Each word of one path symbol that is in this entry of the class table.
    Class(u32),
    /// The word of this symbol alone.
    One(Symbol),
    /// The words that are in one of them, or in both.
    Union(Boxed<PathTerm>, Boxed<PathTerm>),
    /// A word of the first, and then one of the second.
    Concat(Boxed<PathTerm>, Boxed<PathTerm>),
    /// Words of the part, one after another: none, one or more.
    Star(Boxed<PathTerm>),
    /// The words that are in both.
    Meet(Boxed<PathTerm>, Boxed<PathTerm>),
    /// The words of path symbols that are not in the part.
    Complement(Boxed<PathTerm>),
    /// The paths before the change.
    Pre,
    /// The paths after the change.
    Post,
    /// The image of the set under the relation: the words that some word of the set is related to.
    Image(Boxed<PathTerm>, Boxed<RelTerm>),
}

/// A relation between words: a set of pairs.
#[derive(Drop)]
#[cycle(term)]
pub enum RelTerm {
    /// Each word of the set with itself.
    Identity(Boxed<PathTerm>),
    /// Each word of the first set with each of the second.
    Product(Boxed<PathTerm>, Boxed<PathTerm>),
    /// The pairs that are in one of them, or in both.
    Union(Boxed<RelTerm>, Boxed<RelTerm>),
    /// A pair of the first, and then one of the second.
    Concat(Boxed<RelTerm>, Boxed<RelTerm>),
    /// Pairs of the part, one after another: none, one or more.
    Star(Boxed<RelTerm>),
    /// The composition: by the first to some word, and from that word by the second.
    Compose(Boxed<RelTerm>, Boxed<RelTerm>),
}
