//! For two levels, which locations of the one lie in which of the other.

ghost use Rattle.std.specs.Prelude.{◌≡◌, ◌<◌, ◌≤◌, [], length, map, replicate, slice_index, IfOk};
ghost use Rattle.std.specs.List.{All, range_with_len};
ghost use Rattle.rela_locations.specs.Tables.{with_entries, places_of as places_in};

use crate::pairs::Pair;
use rela_names::Symbol;
use std::alloc::{AllocError, Global};

/// For two levels, the outer location of each inner one, and the inner ones of each outer one.
#[derive(Drop)]
pub(crate) struct Containment {
    /// For each inner location, by its symbol, the outer one that it lies in.
    pub(crate) outer: Vec<Symbol>,
    /// For each outer location, by its symbol, the inner ones that lie in it, ascending.
    pub(crate) inner: Vec<Vec<Symbol>>,
}

impl Containment {
    /// The containment that these pairs of an inner and an outer location tell, for `inner` inner
    /// locations and `outer` outer ones. Of the pairs of one inner location the last counts, and
    /// one without a pair lies in location 0. Time and space: linear in the pairs and the
    /// locations.
    ///
    /// # Errors
    ///
    /// Only where memory is wanted.
    pub(crate) fn new(
        alloc: Global,
        pairs: &[Pair],
        inner: usize,
        outer: usize,
    ) -> Result<Containment, AllocError>
        requires few { inner ≤ 100000 }
        requires pairs { All (λ pair. pair.0 < inner) pairs.now }
        requires table { All (λ entry. entry < outer) (with_entries (replicate inner 0) pairs.now) }
        ensures outer { IfOk result (λ made. made.outer.items
            ≡ with_entries (replicate inner 0) pairs.now) }
        ensures inner { IfOk result (λ made. map (λ list. list.items) made.inner.items
            ≡ map (places_in (with_entries (replicate inner 0) pairs.now))
            (range_with_len 0 outer)) }
    {
        let table = table_of(alloc, pairs, inner)?;
        let lists = places_of(alloc, table.as_slice(), outer)?;
        Ok(Containment {
            outer: table,
            inner: lists,
        })
    }
}

/// The table of `count` entries that has the second symbol of each pair at the first, and 0 where
/// no pair puts one.
fn table_of(alloc: Global, pairs: &[Pair], count: usize) -> Result<Vec<Symbol>, AllocError>
    requires { All (λ pair. pair.0 < count) pairs.now }
    ensures { IfOk result (λ table. table.items ≡ with_entries (replicate count 0) pairs.now) }
{
    let mut table = Vec::from_elem(alloc, 0, count)?;
    for pair in pairs {
        let (at, entry) = *pair;
        table[at as usize] = entry;
    }
    Ok(table)
}

/// For each possible entry of a table, of which there are `count`, the indexes where it stands,
/// ascending.
fn places_of(alloc: Global, table: &[Symbol], count: usize) -> Result<Vec<Vec<Symbol>>, AllocError>
    requires few { length table.now ≤ 100000 }
    requires in_range { All (λ entry. entry < count) table.now }
    ensures { IfOk result (λ lists. map (λ list. list.items) lists.items
        ≡ map (places_in table.now) (range_with_len 0 count)) }
{
    let room = table.len().checked_div(count).unwrap_or(0);
    let mut lists = empty_lists(alloc, count, room)?;
    for (at, entry) in table.iter().enumerate() {
        let list = &mut lists[*entry as usize];
        list.push(at as Symbol)?;
    }
    Ok(lists)
}

/// `n` empty lists, each with room for as many symbols as each has on average.
fn empty_lists(alloc: Global, n: usize, room: usize) -> Result<Vec<Vec<Symbol>>, AllocError>
    ensures { IfOk result (λ lists. map (λ list. list.items) lists.items ≡ replicate n []) }
{
    let mut lists = Vec::with_capacity(alloc, n)?;
    while lists.len() < n {
        let list = Vec::with_capacity(alloc, room)?;
        lists.push(list)?;
    }
    Ok(lists)
}
