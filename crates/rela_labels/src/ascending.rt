//! Symbols in ascending order, each once.
ghost use Rattle.std.specs.Prelude.{◌≡◌, ℕ, ◌^◌, ◌<◌, ◌↔◌, ◌⊎◌, All, Contains, IfOk, MatchOption, length, slice_index};
ghost use Rattle.rela_labels.specs.Apart.{IsAscending, ArePlaces};

use rela_names::Symbol;
use std::alloc::{AllocError, Global};

/// The symbols of both lists, each once, in ascending order. Time: n log n in the symbols of both;
/// space: linear in them.
pub(crate) fn ascending_union(
    alloc: Global,
    first: &[Symbol],
    second: &[Symbol],
) -> Result<Vec<Symbol>, AllocError>
    ensures ascending { IfOk result (λ all. IsAscending all.items) }
    ensures members { IfOk result (λ all. (s : ℕ) → Contains all.items s ↔
        (Contains first.now s ⊎ Contains second.now s)) }
{
    let mut all = Vec::from_slice(alloc, first)?;
    all.extend_from_slice(second)?;
    all.sort_unstable();
    all.dedup();
    Ok(all)
}

/// The place of the symbol, and `None` where it isn't there. Time: a binary search.
pub(crate) fn place_in(ascending: &[Symbol], symbol: Symbol) -> Option<usize>
    requires { IsAscending ascending.now }
    ensures { MatchOption result (Contains ascending.now symbol → ⊥)
        (λ place. (place < length ascending.now) × (slice_index ascending.now place ≡ symbol)) }
{
    ascending.binary_search(&symbol).ok()
}

/// The place of each of these symbols, all of which are there. Time: a binary search for each.
pub(crate) fn places_in(
    alloc: Global,
    ascending: &[Symbol],
    symbols: &[Symbol],
) -> Result<Vec<u32>, AllocError>
    requires ascending { IsAscending ascending.now }
    requires few { length ascending.now < 2 ^ 32 }
    requires there { All (Contains ascending.now) symbols.now }
    ensures { IfOk result (λ places. ArePlaces ascending.now symbols.now places.items) }
{
    let mut places = Vec::with_capacity(alloc, symbols.len())?;
    for symbol in symbols {
        places.push(place_of(ascending, *symbol))?;
    }
    Ok(places)
}

/// The place of the symbol, which is there. Time: a binary search.
fn place_of(ascending: &[Symbol], symbol: Symbol) -> u32
    requires ascending { IsAscending ascending.now }
    requires few { length ascending.now < 2 ^ 32 }
    requires there { Contains ascending.now symbol }
    ensures below { result < length ascending.now }
    ensures at { slice_index ascending.now result ≡ symbol }
{
    match place_in(ascending, symbol) {
        Some(place) => place as u32,
        None => 0,
    }
}
