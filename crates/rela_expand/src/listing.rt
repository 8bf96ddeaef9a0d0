//! The symbols that a class lists.

ghost use Rattle.std.specs.Prelude.{◌≡◌, ℕ, IfOk, map};
ghost use Rattle.rela_expand.specs.Known.{picked};
ghost use Rattle.rela_expand.specs.Numbered.{or_none};
ghost use Rattle.rela_expand.specs.Places.{in_some, located};

use crate::written::Pick;
use rela_locations::{By, Locations, MemberError};
use rela_names::{Level, Name, Symbol};
use std::alloc::{AllocError, Global};

/// The path symbols that are picked, in strictly ascending order. A pick of a name that picks none
/// adds none. The only error is want of memory.
pub(crate) fn list(
    alloc: Global,
    locations: &Locations,
    level: Level,
    picks: &[Pick<'_>],
) -> Result<Vec<Symbol>, AllocError>
    ensures { IfOk result (λ symbols. symbols.items ≡ in_some (record {
      network = locations.now;
      level = level;
    }) (map (picked (record { network = locations.now; level = level }))
        picks.now)) }
{
    let mut symbols = Vec::new(alloc);
    for pick in picks {
        let more = picked(alloc, locations, level, pick)?;
        symbols.extend_from_slice(more.as_slice())?;
    }
    symbols.sort_unstable();
    symbols.dedup();
    Ok(symbols)
}

/// The path symbols of one pick, in ascending order.
fn picked(
    alloc: Global,
    locations: &Locations,
    level: Level,
    pick: &Pick<'_>,
) -> Result<Vec<Symbol>, AllocError>
    ensures { IfOk result (λ symbols. symbols.items ≡ picked (record {
      network = locations.now;
      level = level;
    }) pick.now) }
{
    match pick {
        Pick::Within(by, name) => within(alloc, locations, level, *by, name),
        Pick::Drop => Ok(vec![in alloc; locations.alphabet(level).drop_symbol()]?),
        Pick::Loop => Ok(vec![in alloc; locations.alphabet(level).loop_symbol()]?),
    }
}

/// The locations of the level within what the name picks: none where it picks none, or what it
/// picks is finer than the level.
fn within(
    alloc: Global,
    locations: &Locations,
    level: Level,
    by: By,
    name: &Name,
) -> Result<Vec<Symbol>, AllocError>
    ensures { (at : ℕ) → IfOk result (λ symbols. symbols.items
        ≡ or_none (located (record { network = locations.now; level = level }) by name.now at)) }
{
    match locations.members(alloc, level, by, name) {
        Ok(symbols) => Ok(symbols),
        Err(MemberError::Finer | MemberError::Unknown) => Ok(Vec::new(alloc)),
        Err(MemberError::Memory) => Err(AllocError),
    }
}
