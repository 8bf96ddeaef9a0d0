//! The symbols of classes.

ghost use Rattle.std.specs.Prelude.{◌≡◌, ◌<◌, false, [], ◌∷◌, IfOk, map};
ghost use Rattle.std.specs.List.{All};
ghost use Rattle.rela_locations.specs.Network.{alphabet_of, members_of};
ghost use Rattle.rela_names.specs.Alphabet.{path_symbols};
ghost use Rattle.rela_claims.specs.Classes.{listing, listing_of};
ghost use Rattle.rela_claims.specs.Written.{class_of};

use crate::classes::Written;
use indexmap::IndexSet;
use rela_locations::{By, Locations};
use rela_names::{Level, Name, Symbol, Word};
use rela_rir::SymbolSet;
use std::alloc::{AllocError, Global};

/// The sets of the classes of a table, in their order. The only error is want of memory.
///
/// Time and space: a look-up for each class, and linear in the symbols that they list.
pub(crate) fn sets(
    alloc: Global,
    locations: &Locations,
    level: Level,
    table: &IndexSet<Written<'_>>,
) -> Result<Vec<SymbolSet>, AllocError>
    ensures listed { IfOk result (λ sets. map listing_of sets.items ≡ map (listing (record {
      network = locations.now;
      level = level;
    })) (map class_of table.now.keys)) }
    ensures below { IfOk result (λ sets. All (λ set.
        All (λ s. s < path_symbols (alphabet_of level locations.now)) set.members) sets.items) }
{
    let mut sets = Vec::with_capacity(alloc, table.len())?;
    for class in table.as_slice() {
        sets.push(set_of(alloc, locations, level, class)?)?;
    }
    Ok(sets)
}

/// The set of a class, whose name picks some location and none that is finer than the level.
fn set_of(
    alloc: Global,
    locations: &Locations,
    level: Level,
    class: &Written<'_>,
) -> Result<SymbolSet, AllocError>
    ensures listed { IfOk result (λ set. listing_of set ≡ listing (record {
      network = locations.now;
      level = level;
    }) (class_of class.now)) }
    ensures below { IfOk result (λ set.
        All (λ s. s < path_symbols (alphabet_of level locations.now)) set.members) }
{
    match class {
        Written::All => Ok(SymbolSet {
            negated: true,
            members: Word::from_symbols(Vec::new(alloc)),
        }),
        Written::Within(by, name) => located(alloc, locations, level, *by, name),
        Written::Drop => alone(alloc, locations.alphabet(level).drop_symbol()),
        Written::Loop => alone(alloc, locations.alphabet(level).loop_symbol()),
    }
}

/// The set of the locations of a level within what a name picks. A name that picks none was refused
/// before; here the answer would be as if memory were wanting.
fn located(
    alloc: Global,
    locations: &Locations,
    level: Level,
    by: By,
    name: &Name,
) -> Result<SymbolSet, AllocError>
    ensures listed { IfOk result (λ set. listing_of set ≡ record {
      negated = false;
      members = members_of level by name.now locations.now;
    }) }
    ensures below { IfOk result (λ set.
        All (λ s. s < path_symbols (alphabet_of level locations.now)) set.members) }
{
    match locations.members(alloc, level, by, name) {
        Ok(symbols) => Ok(SymbolSet {
            negated: false,
            members: Word::from_symbols(symbols),
        }),
        Err(_) => Err(AllocError),
    }
}

/// The set of one symbol.
fn alone(alloc: Global, symbol: Symbol) -> Result<SymbolSet, AllocError>
    ensures { IfOk result (λ set. listing_of set
        ≡ record { negated = false; members = symbol ∷ [] }) }
{
    Ok(SymbolSet {
        negated: false,
        members: Word::from_symbols(vec![in alloc; symbol]?),
    })
}
