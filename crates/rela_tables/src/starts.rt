//! The interfaces at which traffic starts.

ghost use Rattle.std.specs.Prelude.{◌≡◌, ◌≢◌, ◌<◌, Ok, Err, IfOk, IfErr, length, map};
ghost use Rattle.serde_json.specs.View.{view};
ghost use Rattle.rela_locations.specs.Network.{alphabet_of};
ghost use Rattle.rela_names.specs.declared.level.Level.TheVariants.{Interface};
ghost use Rattle.rela_tables.specs.Located.{AreInterfaces};
ghost use Rattle.rela_tables.specs.Starts as spec;

use crate::symbols::interface;
use rela_json::{LoadError, Value, string};
use rela_locations::Locations;
use rela_names::Symbol;
use std::alloc::Global;

/// The interfaces of these entries, in order. Time: expected linear.
///
/// # Errors
///
/// The first fault of an entry, with its index as the row; `Memory`.
pub(crate) fn read_starts(
    alloc: Global,
    locations: &Locations,
    values: &[Value],
) -> Result<Vec<Symbol>, LoadError>
    ensures starts { IfOk result (λ starts. spec.starts_from locations.now 0 (map view values.now)
        ≡ Ok starts.items) }
    ensures fault { IfErr result (λ e. e ≢ LoadError.Memory →
        spec.starts_from locations.now 0 (map view values.now) ≡ Err e) }
    ensures located { IfOk result (λ starts. AreInterfaces locations.now starts.items) }
{
    let mut starts = Vec::with_capacity(alloc, values.len())?;
    for (place, value) in values.iter().enumerate() {
        // A file with more entries would not fit into memory.
        let Ok(row) = u32::try_from(place) else {
            return Err(LoadError::Memory);
        };
        let start = read_start(locations, value, row)?;
        starts.push(start)?;
    }
    Ok(starts)
}

/// The interface that an entry names.
///
/// # Errors
///
/// `WrongShape` where the entry is no string; else `UnknownLocation` where no interface has that
/// name.
#[tactic(auto, unfolding(crate::specs::Starts::start_of))]
fn read_start(locations: &Locations, value: &Value, row: u32) -> Result<Symbol, LoadError>
    ensures start { IfOk result (λ start. spec.start_of locations.now row (view value.now)
        ≡ Ok start) }
    ensures fault { IfErr result (λ e. spec.start_of locations.now row (view value.now) ≡ Err e) }
    ensures located { IfOk result (λ start. start < length (alphabet_of Interface locations.now)) }
{
    interface(locations, string(Some(value), 64, row)?, row)
}
