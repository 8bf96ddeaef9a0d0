//! The tables of a file.

ghost use Rattle.std.specs.Prelude.{◌≡◌, ◌≢◌, ◌*◌, ◌<◌, ◌≤◌, [], ◌∷◌, ◌++◌, Ok, Err, IfOk, IfErr, OnOk, IsOk, IsErrOf, length, map, nat_eq};
ghost use Rattle.std.specs.List.{All};
ghost use Rattle.indexmap.specs.IndexSet.{IsUnique};
ghost use Rattle.serde_json.specs.View.{view};
ghost use Rattle.rela_locations.specs.Network.{alphabet_of};
ghost use Rattle.rela_names.specs.declared.level.Level.TheVariants.{Device};
ghost use Rattle.rela_snapshot.specs.Steps.{IsAnswer};
ghost use Rattle.rela_tables.specs.Distinct.{AreTables, IsTable};
ghost use Rattle.rela_tables.specs.Load as spec;
ghost use Rattle.rela_tables.specs.Located.{IsTableIn};
ghost use Rattle.rela_tables.specs.TableParts as parts;

use crate::route::{MAX_ROUTES, Route, read_routes};
use crate::symbols::device;
use indexmap::IndexSet;
use rela_json::{LoadError, Value, few_entries, part, string};
use rela_locations::Locations;
use rela_names::{List, Symbol};
use std::alloc::Global;

/// The greatest number of tables of one file.
pub const MAX_TABLES: usize = 100_000;

/// The forwarding table of a device.
#[derive(Drop)]
pub struct Table {
    /// The symbol of the device.
    pub device: Symbol,
    /// Its routes, each of a prefix of its own, in the order of the file.
    pub routes: List<Route>,
}

/// The tables of these entries, in order, each of a device of its own.
///
/// # Errors
///
/// The first fault of a table or of one of its routes; `Memory`.
pub(crate) fn read_tables(
    alloc: Global,
    locations: &Locations,
    values: &[Value],
) -> Result<Vec<Table>, LoadError>
    ensures tables { IfOk result (λ tables.
        IsAnswer (spec.AreTablesAfter locations.now [] (map view values.now)) (Ok tables.items)) }
    ensures fault { IfErr result (λ e. e ≢ LoadError.Memory →
        IsAnswer (spec.AreTablesAfter locations.now [] (map view values.now)) (Err e)) }
    ensures located { IfOk result (λ tables. All (IsTableIn locations.now) tables.items) }
    ensures distinct { IfOk result (λ tables. AreTables tables.items) }
{
    let mut devices = IndexSet::new(alloc);
    let mut tables = Vec::new(alloc);
    let mut count = 0;
    for value in values {
        let table = read_table(alloc, locations, &mut devices, value, count)?;
        count += table.routes.as_slice().len() as u32;
        tables.push(table)?;
    }
    Ok(tables)
}

/// The next table, whose device goes to those of the earlier ones. `count` is the number of their
/// routes.
fn read_table(
    alloc: Global,
    locations: &Locations,
    devices: &mut IndexSet<Symbol>,
    value: &Value,
    count: u32,
) -> Result<Table, LoadError>
    requires count { count ≤ 10000 * length devices.old.keys }
    ensures table { IfOk result (λ table.
        IsAnswer (spec.IsTableAfter locations.now devices.old.keys count
        (view value.now)) (Ok table)) }
    ensures fault { IfErr result (λ e. e ≢ LoadError.Memory →
        IsAnswer (spec.IsTableAfter locations.now devices.old.keys count
        (view value.now)) (Err e)) }
    ensures devices { IfOk result (λ table. devices.new.keys ≡ devices.old.keys
        ++ table.device ∷ []) }
    ensures unique { OnOk result (IsUnique nat_eq devices.new) }
    ensures few { OnOk result (length devices.old.keys < MAX_TABLES) }
    ensures located { IfOk result (IsTableIn locations.now) }
    ensures distinct { IfOk result IsTable }
{
    let (device, values) = read_head(locations, devices, value)?;
    let routes = read_routes(alloc, locations, values, count)?;
    Ok(Table {
        device,
        routes: List::from_vec(routes),
    })
}

/// The device of the next table, which goes to those of the earlier ones, and the entries of its
/// routes.
///
/// # Errors
///
/// `TooMany` where there are 100,000 tables already; else the first fault of [`read_device`]; else
/// that of [`route_entries`].
#[tactic(auto, unfolding(crate::specs::TableParts::head_of))]
fn read_head<'a>(
    locations: &Locations,
    devices: &mut IndexSet<Symbol>,
    value: &'a Value,
) -> Result<(Symbol, &'a [Value]), LoadError>
    ensures head { IfOk result (λ head. parts.head_of locations.now devices.old.keys
        (view value.now) ≡ Ok (head.0, map view head.1.now)) }
    ensures fault { IfErr result (λ e. e ≢ LoadError.Memory →
        parts.head_of locations.now devices.old.keys (view value.now) ≡ Err e) }
    ensures devices { IfOk result (λ head. devices.new.keys ≡ devices.old.keys ++ head.0 ∷ []) }
    ensures unique { OnOk result (IsUnique nat_eq devices.new) }
    ensures few { OnOk result (length devices.old.keys < MAX_TABLES) }
    ensures few_routes { IfOk result (λ head. length head.1.now ≤ MAX_ROUTES) }
    ensures located { IfOk result (λ head. head.0 < length (alphabet_of Device locations.now)) }
{
    if devices.len() >= MAX_TABLES {
        return Err(LoadError::TooMany {
            row: MAX_TABLES as u32,
        });
    }
    let row = devices.len() as u32;
    let device = read_device(locations, devices, value, row)?;
    let values = route_entries(value, row)?;
    Ok((device, values))
}

/// The device of the next table, which goes to those of the earlier ones.
///
/// # Errors
///
/// `WrongShape` where the table is no object or its `device` no string; else `UnknownLocation`
/// where no device has that name; else `RepeatedEntry` where an earlier table is of that device;
/// `Memory`, only where none of these comes.
#[tactic(auto, unfolding(crate::specs::TableParts::device_of))]
fn read_device(
    locations: &Locations,
    devices: &mut IndexSet<Symbol>,
    value: &Value,
    row: u32,
) -> Result<Symbol, LoadError>
    ensures device { IfOk result (λ device. parts.device_of locations.now devices.old.keys row
        (view value.now) ≡ Ok device) }
    ensures fault { IfErr result (λ e. e ≢ LoadError.Memory →
        parts.device_of locations.now devices.old.keys row (view value.now) ≡ Err e) }
    ensures memory { IsErrOf result LoadError.Memory →
        IsOk (parts.device_of locations.now devices.old.keys row (view value.now)) }
    ensures devices { IfOk result (λ device. devices.new.keys ≡ devices.old.keys ++ device ∷ []) }
    ensures unique { OnOk result (IsUnique nat_eq devices.new) }
    ensures located { IfOk result (λ device. device < length (alphabet_of Device locations.now)) }
{
    let name = string(part(value, "device", 66, row)?, 67, row)?;
    let found = device(locations, name, row)?;
    let (_, is_new) = devices.insert_full(found)?;
    if !is_new {
        return Err(LoadError::RepeatedEntry { row });
    }
    Ok(found)
}

/// The entries of the routes of a table.
///
/// # Errors
///
/// `WrongShape` where its `routes` are no array; else `TooMany` where there are more than 10,000.
#[tactic(auto, unfolding(crate::specs::TableParts::route_entries_of))]
fn route_entries(value: &Value, row: u32) -> Result<&[Value], LoadError>
    ensures entries { IfOk result (λ values. parts.route_entries_of row (view value.now)
        ≡ Ok (map view values.now)) }
    ensures fault { IfErr result (λ e. parts.route_entries_of row (view value.now) ≡ Err e) }
    ensures few { IfOk result (λ values. length values.now ≤ MAX_ROUTES) }
{
    few_entries(part(value, "routes", 66, row)?, MAX_ROUTES, 68, row)
}
