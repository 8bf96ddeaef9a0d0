//! The tables of a file, read token by token.

ghost use Rattle.std.specs.Prelude.{◌≡◌, ◌*◌, ◌<◌, ◌≤◌, [], ◌∷◌, ◌++◌, Ok, IfOk, OnOk, false, length, nat_eq};
ghost use Rattle.std.specs.List.{All, list_any};
ghost use Rattle.indexmap.specs.IndexSet.{IsUnique};
ghost use Rattle.json.specs.Token.{begin_array};
ghost use Rattle.rela_locations.specs.Network.{alphabet_of};
ghost use Rattle.rela_names.specs.declared.level.Level.TheVariants.{Device};
ghost use Rattle.rela_tables.specs.Distinct.{AreTables, IsTable};
ghost use Rattle.rela_tables.specs.Entries.{symbol_of};
ghost use Rattle.rela_tables.specs.Located.{IsTableIn};
ghost use Rattle.rela_tables.specs.Plain.{ArePlainTables, IsPlainTable, OpensTable};

use crate::plain_route::read_routes;
use crate::symbols::device;
use crate::table::{MAX_TABLES, Table};
use indexmap::IndexSet;
use rela_locations::Locations;
use rela_names::{List, Symbol};
use rela_tokens::{
    Reader, Unread, close_object, open_array, open_object, read_text, take_key, what_holds,
};
use std::alloc::Global;

/// Takes the rest of the array of the tables, behind its opening bracket.
///
/// # Errors
///
/// `Unread`, which says nothing of what stands there.
pub(crate) fn read_tables(
    alloc: Global,
    locations: &Locations,
    reader: &mut Reader<'_>,
) -> Result<Vec<Table>, Unread>
    ensures tables { IfOk result (λ tables.
        ArePlainTables locations.now (begin_array ∷ reader.old) tables.items reader.new) }
    ensures located { IfOk result (λ tables. All (IsTableIn locations.now) tables.items) }
    ensures distinct { IfOk result (λ tables. AreTables tables.items) }
{
    what_holds();
    let mut devices = IndexSet::new(alloc);
    let mut tables = Vec::new(alloc);
    let mut count = 0;
    'tables: while !reader.take_end_array() {
        let table = read_table(alloc, locations, &mut devices, reader, count)?;
        count += table.routes.as_slice().len() as u32;
        tables.push(table)?;
    }
    Ok(tables)
}

/// Takes the next table, whose device goes to those of the earlier ones. `count` is the number of
/// their routes.
fn read_table(
    alloc: Global,
    locations: &Locations,
    devices: &mut IndexSet<Symbol>,
    reader: &mut Reader<'_>,
    count: u32,
) -> Result<Table, Unread>
    requires count { count ≤ 10000 * length devices.old.keys }
    ensures table { IfOk result (λ table.
        IsPlainTable locations.now devices.old.keys count reader.old table reader.new) }
    ensures shorter { OnOk result (length reader.new < length reader.old) }
    ensures devices { IfOk result (λ table. devices.new.keys ≡ devices.old.keys
        ++ table.device ∷ []) }
    ensures unique { OnOk result (IsUnique nat_eq devices.new) }
    ensures few { OnOk result (length devices.old.keys < MAX_TABLES) }
    ensures located { IfOk result (IsTableIn locations.now) }
    ensures distinct { IfOk result IsTable }
{
    what_holds();
    let name = open_table(reader)?;
    let device = add_device(locations, devices, name)?;
    let routes = read_routes(alloc, locations, reader, count)?;
    close_object(reader)?;
    Ok(Table {
        device,
        routes: List::from_vec(routes),
    })
}

/// Takes the beginning of a table, up to the bracket that opens its routes, and gives the name of
/// its device.
fn open_table<'a>(reader: &mut Reader<'a>) -> Result<&'a str, Unread>
    ensures { IfOk result (λ name. OpensTable reader.old name.now reader.new) }
{
    open_object(reader)?;
    take_key(reader, "device")?;
    let name = read_text(reader)?;
    open_array(reader, "routes")?;
    Ok(name)
}

/// The device of this name, which goes to those of the earlier tables.
fn add_device(
    locations: &Locations,
    devices: &mut IndexSet<Symbol>,
    name: &str,
) -> Result<Symbol, Unread>
    ensures device { IfOk result (λ device.
        symbol_of Device locations.now (length devices.old.keys) name.now ≡ Ok device) }
    ensures new { IfOk result (λ device. list_any (nat_eq device) devices.old.keys ≡ false) }
    ensures devices { IfOk result (λ device. devices.new.keys ≡ devices.old.keys ++ device ∷ []) }
    ensures unique { OnOk result (IsUnique nat_eq devices.new) }
    ensures few { OnOk result (length devices.old.keys < MAX_TABLES) }
    ensures located { IfOk result (λ device. device < length (alphabet_of Device locations.now)) }
{
    if devices.len() >= MAX_TABLES {
        return Err(Unread);
    }
    let row = devices.len() as u32;
    let Ok(found) = device(locations, name.as_bytes(), row) else {
        return Err(Unread);
    };
    let (_, is_new) = devices.insert_full(found)?;
    if !is_new {
        return Err(Unread);
    }
    Ok(found)
}
