//! A plain table file, read token by token with no tree of its text.
//!
//! Plain is a file that is laid out as it is mostly written: the members `version`, `starts` and
//! `tables`, in this order, tables with the members `device` and `routes`, in this order, and
//! routes whose members are pieces. What is read here is what the file stands for; what is not read
//! is left to a reader that tells faults apart.

ghost use Rattle.std.specs.Prelude.{◌≡◌, ◌≤◌, Ok, IfOk, OnOk, length, map};
ghost use Rattle.rela_snapshot.specs.Steps.{IsAnswer};
ghost use Rattle.rela_tables.specs.Load as spec;
ghost use Rattle.rela_tables.specs.Located.{AreInterfaces, IsForwardingIn};
ghost use Rattle.rela_tables.specs.Plain.{Opens, OpensVersion};
ghost use Rattle.rela_tables.specs.Starts.{starts_from};
ghost use Rattle.rela_tokens.specs.Pieces.{text as text_of};

use crate::plain_table::read_tables;
use crate::symbols::interface_named;
use crate::tables::Tables;
use rela_locations::Locations;
use rela_names::{List, Symbol};
use rela_tokens::{
    Reader, Unread, close_text, open_array, open_object, read_number, read_piece, take_key,
    what_holds,
};
use std::alloc::Global;

/// The greatest number of starts of a plain file.
const MAX_STARTS: usize = 1_000_000;

/// The tables of a plain file. Time: expected linear in the file; space: linear in the tables.
///
/// # Errors
///
/// `Unread`, which says nothing of the file.
pub(crate) fn read_plain(
    alloc: Global,
    locations: &Locations,
    bytes: &[u8],
) -> Result<Tables, Unread>
    ensures tables { IfOk result (λ tables.
        IsAnswer (spec.LoadTables locations.now bytes.now) (Ok tables)) }
    ensures located { IfOk result (IsForwardingIn locations.now) }
{
    what_holds();
    let Ok(text) = std::str::from_utf8(bytes) else {
        return Err(Unread);
    };
    let mut reader = Reader::new(text);
    let starts = open_tables(alloc, locations, &mut reader)?;
    let tables = read_tables(alloc, locations, &mut reader)?;
    close_text(&mut reader)?;
    Ok(Tables {
        starts: List::from_vec(starts),
        tables: List::from_vec(tables),
    })
}

/// Takes the beginning of a file of version 1, up to the bracket that opens its tables, and gives
/// its starts.
fn open_tables(
    alloc: Global,
    locations: &Locations,
    reader: &mut Reader<'_>,
) -> Result<Vec<Symbol>, Unread>
    ensures starts { IfOk result (λ starts.
        Opens locations.now reader.old starts.items reader.new) }
    ensures located { IfOk result (λ starts. AreInterfaces locations.now starts.items) }
{
    open_version(reader)?;
    take_key(reader, "starts")?;
    let piece = read_piece(alloc, reader)?;
    let names = piece.texts()?;
    if names.len() > MAX_STARTS {
        return Err(Unread);
    }
    let starts = starts_at(alloc, locations, names)?;
    open_array(reader, "tables")?;
    Ok(starts)
}

/// Takes the beginning of a file of version 1, up to its version.
fn open_version(reader: &mut Reader<'_>) -> Result<(), Unread>
    ensures { OnOk result (OpensVersion reader.old reader.new) }
{
    open_object(reader)?;
    take_key(reader, "version")?;
    if read_number(reader)? != 1 {
        return Err(Unread);
    }
    Ok(())
}

/// The interfaces of these names, in order.
fn starts_at(alloc: Global, locations: &Locations, names: &[&str]) -> Result<Vec<Symbol>, Unread>
    requires few { length names.now ≤ MAX_STARTS }
    ensures starts { IfOk result (λ starts.
        starts_from locations.now 0 (map text_of names.now) ≡ Ok starts.items) }
    ensures located { IfOk result (λ starts. AreInterfaces locations.now starts.items) }
{
    let mut starts = Vec::with_capacity(alloc, names.len())?;
    let mut row = 0;
    for name in names {
        let start = interface_named(locations, name.as_bytes(), row)?;
        starts.push(start)?;
        row += 1;
    }
    Ok(starts)
}
