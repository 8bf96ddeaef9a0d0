//! The forwarding tables of a network, read from their file.

ghost use Rattle.std.specs.Prelude.{◌≡◌, ◌≢◌, ◌≤◌, Ok, Err, IfOk, IfErr, IsOk, IsErrOf, length, map};
ghost use Rattle.serde_json.specs.View.{view};
ghost use Rattle.rela_snapshot.specs.Steps.{IsAnswer};
ghost use Rattle.rela_tables.specs.Distinct.{AreTables};
ghost use Rattle.rela_tables.specs.Load as spec;
ghost use Rattle.rela_tables.specs.Located.{AreInterfaces, IsForwardingIn};
ghost use Rattle.rela_tables.specs.TableParts as parts;

use crate::plain::read_plain;
use crate::starts::read_starts;
use crate::table::{Table, read_tables};
use rela_json::{LoadError, Value, entries, part, read, whole_number};
use rela_locations::Locations;
use rela_names::{List, Symbol};
use std::alloc::Global;
use std::marker::Model;

/// The forwarding tables of a network's devices, and the interfaces at which its traffic starts.
#[derive(Drop)]
pub struct Tables {
    /// The symbols of the interfaces at which traffic starts, in the order of the file.
    pub(crate) starts: List<Symbol>,
    /// The tables, each of a device of its own, in the order of the file.
    pub(crate) tables: List<Table>,
}

impl Model for Tables {
    ghost use Rattle.rela_tables.specs.Forwarding.{Forwarding};

    ghost Value = { Forwarding };

    ghost view = { λ it. record { starts = it.starts; tables = it.tables } };

    ghost use Rattle.rela_tables.specs.Distinct.{AreTables};

    ghost invariant = { λ it. AreTables it.tables };
}

impl Tables {
    /// The tables that a file in JSON lists. Time: expected O(n log n) in its length; space:
    /// linear.
    ///
    /// The file is an object with the members `version`, which is 1, `starts`, an array of names of
    /// interfaces, and `tables`, an array of tables. A table is an object with the name of a
    /// `device` and an array `routes`. A route is an object with an IPv4 `prefix` and maybe an
    /// array `hops` of names of interfaces. Other members count for nothing. There are at most
    /// 100,000 tables, each of a device of its own, and at most 10,000 routes a table, each of a
    /// prefix of its own.
    ///
    /// # Errors
    ///
    /// `NotJson`; else the first fault of a walk of the file, which takes the starts in order, then
    /// the tables in order, and in each its device and its routes in order; `Memory`.
    ///
    /// `WrongShape` has the number of the rule that is broken: 61 the file is an object, 62 its
    /// `version` is a whole number, 63 its `starts` are an array, 64 a start is a string, 65 its
    /// `tables` are an array, 66 a table is an object, 67 its `device` is a string, 68 its `routes`
    /// are an array, 69 a route is an object, 70 its `prefix` is a string, 71 its `hops`, if there,
    /// are an array, 72 a hop is a string. The row is the index of the start for rule 64, that of
    /// the table for the rules 66 to 68, and the number of earlier routes in the file for 69 to 72.
    ///
    /// `BadVersion` comes after the shape of the version. `UnknownLocation` comes after the shape
    /// of a start, a device or a hop that names no interface or no device. `RepeatedEntry` comes
    /// after that for a device that an earlier table has, and after `BadPrefix` for a prefix that
    /// an earlier route of the table has. `TooMany` comes before the shape of a table, and after
    /// that of the routes.
    pub fn decode(alloc: Global, bytes: &[u8], locations: &Locations) -> Result<Tables, LoadError>
        requires { length bytes.now ≤ 33554432 }
        ensures tables { IfOk result (λ tables.
            IsAnswer (spec.LoadTables locations.now bytes.now) (Ok tables)) }
        ensures fault { IfErr result (λ e. e ≢ LoadError.Memory →
            IsAnswer (spec.LoadTables locations.now bytes.now) (Err e)) }
        ensures located { IfOk result (IsForwardingIn locations.now) }
    {
        if let Ok(tables) = read_plain(alloc, locations, bytes) {
            return Ok(tables);
        }
        let root = read(alloc, bytes)?;
        let tables = read_file(alloc, locations, &root)?;
        Ok(tables)
    }

    /// The interfaces at which traffic starts, in the order of the file.
    pub fn starts(&self) -> &[Symbol]
        ensures { result.now ≡ self.now.starts }
    {
        self.starts.as_slice()
    }

    /// The tables, in the order of the file.
    pub fn tables(&self) -> &[Table]
        ensures tables { result.now ≡ self.now.tables }
        ensures distinct { AreTables self.now.tables }
    {
        self.tables.as_slice()
    }
}

/// The tables of a file, from the JSON value that it is.
fn read_file(alloc: Global, locations: &Locations, root: &Value) -> Result<Tables, LoadError>
    ensures tables { IfOk result (λ tables.
        IsAnswer (spec.IsForwarding locations.now (view root.now)) (Ok tables)) }
    ensures fault { IfErr result (λ e. e ≢ LoadError.Memory →
        IsAnswer (spec.IsForwarding locations.now (view root.now)) (Err e)) }
    ensures located { IfOk result (IsForwardingIn locations.now) }
{
    let (starts, values) = read_contents(alloc, locations, root)?;
    let tables = read_tables(alloc, locations, values)?;
    Ok(Tables {
        starts: List::from_vec(starts),
        tables: List::from_vec(tables),
    })
}

/// The starts of a file, and the entries of its tables.
///
/// # Errors
///
/// `WrongShape` where the file is no object or its version no whole number; else `BadVersion` where
/// that is not 1; else `WrongShape` where the starts are no array, or the first fault of a start;
/// else `WrongShape` where the tables are no array; `Memory`, only where the version is 1.
#[tactic(auto, unfolding(crate::specs::TableParts::contents_of))]
fn read_contents<'a>(
    alloc: Global,
    locations: &Locations,
    root: &'a Value,
) -> Result<(Vec<Symbol>, &'a [Value]), LoadError>
    ensures contents { IfOk result (λ contents. parts.contents_of locations.now (view root.now)
        ≡ Ok (contents.0.items, map view contents.1.now)) }
    ensures fault { IfErr result (λ e. e ≢ LoadError.Memory →
        parts.contents_of locations.now (view root.now) ≡ Err e) }
    ensures memory { IsErrOf result LoadError.Memory → IsOk (parts.version_in (view root.now)) }
    ensures located { IfOk result (λ contents. AreInterfaces locations.now contents.0.items) }
{
    let version = whole_number(part(root, "version", 61, 0)?, 62, 0)?;
    if version != 1 {
        return Err(LoadError::BadVersion);
    }
    let starts = entries(part(root, "starts", 61, 0)?, 63, 0)?;
    let starts = read_starts(alloc, locations, starts)?;
    let tables = entries(part(root, "tables", 61, 0)?, 65, 0)?;
    Ok((starts, tables))
}
