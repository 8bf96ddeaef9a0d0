//! The classes of addresses that the routes of two files cut.

ghost use Rattle.std.specs.Prelude.{◌≡◌, ◌++◌, IfOk};
ghost use Rattle.std.specs.List.{All};
ghost use Rattle.rela_prefixes.specs.Classes.{AreClasses};
ghost use Rattle.rela_fib.specs.Choices.{IsUniform};
ghost use Rattle.rela_fib.specs.Prefixes.{prefixes_in, prefixes_in_both, prefixes_of};

use rela_flows::Ipv4Prefix;
use rela_prefixes::classes_of;
use rela_tables::{Route, Table, Tables};
use std::alloc::{AllocError, Global};

/// The classes of addresses that the routes of two files cut, in the order of their addresses. By
/// either file each device treats all addresses of a class alike. Time: O(n log n) in the number of
/// routes times the 32 bits of an address; space: linear in the same.
///
/// # Errors
///
/// Only where memory is wanted.
pub fn address_classes(
    alloc: Global,
    tables: &Tables,
    other: &Tables,
) -> Result<Vec<Ipv4Prefix>, AllocError>
    ensures classes { IfOk result (λ classes.
        AreClasses (prefixes_in_both tables.now other.now) classes.items) }
    ensures uniform { IfOk result (λ classes. All (IsUniform tables.now) classes.items) }
    ensures uniform_in_other { IfOk result (λ classes. All (IsUniform other.now) classes.items) }
{
    let mut prefixes = Vec::new(alloc);
    push_prefixes(&mut prefixes, tables.tables())?;
    push_prefixes(&mut prefixes, other.tables())?;
    let classes = classes_of(alloc, prefixes.as_slice())?;
    Ok(classes)
}

/// Adds the prefixes of the routes of some tables.
fn push_prefixes(prefixes: &mut Vec<Ipv4Prefix>, tables: &[Table]) -> Result<(), AllocError>
    ensures { IfOk result (λ _. prefixes.new.items ≡ prefixes.old.items ++ prefixes_in tables.now) }
{
    for table in tables {
        push_each(prefixes, table.routes.as_slice())?;
    }
    Ok(())
}

/// Adds the prefixes of some routes.
fn push_each(prefixes: &mut Vec<Ipv4Prefix>, routes: &[Route]) -> Result<(), AllocError>
    ensures { IfOk result (λ _. prefixes.new.items ≡ prefixes.old.items ++ prefixes_of routes.now) }
{
    for route in routes {
        prefixes.push(route.prefix)?;
    }
    Ok(())
}
