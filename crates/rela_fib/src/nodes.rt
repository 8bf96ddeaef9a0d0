//! The nodes of the graphs: the interfaces that the tables speak of.

ghost use Rattle.std.specs.Prelude.{◌≡◌, ◌++◌, IfOk};
ghost use Rattle.std.specs.List.{flat_map};
ghost use Rattle.rela_fib.specs.Graph.{AreNodes, hops_in, hops_of};

use crate::numbers::ascending;
use rela_names::Symbol;
use rela_tables::{Route, Table, Tables};
use std::alloc::{AllocError, Global};

/// The nodes of the graphs of these tables: the interfaces of the starts and of the hops of all
/// routes, each once, in the order of symbols. Time: O(n log n) in the number of starts and hops;
/// space: linear.
///
/// # Errors
///
/// Only where memory is wanted.
pub fn nodes_of(alloc: Global, tables: &Tables) -> Result<Vec<Symbol>, AllocError>
    ensures { IfOk result (λ nodes. AreNodes tables.now nodes.items) }
{
    let mut interfaces = Vec::from_slice(alloc, tables.starts())?;
    push_hops(&mut interfaces, tables.tables())?;
    Ok(ascending(interfaces))
}

/// Adds the hops of the routes of some tables.
fn push_hops(interfaces: &mut Vec<Symbol>, tables: &[Table]) -> Result<(), AllocError>
    ensures { IfOk result (λ _. interfaces.new.items
        ≡ interfaces.old.items ++ flat_map hops_in tables.now) }
{
    for table in tables {
        push_each(interfaces, table.routes.as_slice())?;
    }
    Ok(())
}

/// Adds the hops of some routes.
fn push_each(interfaces: &mut Vec<Symbol>, routes: &[Route]) -> Result<(), AllocError>
    ensures { IfOk result (λ _. interfaces.new.items
        ≡ interfaces.old.items ++ flat_map hops_of routes.now) }
{
    for route in routes {
        if let Some(hops) = &route.hops {
            interfaces.extend_from_slice(hops.as_slice())?;
        }
    }
    Ok(())
}
