//! The indexes of interfaces among the nodes.

ghost use Rattle.std.specs.Prelude.{◌<◌, ◌^◌, IfOk, length};
ghost use Rattle.std.specs.List.Sorted.{IsStrictlyIncreasing};
ghost use Rattle.rela_fib.specs.Graph.{ArePlacesOf};

use crate::numbers::ascending;
use rela_names::Symbol;
use std::alloc::{AllocError, Global};

/// The indexes of the nodes that are among these interfaces, ascending and each once. Time: a
/// binary search for each interface, and a sort.
///
/// # Errors
///
/// Only where memory is wanted.
pub(crate) fn places_of(
    alloc: Global,
    nodes: &[Symbol],
    interfaces: &[Symbol],
) -> Result<Vec<u32>, AllocError>
    requires few { length nodes.now < 2 ^ 32 }
    requires ascending { IsStrictlyIncreasing nodes.now }
    ensures { IfOk result (λ places. ArePlacesOf nodes.now interfaces.now places.items) }
{
    let mut places = Vec::with_capacity(alloc, interfaces.len())?;
    for interface in interfaces {
        if let Ok(place) = nodes.binary_search(interface) {
            places.push(place as u32)?;
        }
    }
    Ok(ascending(places))
}
