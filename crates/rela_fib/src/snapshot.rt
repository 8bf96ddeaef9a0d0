//! Snapshots made from forwarding tables.

ghost use Rattle.std.specs.Prelude.{◌≡◌, Err, IfOk, OnOk};
ghost use Rattle.rela_tables.specs.Located.{IsForwardingIn};
ghost use Rattle.rela_fib.specs.Loading.{LoadsAs};
ghost use Rattle.rela_fib.specs.Snapshot.{IsSnapshotOf, IsTooLong, IsTooMany};

use crate::classes::address_classes;
use crate::devices::Devices;
use crate::error::FibError;
use crate::nodes::nodes_of;
use crate::pieces::interfaces_ascend;
use crate::places::places_of;
use crate::writing::{end_of, text_of};
use rela_flows::{canonical_texts_write_their_prefixes, prefixes_of_one_length_are_apart};
use rela_locations::Locations;
use rela_prefixes::classes_are_unique;
use rela_tables::Tables;
use std::alloc::Global;

/// The greatest number of nodes of a flow.
const MAX_NODES: usize = 10_000;

/// The greatest number of flows.
const MAX_FLOWS: usize = 10_000;

/// The text of the snapshot that two table files give: compact JSON with a newline at its end.
///
/// It has a flow for each class of addresses that the routes of both files cut, in the order of the
/// addresses. The flow's name and `dst` are the class. Its nodes are the interfaces of the starts
/// and hops of `tables`. From each there is an edge to each hop of the route that its device
/// chooses, by `tables`, for the addresses of the class. Read as a snapshot of these locations, the
/// text gives just these flows, each from any address and in the class `default`.
///
/// Time: O(n log n) in the number of routes times the 32 bits of an address and in the number of
/// hops, and linear in the text; space: linear in the same. For each class each device of a node
/// chooses once, in time logarithmic in the number of its routes. The nodes are passed where one
/// chooses another route than for the class before, or the text is too long already.
///
/// # Errors
///
/// `TooMany` where there are more than 10,000 nodes or classes, or the graph of some class has more
/// than 100,000 edges; else `TooLong` where the text would have more than 33,554,432 bytes;
/// `Memory` where memory runs out.
pub fn snapshot_text(
    alloc: Global,
    tables: &Tables,
    other: &Tables,
    locations: &Locations,
) -> Result<Vec<u8>, FibError>
    requires { IsForwardingIn locations.now tables.now }
    ensures text { IfOk result (λ text.
        IsSnapshotOf locations.now tables.now other.now text.items) }
    ensures loads { IfOk result (λ text.
        LoadsAs locations.now tables.now other.now text.items) }
    ensures too_many { result ≡ Err FibError.TooMany
        → IsTooMany locations.now tables.now other.now }
    ensures too_long { result ≡ Err FibError.TooLong
        → IsTooLong locations.now tables.now other.now }
    ensures few { OnOk result (¬ IsTooMany locations.now tables.now other.now) }
    ensures few_where_long { result ≡ Err FibError.TooLong
        → ¬ IsTooMany locations.now tables.now other.now }
    ensures short { OnOk result (¬ IsTooLong locations.now tables.now other.now) }
{
    let nodes = nodes_of(alloc, tables)?;
    if nodes.len() > MAX_NODES {
        return Err(FibError::TooMany);
    }
    let classes = address_classes(alloc, tables, other)?;
    if classes.len() > MAX_FLOWS {
        return Err(FibError::TooMany);
    }
    let starts = places_of(alloc, nodes.as_slice(), tables.starts())?;
    let devices = Devices::new(alloc, locations, tables, nodes.as_slice())?;
    interfaces_ascend(locations);
    canonical_texts_write_their_prefixes();
    prefixes_of_one_length_are_apart();
    classes_are_unique();
    let end = end_of(alloc, locations, nodes.as_slice(), starts.as_slice())?;
    text_of(alloc, &devices, classes.as_slice(), end.as_slice())
}
