//! Table files over a small network, and the snapshots that they give.

ghost use Rattle.std.specs.Prelude.{IfOk};
ghost use Rattle.rela_tables.specs.Located.{IsForwardingIn};

use crate::network::{Question, is_so};
use rela_fib::snapshot_text;
use rela_json::LoadError;
use rela_locations::Locations;
use rela_tables::Tables;
use std::alloc::Global;

/// Table files: r1 sends half of the addresses to r2 and half to r3, and both send all to r4, which
/// delivers them.
const TABLES: &[u8] =
    b"{\"version\":1,\"starts\":[\"r1:0\"],\"tables\":[{\"device\":\"r1\",\"routes\":[{\"prefix\":\"0.0.0.0/0\",\"hops\":[\"r2:0\"]},{\"prefix\":\"128.0.0.0/1\",\"hops\":[\"r3:0\"]}]},{\"device\":\"r2\",\"routes\":[{\"prefix\":\"0.0.0.0/0\",\"hops\":[\"r4:0\"]}]},{\"device\":\"r3\",\"routes\":[{\"prefix\":\"0.0.0.0/0\",\"hops\":[\"r4:0\"]}]},{\"device\":\"r4\",\"routes\":[{\"prefix\":\"0.0.0.0/0\"}]}]}";

/// The snapshot that they give: a flow for each half of the addresses.
const SNAPSHOT: &[u8] =
    b"{\"flows\":[{\"delivered\":[3],\"dropped\":[],\"dst\":\"0.0.0.0/1\",\"edges\":[[0,1],[1,3],[2,3]],\"name\":\"0.0.0.0/1\",\"nodes\":[\"r1:0\",\"r2:0\",\"r3:0\",\"r4:0\"],\"starts\":[0]},{\"delivered\":[3],\"dropped\":[],\"dst\":\"128.0.0.0/1\",\"edges\":[[0,2],[1,3],[2,3]],\"name\":\"128.0.0.0/1\",\"nodes\":[\"r1:0\",\"r2:0\",\"r3:0\",\"r4:0\"],\"starts\":[0]}],\"version\":1}\n";

/// The tables of a text of at most 2,000 bytes over these locations; `Memory` for a longer one.
fn decoded(alloc: Global, text: &[u8], locations: &Locations) -> Result<Tables, LoadError>
    ensures { IfOk result (IsForwardingIn locations.now) }
{
    if text.len() > 2_000 {
        return Err(LoadError::Memory);
    }
    Tables::decode(alloc, text, locations)
}

/// Whether the tables give the snapshot, where they are cut into classes by themselves.
fn gives_the_snapshot(alloc: Global, tables: &Tables, locations: &Locations) -> bool
    requires { IsForwardingIn locations.now tables.now }
{
    match snapshot_text(alloc, tables, tables, locations) {
        Ok(text) => text.as_slice() == SNAPSHOT,
        Err(_) => false,
    }
}

/// Whether the tables give a flow for each half of the addresses.
#[derive(Drop)]
struct Halves;

impl Question for Halves {
    fn is_so(&self, alloc: Global, locations: &Locations) -> bool {
        match decoded(alloc, TABLES, locations) {
            Ok(tables) => gives_the_snapshot(alloc, &tables, locations),
            Err(_) => false,
        }
    }
}

/// Addresses that are routed in the same way share a flow.
#[test]
fn writes_a_flow_for_each_class(rt: HostRuntime) {
    assert!(rt; is_so(rt.alloc(), &Halves));
}

/// Whether a text is refused with this error.
#[derive(Drop)]
struct Faulty<'a> {
    /// The text.
    text: &'a [u8],
    /// The error.
    error: LoadError,
}

impl Question for Faulty<'_> {
    fn is_so(&self, alloc: Global, locations: &Locations) -> bool {
        match decoded(alloc, self.text, locations) {
            Ok(_) => false,
            Err(error) => error == self.error,
        }
    }
}

/// A table file is refused for its first fault.
#[test]
fn refuses_the_first_fault(rt: HostRuntime) {
    for (text, error) in [
        (b"{\"version\":2}".as_slice(), LoadError::BadVersion),
        (
            b"{\"version\":1,\"starts\":[\"r9:0\"]}",
            LoadError::UnknownLocation { row: 0 },
        ),
        (
            b"{\"version\":1,\"starts\":[],\"tables\":[{\"device\":\"r1\",\"routes\":[{\"prefix\":\"0.0.0.0/0\"},{\"prefix\":\"128.0.0.0/33\"}]}]}",
            LoadError::BadPrefix { row: 1 },
        ),
    ] {
        let faulty = Faulty { text, error };
        assert!(rt; is_so(rt.alloc(), &faulty), "{text:?}");
    }
}
