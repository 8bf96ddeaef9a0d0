//! The locations of a small network.

use rela_json::LoadError;
use rela_locations::Locations;
use std::alloc::Global;

/// A location file: the devices r2 and r3 of the group `core`, r1 and r4 of `edge`, each with one
/// interface, but for r4, which has two.
const NETWORK: &[u8] =
    b"{\"version\":1,\"groups\":[{\"name\":\"core\",\"devices\":[{\"name\":\"r2\",\"interfaces\":[\"r2:0\"]},{\"name\":\"r3\",\"interfaces\":[\"r3:0\"]}]},{\"name\":\"edge\",\"devices\":[{\"name\":\"r1\",\"tags\":[\"border\"],\"interfaces\":[\"r1:0\"]},{\"name\":\"r4\",\"interfaces\":[\"r4:0\",\"r4:1\"]}]}]}";

/// The locations of the network.
pub(crate) fn network(alloc: Global) -> Result<Locations, LoadError> {
    Locations::decode(alloc, NETWORK)
}
