//! The locations of a small network.

use rela_json::LoadError;
use rela_locations::Locations;
use std::alloc::Global;

/// A location file: the devices r2 and r3 of the group `core`, r1 and r4 of `edge`, each with one
/// interface, but for r4, which has two.
const NETWORK: &[u8] =
    b"{\"version\":1,\"groups\":[{\"name\":\"core\",\"devices\":[{\"name\":\"r2\",\"interfaces\":[\"r2:0\"]},{\"name\":\"r3\",\"interfaces\":[\"r3:0\"]}]},{\"name\":\"edge\",\"devices\":[{\"name\":\"r1\",\"tags\":[\"border\"],\"interfaces\":[\"r1:0\"]},{\"name\":\"r4\",\"interfaces\":[\"r4:0\",\"r4:1\"]}]}]}";

/// The locations of a text of at most 1,000 bytes; `Memory` for a longer one.
fn decoded(alloc: Global, text: &[u8]) -> Result<Locations, LoadError> {
    if text.len() > 1_000 {
        return Err(LoadError::Memory);
    }
    Locations::decode(alloc, text)
}

/// A question about the network.
pub(crate) trait Question {
    /// Whether the answer is yes for these locations.
    fn is_so(&self, alloc: Global, locations: &Locations) -> bool;
}

/// Whether there is the network, and the answer is yes for it. No other function has locations of
/// its own: the proof of one that has them is long, and of one that borrows them it is short.
pub(crate) fn is_so(alloc: Global, question: &impl Question) -> bool {
    match decoded(alloc, NETWORK) {
        Ok(locations) => question.is_so(alloc, &locations),
        Err(_) => false,
    }
}
