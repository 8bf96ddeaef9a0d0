//! The texts of zones over the devices of a small network.

use crate::compiled::are_listed;
use crate::network::network;
use rela_engine::zone_text;
use rela_locations::Locations;
use rela_names::{Alphabet, Level};
use rela_nfa::BuildError;
use rela_top::read_asked;
use rela_translate::Check;
use std::alloc::Global;

const FROM_R1: &[u8] = b"level device; check c1 : { r1 .* : preserve };";

const FROM_R1_TEXT: &[u8] = b"states 3
state 0
  to 1 : r1
  else to 2
state 1 accept
  else to 1
state 2
  else to 2
";

/// Three targets from one state, and symbols of several classes on one line.
const SHORT: &[u8] = b"level device; check c1 : { r2 | r4 | r1 drop : preserve };";

const SHORT_TEXT: &[u8] = b"states 4
state 0
  to 1 : r1
  to 2 : r2 r4
  else to 3
state 1
  to 2 : drop
  else to 3
state 2 accept
  else to 3
state 3
  else to 3
";

/// The words whose eleventh symbol from the end is r1: no deterministic automaton of them has fewer
/// states than 2,048.
const WIDE: &[u8] = b"level device; check c1 : { .* r1 .{10} : preserve };";

/// Whether the zone of the last check of a short text has this text, under a limit of 1,000 states;
/// without one, whether it passes the limit.
fn has_zone(alloc: Global, text: &[u8], zone: Option<&[u8]>) -> bool {
    match network(alloc) {
        Ok(locations) => has_zone_over(alloc, text, &locations, zone),
        Err(_) => false,
    }
}

/// The same over these locations.
fn has_zone_over(alloc: Global, text: &[u8], locations: &Locations, zone: Option<&[u8]>) -> bool {
    if text.len() > 1_000 {
        return false;
    }
    match read_asked(alloc, text, locations) {
        Ok(asked) => has_zone_of(
            alloc,
            asked.checks.as_slice(),
            locations.alphabet(Level::Device),
            zone,
        ),
        Err(_) => false,
    }
}

/// The same of the last of these checks.
fn has_zone_of(alloc: Global, checks: &[Check], alphabet: &Alphabet, zone: Option<&[u8]>) -> bool {
    let Some(check) = checks.last() else {
        return false;
    };
    if !are_listed(check.classes(), alphabet) {
        return false;
    }
    match zone_text(alloc, check, alphabet, 1_000) {
        Ok(text) => zone == Some(text.as_slice()),
        Err(BuildError::Limit) => zone.is_none(),
        Err(BuildError::Memory) => false,
    }
}

#[test]
fn writes_a_zone(rt: HostRuntime) {
    assert!(rt; has_zone(rt.alloc(), FROM_R1, Some(FROM_R1_TEXT)));
}

#[test]
fn writes_symbols_by_their_targets(rt: HostRuntime) {
    assert!(rt; has_zone(rt.alloc(), SHORT, Some(SHORT_TEXT)));
}

#[test]
fn leaves_a_zone_open_past_the_limit(rt: HostRuntime) {
    assert!(rt; has_zone(rt.alloc(), WIDE, None));
}
