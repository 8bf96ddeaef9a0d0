//! From the text of each input to what it stands for. No file is opened.

ghost use Rattle.std.specs.Prelude.{◌≤◌, ℕ, List, Ok, IfOk, length};
ghost use Rattle.rela_names.specs.declared.level.Level.{Level};
ghost use Rattle.rela_locations.specs.Network.{alphabet_of};
ghost use Rattle.rela_snapshot.specs.FlowEntry.{ListedFlow};
ghost use Rattle.rela_snapshot.specs.Load.{Load};
ghost use Rattle.rela_snapshot.specs.Located.{AreLocated};
ghost use Rattle.rela_snapshot.specs.PairsLocated.{ArePairsLocated};
ghost use Rattle.rela_tables.specs.Located.{IsForwardingIn};
ghost use Rattle.rela_inputs.specs.Given.{Equals, IsRead, seen};
ghost use Rattle.rela_inputs.specs.Inputs.{IsListedAs, ReadsNetwork, ReadsFlows, ReadsTables};
ghost use Rattle.rela_inputs.specs.Paired.{ArePaired};
ghost use Rattle.rela_same_flows.specs.SameFlows.{SameFlows};

use crate::halts::{load_halt, pair_halt};
use crate::reading::Halt;
use crate::refusal::Input;
use rela_locations::Locations;
use rela_snapshot::{FlowPair, Snapshot, pair};
use rela_tables::Tables;
use std::alloc::Global;

/// The locations in a text of at most 32 MiB. Time and space: linear in the text, but for the order
/// of the names.
///
/// # Errors
///
/// `Refused` for its first fault; `Memory`.
pub fn read_locations(alloc: Global, text: &[u8]) -> Result<Locations, Halt>
    requires { length text.now ≤ 33554432 }
    ensures { IsRead Equals (ReadsNetwork text.now) result }
{
    match Locations::decode(alloc, text) {
        Ok(locations) => Ok(locations),
        Err(error) => Err(load_halt(Input::Locations, error)),
    }
}

/// The snapshot in a text of at most 32 MiB, which stands for this input. Its graphs lie in the
/// locations.
///
/// # Errors
///
/// `Refused` for its first fault; `Memory`.
pub fn read_snapshot(
    alloc: Global,
    input: Input,
    text: &[u8],
    locations: &Locations,
) -> Result<Snapshot, Halt>
    requires { length text.now ≤ 33554432 }
    ensures flows { IsRead SameFlows (ReadsFlows input locations.now text.now) result }
    ensures listed { (listed : List ListedFlow) → Load locations.now text.now (Ok listed) →
        IsListedAs listed result }
    ensures located { IfOk result (λ snapshot.
        (level : Level) → AreLocated (alphabet_of level locations.now) level snapshot) }
{
    match Snapshot::decode(alloc, text, locations) {
        Ok(snapshot) => Ok(snapshot),
        Err(error) => Err(load_halt(input, error)),
    }
}

/// The tables in a text of at most 32 MiB, which stands for this input; they speak of the
/// locations.
///
/// # Errors
///
/// `Refused` for its first fault; `Memory`.
pub fn read_tables(
    alloc: Global,
    input: Input,
    text: &[u8],
    locations: &Locations,
) -> Result<Tables, Halt>
    requires { length text.now ≤ 33554432 }
    ensures tables { IsRead Equals (ReadsTables input locations.now text.now) result }
    ensures located { IfOk result (IsForwardingIn locations.now) }
{
    match Tables::decode(alloc, text, locations) {
        Ok(tables) => Ok(tables),
        Err(error) => Err(load_halt(input, error)),
    }
}

/// The flows of two snapshots, side by side. Time: expected linear in the flows.
///
/// # Errors
///
/// `Refused` where a flow differs between them; `Memory`.
pub fn pair_flows(alloc: Global, before: Snapshot, after: Snapshot) -> Result<Vec<FlowPair>, Halt>
    ensures pairs { IsRead Equals (ArePaired before after) (seen (λ pairs. pairs.items) result) }
    ensures located { (names : List (List ℕ)) (level : Level) → AreLocated names level before →
        AreLocated names level after →
        IfOk result (λ pairs. ArePairsLocated names level pairs.items) }
{
    match pair(alloc, before, after) {
        Ok(pairs) => Ok(pairs),
        Err(error) => Err(pair_halt(error)),
    }
}
