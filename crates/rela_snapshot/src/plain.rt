//! A plain snapshot, read token by token with no tree of its file.
//!
//! Plain is a file of version 1 that is laid out as it is mostly written: the members `version` and
//! `flows`, in this order, and flows whose members are pieces. What is read here is what the file
//! stands for; what is not read is left to a reader that tells faults apart.

ghost use Rattle.std.specs.Prelude.{◌≡◌, ◌<◌, ◌≤◌, [], ◌∷◌, ◌++◌, List, Ok, IfOk, OnOk, length, map, vec_len};
ghost use Rattle.json.specs.Token.{begin_array};
ghost use Rattle.rela_snapshot.specs.FlowEntry.{ListedFlow};
ghost use Rattle.rela_snapshot.specs.Flows.{AreFlowsOf};
ghost use Rattle.rela_snapshot.specs.Load.{Load};
ghost use Rattle.rela_snapshot.specs.Located.{AreLocatedIn, IsLocatedIn};
ghost use Rattle.rela_snapshot.specs.Names.{AreDistinct};
ghost use Rattle.rela_snapshot.specs.Plain.{IsPlainFlow, ArePlainFlows, Opens};
ghost use Rattle.rela_snapshot.specs.Steps.{IsAnswer};

use crate::name_table::NameTable;
use crate::plain_flow::flow_of;
use crate::snapshot::{Flow, MAX_FLOWS};
use rela_locations::Locations;
use rela_tokens::{
    Reader, Unread, close_text, open_array, open_object, read_members, read_number, take_key,
    what_holds,
};
use std::alloc::Global;

/// The flows of a plain file, in order. Time: linear in the file, and what the graphs take; space:
/// linear in the flows, and the lists of one flow at a time.
///
/// # Errors
///
/// `Unread`, which says nothing of the file.
pub(crate) fn read_plain(
    alloc: Global,
    locations: &Locations,
    bytes: &[u8],
) -> Result<Vec<Flow>, Unread>
    ensures flows { IfOk result (λ flows. (listed : List ListedFlow)
        × IsAnswer (Load locations.now bytes.now) (Ok listed) × AreFlowsOf listed flows.items) }
    ensures located { IfOk result (λ flows. AreLocatedIn locations.now flows.items) }
    ensures few { IfOk result (λ flows. vec_len flows ≤ MAX_FLOWS) }
    ensures distinct { IfOk result (λ flows.
        AreDistinct (map (λ flow. flow.class.name) flows.items)) }
{
    what_holds();
    let Ok(text) = std::str::from_utf8(bytes) else {
        return Err(Unread);
    };
    let mut reader = Reader::new(text);
    open_flows(&mut reader)?;
    let flows = read_flows(alloc, locations, &mut reader)?;
    close_text(&mut reader)?;
    Ok(flows)
}

/// Takes the beginning of a file of version 1, up to the bracket that opens its flows.
fn open_flows(reader: &mut Reader<'_>) -> Result<(), Unread>
    ensures { OnOk result (Opens reader.old reader.new) }
{
    open_object(reader)?;
    take_key(reader, "version")?;
    if read_number(reader)? != 1 {
        return Err(Unread);
    }
    open_array(reader, "flows")
}

/// Takes the rest of the array of the flows, behind its opening bracket.
fn read_flows<'a>(
    alloc: Global,
    locations: &Locations,
    reader: &mut Reader<'a>,
) -> Result<Vec<Flow>, Unread>
    ensures flows { IfOk result (λ flows.
        ArePlainFlows locations.now (begin_array ∷ reader.old) flows.items reader.new) }
    ensures located { IfOk result (λ flows. AreLocatedIn locations.now flows.items) }
    ensures few { IfOk result (λ flows. vec_len flows ≤ MAX_FLOWS) }
    ensures distinct { IfOk result (λ flows.
        AreDistinct (map (λ flow. flow.class.name) flows.items)) }
{
    what_holds();
    let mut names = NameTable::new(alloc);
    let mut flows = Vec::new(alloc);
    'flows: while !reader.take_end_array() {
        let flow = read_flow(alloc, locations, &mut names, reader)?;
        flows.push(flow)?;
    }
    Ok(flows)
}

/// Takes the next flow, whose name goes to those of the flows so far.
fn read_flow<'a>(
    alloc: Global,
    locations: &Locations,
    names: &mut NameTable<'a>,
    reader: &mut Reader<'a>,
) -> Result<Flow, Unread>
    ensures flow { IfOk result (λ flow.
        IsPlainFlow locations.now names.old reader.old flow reader.new) }
    ensures shorter { OnOk result (length reader.new < length reader.old) }
    ensures names { IfOk result (λ flow. names.new ≡ names.old ++ flow.class.name ∷ []) }
    ensures distinct { OnOk result (AreDistinct names.new) }
    ensures few { OnOk result (length names.old < MAX_FLOWS) }
    ensures located { IfOk result (λ flow. IsLocatedIn locations.now flow.graph) }
{
    let members = read_members(alloc, reader)?;
    flow_of(alloc, locations, names, members.as_slice())
}
