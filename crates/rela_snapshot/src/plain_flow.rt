//! A flow of version 1 from its members: what is said of it besides its graph.

ghost use Rattle.std.specs.Prelude.{◌≡◌, ◌<◌, [], ◌∷◌, ◌++◌, Ok, IfOk, IfNone, IfSome, OnOk, length, option_map, Some};
ghost use Rattle.rela_json.specs.Parts.{member_of};
ghost use Rattle.rela_tokens.specs.Pieces.{text as text_of};
ghost use Rattle.rela_snapshot.specs.Class as spec;
ghost use Rattle.rela_snapshot.specs.Class.{IsPrefixOf, class_of};
ghost use Rattle.rela_snapshot.specs.FlowEntry.{ListedFlow, next_name_of};
ghost use Rattle.rela_snapshot.specs.Flows.{IsDst, IsFlow, IsFlowNamed, IsFlowOf, IsSrc};
ghost use Rattle.rela_snapshot.specs.Located.{IsLocatedIn};
ghost use Rattle.rela_snapshot.specs.Names.{AreDistinct};
ghost use Rattle.rela_snapshot.specs.Plain.{entry_of};
ghost use Rattle.rela_snapshot.specs.Steps.{IsAnswer};
ghost use Rattle.rela_snapshot.specs.Version.{flow_rules};

use crate::class::{DEFAULT_CLASS, Family, add_name, family_of, name_of, prefix_of, whole_family};
use crate::name_table::NameTable;
use crate::plain_graph::graph_in;
use crate::snapshot::{Flow, MAX_FLOWS};
use crate::version::Version;
use rela_flows::{FlowClass, Prefix};
use rela_locations::Locations;
use rela_names::Name;
use rela_tokens::{Member, Unread, find};
use std::alloc::Global;

/// The flow of these members, whose name goes to those of the flows so far.
pub(crate) fn flow_of<'a>(
    alloc: Global,
    locations: &Locations,
    names: &mut NameTable<'a>,
    members: &[Member<'a>],
) -> Result<Flow, Unread>
    ensures flow { IfOk result (λ flow. (listed : ListedFlow)
        × IsAnswer (IsFlow locations.now Version.One names.old (entry_of members.now)) (Ok listed)
        × IsFlowOf listed flow) }
    ensures names { IfOk result (λ flow. names.new ≡ names.old ++ flow.class.name ∷ []) }
    ensures distinct { OnOk result (AreDistinct names.new) }
    ensures few { OnOk result (length names.old < MAX_FLOWS) }
    ensures located { IfOk result (λ flow. IsLocatedIn locations.now flow.graph) }
{
    let row = names.len() as u32;
    let name = name_in(alloc, names, members, row)?;
    flow_named(alloc, locations, name, members, row)
}

/// The name of the flow, which goes to those of the flows so far. `row` is their number.
fn name_in<'a>(
    alloc: Global,
    names: &mut NameTable<'a>,
    members: &[Member<'a>],
    row: u32,
) -> Result<Name, Unread>
    requires row { row ≡ length names.old }
    ensures name { IfOk result (λ name.
        next_name_of Version.One names.old (entry_of members.now) ≡ Ok name) }
    ensures names { IfOk result (λ name. names.new ≡ names.old ++ name ∷ []) }
    ensures distinct { OnOk result (AreDistinct names.new) }
    ensures few { OnOk result (length names.old < MAX_FLOWS) }
{
    if row as usize >= MAX_FLOWS {
        return Err(Unread);
    }
    let text = text_in(members, "name")?;
    let Ok(name) = add_name(alloc, names, text.as_bytes(), row) else {
        return Err(Unread);
    };
    Ok(name)
}

/// The flow of this name, with the prefixes, the class and the graph that its members tell.
fn flow_named(
    alloc: Global,
    locations: &Locations,
    name: Name,
    members: &[Member<'_>],
    row: u32,
) -> Result<Flow, Unread>
    ensures flow { IfOk result (λ flow. (listed : ListedFlow)
        × IsAnswer (IsFlowNamed locations.now Version.One row name (entry_of members.now))
        (Ok listed) × IsFlowOf listed flow) }
    ensures name { IfOk result (λ flow. flow.class.name ≡ name) }
    ensures located { IfOk result (λ flow. IsLocatedIn locations.now flow.graph) }
{
    let dst = dst_in(members, row)?;
    let src = src_in(members, &dst, row)?;
    let class = class_in(alloc, members, row)?;
    let graph = graph_in(alloc, locations, members, row)?;
    let class = FlowClass {
        name,
        dst,
        src,
        class,
    };
    Ok(Flow { class, graph })
}

/// Where the flow goes, an IPv4 prefix.
fn dst_in(members: &[Member<'_>], row: u32) -> Result<Prefix, Unread>
    ensures { IfOk result (λ dst.
        IsAnswer (IsDst Version.One row (entry_of members.now)) (Ok dst)) }
{
    let text = text_in(members, "dst")?;
    prefix_in(text.as_bytes(), Family::Ipv4, row)
}

/// Where the flow comes from: a prefix of the family of `dst`, all of it where none is given.
fn src_in(members: &[Member<'_>], dst: &Prefix, row: u32) -> Result<Prefix, Unread>
    ensures { IfOk result (λ src.
        IsAnswer (IsSrc Version.One row dst.now (entry_of members.now)) (Ok src)) }
{
    let family = family_of(dst);
    let text = optional_text_in(members, "src")?;
    prefix_in(bytes_or(text, whole_family(family)), family, row)
}

/// The prefix of a family that a text writes.
fn prefix_in(text: &[u8], family: Family, row: u32) -> Result<Prefix, Unread>
    ensures { IfOk result (λ prefix. IsAnswer (IsPrefixOf (Some family) row text.now) (Ok prefix)) }
{
    match prefix_of(text, Some(family), row) {
        Ok(prefix) => Ok(prefix),
        Err(_) => Err(Unread),
    }
}

/// The name of the flow's class.
fn class_in(alloc: Global, members: &[Member<'_>], row: u32) -> Result<Name, Unread>
    ensures { IfOk result (λ name.
        class_of (flow_rules Version.One) row (entry_of members.now) ≡ Ok name) }
{
    let text = optional_text_in(members, "class")?;
    class_name(alloc, bytes_or(text, DEFAULT_CLASS), row)
}

/// These bytes as the name of a class.
fn class_name(alloc: Global, bytes: &[u8], row: u32) -> Result<Name, Unread>
    ensures { IfOk result (λ name. spec.name_of row bytes.now ≡ Ok name) }
{
    match name_of(alloc, bytes, row) {
        Ok(name) => Ok(name),
        Err(_) => Err(Unread),
    }
}

/// The bytes of a text, or else these.
fn bytes_or<'a>(text: Option<&'a str>, other: &'a [u8]) -> &'a [u8]
    ensures given { IfSome text.entry (λ text. result.now ≡ text.now) }
    ensures missing { IfNone text.entry (result.now ≡ other.now) }
{
    match text {
        Some(text) => text.as_bytes(),
        None => other,
    }
}

/// The text of the member of this name, which has to be there.
fn text_in<'a>(members: &[Member<'a>], name: &str) -> Result<&'a str, Unread>
    ensures { IfOk result (λ text.
        member_of name.now (entry_of members.now) ≡ Some (Some (text_of text))) }
{
    find(members, name).ok_or(Unread)?.text()
}

/// The text of the member of this name, which may be missing.
fn optional_text_in<'a>(members: &[Member<'a>], name: &str) -> Result<Option<&'a str>, Unread>
    ensures { IfOk result (λ text.
        member_of name.now (entry_of members.now) ≡ Some (option_map text_of text)) }
{
    match find(members, name) {
        Some(piece) => {
            let text = piece.text()?;
            Ok(Some(text))
        }
        None => Ok(None),
    }
}
