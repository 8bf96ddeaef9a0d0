//! The walk of the file: its version, and then its flows in order. The first fault is the answer.

ghost use Rattle.std.specs.Prelude.{◌≡◌, ◌≢◌, ◌<◌, ◌≤◌, [], ◌∷◌, ◌++◌, List, Ok, Err, IfOk, IfErr, OnOk, IsErrOf, IsOk, length, map, vec_len};
ghost use Rattle.std.specs.List.{All};
ghost use Rattle.serde_json.specs.View.{view};
ghost use Rattle.rela_snapshot.specs.Contents.{contents_of};
ghost use Rattle.rela_snapshot.specs.FlowEntry.{ListedFlow, graph_of, next_name_of};
ghost use Rattle.rela_snapshot.specs.Flows.{AreFlows, AreFlowsOf, IsFlow, IsFlowNamed, IsFlowOf};
ghost use Rattle.rela_snapshot.specs.Listed.{Listed, IsGraphOf};
ghost use Rattle.rela_snapshot.specs.Load.{IsSnapshot};
ghost use Rattle.rela_snapshot.specs.Located.{AreLocatedIn, IsLocatedIn, StandsIn};
ghost use Rattle.rela_snapshot.specs.Names.{AreDistinct};
ghost use Rattle.rela_snapshot.specs.Steps.{IsAnswer};

use crate::class::{read_class, read_dst, read_name, read_src};
use crate::listing::Listing;
use crate::name_table::NameTable;
use crate::named::read_named;
use crate::numbered::read_numbered;
use crate::snapshot::{Flow, MAX_FLOWS};
use crate::version::{Version, flow_rules, version_of};
use rela_flows::FlowClass;
use rela_graph::Graph;
use rela_json::{LoadError, Value, entries, part, whole_number};
use rela_locations::Locations;
use rela_names::Name;
use std::alloc::Global;

/// The flows of a file, in order.
///
/// # Errors
///
/// The first fault of the walk, as [`Snapshot::decode`](crate::Snapshot::decode) tells it.
pub(crate) fn read_snapshot(
    alloc: Global,
    locations: &Locations,
    root: &Value,
) -> Result<Vec<Flow>, LoadError>
    ensures flows { IfOk result (λ flows. (listed : List ListedFlow)
        × IsAnswer (IsSnapshot locations.now (view root.now)) (Ok listed)
        × AreFlowsOf listed flows.items) }
    ensures fault { IfErr result (λ e. e ≢ LoadError.Memory →
        IsAnswer (IsSnapshot locations.now (view root.now)) (Err e)) }
    ensures located { IfOk result (λ flows. AreLocatedIn locations.now flows.items) }
    ensures few { IfOk result (λ flows. vec_len flows ≤ MAX_FLOWS) }
    ensures distinct { IfOk result (λ flows.
        AreDistinct (map (λ flow. flow.class.name) flows.items)) }
{
    let (version, values) = read_contents(root)?;
    read_flows(alloc, locations, version, values)
}

/// The version of a file, and the entries of its flows.
#[tactic(auto, unfolding(crate::specs::Contents::contents_of))]
fn read_contents(root: &Value) -> Result<(Version, &[Value]), LoadError>
    ensures contents { IfOk result (λ contents. contents_of (view root.now)
        ≡ Ok (contents.0, map view contents.1.now)) }
    ensures fault { IfErr result (λ e. contents_of (view root.now) ≡ Err e) }
{
    let version = part(root, "version", 21, 0)?;
    let version = version_of(whole_number(version, 22, 0)?)?;
    let flows = entries(part(root, "flows", 21, 0)?, 23, 0)?;
    Ok((version, flows))
}

/// The flows of these entries, in order.
fn read_flows(
    alloc: Global,
    locations: &Locations,
    version: Version,
    values: &[Value],
) -> Result<Vec<Flow>, LoadError>
    ensures flows { IfOk result (λ flows. (listed : List ListedFlow)
        × IsAnswer (AreFlows locations.now version [] (map view values.now)) (Ok listed)
        × AreFlowsOf listed flows.items) }
    ensures fault { IfErr result (λ e. e ≢ LoadError.Memory →
        IsAnswer (AreFlows locations.now version [] (map view values.now)) (Err e)) }
    ensures located { IfOk result (λ flows. AreLocatedIn locations.now flows.items) }
    ensures few { IfOk result (λ flows. vec_len flows ≤ MAX_FLOWS) }
    ensures distinct { IfOk result (λ flows.
        AreDistinct (map (λ flow. flow.class.name) flows.items)) }
{
    let mut names = NameTable::new(alloc);
    let mut flows = Vec::new(alloc);
    for value in values {
        let flow = read_flow(alloc, locations, version, &mut names, value)?;
        flows.push(flow)?;
    }
    Ok(flows)
}

/// The next flow, whose name goes to those of the flows so far.
fn read_flow<'a>(
    alloc: Global,
    locations: &Locations,
    version: Version,
    names: &mut NameTable<'a>,
    value: &'a Value,
) -> Result<Flow, LoadError>
    ensures flow { IfOk result (λ flow. (listed : ListedFlow)
        × IsAnswer (IsFlow locations.now version names.old (view value.now)) (Ok listed)
        × IsFlowOf listed flow) }
    ensures fault { IfErr result (λ e. e ≢ LoadError.Memory →
        IsAnswer (IsFlow locations.now version names.old (view value.now)) (Err e)) }
    ensures names { IfOk result (λ flow. names.new ≡ names.old ++ flow.class.name ∷ []) }
    ensures distinct { OnOk result (AreDistinct names.new) }
    ensures few { OnOk result (length names.old < MAX_FLOWS) }
    ensures located { IfOk result (λ flow. IsLocatedIn locations.now flow.graph) }
{
    let row = names.len() as u32;
    let name = read_next_name(alloc, version, names, value, row)?;
    read_flow_named(alloc, locations, version, name, value, row)
}

/// The name of the next flow, which goes to those of the flows so far. `row` is their number.
///
/// # Errors
///
/// `TooMany` where there are 10,000 flows already; else those of [`read_name`].
#[tactic(auto, unfolding(crate::specs::FlowEntry::next_name_of))]
fn read_next_name<'a>(
    alloc: Global,
    version: Version,
    names: &mut NameTable<'a>,
    value: &'a Value,
    row: u32,
) -> Result<Name, LoadError>
    requires row { row ≡ length names.old }
    ensures name { IfOk result (λ name. next_name_of version names.old (view value.now) ≡ Ok name) }
    ensures fault { IfErr result (λ e. e ≢ LoadError.Memory →
        next_name_of version names.old (view value.now) ≡ Err e) }
    ensures memory { IsErrOf result LoadError.Memory →
        IsOk (next_name_of version names.old (view value.now)) }
    ensures names { IfOk result (λ name. names.new ≡ names.old ++ name ∷ []) }
    ensures distinct { OnOk result (AreDistinct names.new) }
    ensures few { OnOk result (length names.old < MAX_FLOWS) }
{
    if row as usize >= MAX_FLOWS {
        return Err(LoadError::TooMany {
            row: MAX_FLOWS as u32,
        });
    }
    read_name(alloc, names, value, flow_rules(version), row)
}

/// The flow of this name, with the prefixes, the class and the graph that its entry tells.
fn read_flow_named(
    alloc: Global,
    locations: &Locations,
    version: Version,
    name: Name,
    value: &Value,
    row: u32,
) -> Result<Flow, LoadError>
    ensures flow { IfOk result (λ flow. (listed : ListedFlow)
        × IsAnswer (IsFlowNamed locations.now version row name (view value.now)) (Ok listed)
        × IsFlowOf listed flow) }
    ensures fault { IfErr result (λ e. e ≢ LoadError.Memory →
        IsAnswer (IsFlowNamed locations.now version row name (view value.now)) (Err e)) }
    ensures name { IfOk result (λ flow. flow.class.name ≡ name) }
    ensures located { IfOk result (λ flow. IsLocatedIn locations.now flow.graph) }
{
    let dst = read_dst(value, version, row)?;
    let src = read_src(value, &dst, version, row)?;
    let class = read_class(alloc, value, flow_rules(version), row)?;
    let graph = read_graph(alloc, locations, version, value, row)?;
    let class = FlowClass {
        name,
        dst,
        src,
        class,
    };
    Ok(Flow { class, graph })
}

/// The graph of a flow, as the version of the file lists it.
fn read_graph(
    alloc: Global,
    locations: &Locations,
    version: Version,
    value: &Value,
    row: u32,
) -> Result<Graph, LoadError>
    ensures graph { IfOk result (λ graph. (listed : Listed)
        × (graph_of locations.now version row (view value.now) ≡ Ok listed)
        × IsGraphOf listed graph) }
    ensures fault { IfErr result (λ e. e ≢ LoadError.Memory →
        graph_of locations.now version row (view value.now) ≡ Err e) }
    ensures located { IfOk result (IsLocatedIn locations.now) }
{
    let listing = read_listing(alloc, locations, version, value, row)?;
    Ok(listing.into_graph(alloc)?)
}

/// The nodes, edges and lists of a flow, as the version of the file lists them.
#[tactic(auto, unfolding(crate::specs::FlowEntry::graph_of))]
fn read_listing(
    alloc: Global,
    locations: &Locations,
    version: Version,
    value: &Value,
    row: u32,
) -> Result<Listing, LoadError>
    ensures listed { IfOk result (λ listing. graph_of locations.now version row (view value.now)
        ≡ Ok listing) }
    ensures fault { IfErr result (λ e. e ≢ LoadError.Memory →
        graph_of locations.now version row (view value.now) ≡ Err e) }
    ensures located { IfOk result (λ listing. All (StandsIn locations.now) listing.nodes) }
{
    match version {
        Version::One => read_numbered(alloc, locations, value, row),
        Version::Two => read_named(alloc, locations, value, row),
    }
}
