//! The graph of a flow of version 1, whose nodes are named by their indexes.

ghost use Rattle.std.specs.Prelude.{◌≡◌, ◌≢◌, ◌<◌, ◌≤◌, Ok, Err, IfOk, IfErr, IsErrOf, IsSome, length, map, option_map, vec_len};
ghost use Rattle.std.specs.List.{All};
ghost use Rattle.rela_graph.specs.Topology.{JoinsNodes};
ghost use Rattle.rela_snapshot.specs.Located.{StandsIn};
ghost use Rattle.rela_snapshot.specs.Numbered as spec;
ghost use Rattle.serde_json.specs.View.{view};
ghost use Rattle.rela_json.specs.Parts.{items_of};
ghost use Rattle.rela_json.specs.Results.{try_map};

use crate::listing::{Listing, node_at};
use rela_graph::{Link, MAX_EDGES, MAX_NODES, Node};
use rela_json::{
    ListError, LoadError, Value, few_entries, index_list, part, string, two_entries, whole_number,
};
use rela_locations::Locations;
use std::alloc::Global;

/// The nodes, edges and lists of a flow.
///
/// # Errors
///
/// The first fault, with the flow's row: of the nodes in order, then the edges in order, then
/// `starts`, `delivered` and `dropped`; `Memory`.
#[tactic(auto, unfolding(crate::specs::Numbered::numbered_of))]
pub(crate) fn read_numbered(
    alloc: Global,
    locations: &Locations,
    value: &Value,
    row: u32,
) -> Result<Listing, LoadError>
    ensures listed { IfOk result (λ listing. spec.numbered_of locations.now row (view value.now)
        ≡ Ok listing) }
    ensures fault { IfErr result (λ e. e ≢ LoadError.Memory →
        spec.numbered_of locations.now row (view value.now) ≡ Err e) }
    ensures located { IfOk result (λ listing. All (StandsIn locations.now) listing.nodes) }
{
    let nodes = read_nodes(alloc, locations, value, row)?;
    let count = nodes.len() as u32;
    let edges = read_edges(alloc, value, count, row)?;
    let starts = read_list(alloc, value, "starts", count, 33, row)?;
    let delivered = read_optional_list(alloc, value, "delivered", count, 34, row)?;
    let dropped = read_optional_list(alloc, value, "dropped", count, 35, row)?;
    Ok(Listing {
        nodes,
        edges,
        starts,
        delivered,
        dropped,
    })
}

/// The nodes of a flow.
///
/// # Errors
///
/// `WrongShape` where the flow has no array `nodes`; else `TooMany` where it has more than 10,000
/// entries; else the first fault of an entry; `Memory`.
#[tactic(auto, unfolding(crate::specs::Numbered::numbered_nodes_of))]
fn read_nodes(
    alloc: Global,
    locations: &Locations,
    value: &Value,
    row: u32,
) -> Result<Vec<Node>, LoadError>
    ensures nodes { IfOk result (λ nodes. spec.numbered_nodes_of locations.now row (view value.now)
        ≡ Ok nodes.items) }
    ensures fault { IfErr result (λ e. e ≢ LoadError.Memory →
        spec.numbered_nodes_of locations.now row (view value.now) ≡ Err e) }
    ensures located { IfOk result (λ nodes. All (StandsIn locations.now) nodes.items) }
    ensures few { IfOk result (λ nodes. vec_len nodes ≤ MAX_NODES) }
{
    let entries = few_entries(part(value, "nodes", 24, row)?, MAX_NODES, 29, row)?;
    nodes_of(alloc, locations, entries, row)
}

/// The nodes of these entries, in order.
fn nodes_of(
    alloc: Global,
    locations: &Locations,
    values: &[Value],
    row: u32,
) -> Result<Vec<Node>, LoadError>
    ensures nodes { IfOk result (λ nodes. try_map (spec.node_of locations.now row)
        (map view values.now) ≡ Ok nodes.items) }
    ensures fault { IfErr result (λ e. e ≢ LoadError.Memory →
        try_map (spec.node_of locations.now row) (map view values.now) ≡ Err e) }
    ensures located { IfOk result (λ nodes. All (StandsIn locations.now) nodes.items) }
    ensures len { IfOk result (λ nodes. vec_len nodes ≡ length values.now) }
{
    let mut nodes = Vec::with_capacity(alloc, values.len())?;
    for value in values {
        let node = read_node(locations, value, row)?;
        nodes.push(node)?;
    }
    Ok(nodes)
}

/// The node at the interface that an entry names.
///
/// # Errors
///
/// `WrongShape` where the entry is no string; else `UnknownLocation` where no interface has that
/// name.
#[tactic(auto, unfolding(crate::specs::Numbered::node_of))]
fn read_node(locations: &Locations, value: &Value, row: u32) -> Result<Node, LoadError>
    ensures node { IfOk result (λ node. spec.node_of locations.now row (view value.now) ≡ Ok node) }
    ensures fault { IfErr result (λ e. spec.node_of locations.now row (view value.now) ≡ Err e) }
    ensures located { IfOk result (StandsIn locations.now) }
{
    node_at(locations, string(Some(value), 30, row)?, row)
}

/// The edges of a flow, which has `count` nodes.
///
/// # Errors
///
/// `WrongShape` where the flow has no array `edges`; else `TooMany` where it has more than 100,000
/// entries; else the first fault of an entry; `Memory`.
#[tactic(auto, unfolding(crate::specs::Numbered::numbered_edges_of))]
fn read_edges(alloc: Global, value: &Value, count: u32, row: u32) -> Result<Vec<Link>, LoadError>
    ensures edges { IfOk result (λ edges. spec.numbered_edges_of count row (view value.now)
        ≡ Ok edges.items) }
    ensures fault { IfErr result (λ e. e ≢ LoadError.Memory →
        spec.numbered_edges_of count row (view value.now) ≡ Err e) }
    ensures few { IfOk result (λ edges. vec_len edges ≤ MAX_EDGES) }
    ensures join { IfOk result (λ edges. All (JoinsNodes count) edges.items) }
{
    let entries = few_entries(part(value, "edges", 24, row)?, MAX_EDGES, 31, row)?;
    edges_of(alloc, entries, count, row)
}

/// The edges of these entries, in order.
fn edges_of(alloc: Global, values: &[Value], count: u32, row: u32) -> Result<Vec<Link>, LoadError>
    ensures edges { IfOk result (λ edges. try_map (spec.edge_of count row) (map view values.now)
        ≡ Ok edges.items) }
    ensures fault { IfErr result (λ e. e ≢ LoadError.Memory →
        try_map (spec.edge_of count row) (map view values.now) ≡ Err e) }
    ensures len { IfOk result (λ edges. vec_len edges ≡ length values.now) }
    ensures join { IfOk result (λ edges. All (JoinsNodes count) edges.items) }
{
    let mut edges = Vec::with_capacity(alloc, values.len())?;
    for value in values {
        let edge = read_edge(value, count, row)?;
        edges.push(edge)?;
    }
    Ok(edges)
}

/// The edge of an entry.
///
/// # Errors
///
/// `WrongShape` where the entry is no array of two whole numbers; else `BadIndex` where one of them
/// is not below `count`.
#[tactic(auto, unfolding(crate::specs::Numbered::edge_of))]
fn read_edge(value: &Value, count: u32, row: u32) -> Result<Link, LoadError>
    ensures edge { IfOk result (λ edge. spec.edge_of count row (view value.now) ≡ Ok edge) }
    ensures fault { IfErr result (λ e. spec.edge_of count row (view value.now) ≡ Err e) }
    ensures joins { IfOk result (JoinsNodes count) }
{
    let (from, to) = two_entries(value, 32, row)?;
    let from = whole_number(Some(from), 32, row)?;
    let to = whole_number(Some(to), 32, row)?;
    let a = place_of(from, count, row)?;
    let b = place_of(to, count, row)?;
    Ok(Link { a, b })
}

/// The index of a node, which has this number.
///
/// # Errors
///
/// `BadIndex` where it is not below `count`.
#[tactic(auto, unfolding(crate::specs::Numbered::index_in))]
fn place_of(number: u64, count: u32, row: u32) -> Result<u32, LoadError>
    ensures place { IfOk result (λ place. spec.index_in count row number ≡ Ok place) }
    ensures fault { IfErr result (λ e. spec.index_in count row number ≡ Err e) }
    ensures within { IfOk result (λ place. place < count) }
{
    if number < u64::from(count) {
        Ok(number as u32)
    } else {
        Err(LoadError::BadIndex { row })
    }
}

/// The indexes that a list has, in order.
///
/// # Errors
///
/// `WrongShape` with the rule where it is no array of whole numbers; `BadIndex` where one is not
/// below `count`. The first entry at fault decides. `Memory` only for an array.
#[tactic(auto, unfolding(crate::specs::Numbered::places_of))]
fn read_places(
    alloc: Global,
    value: &Value,
    count: u32,
    rule: u8,
    row: u32,
) -> Result<Vec<u32>, LoadError>
    ensures places { IfOk result (λ places. spec.places_of count rule row (view value.now)
        ≡ Ok places.items) }
    ensures fault { IfErr result (λ e. e ≢ LoadError.Memory →
        spec.places_of count rule row (view value.now) ≡ Err e) }
    ensures memory { IsErrOf result LoadError.Memory → IsSome (items_of (view value.now)) }
    ensures within { IfOk result (λ places. All (λ place. place < count) places.items) }
{
    match index_list(alloc, value, count) {
        Ok(places) => Ok(places),
        Err(ListError::Shape) => Err(LoadError::WrongShape { rule, row }),
        Err(ListError::Index) => Err(LoadError::BadIndex { row }),
        Err(ListError::Memory) => Err(LoadError::Memory),
    }
}

/// The indexes that a list has, none where it is missing. The errors are otherwise those of
/// [`read_places`].
#[tactic(auto, unfolding(crate::specs::Numbered::optional_places_of))]
fn read_optional_places(
    alloc: Global,
    value: Option<&Value>,
    count: u32,
    rule: u8,
    row: u32,
) -> Result<Vec<u32>, LoadError>
    ensures places { IfOk result (λ places. spec.optional_places_of count rule row (option_map (λ v.
        view v.now) value.entry) ≡ Ok places.items) }
    ensures fault { IfErr result (λ e. e ≢ LoadError.Memory →
        spec.optional_places_of count rule row (option_map (λ v. view v.now) value.entry) ≡ Err e) }
    ensures within { IfOk result (λ places. All (λ place. place < count) places.items) }
{
    match value {
        Some(value) => read_places(alloc, value, count, rule, row),
        None => Ok(Vec::new(alloc)),
    }
}

/// The indexes that the member of this name lists, which has to be there.
///
/// # Errors
///
/// `WrongShape` with the rule where it is missing; otherwise those of [`read_places`].
#[tactic(auto, unfolding(crate::specs::Numbered::list_of))]
fn read_list(
    alloc: Global,
    value: &Value,
    name: &str,
    count: u32,
    rule: u8,
    row: u32,
) -> Result<Vec<u32>, LoadError>
    ensures places { IfOk result (λ places. spec.list_of name.now count rule row (view value.now)
        ≡ Ok places.items) }
    ensures fault { IfErr result (λ e. e ≢ LoadError.Memory →
        spec.list_of name.now count rule row (view value.now) ≡ Err e) }
    ensures within { IfOk result (λ places. All (λ place. place < count) places.items) }
{
    let list = part(value, name, 24, row)?.ok_or(LoadError::WrongShape { rule, row })?;
    read_places(alloc, list, count, rule, row)
}

/// The indexes that the member of this name lists, none where it is missing. The errors are
/// otherwise those of [`read_places`].
#[tactic(auto, unfolding(crate::specs::Numbered::optional_list_of))]
fn read_optional_list(
    alloc: Global,
    value: &Value,
    name: &str,
    count: u32,
    rule: u8,
    row: u32,
) -> Result<Vec<u32>, LoadError>
    ensures places { IfOk result (λ places. spec.optional_list_of name.now count rule row
        (view value.now) ≡ Ok places.items) }
    ensures fault { IfErr result (λ e. e ≢ LoadError.Memory →
        spec.optional_list_of name.now count rule row (view value.now) ≡ Err e) }
    ensures within { IfOk result (λ places. All (λ place. place < count) places.items) }
{
    read_optional_places(alloc, part(value, name, 24, row)?, count, rule, row)
}
