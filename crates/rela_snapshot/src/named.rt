//! The graph of a flow of version 2, whose nodes are named by ids of their own.

ghost use Rattle.std.specs.Prelude.{◌≡◌, ◌≢◌, ◌<◌, ◌≤◌, [], ◌∷◌, ◌++◌, Ok, Err, IfOk, IfErr, OnOk, IsErrOf, IsOk, IsOkAnd, ◌+◌, length, map, option_map, vec_len};
ghost use Rattle.std.specs.List.{All};
ghost use Rattle.rela_graph.specs.Topology.{JoinsNodes};
ghost use Rattle.rela_snapshot.specs.Located.{StandsIn};
ghost use Rattle.rela_snapshot.specs.Named as spec;
ghost use Rattle.rela_snapshot.specs.Named.{nodes_of};
ghost use Rattle.serde_json.specs.View.{view};
ghost use Rattle.rela_json.specs.Results.{try_map, try_fold};

use crate::listing::{Listing, node_at};
use crate::name_table::NameTable;
use rela_graph::{Link, MAX_EDGES, MAX_NODES, Node};
use rela_json::{LoadError, Value, entries, few_entries, part, string, two_entries};
use rela_locations::Locations;
use rela_names::is_name;
use std::alloc::Global;

/// The nodes, edges and lists of a flow.
///
/// # Errors
///
/// The first fault, with the flow's row: of the nodes in order, then the edges in order, then
/// `starts`, `delivered` and `dropped`; `Memory`.
#[tactic(auto, unfolding(crate::specs::Named::named_of))]
pub(crate) fn read_named(
    alloc: Global,
    locations: &Locations,
    value: &Value,
    row: u32,
) -> Result<Listing, LoadError>
    ensures listed { IfOk result (λ listing. spec.named_of locations.now row (view value.now)
        ≡ Ok listing) }
    ensures fault { IfErr result (λ e. e ≢ LoadError.Memory →
        spec.named_of locations.now row (view value.now) ≡ Err e) }
    ensures located { IfOk result (λ listing. All (StandsIn locations.now) listing.nodes) }
{
    let mut ids = NameTable::new(alloc);
    let nodes = read_nodes(alloc, locations, &mut ids, value, row)?;
    read_listing(alloc, nodes, &ids, value, row)
}

/// The edges and lists of a flow, beside its nodes, which have these ids in the same order.
#[tactic(auto, unfolding(crate::specs::Named::named_listing_of))]
fn read_listing(
    alloc: Global,
    nodes: Vec<Node>,
    ids: &NameTable<'_>,
    value: &Value,
    row: u32,
) -> Result<Listing, LoadError>
    requires few { vec_len nodes ≤ MAX_NODES }
    requires one_each { length ids.now ≡ vec_len nodes }
    ensures listed { IfOk result (λ listing. spec.named_listing_of (nodes_of ids.now nodes.items)
        row (view value.now) ≡ Ok listing) }
    ensures fault { IfErr result (λ e. e ≢ LoadError.Memory →
        spec.named_listing_of (nodes_of ids.now nodes.items) row (view value.now) ≡ Err e) }
    ensures nodes { IfOk result (λ listing. listing.nodes ≡ nodes.items) }
{
    let edges = read_edges(alloc, ids, value, row)?;
    let starts = read_list(alloc, ids, value, "starts", 52, row)?;
    let delivered = read_optional_list(alloc, ids, value, "delivered", 53, row)?;
    let dropped = read_optional_list(alloc, ids, value, "dropped", 54, row)?;
    Ok(Listing {
        nodes,
        edges,
        starts,
        delivered,
        dropped,
    })
}

/// The nodes of a flow, whose ids go into the table.
///
/// # Errors
///
/// `WrongShape` where the flow has no array `nodes`; else `TooMany` where it has more than 10,000
/// entries; else the first fault of an entry; `Memory`.
#[tactic(auto, unfolding(crate::specs::Named::named_nodes_of))]
fn read_nodes<'a>(
    alloc: Global,
    locations: &Locations,
    ids: &mut NameTable<'a>,
    value: &'a Value,
    row: u32,
) -> Result<Vec<Node>, LoadError>
    requires none { ids.old ≡ [] }
    ensures nodes { IfOk result (λ nodes. spec.named_nodes_of locations.now row (view value.now)
        ≡ Ok (nodes_of ids.new nodes.items)) }
    ensures fault { IfErr result (λ e. e ≢ LoadError.Memory →
        spec.named_nodes_of locations.now row (view value.now) ≡ Err e) }
    ensures located { IfOk result (λ nodes. All (StandsIn locations.now) nodes.items) }
    ensures few { IfOk result (λ nodes. vec_len nodes ≤ MAX_NODES) }
    ensures one_each { IfOk result (λ nodes. length ids.new ≡ vec_len nodes) }
{
    let entries = few_entries(part(value, "nodes", 41, row)?, MAX_NODES, 46, row)?;
    nodes_of(alloc, locations, ids, entries, row)
}

/// The nodes of these entries, whose ids go into the table.
fn nodes_of<'a>(
    alloc: Global,
    locations: &Locations,
    ids: &mut NameTable<'a>,
    values: &'a [Value],
    row: u32,
) -> Result<Vec<Node>, LoadError>
    requires none { ids.old ≡ [] }
    requires few { length values.now ≤ MAX_NODES }
    ensures nodes { IfOk result (λ nodes. try_fold (spec.add_node locations.now row)
        (nodes_of [] []) (map view values.now) ≡ Ok (nodes_of ids.new nodes.items)) }
    ensures fault { IfErr result (λ e. e ≢ LoadError.Memory →
        try_fold (spec.add_node locations.now row) (nodes_of [] []) (map view values.now) ≡ Err e) }
    ensures located { IfOk result (λ nodes. All (StandsIn locations.now) nodes.items) }
    ensures len { IfOk result (λ nodes. vec_len nodes ≡ length values.now) }
    ensures ids { IfOk result (λ nodes. length ids.new ≡ vec_len nodes) }
{
    let mut nodes = Vec::with_capacity(alloc, values.len())?;
    for value in values {
        add_node(locations, ids, &mut nodes, value, row)?;
    }
    Ok(nodes)
}

/// Adds the node of an entry, and its id to those of the nodes so far.
#[tactic(auto, unfolding(crate::specs::Named::add_node))]
fn add_node<'a>(
    locations: &Locations,
    ids: &mut NameTable<'a>,
    nodes: &mut Vec<Node>,
    value: &'a Value,
    row: u32,
) -> Result<(), LoadError>
    requires few { length ids.old < MAX_NODES }
    requires one_each { length ids.old ≡ vec_len nodes.old }
    requires located { All (StandsIn locations.now) nodes.old.items }
    ensures nodes { OnOk result (spec.add_node locations.now row (nodes_of ids.old nodes.old.items)
        (view value.now) ≡ Ok (nodes_of ids.new nodes.new.items)) }
    ensures fault { IfErr result (λ e. e ≢ LoadError.Memory →
        spec.add_node locations.now row (nodes_of ids.old nodes.old.items) (view value.now)
        ≡ Err e) }
    ensures one_each { OnOk result (length ids.new ≡ vec_len nodes.new) }
    ensures one_more { OnOk result (vec_len nodes.new ≡ vec_len nodes.old + 1) }
    ensures located { OnOk result (All (StandsIn locations.now) nodes.new.items) }
{
    add_id(ids, value, row)?;
    let node = read_node(locations, value, row)?;
    nodes.push(node)?;
    Ok(())
}

/// Adds the id of a node to those of the nodes so far.
///
/// # Errors
///
/// `WrongShape` where the entry is no object or its `id` no string; else `BadName` where it is not
/// 1 to 64 name bytes; else `RepeatedEntry` where an earlier node has it; else `Memory`.
#[tactic(auto, unfolding(crate::specs::Named::id_of, crate::specs::Class::name_of))]
fn add_id<'a>(ids: &mut NameTable<'a>, value: &'a Value, row: u32) -> Result<(), LoadError>
    requires few { length ids.old < MAX_NODES }
    ensures id { OnOk result (IsOkAnd (spec.id_of ids.old row (view value.now)) (λ id. ids.new
        ≡ ids.old ++ id ∷ [])) }
    ensures fault { IfErr result (λ e. e ≢ LoadError.Memory →
        spec.id_of ids.old row (view value.now) ≡ Err e) }
    ensures memory { IsErrOf result LoadError.Memory →
        IsOk (spec.id_of ids.old row (view value.now)) }
{
    let id = string(part(value, "id", 47, row)?, 48, row)?;
    if !is_name(id) {
        return Err(LoadError::BadName { row });
    }
    if ids.has(id) {
        return Err(LoadError::RepeatedEntry { row });
    }
    ids.add(id)?;
    Ok(())
}

/// The node at the interface that a node's entry names.
///
/// # Errors
///
/// `WrongShape` where its `at` is no string; else `UnknownLocation` where no interface has that
/// name.
#[tactic(auto, unfolding(crate::specs::Named::at_of))]
fn read_node(locations: &Locations, value: &Value, row: u32) -> Result<Node, LoadError>
    ensures node { IfOk result (λ node. spec.at_of locations.now row (view value.now) ≡ Ok node) }
    ensures fault { IfErr result (λ e. spec.at_of locations.now row (view value.now) ≡ Err e) }
    ensures located { IfOk result (StandsIn locations.now) }
{
    let at = string(part(value, "at", 47, row)?, 49, row)?;
    node_at(locations, at, row)
}

/// The edges of a flow.
///
/// # Errors
///
/// `WrongShape` where the flow has no array `edges`; else `TooMany` where it has more than 100,000
/// entries; else the first fault of an entry; `Memory`.
#[tactic(auto, unfolding(crate::specs::Named::named_edges_of))]
fn read_edges(
    alloc: Global,
    ids: &NameTable<'_>,
    value: &Value,
    row: u32,
) -> Result<Vec<Link>, LoadError>
    ensures edges { IfOk result (λ edges. spec.named_edges_of ids.now row (view value.now)
        ≡ Ok edges.items) }
    ensures fault { IfErr result (λ e. e ≢ LoadError.Memory →
        spec.named_edges_of ids.now row (view value.now) ≡ Err e) }
    ensures few { IfOk result (λ edges. vec_len edges ≤ MAX_EDGES) }
    ensures join { IfOk result (λ edges. All (JoinsNodes (length ids.now)) edges.items) }
{
    let entries = few_entries(part(value, "edges", 41, row)?, MAX_EDGES, 50, row)?;
    edges_of(alloc, ids, entries, row)
}

/// The edges of these entries, in order.
fn edges_of(
    alloc: Global,
    ids: &NameTable<'_>,
    values: &[Value],
    row: u32,
) -> Result<Vec<Link>, LoadError>
    ensures edges { IfOk result (λ edges. try_map (spec.named_edge_of ids.now row)
        (map view values.now) ≡ Ok edges.items) }
    ensures fault { IfErr result (λ e. e ≢ LoadError.Memory →
        try_map (spec.named_edge_of ids.now row) (map view values.now) ≡ Err e) }
    ensures len { IfOk result (λ edges. vec_len edges ≡ length values.now) }
    ensures join { IfOk result (λ edges. All (JoinsNodes (length ids.now)) edges.items) }
{
    let mut edges = Vec::with_capacity(alloc, values.len())?;
    for value in values {
        let edge = read_edge(ids, value, row)?;
        edges.push(edge)?;
    }
    Ok(edges)
}

/// The edge of an entry.
///
/// # Errors
///
/// `WrongShape` where the entry is no array of two strings; else `UnknownNode` where one of them is
/// no node's id.
#[tactic(auto, unfolding(crate::specs::Named::named_edge_of))]
fn read_edge(ids: &NameTable<'_>, value: &Value, row: u32) -> Result<Link, LoadError>
    ensures edge { IfOk result (λ edge. spec.named_edge_of ids.now row (view value.now) ≡ Ok edge) }
    ensures fault { IfErr result (λ e. spec.named_edge_of ids.now row (view value.now) ≡ Err e) }
    ensures joins { IfOk result (JoinsNodes (length ids.now)) }
{
    let (from, to) = two_entries(value, 51, row)?;
    let from = string(Some(from), 51, row)?;
    let to = string(Some(to), 51, row)?;
    let a = place_of(ids, from, row)?;
    let b = place_of(ids, to, row)?;
    Ok(Link { a, b })
}

/// The index of the node with this id.
///
/// # Errors
///
/// `UnknownNode` where there is none.
#[tactic(auto, unfolding(crate::specs::Named::id_place_of))]
fn place_of(ids: &NameTable<'_>, id: &[u8], row: u32) -> Result<u32, LoadError>
    ensures place { IfOk result (λ place. spec.id_place_of ids.now row id.now ≡ Ok place) }
    ensures fault { IfErr result (λ e. spec.id_place_of ids.now row id.now ≡ Err e) }
    ensures within { IfOk result (λ place. place < length ids.now) }
{
    ids.place(id).ok_or(LoadError::UnknownNode { row })
}

/// The index of the node that an entry of a list names.
///
/// # Errors
///
/// `WrongShape` where the entry is no string; else `UnknownNode` where it is no node's id.
#[tactic(auto, unfolding(crate::specs::Named::named_place_of))]
fn read_place(ids: &NameTable<'_>, value: &Value, rule: u8, row: u32) -> Result<u32, LoadError>
    ensures place { IfOk result (λ place. spec.named_place_of ids.now rule row (view value.now)
        ≡ Ok place) }
    ensures fault { IfErr result (λ e. spec.named_place_of ids.now rule row (view value.now)
        ≡ Err e) }
    ensures within { IfOk result (λ place. place < length ids.now) }
{
    place_of(ids, string(Some(value), rule, row)?, row)
}

/// The indexes of the nodes that the entries of a list name, in order.
fn places_of(
    alloc: Global,
    ids: &NameTable<'_>,
    values: &[Value],
    rule: u8,
    row: u32,
) -> Result<Vec<u32>, LoadError>
    ensures places { IfOk result (λ places. try_map (spec.named_place_of ids.now rule row)
        (map view values.now) ≡ Ok places.items) }
    ensures fault { IfErr result (λ e. e ≢ LoadError.Memory →
        try_map (spec.named_place_of ids.now rule row) (map view values.now) ≡ Err e) }
    ensures within { IfOk result (λ places. All (λ place. place < length ids.now) places.items) }
{
    let mut places = Vec::with_capacity(alloc, values.len())?;
    for value in values {
        let place = read_place(ids, value, rule, row)?;
        places.push(place)?;
    }
    Ok(places)
}

/// The indexes of the nodes that a list names, which has to be there.
#[tactic(auto, unfolding(crate::specs::Named::named_places_of))]
fn read_places(
    alloc: Global,
    ids: &NameTable<'_>,
    value: Option<&Value>,
    rule: u8,
    row: u32,
) -> Result<Vec<u32>, LoadError>
    ensures places { IfOk result (λ places. spec.named_places_of ids.now rule row (option_map (λ v.
        view v.now) value.entry) ≡ Ok places.items) }
    ensures fault { IfErr result (λ e. e ≢ LoadError.Memory →
        spec.named_places_of ids.now rule row (option_map (λ v. view v.now) value.entry) ≡ Err e) }
    ensures within { IfOk result (λ places. All (λ place. place < length ids.now) places.items) }
{
    places_of(alloc, ids, entries(value, rule, row)?, rule, row)
}

/// The indexes of the nodes that a list names, none where it is missing.
#[tactic(auto, unfolding(crate::specs::Named::optional_named_places_of))]
fn read_optional_places(
    alloc: Global,
    ids: &NameTable<'_>,
    value: Option<&Value>,
    rule: u8,
    row: u32,
) -> Result<Vec<u32>, LoadError>
    ensures places { IfOk result (λ places. spec.optional_named_places_of ids.now rule row
        (option_map (λ v. view v.now) value.entry) ≡ Ok places.items) }
    ensures fault { IfErr result (λ e. e ≢ LoadError.Memory →
        spec.optional_named_places_of ids.now rule row (option_map (λ v. view v.now) value.entry)
        ≡ Err e) }
    ensures within { IfOk result (λ places. All (λ place. place < length ids.now) places.items) }
{
    match value {
        Some(value) => read_places(alloc, ids, Some(value), rule, row),
        None => Ok(Vec::new(alloc)),
    }
}

/// The indexes of the nodes that the member of this name lists, which has to be there.
///
/// # Errors
///
/// `WrongShape` with the rule where it is no array of strings; `UnknownNode` where a string is no
/// node's id; `Memory`.
#[tactic(auto, unfolding(crate::specs::Named::named_list_of))]
fn read_list(
    alloc: Global,
    ids: &NameTable<'_>,
    value: &Value,
    name: &str,
    rule: u8,
    row: u32,
) -> Result<Vec<u32>, LoadError>
    ensures places { IfOk result (λ places. spec.named_list_of name.now ids.now rule row
        (view value.now) ≡ Ok places.items) }
    ensures fault { IfErr result (λ e. e ≢ LoadError.Memory →
        spec.named_list_of name.now ids.now rule row (view value.now) ≡ Err e) }
    ensures within { IfOk result (λ places. All (λ place. place < length ids.now) places.items) }
{
    read_places(alloc, ids, part(value, name, 41, row)?, rule, row)
}

/// The indexes of the nodes that the member of this name lists, none where it is missing. The
/// errors are otherwise those of [`read_list`].
#[tactic(auto, unfolding(crate::specs::Named::optional_named_list_of))]
fn read_optional_list(
    alloc: Global,
    ids: &NameTable<'_>,
    value: &Value,
    name: &str,
    rule: u8,
    row: u32,
) -> Result<Vec<u32>, LoadError>
    ensures places { IfOk result (λ places. spec.optional_named_list_of name.now ids.now rule row
        (view value.now) ≡ Ok places.items) }
    ensures fault { IfErr result (λ e. e ≢ LoadError.Memory →
        spec.optional_named_list_of name.now ids.now rule row (view value.now) ≡ Err e) }
    ensures within { IfOk result (λ places. All (λ place. place < length ids.now) places.items) }
{
    read_optional_places(alloc, ids, part(value, name, 41, row)?, rule, row)
}
