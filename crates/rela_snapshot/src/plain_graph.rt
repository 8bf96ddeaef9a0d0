//! The graph of a flow of version 1 from the flow's members.

ghost use Rattle.std.specs.Prelude.{◌≡◌, ◌<◌, ◌≤◌, ℕ, Ok, IfOk, length, map, vec_len};
ghost use Rattle.std.specs.List.{All};
ghost use Rattle.rela_graph.specs.Topology.{JoinsNodes};
ghost use Rattle.rela_json.specs.Results.{try_map};
ghost use Rattle.rela_tokens.specs.Pieces.{pair, text as text_of};
ghost use Rattle.rela_snapshot.specs.FlowEntry.{graph_of};
ghost use Rattle.rela_snapshot.specs.Listed.{Listed, IsGraphOf};
ghost use Rattle.rela_snapshot.specs.Located.{IsLocatedIn, StandsIn};
ghost use Rattle.rela_snapshot.specs.Numbered as spec;
ghost use Rattle.rela_snapshot.specs.Plain.{entry_of};

use crate::listing::node_at;
use crate::version::Version;
use rela_graph::{Graph, Link, MAX_EDGES, MAX_NODES, Node};
use rela_json::LoadError;
use rela_locations::Locations;
use rela_tokens::{Member, Unread, find};
use std::alloc::Global;

/// The graph that the members list.
pub(crate) fn graph_in(
    alloc: Global,
    locations: &Locations,
    members: &[Member<'_>],
    row: u32,
) -> Result<Graph, Unread>
    ensures graph { IfOk result (λ graph. (listed : Listed)
        × (graph_of locations.now Version.One row (entry_of members.now) ≡ Ok listed)
        × IsGraphOf listed graph) }
    ensures located { IfOk result (IsLocatedIn locations.now) }
{
    let nodes = nodes_in(alloc, locations, members, row)?;
    let count = nodes.len() as u32;
    let edges = edges_in(alloc, members, count, row)?;
    let starts = list_in(members, "starts", count)?;
    let delivered = optional_list_in(members, "delivered", count)?;
    let dropped = optional_list_in(members, "dropped", count)?;
    Ok(Graph::new(alloc, nodes, edges.as_slice(), starts, delivered, dropped)?)
}

/// The nodes that the member `nodes` lists.
fn nodes_in(
    alloc: Global,
    locations: &Locations,
    members: &[Member<'_>],
    row: u32,
) -> Result<Vec<Node>, Unread>
    ensures nodes { IfOk result (λ nodes.
        spec.numbered_nodes_of locations.now row (entry_of members.now) ≡ Ok nodes.items) }
    ensures located { IfOk result (λ nodes. All (StandsIn locations.now) nodes.items) }
    ensures few { IfOk result (λ nodes. vec_len nodes ≤ MAX_NODES) }
{
    let names = find(members, "nodes").ok_or(Unread)?.texts()?;
    if names.len() > MAX_NODES {
        return Err(Unread);
    }
    match nodes_at(alloc, locations, names, row) {
        Ok(nodes) => Ok(nodes),
        Err(_) => Err(Unread),
    }
}

/// The nodes at the interfaces of these names, in order.
fn nodes_at(
    alloc: Global,
    locations: &Locations,
    names: &[&str],
    row: u32,
) -> Result<Vec<Node>, LoadError>
    ensures nodes { IfOk result (λ nodes.
        try_map (spec.node_of locations.now row) (map text_of names.now) ≡ Ok nodes.items) }
    ensures located { IfOk result (λ nodes. All (StandsIn locations.now) nodes.items) }
    ensures len { IfOk result (λ nodes. vec_len nodes ≡ length names.now) }
{
    let mut nodes = Vec::with_capacity(alloc, names.len())?;
    for name in names {
        let node = node_at(locations, name.as_bytes(), row)?;
        nodes.push(node)?;
    }
    Ok(nodes)
}

/// The edges that the member `edges` lists, among `count` nodes.
fn edges_in(
    alloc: Global,
    members: &[Member<'_>],
    count: u32,
    row: u32,
) -> Result<Vec<Link>, Unread>
    ensures edges { IfOk result (λ edges.
        spec.numbered_edges_of count row (entry_of members.now) ≡ Ok edges.items) }
    ensures few { IfOk result (λ edges. vec_len edges ≤ MAX_EDGES) }
    ensures join { IfOk result (λ edges. All (JoinsNodes count) edges.items) }
{
    let pairs = find(members, "edges").ok_or(Unread)?.pairs()?;
    if pairs.len() > MAX_EDGES {
        return Err(Unread);
    }
    links_of(alloc, pairs, count, row)
}

/// The edges between the nodes of these numbers, in order.
fn links_of(alloc: Global, pairs: &[(u32, u32)], count: u32, row: u32) -> Result<Vec<Link>, Unread>
    ensures edges { IfOk result (λ edges.
        try_map (spec.edge_of count row) (map pair pairs.now) ≡ Ok edges.items) }
    ensures len { IfOk result (λ edges. vec_len edges ≡ length pairs.now) }
    ensures join { IfOk result (λ edges. All (JoinsNodes count) edges.items) }
{
    let mut edges = Vec::with_capacity(alloc, pairs.len())?;
    for (a, b) in pairs {
        let edge = link_of(*a, *b, count)?;
        edges.push(edge)?;
    }
    Ok(edges)
}

/// The edge between the nodes of these numbers, which have to be below `count`.
fn link_of(a: u32, b: u32, count: u32) -> Result<Link, Unread>
    ensures ends { IfOk result (λ edge. (edge.a ≡ a) × (edge.b ≡ b)) }
    ensures joins { IfOk result (JoinsNodes count) }
{
    if a < count && b < count {
        Ok(Link { a, b })
    } else {
        Err(Unread)
    }
}

/// The numbers that the member of this name lists, which has to be there, each below `count`.
fn list_in<'m>(members: &'m [Member<'_>], name: &str, count: u32) -> Result<&'m [u32], Unread>
    ensures numbers { IfOk result (λ numbers. (rule row : ℕ) →
        spec.list_of name.now count rule row (entry_of members.now) ≡ Ok numbers.now) }
    ensures within { IfOk result (λ numbers. All (λ n. n < count) numbers.now) }
{
    let numbers = find(members, name).ok_or(Unread)?.numbers()?;
    below(numbers, count)
}

/// The numbers that the member of this name lists, none where it is missing, each below `count`.
fn optional_list_in<'m>(
    members: &'m [Member<'_>],
    name: &str,
    count: u32,
) -> Result<&'m [u32], Unread>
    ensures numbers { IfOk result (λ numbers. (rule row : ℕ) →
        spec.optional_list_of name.now count rule row (entry_of members.now) ≡ Ok numbers.now) }
    ensures within { IfOk result (λ numbers. All (λ n. n < count) numbers.now) }
{
    match find(members, name) {
        Some(piece) => {
            let numbers = piece.numbers()?;
            below(numbers, count)
        }
        None => Ok(&[]),
    }
}

/// The same numbers, which have to be below `count`.
fn below<'m>(numbers: &'m [u32], count: u32) -> Result<&'m [u32], Unread>
    ensures same { IfOk result (λ same. same.now ≡ numbers.now) }
    ensures within { IfOk result (λ same. All (λ n. n < count) same.now) }
{
    for n in numbers {
        if *n >= count {
            return Err(Unread);
        }
    }
    Ok(numbers)
}
