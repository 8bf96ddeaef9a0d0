//! The routes of a table, read token by token.

ghost use Rattle.std.specs.Prelude.{◌≡◌, ◌<◌, ◌≤◌, [], ◌∷◌, ◌++◌, Ok, Some, IfOk, IfSome, OnOk, codes, length, map, vec_len};
ghost use Rattle.std.specs.List.{All, IsDistinct};
ghost use Rattle.indexmap.specs.IndexSet.{IsUnique};
ghost use Rattle.json.specs.Token.{begin_array};
ghost use Rattle.rela_json.specs.Parts.{member_of};
ghost use Rattle.rela_json.specs.Results.{try_map};
ghost use Rattle.rela_snapshot.specs.Steps.{IsAnswer};
ghost use Rattle.rela_tables.specs.Distinct.{is_same_key, key_of, keys_of};
ghost use Rattle.rela_tables.specs.Located.{AreInterfaces, IsRouteIn};
ghost use Rattle.rela_tables.specs.Plain.{ArePlainRoutes, IsPlainRoute, entry_of};
ghost use Rattle.rela_tables.specs.RouteParts as parts;
ghost use Rattle.rela_tables.specs.Routes as spec;
ghost use Rattle.rela_tokens.specs.Pieces.{text as text_of};

use crate::route::{MAX_ROUTES, Route, ipv4_prefix};
use crate::symbols::interface_named;
use indexmap::IndexSet;
use rela_flows::Ipv4Prefix;
use rela_locations::Locations;
use rela_names::{List, Symbol};
use rela_tokens::{Member, Reader, Unread, find, read_members, what_holds};
use std::alloc::Global;

/// Takes the rest of the array of a table's routes, behind its opening bracket. The first of them
/// has the row `first` in the file.
///
/// # Errors
///
/// `Unread`, which says nothing of what stands there.
pub(crate) fn read_routes(
    alloc: Global,
    locations: &Locations,
    reader: &mut Reader<'_>,
    first: u32,
) -> Result<Vec<Route>, Unread>
    requires room { first ≤ 1000000000 }
    ensures routes { IfOk result (λ routes.
        ArePlainRoutes locations.now first (begin_array ∷ reader.old) routes.items reader.new) }
    ensures shorter { OnOk result (length reader.new < length reader.old) }
    ensures located { IfOk result (λ routes. All (IsRouteIn locations.now) routes.items) }
    ensures distinct { IfOk result (λ routes. IsDistinct is_same_key (keys_of routes.items)) }
    ensures few { IfOk result (λ routes. vec_len routes ≤ MAX_ROUTES) }
{
    what_holds();
    let mut seen = IndexSet::new(alloc);
    let mut routes = Vec::new(alloc);
    let mut row = first;
    'routes: while !reader.take_end_array() {
        if routes.len() >= MAX_ROUTES {
            return Err(Unread);
        }
        let route = read_route(alloc, locations, &mut seen, reader, row)?;
        routes.push(route)?;
        row += 1;
    }
    Ok(routes)
}

/// Takes the next route of a table, whose prefix goes to those of the earlier ones, as its address
/// and its length in `seen`.
fn read_route(
    alloc: Global,
    locations: &Locations,
    seen: &mut IndexSet<(u32, u8)>,
    reader: &mut Reader<'_>,
    row: u32,
) -> Result<Route, Unread>
    ensures route { IfOk result (λ route.
        IsPlainRoute locations.now seen.old.keys row reader.old route reader.new) }
    ensures shorter { OnOk result (length reader.new < length reader.old) }
    ensures seen { IfOk result (λ route. seen.new.keys ≡ seen.old.keys
        ++ key_of route.prefix ∷ []) }
    ensures unique { OnOk result (IsUnique is_same_key seen.new) }
    ensures located { IfOk result (IsRouteIn locations.now) }
{
    let members = read_members(alloc, reader)?;
    route_of(alloc, locations, seen, members.as_slice(), row)
}

/// The route of these members, whose prefix goes to those of the earlier ones.
fn route_of(
    alloc: Global,
    locations: &Locations,
    seen: &mut IndexSet<(u32, u8)>,
    members: &[Member<'_>],
    row: u32,
) -> Result<Route, Unread>
    ensures route { IfOk result (λ route.
        IsAnswer (spec.IsRoute locations.now seen.old.keys row (entry_of members.now))
        (Ok route)) }
    ensures seen { IfOk result (λ route. seen.new.keys ≡ seen.old.keys
        ++ key_of route.prefix ∷ []) }
    ensures unique { OnOk result (IsUnique is_same_key seen.new) }
    ensures located { IfOk result (IsRouteIn locations.now) }
{
    let prefix = prefix_in(members, row)?;
    let (_, is_new) = seen.insert_full((prefix.address, prefix.length))?;
    if !is_new {
        return Err(Unread);
    }
    let hops = hops_in(alloc, locations, members, row)?;
    Ok(Route { prefix, hops })
}

/// The prefix that the members tell.
fn prefix_in(members: &[Member<'_>], row: u32) -> Result<Ipv4Prefix, Unread>
    ensures { IfOk result (λ prefix.
        IsAnswer (spec.IsPrefixOf row (entry_of members.now)) (Ok prefix)) }
{
    let text = prefix_text(members)?;
    match ipv4_prefix(text.as_bytes(), row) {
        Ok(prefix) => Ok(prefix),
        Err(_) => Err(Unread),
    }
}

/// The text of the prefix that the members tell.
fn prefix_text<'a>(members: &[Member<'a>]) -> Result<&'a str, Unread>
    ensures { IfOk result (λ text.
        member_of (codes "prefix") (entry_of members.now) ≡ Some (Some (text_of text))) }
{
    find(members, "prefix").ok_or(Unread)?.text()
}

/// The hops that the members tell, and `None` where they tell none.
fn hops_in(
    alloc: Global,
    locations: &Locations,
    members: &[Member<'_>],
    row: u32,
) -> Result<Option<List<Symbol>>, Unread>
    ensures hops { IfOk result (λ hops.
        parts.hops_of locations.now row (entry_of members.now) ≡ Ok hops) }
    ensures located { IfOk result (λ hops. IfSome hops (AreInterfaces locations.now)) }
{
    match find(members, "hops") {
        Some(piece) => {
            let names = piece.texts()?;
            let hops = hops_at(alloc, locations, names, row)?;
            Ok(Some(List::from_vec(hops)))
        }
        None => Ok(None),
    }
}

/// The interfaces of these names, in order.
fn hops_at(
    alloc: Global,
    locations: &Locations,
    names: &[&str],
    row: u32,
) -> Result<Vec<Symbol>, Unread>
    ensures hops { IfOk result (λ hops.
        try_map (parts.hop_of locations.now row) (map text_of names.now) ≡ Ok hops.items) }
    ensures located { IfOk result (λ hops. AreInterfaces locations.now hops.items) }
{
    let mut hops = Vec::with_capacity(alloc, names.len())?;
    for name in names {
        let hop = interface_named(locations, name.as_bytes(), row)?;
        hops.push(hop)?;
    }
    Ok(hops)
}
