//! The routes of a table.

ghost use Rattle.std.specs.Prelude.{◌≡◌, ◌≢◌, ◌+◌, ◌<◌, ◌^◌, [], ◌∷◌, ◌++◌, Ok, Err, IfOk, IfErr, OnOk, IfSome, length, map, option_map, vec_len};
ghost use Rattle.std.specs.List.{All, IsDistinct};
ghost use Rattle.indexmap.specs.IndexSet.{IsUnique};
ghost use Rattle.serde_json.specs.View.{view};
ghost use Rattle.rela_json.specs.Results.{try_map};
ghost use Rattle.rela_locations.specs.Network.{alphabet_of};
ghost use Rattle.rela_names.specs.declared.level.Level.TheVariants.{Interface};
ghost use Rattle.rela_snapshot.specs.Steps.{IsAnswer};
ghost use Rattle.rela_tables.specs.Distinct.{is_same_key, key_of, keys_of};
ghost use Rattle.rela_tables.specs.Located.{AreInterfaces, IsRouteIn};
ghost use Rattle.rela_tables.specs.RouteParts as parts;
ghost use Rattle.rela_tables.specs.Routes as spec;

use crate::symbols::interface;
use indexmap::IndexSet;
use rela_flows::{Ipv4Prefix, Prefix};
use rela_json::{LoadError, Value, entries, part, string};
use rela_locations::Locations;
use rela_names::{List, Symbol};
use std::alloc::Global;

/// The greatest number of routes of one table.
pub const MAX_ROUTES: usize = 10_000;

/// What a device does with the packets to a prefix, where no longer prefix of its table holds their
/// address.
#[derive(Drop)]
pub struct Route {
    /// The addresses that the route is for.
    pub prefix: Ipv4Prefix,
    /// The interfaces that the packets go to next. With an empty list they are dropped, and with
    /// `None` they are delivered here.
    pub hops: Option<List<Symbol>>,
}

/// The routes of a table, of which the first has the row `first` in the file.
///
/// # Errors
///
/// The first fault of a route, with its row; `Memory`.
pub(crate) fn read_routes(
    alloc: Global,
    locations: &Locations,
    values: &[Value],
    first: u32,
) -> Result<Vec<Route>, LoadError>
    requires room { first + length values.now < 2 ^ 32 }
    ensures routes { IfOk result (λ routes.
        IsAnswer (spec.AreRoutes locations.now first [] (map view values.now)) (Ok routes.items)) }
    ensures fault { IfErr result (λ e. e ≢ LoadError.Memory →
        IsAnswer (spec.AreRoutes locations.now first [] (map view values.now)) (Err e)) }
    ensures located { IfOk result (λ routes. All (IsRouteIn locations.now) routes.items) }
    ensures distinct { IfOk result (λ routes. IsDistinct is_same_key (keys_of routes.items)) }
    ensures len { IfOk result (λ routes. vec_len routes ≡ length values.now) }
{
    let mut seen = IndexSet::with_capacity(alloc, values.len())?;
    let mut routes = Vec::with_capacity(alloc, values.len())?;
    let mut row = first;
    for value in values {
        let route = read_route(alloc, locations, &mut seen, value, row)?;
        routes.push(route)?;
        row += 1;
    }
    Ok(routes)
}

/// The next route of a table, whose prefix goes to those of the earlier ones, as its address and
/// its length in `seen`.
///
/// # Errors
///
/// `WrongShape` where the route is no object or its `prefix` no string; else `BadPrefix` where that
/// is no IPv4 prefix; else `RepeatedEntry` where an earlier route of the table has it; else the
/// first fault of its hops; `Memory`.
fn read_route(
    alloc: Global,
    locations: &Locations,
    seen: &mut IndexSet<(u32, u8)>,
    value: &Value,
    row: u32,
) -> Result<Route, LoadError>
    ensures route { IfOk result (λ route.
        IsAnswer (spec.IsRoute locations.now seen.old.keys row (view value.now)) (Ok route)) }
    ensures fault { IfErr result (λ e. e ≢ LoadError.Memory →
        IsAnswer (spec.IsRoute locations.now seen.old.keys row (view value.now)) (Err e)) }
    ensures seen { IfOk result (λ route. seen.new.keys ≡ seen.old.keys
        ++ key_of route.prefix ∷ []) }
    ensures unique { OnOk result (IsUnique is_same_key seen.new) }
    ensures located { IfOk result (IsRouteIn locations.now) }
{
    let prefix = read_prefix(value, row)?;
    let (_, is_new) = seen.insert_full((prefix.address, prefix.length))?;
    if !is_new {
        return Err(LoadError::RepeatedEntry { row });
    }
    let hops = read_hops(alloc, locations, value, row)?;
    Ok(Route { prefix, hops })
}

/// The prefix of a route.
///
/// # Errors
///
/// `WrongShape` where the route is no object or its `prefix` no string; else `BadPrefix` where that
/// is no IPv4 prefix.
fn read_prefix(value: &Value, row: u32) -> Result<Ipv4Prefix, LoadError>
    ensures { IsAnswer (spec.IsPrefixOf row (view value.now)) result }
{
    let text = prefix_text(value, row)?;
    ipv4_prefix(text, row)
}

/// The text of a route's prefix, or `WrongShape`.
#[tactic(auto, unfolding(crate::specs::RouteParts::prefix_text_of))]
fn prefix_text(value: &Value, row: u32) -> Result<&[u8], LoadError>
    ensures text { IfOk result (λ text. parts.prefix_text_of row (view value.now) ≡ Ok text.now) }
    ensures fault { IfErr result (λ e. parts.prefix_text_of row (view value.now) ≡ Err e) }
{
    string(part(value, "prefix", 69, row)?, 70, row)
}

/// The IPv4 prefix that a text writes, or `BadPrefix` where it writes none.
pub(crate) fn ipv4_prefix(text: &[u8], row: u32) -> Result<Ipv4Prefix, LoadError>
    ensures { IsAnswer (spec.IsPrefix row text.now) result }
{
    let Some(prefix) = Prefix::parse(text) else {
        return Err(LoadError::BadPrefix { row });
    };
    match prefix {
        Prefix::V4(prefix) => Ok(prefix),
        Prefix::V6(_) => Err(LoadError::BadPrefix { row }),
    }
}

/// The hops of a route, in order, and `None` where it has no such member.
///
/// # Errors
///
/// `WrongShape` where they are no array; else the first fault of a hop; `Memory`.
#[tactic(auto, unfolding(crate::specs::RouteParts::hops_of))]
fn read_hops(
    alloc: Global,
    locations: &Locations,
    value: &Value,
    row: u32,
) -> Result<Option<List<Symbol>>, LoadError>
    ensures hops { IfOk result (λ hops. parts.hops_of locations.now row (view value.now)
        ≡ Ok hops) }
    ensures fault { IfErr result (λ e. e ≢ LoadError.Memory →
        parts.hops_of locations.now row (view value.now) ≡ Err e) }
    ensures located { IfOk result (λ hops. IfSome hops (AreInterfaces locations.now)) }
{
    listed_hops(alloc, locations, part(value, "hops", 69, row)?, row)
}

/// The hops of a member that may be missing, and `None` where it is. The errors are those of
/// [`read_hops`].
#[tactic(auto, unfolding(crate::specs::RouteParts::listed_hops_of))]
fn listed_hops(
    alloc: Global,
    locations: &Locations,
    hops: Option<&Value>,
    row: u32,
) -> Result<Option<List<Symbol>>, LoadError>
    ensures hops { IfOk result (λ found. parts.listed_hops_of locations.now row (option_map (λ v.
        view v.now) hops.entry) ≡ Ok found) }
    ensures fault { IfErr result (λ e. e ≢ LoadError.Memory →
        parts.listed_hops_of locations.now row (option_map (λ v. view v.now) hops.entry) ≡ Err e) }
    ensures located { IfOk result (λ found. IfSome found (AreInterfaces locations.now)) }
{
    match hops {
        Some(hops) => {
            let values = entries(Some(hops), 71, row)?;
            let found = hops_of(alloc, locations, values, row)?;
            Ok(Some(List::from_vec(found)))
        }
        None => Ok(None),
    }
}

/// The interfaces that these entries name, in order.
fn hops_of(
    alloc: Global,
    locations: &Locations,
    values: &[Value],
    row: u32,
) -> Result<Vec<Symbol>, LoadError>
    ensures hops { IfOk result (λ hops. try_map (parts.hop_of locations.now row)
        (map view values.now) ≡ Ok hops.items) }
    ensures fault { IfErr result (λ e. e ≢ LoadError.Memory →
        try_map (parts.hop_of locations.now row) (map view values.now) ≡ Err e) }
    ensures located { IfOk result (λ hops. AreInterfaces locations.now hops.items) }
{
    let mut hops = Vec::with_capacity(alloc, values.len())?;
    for value in values {
        let hop = read_hop(locations, value, row)?;
        hops.push(hop)?;
    }
    Ok(hops)
}

/// The interface that an entry names.
///
/// # Errors
///
/// `WrongShape` where the entry is no string; else `UnknownLocation` where no interface has that
/// name.
#[tactic(auto, unfolding(crate::specs::RouteParts::hop_of))]
fn read_hop(locations: &Locations, value: &Value, row: u32) -> Result<Symbol, LoadError>
    ensures hop { IfOk result (λ hop. parts.hop_of locations.now row (view value.now) ≡ Ok hop) }
    ensures fault { IfErr result (λ e. parts.hop_of locations.now row (view value.now) ≡ Err e) }
    ensures located { IfOk result (λ hop. hop < length (alphabet_of Interface locations.now)) }
{
    interface(locations, string(Some(value), 72, row)?, row)
}
