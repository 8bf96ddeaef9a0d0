//! The walk over the items of a specification, which makes its checks.

ghost use Rattle.std.specs.Prelude.{◌≡◌, ◌≢◌, ◌≤◌, ℕ, [], Err, Ok, None, IfErr, IfOk, List, OnOk, map};
ghost use Rattle.std.specs.List.{All};
ghost use Rattle.rela_flows.specs.Selects.{depth};
ghost use Rattle.rela_json.specs.Results.{try_fold};
ghost use Rattle.rela_lex.specs.declared.error.SpecError.TheVariants.{Memory};
ghost use Rattle.rela_spec.specs.Depth.{IsLow};
ghost use Rattle.rela_spec.specs.declared.tree.Item.TheVariants.{Path as PathItem, Spec as SpecItem, Check as CheckItem};
ghost use Rattle.rela_expand.specs.Expand.{not_full, outcome_of, unused};
ghost use Rattle.rela_expand.specs.Scopes.{meaning_of};
ghost use Rattle.rela_expand.specs.Walk.{Seen, at_start, with_shaped};
ghost use Rattle.rela_expand.specs.Walks.{AreTaken, IsWalk, seen_of, taken_with};

use crate::bodies::Bodies;
use crate::forms::Forms;
use crate::gathering::{Scope, gather};
use crate::making::{Heading, made};
use crate::names::{Definitions, Meaning};
use crate::spec_gathering::gather_spec;
use rela_lex::SpecError;
use rela_locations::Locations;
use rela_names::{Level, Name};
use rela_spec::{Item, PathExpr, SpecExpr};
use rela_translate::Check;
use std::alloc::Global;

/// How many checks a specification may have.
const MAX_CHECKS: usize = 200;

/// What has been read of the items so far.
#[derive(Drop)]
pub(crate) struct Walk<'a> {
    /// The forms of the paths of definitions and checks.
    pub(crate) forms: Forms<'a>,
    /// The bodies of definitions and checks.
    pub(crate) bodies: Bodies,
    /// What the names of definitions stand for.
    pub(crate) names: Definitions<'a>,
    /// The names of the checks, with their bodies.
    pub(crate) check_names: Definitions<'a>,
    /// The checks, in their order.
    pub(crate) checks: Vec<Check>,
}

impl<'a> Walk<'a> {
    /// Nothing read.
    fn new(alloc: Global) -> Walk<'a>
        ensures walk { IsWalk result }
        ensures none { AreTaken result.names [] }
        ensures seen { seen_of result [] ≡ at_start }
        ensures checks { result.checks.items ≡ [] }
    {
        Walk {
            forms: Forms::new(alloc),
            bodies: Bodies::new(alloc),
            names: Definitions::new(alloc),
            check_names: Definitions::new(alloc),
            checks: Vec::new(alloc),
        }
    }
}

/// The checks of these items, in their order.
///
/// # Errors
///
/// The first refusal of an item: see [`walk_item`].
pub(crate) fn walk_items(
    alloc: Global,
    locations: &Locations,
    level: Level,
    items: &[Item],
) -> Result<Vec<Check>, SpecError>
    requires low { All IsLow items.now }
    ensures checks { IfOk result (λ checks. (seen : Seen)
        × (try_fold (with_shaped (record { network = locations.now; level = level })) at_start
        items.now ≡ Ok seen) × (seen.checks ≡ map outcome_of checks.items)) }
    ensures level { IfOk result (λ checks. All (λ check. check.level ≡ level) checks.items) }
    ensures refused { IfErr result (λ e. e ≢ Memory →
        try_fold (with_shaped (record { network = locations.now; level = level })) at_start
        items.now ≡ Err e) }
{
    let mut walk = Walk::new(alloc);
    for item in items {
        walk_item(alloc, locations, level, &mut walk, item)?;
    }
    Ok(walk.checks)
}

/// Takes in one item more.
///
/// # Errors
///
/// `RepeatedName` where an earlier item of its kind has its name: paths and specifications are of one
/// kind, and checks are of another. `TooLarge` at the 201st check. Those of its body; and of a check
/// those of [`made`]. `Memory`.
fn walk_item<'a>(
    alloc: Global,
    locations: &Locations,
    level: Level,
    walk: &mut Walk<'a>,
    item: &'a Item,
) -> Result<(), SpecError>
    requires walk { IsWalk walk.old }
    requires low { IsLow item.now }
    ensures walk { OnOk result (IsWalk walk.new) }
    ensures seen { (taken : List (List ℕ)) → AreTaken walk.old.names taken → OnOk result (
        with_shaped (record { network = locations.now; level = level }) (seen_of walk.old taken)
        item.now ≡ Ok (seen_of walk.new (taken_with item.now taken))) }
    ensures taken { (taken : List (List ℕ)) → AreTaken walk.old.names taken →
        OnOk result (AreTaken walk.new.names (taken_with item.now taken)) }
    ensures level { OnOk result (All (λ check. check.level ≡ level) walk.old.checks.items →
        All (λ check. check.level ≡ level) walk.new.checks.items) }
    ensures refused { (taken : List (List ℕ)) → AreTaken walk.old.names taken →
        IfErr result (λ e. e ≢ Memory →
        with_shaped (record { network = locations.now; level = level }) (seen_of walk.old taken)
        item.now ≡ Err e) }
{
    match item {
        Item::Path { name, at, body } => {
            walk_path(alloc, locations, level, walk, name, *at, body)
        }
        Item::Spec { name, at, body } => {
            walk_spec(alloc, locations, level, walk, name, *at, body)
        }
        Item::Check {
            at_most,
            name,
            at,
            when,
            body,
        } => {
            let heading = Heading {
                name,
                at: *at,
                when,
                at_most: *at_most,
            };
            walk_check(alloc, locations, level, walk, &heading, body)
        }
    }
}

/// Takes in the definition of a path: its body is gathered, and its name stands for that from here
/// on. Errors are those of [`look_new`] and [`gather`].
fn walk_path<'a>(
    alloc: Global,
    locations: &Locations,
    level: Level,
    walk: &mut Walk<'a>,
    name: &'a Name,
    at: u32,
    body: &'a PathExpr,
) -> Result<(), SpecError>
    requires { IsWalk walk.old }
    ensures walk { OnOk result (IsWalk walk.new) }
    ensures seen { (taken : List (List ℕ)) → AreTaken walk.old.names taken → OnOk result (
        with_shaped (record { network = locations.now; level = level }) (seen_of walk.old taken)
        (PathItem name.now at body.now) ≡ Ok
        (seen_of walk.new (taken_with (PathItem name.now at body.now) taken))) }
    ensures taken { (taken : List (List ℕ)) → AreTaken walk.old.names taken →
        OnOk result (AreTaken walk.new.names (taken_with (PathItem name.now at body.now) taken)) }
    ensures checks { OnOk result (walk.new.checks ≡ walk.old.checks) }
    ensures refused { (taken : List (List ℕ)) → AreTaken walk.old.names taken →
        IfErr result (λ e. e ≢ Memory →
        with_shaped (record { network = locations.now; level = level }) (seen_of walk.old taken)
        (PathItem name.now at body.now) ≡ Err e) }
{
    look_new(&walk.names, name, at)?;
    let scope = Scope {
        locations,
        level,
        names: &walk.names,
    };
    let place = gather(alloc, &scope, &mut walk.forms, body)?;
    walk.names.add(name.as_bytes(), Meaning::Path(place))?;
    Ok(())
}

/// Takes in the definition of a specification: its body is gathered, and its name stands for that
/// from here on. Errors are those of [`look_new`] and [`gather_spec`].
fn walk_spec<'a>(
    alloc: Global,
    locations: &Locations,
    level: Level,
    walk: &mut Walk<'a>,
    name: &'a Name,
    at: u32,
    body: &'a SpecExpr,
) -> Result<(), SpecError>
    requires { IsWalk walk.old }
    ensures walk { OnOk result (IsWalk walk.new) }
    ensures seen { (taken : List (List ℕ)) → AreTaken walk.old.names taken → OnOk result (
        with_shaped (record { network = locations.now; level = level }) (seen_of walk.old taken)
        (SpecItem name.now at body.now) ≡ Ok
        (seen_of walk.new (taken_with (SpecItem name.now at body.now) taken))) }
    ensures taken { (taken : List (List ℕ)) → AreTaken walk.old.names taken →
        OnOk result (AreTaken walk.new.names (taken_with (SpecItem name.now at body.now) taken)) }
    ensures checks { OnOk result (walk.new.checks ≡ walk.old.checks) }
    ensures refused { (taken : List (List ℕ)) → AreTaken walk.old.names taken →
        IfErr result (λ e. e ≢ Memory →
        with_shaped (record { network = locations.now; level = level }) (seen_of walk.old taken)
        (SpecItem name.now at body.now) ≡ Err e) }
{
    look_new(&walk.names, name, at)?;
    let scope = Scope {
        locations,
        level,
        names: &walk.names,
    };
    let place = gather_spec(alloc, &scope, &mut walk.forms, &mut walk.bodies, body)?;
    walk.names.add(name.as_bytes(), Meaning::Spec(place))?;
    Ok(())
}

/// Takes in a check. The 201st is refused before its body is looked at. Errors are those of
/// [`look_new`], [`look_for_room`], [`gather_spec`] and [`made`], in this order.
fn walk_check<'a>(
    alloc: Global,
    locations: &Locations,
    level: Level,
    walk: &mut Walk<'a>,
    heading: &Heading<'a>,
    body: &'a SpecExpr,
) -> Result<(), SpecError>
    requires walk { IsWalk walk.old }
    requires low { depth heading.now.when.now ≤ 1000 }
    ensures walk { OnOk result (IsWalk walk.new) }
    ensures seen { (taken : List (List ℕ)) → OnOk result (
        with_shaped (record { network = locations.now; level = level }) (seen_of walk.old taken)
        (CheckItem heading.now.at_most heading.now.name.now heading.now.at heading.now.when.now
        body.now) ≡ Ok (seen_of walk.new taken)) }
    ensures names { OnOk result (walk.new.names ≡ walk.old.names) }
    ensures level { OnOk result (All (λ check. check.level ≡ level) walk.old.checks.items →
        All (λ check. check.level ≡ level) walk.new.checks.items) }
    ensures refused { (taken : List (List ℕ)) → IfErr result (λ e. e ≢ Memory →
        with_shaped (record { network = locations.now; level = level }) (seen_of walk.old taken)
        (CheckItem heading.now.at_most heading.now.name.now heading.now.at heading.now.when.now
        body.now) ≡ Err e) }
{
    look_new(&walk.check_names, heading.name, heading.at)?;
    look_for_room(&walk.checks, heading.at)?;
    let scope = Scope {
        locations,
        level,
        names: &walk.names,
    };
    let place = gather_spec(alloc, &scope, &mut walk.forms, &mut walk.bodies, body)?;
    walk.check_names
        .add(heading.name.as_bytes(), Meaning::Spec(place))?;
    let check = made(
        alloc,
        locations,
        level,
        &walk.forms,
        &walk.bodies,
        place,
        heading,
    )?;
    walk.checks.push(check)?;
    Ok(())
}

/// Sees that no earlier item of the kind has the name: `RepeatedName` where one has.
fn look_new(names: &Definitions<'_>, name: &Name, at: u32) -> Result<(), SpecError>
    ensures none { OnOk result (meaning_of names.now name.now ≡ None) }
    ensures new { (taken : List (List ℕ)) → AreTaken names.now taken →
        OnOk result (unused taken name.now at ≡ Ok name.now) }
    ensures refused { (taken : List (List ℕ)) → AreTaken names.now taken →
        IfErr result (λ e. unused taken name.now at ≡ Err e) }
{
    match names.get(name.as_bytes()) {
        None => Ok(()),
        Some(_) => Err(SpecError::RepeatedName { at }),
    }
}

/// Sees that there may be one check more: `TooLarge` where there are 200.
fn look_for_room(checks: &Vec<Check>, at: u32) -> Result<(), SpecError>
    ensures room { OnOk result (not_full (map outcome_of checks.now.items) at ≡ Ok at) }
    ensures refused { IfErr result (λ e. not_full (map outcome_of checks.now.items) at ≡ Err e) }
{
    if checks.len() >= MAX_CHECKS {
        return Err(SpecError::TooLarge { at });
    }
    Ok(())
}
