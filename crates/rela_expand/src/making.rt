//! Checks from the bodies that stand for them, where these are small enough.

ghost use Rattle.std.specs.Prelude.{◌≡◌, ◌≢◌, ◌<◌, ◌≤◌, ◌^◌, Err, IfErr, IfOk, Ok, OnOk, length, map};
ghost use Rattle.rela_flows.specs.Selects.{depth};
ghost use Rattle.rela_lex.specs.declared.error.SpecError.TheVariants.{Memory};
ghost use Rattle.rela_expand.specs.Bodies.{AreBodies, body_at, bodies_of};
ghost use Rattle.rela_expand.specs.Expand.{in_size, listing_of, outcome_of, symbols_in};
ghost use Rattle.rela_expand.specs.Forms.{shapes_of};
ghost use Rattle.rela_expand.specs.Measures.{weight_of};
ghost use Rattle.rela_expand.specs.Numbered.{numbered_body};
ghost use Rattle.rela_expand.specs.Numbering.{Step, nothing_numbered};
ghost use Rattle.rela_expand.specs.Places.{locations_at};
ghost use Rattle.rela_expand.specs.Tables.{IsCounted, entry_of, numbering_of};
ghost use Rattle.rela_translate.specs.declared.body.Core.{Core as CoreType};

use crate::bodies::Bodies;
use crate::body_unfolding::unfold_body;
use crate::entry::Entry;
use crate::fitting::fit;
use crate::forms::Forms;
use crate::laws::bodies_are_as_large_as_their_shapes;
use crate::numbers::Numbers;
use crate::unfit::Unfit;
use crate::unfolding::MAX_LISTED;
use indexmap::IndexSet;
use rela_flows::Predicate;
use rela_lex::SpecError;
use rela_locations::Locations;
use rela_names::{Level, Name, Word};
use rela_rir::SymbolSet;
use rela_translate::{Check, Core};
use std::alloc::{AllocError, Global};

/// What is written of a check beside its body.
#[derive(Clone, Copy)]
pub(crate) struct Heading<'a> {
    /// The check's name.
    pub(crate) name: &'a Name,
    /// The number of bytes of the text before the name.
    pub(crate) at: u32,
    /// Which flows the check is for.
    pub(crate) when: &'a Predicate,
    /// Whether only added paths offend.
    pub(crate) at_most: bool,
}

/// The check whose body stands at this place.
///
/// # Errors
///
/// At its name: `TooDeep` where the term of one of its relations is deeper than 1,000; else `TooLarge`
/// where the two have more than 20,000 nodes together, or its classes list more than 4,000,000 symbols.
/// `Memory`.
pub(crate) fn made(
    alloc: Global,
    locations: &Locations,
    level: Level,
    forms: &Forms<'_>,
    bodies: &Bodies,
    place: usize,
    heading: &Heading<'_>,
) -> Result<Check, SpecError>
    requires inside { place < length bodies.now.forms.items }
    requires are { AreBodies (shapes_of forms.now.forms.items) bodies.now.forms.items }
    requires low { depth heading.now.when.now ≤ 1000 }
    ensures made { IfOk result (λ check. (step : Step CoreType)
        × (in_size (locations_at (record { network = locations.now; level = level })) heading.now.at
        (numbered_body (record { network = locations.now; level = level })
        (body_at (bodies_of (shapes_of forms.now.forms.items) bodies.now.forms.items) place)
        nothing_numbered) ≡ Ok step)
        × (outcome_of check ≡ record {
          name = heading.now.name.now;
          at_most = heading.now.at_most;
          when = heading.now.when.now;
          classes = step.after.classes;
          body = step.value;
        })) }
    ensures level { IfOk result (λ check. check.level ≡ level) }
    ensures refused { IfErr result (λ e. e ≢ Memory →
        in_size (locations_at (record { network = locations.now; level = level })) heading.now.at
        (numbered_body (record { network = locations.now; level = level })
        (body_at (bodies_of (shapes_of forms.now.forms.items) bodies.now.forms.items) place)
        nothing_numbered) ≡ Err e) }
{
    bodies_are_as_large_as_their_shapes();
    fit(bodies.size(place), heading.at)?;
    let (name, when) = copied(alloc, heading)?;
    match unfolded(alloc, locations, level, forms, bodies, place) {
        Ok((body, classes)) => Ok(Check::new(name, level, when, heading.at_most, classes, body)),
        Err(unfit) => Err(unfit.at(heading.at)),
    }
}

/// Copies of the heading's name and predicate. The only error is want of memory.
fn copied(alloc: Global, heading: &Heading<'_>) -> Result<(Name, Predicate), AllocError>
    ensures name { IfOk result (λ copies. copies.0 ≡ heading.now.name.now) }
    ensures when { IfOk result (λ copies. copies.1 ≡ heading.now.when.now) }
{
    let name = heading.name.copy(alloc)?;
    Ok((name, heading.when.copy(alloc)?))
}

/// The body at this place, and its class table.
///
/// # Errors
///
/// `TooLarge` where the classes list more than 4,000,000 symbols together; `Memory`.
fn unfolded(
    alloc: Global,
    locations: &Locations,
    level: Level,
    forms: &Forms<'_>,
    bodies: &Bodies,
    place: usize,
) -> Result<(Core, Vec<SymbolSet>), Unfit>
    requires inside { place < length bodies.now.forms.items }
    requires are { AreBodies (shapes_of forms.now.forms.items) bodies.now.forms.items }
    requires light { weight_of (body_at (bodies_of (shapes_of forms.now.forms.items)
        bodies.now.forms.items) place) < 2 ^ 32 }
    ensures body { IfOk result (λ p. (numbered_body (record {
      network = locations.now;
      level = level;
    }) (body_at (bodies_of (shapes_of forms.now.forms.items)
        bodies.now.forms.items) place) nothing_numbered).value ≡ p.0) }
    ensures classes { IfOk result (λ p. (numbered_body (record {
      network = locations.now;
      level = level;
    }) (body_at (bodies_of (shapes_of forms.now.forms.items)
        bodies.now.forms.items) place) nothing_numbered).after.classes ≡ map listing_of p.1.items) }
    ensures few { OnOk result (symbols_in (numbered_body (record {
      network = locations.now;
      level = level;
    }) (body_at (bodies_of (shapes_of forms.now.forms.items)
        bodies.now.forms.items) place) nothing_numbered).after.classes ≤ 4000000) }
    ensures too_large { IfErr result (λ e. e ≡ Unfit.TooLarge →
        4000000 < symbols_in (numbered_body (record { network = locations.now; level = level })
        (body_at (bodies_of (shapes_of forms.now.forms.items) bodies.now.forms.items) place)
        nothing_numbered).after.classes) }
{
    let mut numbers = Numbers::new(alloc);
    let body = unfold_body(alloc, locations, level, forms, bodies, place, &mut numbers)?;
    listed_behind(alloc, numbers, body)
}

/// The value that stands before, and the sets of the numbered classes. It knows of no form of a body, so
/// that no drop of one is written out here.
///
/// # Errors
///
/// Those of [`listed`].
fn listed_behind<T: Drop>(
    alloc: Global,
    numbers: Numbers<'_>,
    before: T,
) -> Result<(T, Vec<SymbolSet>), Unfit>
    requires { IsCounted numbers }
    ensures same { IfOk result (λ p. p.0 ≡ before) }
    ensures classes { IfOk result (λ p. (numbering_of numbers.entry).classes
        ≡ map listing_of p.1.items) }
    ensures few { OnOk result (symbols_in (numbering_of numbers.entry).classes ≤ 4000000) }
    ensures too_large { IfErr result (λ e. e ≡ Unfit.TooLarge →
        4000000 < symbols_in (numbering_of numbers.entry).classes) }
{
    let classes = listed(alloc, numbers)?;
    Ok((before, classes))
}

/// The class table that the numbering ends with.
///
/// # Errors
///
/// `TooLarge` where they list more than 4,000,000 symbols together; `Memory`.
fn listed(alloc: Global, numbers: Numbers<'_>) -> Result<Vec<SymbolSet>, Unfit>
    requires { IsCounted numbers }
    ensures classes { IfOk result (λ sets. (numbering_of numbers.entry).classes
        ≡ map listing_of sets.items) }
    ensures few { OnOk result (symbols_in (numbering_of numbers.entry).classes ≤ 4000000) }
    ensures too_large { IfErr result (λ e. e ≡ Unfit.TooLarge →
        4000000 < symbols_in (numbering_of numbers.entry).classes) }
{
    if numbers.listed > MAX_LISTED {
        return Err(Unfit::TooLarge);
    }
    Ok(class_table(alloc, numbers.classes)?)
}

/// The sets of the entries, in their order. The only error is want of memory.
fn class_table(alloc: Global, entries: IndexSet<Entry>) -> Result<Vec<SymbolSet>, AllocError>
    ensures { IfOk result (λ sets. map listing_of sets.items ≡ map entry_of entries.keys) }
{
    let mut sets = Vec::new(alloc);
    for entry in entries {
        sets.push(set_of(entry))?;
    }
    Ok(sets)
}

/// The set of the symbols of an entry.
fn set_of(entry: Entry) -> SymbolSet
    ensures { listing_of result ≡ entry_of entry }
{
    let Entry { negated, members } = entry;
    SymbolSet {
        negated,
        members: Word::from_symbols(members),
    }
}
