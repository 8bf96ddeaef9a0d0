//! From bodies to the body of a check, while its classes and markers are numbered.

ghost use Rattle.std.specs.Prelude.{◌≡◌, ◌+◌, ◌<◌, ◌≤◌, ◌^◌, length, IfErr, IfOk, OnOk};
ghost use Rattle.rela_expand.specs.Bodies.{AreBodies, behind_modifier, bodies_of, body_at, modifier_at};
ghost use Rattle.rela_expand.specs.Expand.{symbols_in};
ghost use Rattle.rela_expand.specs.Forms.{shapes_of};
ghost use Rattle.rela_expand.specs.Known.{ArePlaced, AreWritten};
ghost use Rattle.rela_expand.specs.Measures.{weight_of, weight_of_modifier};
ghost use Rattle.rela_expand.specs.Numbered.{core_joined, numbered_body, numbered_change};
ghost use Rattle.rela_expand.specs.Tables.{IsCounted, numbering_of};

use crate::bodies::{Bodies, BodyJoint, BodyLayer};
use crate::forms::Forms;
use crate::numbers::Numbers;
use crate::unfit::Unfit;
use crate::unfolding::unfold;
use rela_locations::Locations;
use rela_names::{Boxed, Level};
use rela_spec::Modifier;
use rela_translate::{Change, Core};
use std::alloc::Global;

/// The change that a modifier stands for, whose paths are named by their places. What `any` asks
/// for gets the next marker.
///
/// # Errors
///
/// `TooLarge` where the classes list more than 4,000,000 symbols together; `Memory`.
#[tactic(auto, using(crate::proofs::BodyUnfolding::modifier_steps))]
fn unfold_modifier<'a>(
    alloc: Global,
    locations: &Locations,
    level: Level,
    forms: &Forms<'a>,
    modifier: &Modifier<usize>,
    numbers: &mut Numbers<'a>,
) -> Result<Change, Unfit>
    requires inside { behind_modifier modifier.now ≤ length (shapes_of forms.now.forms.items) }
    requires room { length numbers.old.classes.keys
        + weight_of_modifier (modifier_at (shapes_of forms.now.forms.items) modifier.now) < 2 ^ 32 }
    requires few { numbers.old.markers + 1 < 2 ^ 32 }
    requires counted { IsCounted numbers.old }
    requires written { AreWritten (record { network = locations.now; level = level }) numbers.old }
    requires places { ArePlaced (record { network = locations.now; level = level })
        (shapes_of forms.now.forms.items) numbers.old }
    ensures unfolded { IfOk result (λ c. numbered_change (record {
      network = locations.now;
      level = level;
    }) (modifier_at (shapes_of forms.now.forms.items) modifier.now)
        (numbering_of numbers.old)
        ≡ record { value = c; after = numbering_of numbers.new }) }
    ensures counted { OnOk result (IsCounted numbers.new) }
    ensures written { OnOk result (AreWritten (record {
      network = locations.now;
      level = level;
    }) numbers.new) }
    ensures places { OnOk result (ArePlaced (record { network = locations.now; level = level })
        (shapes_of forms.now.forms.items) numbers.new) }
    ensures too_large { IfErr result (λ e. e ≡ Unfit.TooLarge →
        4000000 < symbols_in (numbered_change (record { network = locations.now; level = level })
        (modifier_at (shapes_of forms.now.forms.items) modifier.now)
        (numbering_of numbers.old)).after.classes) }
{
    match modifier {
        Modifier::Preserve => Ok(Change::Preserve),
        Modifier::Add(path) => {
            let path = unfold(alloc, locations, level, forms, *path, numbers)?;
            Ok(Change::Add(path))
        }
        Modifier::Remove(path) => {
            let path = unfold(alloc, locations, level, forms, *path, numbers)?;
            Ok(Change::Remove(path))
        }
        Modifier::Replace(old, new) => {
            let old = unfold(alloc, locations, level, forms, *old, numbers)?;
            let new = unfold(alloc, locations, level, forms, *new, numbers)?;
            Ok(Change::Replace(old, new))
        }
        Modifier::Drop => Ok(Change::Drop),
        Modifier::AnyOf(path) => {
            let path = unfold(alloc, locations, level, forms, *path, numbers)?;
            numbers.markers += 1;
            let marker = numbers.markers;
            Ok(Change::AnyOf { path, marker })
        }
        Modifier::Ignore(path) => {
            let path = unfold(alloc, locations, level, forms, *path, numbers)?;
            Ok(Change::Ignore(path))
        }
    }
}

/// The body that stands at this place, of which the classes and markers are numbered from left to
/// right. It goes as deep into the stack as its terms are deep.
///
/// # Errors
///
/// `TooLarge` where the classes list more than 4,000,000 symbols together; `Memory`.
#[tactic(auto, using(crate::proofs::BodyUnfolding::body_steps))]
pub(crate) fn unfold_body<'a>(
    alloc: Global,
    locations: &Locations,
    level: Level,
    forms: &Forms<'a>,
    bodies: &Bodies,
    place: usize,
    numbers: &mut Numbers<'a>,
) -> Result<Core, Unfit>
    requires inside { place < length bodies.now.forms.items }
    requires are { AreBodies (shapes_of forms.now.forms.items) bodies.now.forms.items }
    requires room { length numbers.old.classes.keys
        + weight_of (body_at (bodies_of (shapes_of forms.now.forms.items) bodies.now.forms.items)
        place) < 2 ^ 32 }
    requires few { numbers.old.markers + weight_of
        (body_at (bodies_of (shapes_of forms.now.forms.items) bodies.now.forms.items) place)
        < 2 ^ 32 }
    requires counted { IsCounted numbers.old }
    requires written { AreWritten (record { network = locations.now; level = level }) numbers.old }
    requires places { ArePlaced (record { network = locations.now; level = level })
        (shapes_of forms.now.forms.items) numbers.old }
    ensures unfolded { IfOk result (λ c. numbered_body (record {
      network = locations.now;
      level = level;
    }) (body_at (bodies_of (shapes_of forms.now.forms.items)
        bodies.now.forms.items) place) (numbering_of numbers.old)
        ≡ record { value = c; after = numbering_of numbers.new }) }
    ensures counted { OnOk result (IsCounted numbers.new) }
    ensures written { OnOk result (AreWritten (record {
      network = locations.now;
      level = level;
    }) numbers.new) }
    ensures places { OnOk result (ArePlaced (record { network = locations.now; level = level })
        (shapes_of forms.now.forms.items) numbers.new) }
    ensures too_large { IfErr result (λ e. e ≡ Unfit.TooLarge →
        4000000 < symbols_in (numbered_body (record { network = locations.now; level = level })
        (body_at (bodies_of (shapes_of forms.now.forms.items) bodies.now.forms.items) place)
        (numbering_of numbers.old)).after.classes) }
{
    match bodies.get(place) {
        BodyLayer::Unit { zone, modifier } => {
            let zone = unfold(alloc, locations, level, forms, *zone, numbers)?;
            let modifier = unfold_modifier(alloc, locations, level, forms, modifier, numbers)?;
            Ok(Core::Unit { zone, modifier })
        }
        BodyLayer::Join(by, a, b) => {
            let first = unfold_body(alloc, locations, level, forms, bodies, *a, numbers)?;
            let first = Boxed::new(alloc, first)?;
            let second = unfold_body(alloc, locations, level, forms, bodies, *b, numbers)?;
            let second = Boxed::new(alloc, second)?;
            Ok(join(*by, first, second))
        }
    }
}

/// The two bodies, joined so.
fn join(by: BodyJoint, a: Boxed<Core>, b: Boxed<Core>) -> Core
    ensures { result ≡ core_joined by a b }
{
    match by {
        BodyJoint::Then => Core::Then(a, b),
        BodyJoint::Else => Core::Else(a, b),
    }
}
