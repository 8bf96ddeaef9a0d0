//! From forms to the expressions of a check, while its classes are numbered.

ghost use Rattle.std.specs.Prelude.{◌≡◌, ◌+◌, ◌<◌, ◌^◌, List, length, IfErr, IfOk, OnOk};
ghost use Rattle.rela_expand.specs.Expand.{symbols_in};
ghost use Rattle.rela_expand.specs.Forms.{shape_at, shapes_of};
ghost use Rattle.rela_expand.specs.Known.{ArePlaced, AreWritten};
ghost use Rattle.rela_expand.specs.Numbered.{expr_joined, listing, numbered, placed};
ghost use Rattle.rela_expand.specs.Shapes.{Shape, nodes_of_shape};
ghost use Rattle.rela_expand.specs.Tables.{IsCounted, numbering_of};

use crate::entry::Entry;
use crate::forms::{Forms, Joint, Layer};
use crate::listing::list;
use crate::numbers::Numbers;
use crate::unfit::Unfit;
use crate::written::Written;
use rela_locations::Locations;
use rela_names::{Boxed, Level};
use rela_spec::Member;
use rela_translate::Expr;
use std::alloc::Global;
use std::slice;

/// The greatest number of symbols that the classes of a check may list together.
pub(crate) const MAX_LISTED: u64 = 4_000_000;

/// The expression that stands at this place, of which the classes are numbered from left to right.
/// It goes as deep into the stack as its term is deep.
///
/// # Errors
///
/// `TooLarge` where the classes list more than 4,000,000 symbols together; `Memory`.
#[tactic(auto, using(crate::proofs::PathUnfolding::unfolding_steps))]
pub(crate) fn unfold<'a>(
    alloc: Global,
    locations: &Locations,
    level: Level,
    forms: &Forms<'a>,
    place: usize,
    numbers: &mut Numbers<'a>,
) -> Result<Expr, Unfit>
    requires inside { place < length (shapes_of forms.now.forms.items) }
    requires room { length numbers.old.classes.keys
        + nodes_of_shape (shape_at (shapes_of forms.now.forms.items) place) < 2 ^ 32 }
    requires counted { IsCounted numbers.old }
    requires written { AreWritten (record { network = locations.now; level = level }) numbers.old }
    requires places { ArePlaced (record { network = locations.now; level = level })
        (shapes_of forms.now.forms.items) numbers.old }
    ensures unfolded { IfOk result (λ e. numbered (record {
      network = locations.now;
      level = level;
    }) (shape_at (shapes_of forms.now.forms.items) place)
        (numbering_of numbers.old)
        ≡ record { value = e; after = numbering_of numbers.new }) }
    ensures counted { OnOk result (IsCounted numbers.new) }
    ensures written { OnOk result (AreWritten (record {
      network = locations.now;
      level = level;
    }) numbers.new) }
    ensures places { OnOk result (ArePlaced (record { network = locations.now; level = level })
        (shapes_of forms.now.forms.items) numbers.new) }
    ensures too_large { IfErr result (λ e. e ≡ Unfit.TooLarge →
        4000000 < symbols_in (numbered (record { network = locations.now; level = level })
        (shape_at (shapes_of forms.now.forms.items) place)
        (numbering_of numbers.old)).after.classes) }
{
    match forms.get(place) {
        Layer::Empty => Ok(Expr::Empty),
        Layer::Any => {
            let none: &'a [Member] = &[];
            Ok(Expr::Class(class(alloc, locations, level, true, none, numbers)?))
        }
        Layer::One(member) => {
            let members = slice::from_ref(member);
            Ok(Expr::Class(class(alloc, locations, level, false, members, numbers)?))
        }
        Layer::Class { negated, members } => {
            if let Some(number) = numbers.places.get(&place).copied() {
                return Ok(Expr::Class(number));
            }
            let number = class(alloc, locations, level, negated, members, numbers)?;
            numbers.places.insert(place, number)?;
            Ok(Expr::Class(number))
        }
        Layer::Join(by, a, b) => {
            let a = unfold(alloc, locations, level, forms, a, numbers)?;
            let a = Boxed::new(alloc, a)?;
            let b = unfold(alloc, locations, level, forms, b, numbers)?;
            let b = Boxed::new(alloc, b)?;
            Ok(join(by, a, b))
        }
        Layer::Not(part) => {
            let part = unfold(alloc, locations, level, forms, part, numbers)?;
            Ok(Expr::Not(Boxed::new(alloc, part)?))
        }
        Layer::Star(part) => {
            let part = unfold(alloc, locations, level, forms, part, numbers)?;
            Ok(Expr::Star(Boxed::new(alloc, part)?))
        }
    }
}

/// The two expressions, joined so.
fn join(by: Joint, a: Boxed<Expr>, b: Boxed<Expr>) -> Expr
    ensures { result ≡ expr_joined by a b }
{
    match by {
        Joint::Seq => Expr::Seq(a, b),
        Joint::Alt => Expr::Alt(a, b),
        Joint::Meet => Expr::Meet(a, b),
    }
}

/// The number of a class. What is written in the same way is listed once, at its first use.
///
/// # Errors
///
/// `TooLarge` where the classes list more than 4,000,000 symbols together; `Memory`.
fn class<'a>(
    alloc: Global,
    locations: &Locations,
    level: Level,
    negated: bool,
    members: &'a [Member],
    numbers: &mut Numbers<'a>,
) -> Result<u32, Unfit>
    requires room { length numbers.old.classes.keys < 2 ^ 32 }
    requires counted { IsCounted numbers.old }
    requires written { AreWritten (record { network = locations.now; level = level }) numbers.old }
    ensures numbered { IfOk result (λ k.
        placed (listing (record { network = locations.now; level = level }) negated members.now)
        (numbering_of numbers.old)
        ≡ record { value = k; after = numbering_of numbers.new }) }
    ensures counted { OnOk result (IsCounted numbers.new) }
    ensures written { OnOk result (AreWritten (record {
      network = locations.now;
      level = level;
    }) numbers.new) }
    ensures places { (shapes : List Shape) →
        ArePlaced (record { network = locations.now; level = level }) shapes numbers.old →
        OnOk result (ArePlaced (record { network = locations.now; level = level })
        shapes numbers.new) }
    ensures too_large { IfErr result (λ e. e ≡ Unfit.TooLarge →
        4000000 < symbols_in (placed (listing (record { network = locations.now; level = level })
        negated members.now) (numbering_of numbers.old)).after.classes) }
{
    let written = Written::new(alloc, level, negated, members)?;
    if let Some(number) = numbers.written.get(&written).copied() {
        return Ok(number);
    }
    let symbols = list(alloc, locations, level, written.picks.as_slice())?;
    let number = numbers.class(Entry::new(negated, symbols))?;
    if numbers.listed > MAX_LISTED {
        return Err(Unfit::TooLarge);
    }
    numbers.written.insert(written, number)?;
    Ok(number)
}
