//! The texts of specifications of changes.

ghost use Rattle.std.specs.Prelude.{◌≡◌, ◌++◌, codes, OnOk};
ghost use Rattle.rela_print.specs.Joined.{joined};
ghost use Rattle.rela_print.specs.Printed.{within};
ghost use Rattle.rela_print.specs.SpecTexts.{path_text, modifier_text, unit_text, printed_spec};

use crate::names::push_reference;
use crate::paths::push_path;
use rela_spec::{Modifier, PathExpr, SpecExpr};
use std::alloc::AllocError;

/// The binding strength of `else`, which binds most loosely.
const ELSE: u8 = 1;

/// The binding strength of `then`.
const THEN: u8 = 2;

/// The binding strength of units and references, which bind most tightly.
const ATOM: u8 = 3;

/// How tightly a specification binds: 1 for the loosest, 3 for the tightest.
#[tactic(auto, using(crate::proofs::PrintedSpecs::spec_forms))]
fn binding_of(spec: &SpecExpr) -> u8
    ensures { result ≡ (printed_spec spec.now).binding }
{
    match spec {
        SpecExpr::Else(_) => ELSE,
        SpecExpr::Then(_) => THEN,
        SpecExpr::Unit { .. } | SpecExpr::Reference { .. } => ATOM,
    }
}

/// Appends the text of the specification.
#[tactic(auto, using(crate::proofs::PrintedSpecs::spec_forms))]
#[cycle(push_spec)]
pub(crate) fn push_spec(out: &mut Vec<u8>, spec: &SpecExpr) -> Result<(), AllocError>
    ensures { OnOk result (out.new.items ≡ out.old.items ++ (printed_spec spec.now).text) }
{
    match spec {
        SpecExpr::Unit { zone, modifier } => push_unit(out, zone, modifier),
        SpecExpr::Reference { name, .. } => push_reference(out, name),
        SpecExpr::Then(parts) => push_parts(out, parts.as_slice(), THEN, b" then "),
        SpecExpr::Else(parts) => push_parts(out, parts.as_slice(), ELSE, b" else "),
    }
}

/// Appends the text of a part of a specification of the strength `above`: in brackets, unless the
/// part binds more tightly.
#[tactic(auto, unfolding(crate::specs::Printed::within))]
#[cycle(push_spec)]
fn push_part(out: &mut Vec<u8>, part: &SpecExpr, above: u8) -> Result<(), AllocError>
    ensures { OnOk result (out.new.items ≡ out.old.items ++ within above (printed_spec part.now)) }
{
    if above < binding_of(part) {
        return push_spec(out, part);
    }
    out.extend_from_slice(b"(")?;
    push_spec(out, part)?;
    out.extend_from_slice(b")")
}

/// Appends the parts of a specification of the strength `above`, with `between` between each two.
#[cycle(push_spec)]
fn push_parts(
    out: &mut Vec<u8>,
    parts: &[SpecExpr],
    above: u8,
    between: &[u8],
) -> Result<(), AllocError>
    ensures { OnOk result (out.new.items ≡ out.old.items ++ joined between.now (λ part.
        within above (printed_spec part)) parts.now) }
{
    let Some((first, others)) = parts.split_first() else {
        return Ok(());
    };
    push_part(out, first, above)?;
    for part in others {
        out.extend_from_slice(between)?;
        push_part(out, part, above)?;
    }
    Ok(())
}

/// Appends a unit: its zone and its modifier, in braces.
#[tactic(auto, unfolding(crate::specs::SpecTexts::unit_text))]
fn push_unit(
    out: &mut Vec<u8>,
    zone: &PathExpr,
    modifier: &Modifier<PathExpr>,
) -> Result<(), AllocError>
    ensures { OnOk result (out.new.items ≡ out.old.items ++ unit_text zone.now modifier.now) }
{
    out.extend_from_slice(b"{ ")?;
    push_path(out, zone)?;
    out.extend_from_slice(b" : ")?;
    push_modifier(out, modifier)?;
    out.extend_from_slice(b" }")
}

/// Appends a modifier, with its path expressions in brackets.
#[tactic(auto, unfolding(crate::specs::SpecTexts::modifier_text))]
fn push_modifier(out: &mut Vec<u8>, modifier: &Modifier<PathExpr>) -> Result<(), AllocError>
    ensures { OnOk result (out.new.items ≡ out.old.items ++ modifier_text modifier.now) }
{
    match modifier {
        Modifier::Preserve => out.extend_from_slice(b"preserve"),
        Modifier::Drop => out.extend_from_slice(b"drop"),
        Modifier::Add(path) => push_call(out, b"add(", path),
        Modifier::Remove(path) => push_call(out, b"remove(", path),
        Modifier::Replace(old, new) => {
            out.extend_from_slice(b"replace(")?;
            push_path(out, old)?;
            out.extend_from_slice(b", ")?;
            push_path(out, new)?;
            out.extend_from_slice(b")")
        }
        Modifier::AnyOf(path) => push_call(out, b"any(", path),
        Modifier::Ignore(path) => push_call(out, b"ignore(", path),
    }
}

/// Appends `opening`, the path expression and a closing bracket.
fn push_call(out: &mut Vec<u8>, opening: &[u8], path: &PathExpr) -> Result<(), AllocError>
    ensures { OnOk result (out.new.items ≡ out.old.items
        ++ (opening.now ++ (path_text path.now ++ codes ")"))) }
{
    out.extend_from_slice(opening)?;
    push_path(out, path)?;
    out.extend_from_slice(b")")
}
