//! The texts of path expressions.

ghost use Rattle.std.specs.Prelude.{◌≡◌, ◌++◌, OnOk};
ghost use Rattle.std.specs.Fmt.{decimal};
ghost use Rattle.rela_print.specs.Joined.{joined};
ghost use Rattle.rela_print.specs.Printed.{within};
ghost use Rattle.rela_print.specs.PathTexts.{printed_path};

use crate::members::{push_class, push_member};
use crate::names::push_reference;
use rela_spec::PathExpr;
use std::alloc::AllocError;

/// The binding strength of alternatives, which bind most loosely.
const ALT: u8 = 1;

/// The binding strength of intersections.
const AND: u8 = 2;

/// The binding strength of sequences.
const SEQ: u8 = 3;

/// The binding strength of complements.
const NOT: u8 = 4;

/// The binding strength of repetitions.
const POSTFIX: u8 = 5;

/// The binding strength of what has no parts at its edges, which binds most tightly.
const ATOM: u8 = 6;

/// How tightly a path expression binds: 1 for the loosest, 6 for the tightest.
#[tactic(auto, using(crate::proofs::PrintedPaths::printed_forms))]
fn binding_of(path: &PathExpr) -> u8
    ensures { result ≡ (printed_path path.now).binding }
{
    match path {
        PathExpr::Alt(_) => ALT,
        PathExpr::And(_) => AND,
        PathExpr::Seq(_) => SEQ,
        PathExpr::Not(_) => NOT,
        PathExpr::Star(_) | PathExpr::Plus(_) | PathExpr::Maybe(_) | PathExpr::Times { .. } => {
            POSTFIX
        }
        PathExpr::Any
        | PathExpr::Empty
        | PathExpr::One(_)
        | PathExpr::Class { .. }
        | PathExpr::Reference { .. } => ATOM,
    }
}

/// Appends the text of the path expression.
#[tactic(auto, using(crate::proofs::PrintedPaths::printed_forms))]
#[cycle(push_path)]
pub(crate) fn push_path(out: &mut Vec<u8>, path: &PathExpr) -> Result<(), AllocError>
    ensures { OnOk result (out.new.items ≡ out.old.items ++ (printed_path path.now).text) }
{
    match path {
        PathExpr::Any => out.extend_from_slice(b"."),
        PathExpr::Empty => out.extend_from_slice(b"()"),
        PathExpr::One(member) => push_member(out, member),
        PathExpr::Class { negated, members } => push_class(out, *negated, members.as_slice()),
        PathExpr::Reference { name, .. } => push_reference(out, name),
        PathExpr::Seq(parts) => push_parts(out, parts.as_slice(), SEQ, b" "),
        PathExpr::Alt(parts) => push_parts(out, parts.as_slice(), ALT, b" | "),
        PathExpr::And(parts) => push_parts(out, parts.as_slice(), AND, b" & "),
        PathExpr::Not(part) => {
            out.extend_from_slice(b"!")?;
            push_part(out, part.get(), NOT)
        }
        PathExpr::Star(part) => push_postfix(out, part.get(), b"*"),
        PathExpr::Plus(part) => push_postfix(out, part.get(), b"+"),
        PathExpr::Maybe(part) => push_postfix(out, part.get(), b"?"),
        PathExpr::Times { part, n } => {
            push_postfix(out, part.get(), b"{")?;
            push_decimal(out, *n)?;
            out.extend_from_slice(b"}")
        }
    }
}

/// Appends the text of a part of an expression of the strength `above`: in brackets, unless the
/// part binds more tightly.
#[tactic(auto, unfolding(crate::specs::Printed::within))]
#[cycle(push_path)]
fn push_part(out: &mut Vec<u8>, part: &PathExpr, above: u8) -> Result<(), AllocError>
    ensures { OnOk result (out.new.items ≡ out.old.items ++ within above (printed_path part.now)) }
{
    if above < binding_of(part) {
        return push_path(out, part);
    }
    out.extend_from_slice(b"(")?;
    push_path(out, part)?;
    out.extend_from_slice(b")")
}

/// Appends the part and then `mark`, which repeats it or begins what repeats it.
#[cycle(push_path)]
fn push_postfix(out: &mut Vec<u8>, part: &PathExpr, mark: &[u8]) -> Result<(), AllocError>
    ensures { OnOk result (out.new.items ≡ out.old.items
        ++ (within 5 (printed_path part.now) ++ mark.now)) }
{
    push_part(out, part, POSTFIX)?;
    out.extend_from_slice(mark)
}

/// Appends the parts of an expression of the strength `above`, with `between` between each two.
#[cycle(push_path)]
fn push_parts(
    out: &mut Vec<u8>,
    parts: &[PathExpr],
    above: u8,
    between: &[u8],
) -> Result<(), AllocError>
    ensures { OnOk result (out.new.items ≡ out.old.items ++ joined between.now (λ part.
        within above (printed_path part)) parts.now) }
{
    let Some((first, others)) = parts.split_first() else {
        return Ok(());
    };
    push_part(out, first, above)?;
    for part in others {
        out.extend_from_slice(between)?;
        push_part(out, part, above)?;
    }
    Ok(())
}

/// Appends the number in decimal.
fn push_decimal(out: &mut Vec<u8>, n: u32) -> Result<(), AllocError>
    ensures { OnOk result (out.new.items ≡ out.old.items ++ decimal n) }
{
    let text = format!(in *out.allocator(); "{n}")?;
    out.extend_from_slice(text.as_bytes())
}
