//! The texts of predicates.

ghost use Rattle.std.specs.Prelude.{◌≡◌, ◌++◌, OnOk};
ghost use Rattle.rela_flows.specs.Notation.{text_of};
ghost use Rattle.rela_print.specs.Joined.{joined};
ghost use Rattle.rela_print.specs.Printed.{within};
ghost use Rattle.rela_print.specs.PredicateTexts.{printed_predicate, is_all, condition_text};

use crate::names::push_name;
use rela_flows::{Predicate, Prefix};
use std::alloc::AllocError;

/// The binding strength of disjunctions, which bind most loosely.
const OR: u8 = 1;

/// The binding strength of conjunctions.
const AND: u8 = 2;

/// The binding strength of negations.
const NOT: u8 = 3;

/// The binding strength of single tests, which bind most tightly.
const ATOM: u8 = 4;

/// How tightly a predicate binds: 1 for the loosest, 4 for the tightest.
#[tactic(auto, using(crate::proofs::PrintedPredicates::predicate_forms))]
fn binding_of(predicate: &Predicate) -> u8
    ensures { result ≡ (printed_predicate predicate.now).binding }
{
    match predicate {
        Predicate::Or(_) => OR,
        Predicate::And(_) => AND,
        Predicate::Not(_) => NOT,
        Predicate::All
        | Predicate::DstIn(_)
        | Predicate::DstOverlaps(_)
        | Predicate::SrcIn(_)
        | Predicate::SrcOverlaps(_)
        | Predicate::Flow(_)
        | Predicate::Class(_) => ATOM,
    }
}

/// Appends what a check says of its flows: nothing where it is for all.
#[tactic(auto, unfolding(crate::specs::PredicateTexts::condition_text))]
pub(crate) fn push_condition(out: &mut Vec<u8>, when: &Predicate) -> Result<(), AllocError>
    ensures { OnOk result (out.new.items ≡ out.old.items ++ condition_text when.now) }
{
    if is_all(when) {
        return Ok(());
    }
    out.extend_from_slice(b" for ")?;
    push_predicate(out, when)
}

/// Whether the predicate is `all` itself.
#[tactic(auto, using(crate::proofs::PrintedPredicates::all_all))]
fn is_all(predicate: &Predicate) -> bool
    ensures { result ≡ is_all predicate.now }
{
    matches!(predicate, Predicate::All)
}

/// Appends the text of the predicate.
#[tactic(auto, using(crate::proofs::PrintedPredicates::predicate_forms))]
#[cycle(push_predicate)]
fn push_predicate(out: &mut Vec<u8>, predicate: &Predicate) -> Result<(), AllocError>
    ensures { OnOk result (out.new.items ≡ out.old.items
        ++ (printed_predicate predicate.now).text) }
{
    match predicate {
        Predicate::All => out.extend_from_slice(b"all"),
        Predicate::DstIn(prefix) => push_prefix(out, b"dst in ", prefix),
        Predicate::DstOverlaps(prefix) => push_prefix(out, b"dst overlaps ", prefix),
        Predicate::SrcIn(prefix) => push_prefix(out, b"src in ", prefix),
        Predicate::SrcOverlaps(prefix) => push_prefix(out, b"src overlaps ", prefix),
        Predicate::Flow(name) => {
            out.extend_from_slice(b"flow ")?;
            push_name(out, name)
        }
        Predicate::Class(name) => {
            out.extend_from_slice(b"class ")?;
            push_name(out, name)
        }
        Predicate::Not(part) => {
            out.extend_from_slice(b"not ")?;
            push_part(out, part.get(), NOT)
        }
        Predicate::And(parts) => push_parts(out, parts.as_slice(), AND, b" and "),
        Predicate::Or(parts) => push_parts(out, parts.as_slice(), OR, b" or "),
    }
}

/// Appends the text of a part of a predicate of the strength `above`: in brackets, unless the part
/// binds more tightly.
#[tactic(auto, unfolding(crate::specs::Printed::within))]
#[cycle(push_predicate)]
fn push_part(out: &mut Vec<u8>, part: &Predicate, above: u8) -> Result<(), AllocError>
    ensures { OnOk result (out.new.items ≡ out.old.items
        ++ within above (printed_predicate part.now)) }
{
    if above < binding_of(part) {
        return push_predicate(out, part);
    }
    out.extend_from_slice(b"(")?;
    push_predicate(out, part)?;
    out.extend_from_slice(b")")
}

/// Appends the parts of a predicate of the strength `above`, with `between` between each two.
#[cycle(push_predicate)]
fn push_parts(
    out: &mut Vec<u8>,
    parts: &[Predicate],
    above: u8,
    between: &[u8],
) -> Result<(), AllocError>
    ensures { OnOk result (out.new.items ≡ out.old.items ++ joined between.now (λ part.
        within above (printed_predicate part)) parts.now) }
{
    let Some((first, others)) = parts.split_first() else {
        return Ok(());
    };
    push_part(out, first, above)?;
    for part in others {
        out.extend_from_slice(between)?;
        push_part(out, part, above)?;
    }
    Ok(())
}

/// Appends the words and then the prefix.
fn push_prefix(out: &mut Vec<u8>, words: &[u8], prefix: &Prefix) -> Result<(), AllocError>
    ensures { OnOk result (out.new.items ≡ out.old.items ++ (words.now ++ text_of prefix.now)) }
{
    out.extend_from_slice(words)?;
    let text = prefix.text(*out.allocator())?;
    out.extend_from_slice(text.as_slice())
}
