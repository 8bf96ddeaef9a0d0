//! Where an alternative of a check's body stands in the text of its specification.

ghost use Rattle.std.specs.Prelude.{◌≡◌, ◌-◌, ◌^◌, ◌<◌, ◌≤◌, [], IfOk, length, slice_get};
ghost use Rattle.rela_blame.specs.Alternatives.{StandsAt, check_leads, leads_from};
ghost use Rattle.rela_blame.specs.Tables.{IsTable, named_by};
ghost use Rattle.rela_blame.specs.Units.{unit_offsets};

use crate::definitions::Definitions;
use crate::reading::read;
use crate::units::Units;
use rela_lex::Token;
use rela_names::Name;
use rela_spec::{Item, SpecFile};
use std::alloc::{AllocError, Global};

/// The offset, in the text with these tokens, of the `{` of the leftmost unit of an alternative of
/// a check's body, followed through references. The number is that of the alternative, from left to
/// right and from 1 on.
///
/// Time and space: linear in the tree and the tokens.
///
/// # Errors
///
/// Only where memory is wanted.
#[tactic(auto, using(crate::proofs::Walks::never_none, crate::proofs::Walks::stands))]
pub fn place(
    alloc: Global,
    file: &SpecFile,
    tokens: &[Token],
    check: &Name,
    number: u32,
) -> Result<u32, AllocError>
    requires first { 1 ≤ number }
    requires last { number ≤ length (check_leads file.now tokens.now check.now) }
    ensures { IfOk result (StandsAt file.now tokens.now check.now number) }
{
    let before = number as usize - 1;
    match unit_of_check(alloc, file.items.as_slice(), tokens, check, before)? {
        Some(at) => Ok(at),
        None => unreachable!(),
    }
}

/// The offset of the leftmost unit of the alternative of the check before which so many stand, or
/// `None` where there is no such alternative.
fn unit_of_check(
    alloc: Global,
    items: &[Item],
    tokens: &[Token],
    check: &Name,
    before: usize,
) -> Result<Option<u32>, AllocError>
    requires { before < 2 ^ 64 - 1 }
    ensures { IfOk result (λ at. at ≡ slice_get (leads_from (λ _. []) (unit_offsets tokens.now)
        items.now check.now) before) }
{
    let mut table = Definitions::new(alloc);
    let mut units = Units::new(tokens);
    unit_behind(alloc, items, &mut table, &mut units, check, before)
}

/// The offset that [`unit_of_check`] gives, of items behind those that the table defines. `units` are
/// those of these items.
fn unit_behind<'a>(
    alloc: Global,
    items: &'a [Item],
    table: &mut Definitions<'a>,
    units: &mut Units<'_>,
    check: &Name,
    before: usize,
) -> Result<Option<u32>, AllocError>
    requires few { before < 2 ^ 64 - 1 }
    requires table { IsTable table.old }
    ensures { IfOk result (λ at. at ≡ slice_get (leads_from (named_by table.old)
        (unit_offsets units.old.tokens.now) items.now check.now) before) }
{
    for item in items {
        match item {
            Item::Path { .. } => {}
            Item::Spec { name, body, .. } => {
                let leads = read(alloc, table, units, body)?;
                table.define(name.as_bytes(), leads)?;
            }
            Item::Check { name, body, .. } => {
                let leads = read(alloc, table, units, body)?;
                if name.as_bytes() == check.as_bytes() {
                    return Ok(table.unit_at(leads.as_slice(), before));
                }
            }
        }
    }
    Ok(None)
}
