//! The alternatives of a body, read beside the tokens of its text.

ghost use Rattle.std.specs.Prelude.{[], ℕ, IfOk, List, OnOk, map};
ghost use Rattle.rela_blame.specs.Alternatives.{in_turn, leads_of, unit_leads};
ghost use Rattle.rela_blame.specs.Tables.{AreRead, IsTable, named_by};
ghost use Rattle.rela_blame.specs.declared.definitions.Definitions.{Definitions};
ghost use Rattle.rela_blame.specs.Units.{unit_offsets};

use crate::definitions::Definitions;
use crate::leads::{Lead, push_first};
use crate::units::Units;
use rela_names::Name;
use rela_spec::SpecExpr;
use std::alloc::{AllocError, Global};

/// The alternatives of a body, whose units are the next ones. The only error is want of memory.
#[tactic(auto, using(crate::proofs::Readings::read_alone))]
pub(crate) fn read(
    alloc: Global,
    table: &Definitions<'_>,
    units: &mut Units<'_>,
    body: &SpecExpr,
) -> Result<Vec<Lead>, AllocError>
    requires { IsTable table.now }
    ensures { IfOk result (λ leads. AreRead table.now
        (leads_of (named_by table.now) body.now (unit_offsets units.old.tokens.now))
        [] leads.items (unit_offsets units.new.tokens.now)) }
{
    let mut leads = Vec::new(alloc);
    push_body(alloc, table, units, &mut leads, body)?;
    Ok(leads)
}

/// Pushes the alternatives of a body, whose units are the next ones. The only error is want of
/// memory.
///
/// Time: linear in the body and its tokens. It goes as deep into the stack as brackets are open.
#[cycle(push_body)]
fn push_body(
    alloc: Global,
    table: &Definitions<'_>,
    units: &mut Units<'_>,
    leads: &mut Vec<Lead>,
    body: &SpecExpr,
) -> Result<(), AllocError>
    requires { IsTable table.now }
    ensures { OnOk result (AreRead table.now
        (leads_of (named_by table.now) body.now (unit_offsets units.old.tokens.now))
        leads.old.items leads.new.items (unit_offsets units.new.tokens.now)) }
{
    match body {
        SpecExpr::Unit { .. } => push_unit(units, leads),
        SpecExpr::Reference { name, .. } => push_named(table, leads, name),
        SpecExpr::Then(parts) => {
            let mut whole = Vec::new(alloc);
            push_parts(alloc, table, units, &mut whole, parts.as_slice())?;
            push_first(leads, whole.as_slice())
        }
        SpecExpr::Else(parts) => push_parts(alloc, table, units, leads, parts.as_slice()),
    }
}

/// Pushes the alternatives of each part, in order.
#[cycle(push_body)]
fn push_parts(
    alloc: Global,
    table: &Definitions<'_>,
    units: &mut Units<'_>,
    leads: &mut Vec<Lead>,
    parts: &[SpecExpr],
) -> Result<(), AllocError>
    requires { IsTable table.now }
    ensures { OnOk result (AreRead table.now
        (in_turn (map (leads_of (named_by table.now)) parts.now)
        (unit_offsets units.old.tokens.now))
        leads.old.items leads.new.items (unit_offsets units.new.tokens.now)) }
{
    for part in parts {
        push_body(alloc, table, units, leads, part)?;
    }
    Ok(())
}

/// Pushes the next unit, if there is one.
fn push_unit(units: &mut Units<'_>, leads: &mut Vec<Lead>) -> Result<(), AllocError>
    ensures { (table : Definitions) → OnOk result (AreRead table
        (unit_leads (unit_offsets units.old.tokens.now))
        leads.old.items leads.new.items (unit_offsets units.new.tokens.now)) }
{
    match units.next_unit() {
        Some(at) => {
            leads.push(Lead::Unit(at))?;
            Ok(())
        }
        None => Ok(()),
    }
}

/// Pushes the alternatives that the name stands for.
fn push_named(table: &Definitions<'_>, leads: &mut Vec<Lead>, name: &Name) -> Result<(), AllocError>
    requires { IsTable table.now }
    ensures { (left : List ℕ) → OnOk result (AreRead table.now
        (record { at = named_by table.now name.now; left = left })
        leads.old.items leads.new.items left) }
{
    match table.lead(name.as_bytes()) {
        Some(lead) => {
            leads.push(lead)?;
            Ok(())
        }
        None => Ok(()),
    }
}
