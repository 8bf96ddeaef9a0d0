//! The rows of which a certificate lists some, and what is asked of each.

ghost use Rattle.std.specs.Prelude.{◌≡◌, ◌+◌, ◌<◌, IfOk, length, map};
ghost use Rattle.rela_cert.specs.Inputs.{subject_of};
ghost use Rattle.rela_cert.specs.Planned.{IsPlanned};
ghost use Rattle.rela_cert.specs.Rows.{parts_of};
ghost use Rattle.rela_cert.specs.Subject.{IsSubject, layout_of, shape_of};

use crate::complement_count::count_complements;
use crate::inputs::Inputs;
use rela_blocks::symbols_of;
use rela_certfile::{CheckShape, PlanLayout, planned_rows};
use rela_flows::PlannedRow;
use rela_names::{Alphabet, Name};
use rela_plan::{alike_flows, plan_rows};
use rela_snapshot::FlowPair;
use rela_translate::{Check, translate};
use std::alloc::{AllocError, Global};

/// The rows that are planned, with the names of their flows, what their checks ask, and which flows
/// look the same.
#[derive(Drop)]
pub(crate) struct Planning<'a> {
    /// The planned rows, in order.
    pub(crate) rows: Vec<PlannedRow>,
    /// The names of the flows, in the order by which the rows number them.
    pub(crate) flows: Vec<&'a Name>,
    /// What the checks ask, in the order by which the rows number them.
    pub(crate) shapes: Vec<CheckShape<'a>>,
    /// For each flow the index of one that looks the same at the level of the checks, which is the
    /// first such flow where the checks have one level.
    pub(crate) alike: Vec<usize>,
}

/// The planned rows of these flows and checks.
///
/// Time: that of planning, expected linear in the graphs of the flows, and linear in the terms of
/// the checks, which are made once to count their complements. The only error is want of memory.
pub(crate) fn planning_of<'a>(
    alloc: Global,
    inputs: &Inputs<'a>,
) -> Result<Planning<'a>, AllocError>
    ensures { IfOk result (IsPlanned (subject_of inputs.now)) }
{
    let rows = plan_rows(alloc, inputs.pairs, inputs.checks)?;
    let flows = names_of(alloc, inputs.pairs)?;
    let shapes = shapes_of(alloc, inputs.checks, inputs.alphabet)?;
    let alike = alike_flows(alloc, inputs.pairs, inputs.checks)?;
    Ok(Planning {
        rows,
        flows,
        shapes,
        alike,
    })
}

impl<'a> Planning<'a> {
    /// The layout of a certificate that lists rows of this plan.
    pub(crate) fn layout(&self, inputs: &Inputs<'_>) -> PlanLayout<'_>
        requires subject { IsSubject (subject_of inputs.now) }
        requires planned { IsPlanned (subject_of inputs.now) self.now }
        ensures { result ≡ layout_of (subject_of inputs.now) self.now.rows.items }
    {
        planned_rows();
        PlanLayout::new(
            self.rows.as_slice(),
            self.flows.as_slice(),
            self.shapes.as_slice(),
        )
    }
}

/// The name of each flow, lent in their order.
fn names_of<'a>(alloc: Global, pairs: &'a [FlowPair]) -> Result<Vec<&'a Name>, AllocError>
    ensures { IfOk result (λ names. map (λ name. name.now) names.items
        ≡ map (λ pair. pair.class.name) pairs.now) }
{
    let mut names = Vec::with_capacity(alloc, pairs.len())?;
    for pair in pairs {
        names.push(&pair.class.name)?;
    }
    Ok(names)
}

/// What each check asks of its rows, in their order.
fn shapes_of<'a>(
    alloc: Global,
    checks: &'a [Check],
    alphabet: &Alphabet,
) -> Result<Vec<CheckShape<'a>>, AllocError>
    ensures { IfOk result (λ shapes. shapes.items
        ≡ map (shape_of (length alphabet.now)) checks.now) }
{
    let mut shapes = Vec::with_capacity(alloc, checks.len())?;
    for check in checks {
        shapes.push(asked_by(alloc, check, alphabet)?)?;
    }
    Ok(shapes)
}

/// What the check asks of its rows.
fn asked_by<'a>(
    alloc: Global,
    check: &'a Check,
    alphabet: &Alphabet,
) -> Result<CheckShape<'a>, AllocError>
    ensures { IfOk result (λ shape. shape ≡ shape_of (length alphabet.now) check.now) }
{
    let complements = complements_of(alloc, check, alphabet)?;
    let symbols = symbols_of(check, alphabet);
    Ok(CheckShape::new(check.name(), complements, alphabet.len(), symbols))
}

/// How many complements there are in the check's two relations.
fn complements_of(alloc: Global, check: &Check, alphabet: &Alphabet) -> Result<u32, AllocError>
    ensures { IfOk result (λ count.
        count ≡ length (parts_of check.now (length alphabet.now))) }
{
    // The contract of the body tells the limits of the check.
    let _body = check.body();
    let relations = translate(alloc, check, alphabet)?;
    let before = count_complements(&relations.before);
    let after = count_complements(&relations.after);
    Ok(before + after)
}
