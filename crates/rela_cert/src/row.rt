//! What a row is judged from.

ghost use Rattle.std.specs.Prelude.{◌≡◌, ℕ, ◌<◌, Some, length};
ghost use Rattle.std.specs.List.{slice_get};
ghost use Rattle.rela_certfile.specs.Listed.{AreListed};
ghost use Rattle.rela_certfile.specs.declared.rows.ListedRow.{ListedRow};
ghost use Rattle.rela_flows.specs.declared.planning.PlannedRow.TheVariants.{Selected};
ghost use Rattle.rela_cert.specs.Inputs.{subject_of};
ghost use Rattle.rela_cert.specs.RowAt.{IsRowAt};
ghost use Rattle.rela_cert.specs.Planned.{IsPlanned};
ghost use Rattle.rela_cert.specs.Subject.{layout_of};

use crate::inputs::Inputs;
use crate::planning::Planning;
use rela_certfile::{Certificate, listed_as};
use rela_flows::PlannedRow;
use rela_names::Alphabet;
use rela_snapshot::FlowPair;
use rela_translate::Check;

/// A check and a flow, with the alphabet of the check's level.
#[derive(Drop)]
pub(crate) struct Row<'a> {
    /// The check.
    pub(crate) check: &'a Check,
    /// The flow, before and after the change.
    pub(crate) pair: &'a FlowPair,
    /// The alphabet of the check's level.
    pub(crate) alphabet: &'a Alphabet,
}

/// The indexes of the flow and the check of the listed row of this number, counted from 0.
pub(crate) fn flow_and_check(
    inputs: &Inputs<'_>,
    planning: &Planning<'_>,
    certificate: &Certificate,
    number: usize,
) -> (usize, usize)
    requires planned { IsPlanned (subject_of inputs.now) planning.now }
    requires listed { AreListed (layout_of (subject_of inputs.now) planning.now.rows.items)
        certificate.now }
    requires number { number < length certificate.now }
    ensures planned { (listed : ListedRow) → slice_get certificate.now number ≡ Some listed →
        slice_get planning.now.rows.items listed.place ≡ Some (Selected result.0 result.1) }
    ensures flow { result.0 < length inputs.now.pairs.now }
    ensures check { result.1 < length inputs.now.checks.now }
{
    listed_as();
    planned_at(planning.rows.as_slice(), certificate.place(number))
}

/// The check and the flow of the listed row of this number, counted from 0.
pub(crate) fn row_at<'a>(
    inputs: &Inputs<'a>,
    planning: &Planning<'_>,
    certificate: &Certificate,
    number: usize,
) -> Row<'a>
    requires planned { IsPlanned (subject_of inputs.now) planning.now }
    requires listed { AreListed (layout_of (subject_of inputs.now) planning.now.rows.items)
        certificate.now }
    requires number { number < length certificate.now }
    ensures { (listed : ListedRow) → slice_get certificate.now number ≡ Some listed →
        IsRowAt (subject_of inputs.now) planning.now.rows.items listed result }
{
    listed_as();
    let (flow, check) = flow_and_check(inputs, planning, certificate, number);
    Row {
        check: &inputs.checks[check],
        pair: &inputs.pairs[flow],
        alphabet: inputs.alphabet,
    }
}

/// The flow and the check of the planned row at this place, which has a check.
fn planned_at(rows: &[PlannedRow], place: usize) -> (usize, usize)
    requires { (flow : ℕ) × (check : ℕ) × (slice_get rows.now place ≡ Some (Selected flow check)) }
    ensures { slice_get rows.now place ≡ Some (Selected result.0 result.1) }
{
    match rows[place] {
        PlannedRow::Selected { flow, check } => (flow, check),
        PlannedRow::Unselected { .. } => unreachable!(),
    }
}
