//! What is found for the checks and the flows, and kept for flows that look the same.

ghost use Rattle.std.specs.Prelude.{◌≡◌, ℕ, ◌+◌, ◌<◌, ◌≤◌, IfOk, IfSome, List, OnOk, length, option_map};
ghost use Rattle.rela_certfile.specs.Layout.{shape_at};
ghost use Rattle.rela_certfile.specs.Listed.{IsListedAs};
ghost use Rattle.rela_flows.specs.declared.planning.PlannedRow.{PlannedRow};
ghost use Rattle.rela_cert.specs.Certified.{IsBegun};
ghost use Rattle.rela_cert.specs.Inputs.{subject_of};
ghost use Rattle.rela_cert.specs.Sharing.{AreFoundRows, HoldsOf, IsFoundAt, IsFoundFor, row_at_place};
ghost use Rattle.rela_cert.specs.Subject.{IsSubject, Subject, layout_of};

use crate::inputs::Inputs;
use crate::row::Row;
use crate::row_audit::MAX_STATES;
use crate::row_certificate::certified_row;
use rela_certfile::{ListedRow, PlanLayout, Writer, row_appended};
use std::alloc::{AllocError, Global};
use std::collections::HashMap;

/// By the indexes of a flow and a check, in this order, the row that is to be listed for them,
/// whatever its place is; there is none where it is left out.
pub(crate) type FoundRows = HashMap<(usize, usize), Option<ListedRow>>;

/// What is found for the flow and the check of these indexes: what is kept of them, which is taken
/// out, and else it is searched for. Time and space: those of [`certified_row`]. The only error is
/// want of memory.
pub(crate) fn take_or_find(
    alloc: Global,
    inputs: &Inputs<'_>,
    flow: usize,
    check: usize,
    states: usize,
    kept: &mut FoundRows,
) -> Result<Option<ListedRow>, AllocError>
    requires subject { IsSubject (subject_of inputs.now) }
    requires flow { flow < length inputs.now.pairs.now }
    requires check { check < length inputs.now.checks.now }
    requires some { 1 ≤ states }
    requires few { states ≤ MAX_STATES }
    requires kept { AreFoundRows (subject_of inputs.now) states kept.old }
    ensures found { IfOk result (λ found. HoldsOf (subject_of inputs.now) flow check
        (IsFoundFor (length inputs.now.alphabet.now) states found)) }
    ensures kept { AreFoundRows (subject_of inputs.now) states kept.new }
{
    match kept.remove(&(flow, check)) {
        Some(found) => Ok(found),
        None => find_row(alloc, inputs, flow, check, states),
    }
}

/// What is found for the flow and the check of these indexes, with 0 in the place of a row's place.
/// The only error is want of memory.
fn find_row(
    alloc: Global,
    inputs: &Inputs<'_>,
    flow: usize,
    check: usize,
    states: usize,
) -> Result<Option<ListedRow>, AllocError>
    requires subject { IsSubject (subject_of inputs.now) }
    requires flow { flow < length inputs.now.pairs.now }
    requires check { check < length inputs.now.checks.now }
    requires some { 1 ≤ states }
    requires few { states ≤ MAX_STATES }
    ensures { IfOk result (λ found. HoldsOf (subject_of inputs.now) flow check
        (IsFoundFor (length inputs.now.alphabet.now) states found)) }
{
    let row = Row {
        check: &inputs.checks[check],
        pair: &inputs.pairs[flow],
        alphabet: inputs.alphabet,
    };
    certified_row(alloc, &row, 0, states)
}

/// What is found, for the row that is planned at this place.
pub(crate) fn found_at(found: Option<ListedRow>, place: usize) -> Option<ListedRow>
    ensures { result ≡ option_map (row_at_place place) found }
{
    match found {
        Some(row) => Some(ListedRow {
            place,
            complements: row.complements,
            images: row.images,
        }),
        None => None,
    }
}

/// Writes the row that is found, if there is one. Time: linear in its lines. The only error is want
/// of memory.
pub(crate) fn write_found(
    layout: &PlanLayout<'_>,
    writer: &mut Writer,
    found: &Option<ListedRow>,
) -> Result<(), AllocError>
    requires { IfSome found.now (λ row. IsListedAs (shape_at layout.now row.place) row) }
    ensures { OnOk result ((s : Subject) (planned : List PlannedRow) (limit place : ℕ) →
        layout.now ≡ layout_of s planned → IsFoundAt s planned limit place found.now →
        IsBegun s planned limit place writer.old → IsBegun s planned limit (place + 1) writer.new) }
{
    row_appended();
    match found {
        Some(row) => writer.push_row(layout, row),
        None => Ok(()),
    }
}
