//! Certificates of rows that are met.

ghost use Rattle.std.specs.Prelude.{◌≡◌, ◌+◌, ◌<◌, ◌≤◌, IfOk, OnOk, length};
ghost use Rattle.rela_cert.specs.Certified.{IsBegun, IsCertified};
ghost use Rattle.rela_cert.specs.Inputs.{subject_of};
ghost use Rattle.rela_cert.specs.Planned.{IsPlanned};
ghost use Rattle.rela_cert.specs.Sharing.{AreFoundRows};
ghost use Rattle.rela_cert.specs.Subject.{IsSubject, layout_of, subject};

use crate::found_rows::{FoundRows, found_at, take_or_find, write_found};
use crate::inputs::Inputs;
use crate::planning::{Planning, planning_of};
use crate::row_audit::MAX_STATES;
use crate::shared_rows::rows_carry_over;
use rela_certfile::{PlanLayout, Writer};
use rela_flows::PlannedRow;
use rela_names::Alphabet;
use rela_snapshot::FlowPair;
use rela_translate::Check;
use std::alloc::{AllocError, Global};
use std::collections::HashMap;

/// The certificate of the rows that are met, of checks of one level, whose names differ, and of
/// flows, whose names differ; the alphabet is that of the level. A row with a check is left out
/// only where a word offends against the check, or where the images have more places than
/// `states`. Each block is closed, and has the words by which its places are first reached, in
/// shortlex order.
///
/// Time and space: planning, expected linear in the graphs of the flows; the constructions and the
/// search, one after another, once for each check and each look of the flows at its level; and the
/// text.
///
/// # Errors
///
/// Only where memory is wanted.
pub fn certify(
    alloc: Global,
    checks: &[Check],
    pairs: &[FlowPair],
    alphabet: &Alphabet,
    states: usize,
) -> Result<Vec<u8>, AllocError>
    requires subject { IsSubject (subject checks.now pairs.now alphabet.now) }
    requires some { 1 ≤ states }
    requires few { states ≤ MAX_STATES }
    ensures { IfOk result (λ text. IsCertified (subject checks.now pairs.now alphabet.now) states
        text.items) }
{
    let inputs = Inputs {
        checks,
        pairs,
        alphabet,
    };
    let planning = planning_of(alloc, &inputs)?;
    let layout = planning.layout(&inputs);
    let mut writer = Writer::new(alloc)?;
    let mut kept = HashMap::new(alloc);
    for place in 0..planning.rows.len() {
        write_row(
            alloc,
            &inputs,
            &planning,
            &layout,
            place,
            states,
            &mut kept,
            &mut writer,
        )?;
    }
    writer.finish()
}

/// Writes the row that is planned at this place, unless it is left out. What is found for its
/// check and the flow that looks like its own is kept for further rows. The only error is want of
/// memory.
fn write_row(
    alloc: Global,
    inputs: &Inputs<'_>,
    planning: &Planning<'_>,
    layout: &PlanLayout<'_>,
    place: usize,
    states: usize,
    kept: &mut FoundRows,
    writer: &mut Writer,
) -> Result<(), AllocError>
    requires subject { IsSubject (subject_of inputs.now) }
    requires planned { IsPlanned (subject_of inputs.now) planning.now }
    requires layout { layout.now ≡ layout_of (subject_of inputs.now) planning.now.rows.items }
    requires place { place < length planning.now.rows.items }
    requires some { 1 ≤ states }
    requires few { states ≤ MAX_STATES }
    requires kept { AreFoundRows (subject_of inputs.now) states kept.old }
    ensures kept { OnOk result (AreFoundRows (subject_of inputs.now) states kept.new) }
    ensures written { OnOk result (IsBegun (subject_of inputs.now) planning.now.rows.items states
        place writer.old → IsBegun (subject_of inputs.now) planning.now.rows.items states
        (place + 1) writer.new) }
{
    match planning.rows[place] {
        PlannedRow::Selected { flow, check } => {
            let other = planning.alike[flow];
            let found = take_or_find(alloc, inputs, other, check, states, kept)?;
            let (pair, another) = (&inputs.pairs[flow], &inputs.pairs[other]);
            rows_carry_over(&inputs.checks[check], pair, another, inputs.alphabet);
            let found = found_at(found, place);
            write_found(layout, writer, &found)?;
            kept.insert((other, check), found)?;
            Ok(())
        }
        PlannedRow::Unselected { .. } => write_found(layout, writer, &None),
    }
}
