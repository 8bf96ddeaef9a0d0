//! Which rows a report has.

ghost use Rattle.std.specs.Prelude.{◌≡◌, ◌≢◌, ◌-◌, ◌%◌, ◌<◌, ◌++◌, ℕ, List, IfOk, OnOk, All, length, map};
ghost use Rattle.std.specs.List.{HoldsAt};
ghost use Rattle.rela_flows.specs.Plan.{ArePlaces, Plan, rows_of_flow};
ghost use Rattle.rela_plan.specs.Selection.{HasFlow, AreSelections, block_at};
ghost use Rattle.rela_plan.specs.Within.{IsWithin};

use crate::flow_bits::{BLOCK, has_flow};
use crate::selection::{room_for_leaves, selections_of};
use rela_flows::PlannedRow;
use rela_snapshot::FlowPair;
use rela_translate::Check;
use std::alloc::{AllocError, Global};

/// The rows to be made for these flows under these checks, each with the indexes of its flow and
/// its check: flow after flow, one for each check that selects it, in the order of the checks, or
/// one alone where none does.
///
/// Predicates are asked of 64 flows at once. A leaf is asked of a flow at most once, however often
/// it stands in the predicates, and only where some predicate that has it is still open for the
/// flow. Time: expected linear in the flows times the checks and the distinct leaves, and in the
/// nodes of the predicates for each 64 flows; space: linear in the checks with their predicates,
/// and the rows.
///
/// # Errors
///
/// Only where memory is wanted.
pub fn plan_rows(
    alloc: Global,
    pairs: &[FlowPair],
    checks: &[Check],
) -> Result<Vec<PlannedRow>, AllocError>
    ensures planned { IfOk result (λ planned. Plan (map (λ pair. pair.class) pairs.now)
        (map (λ check. check.when) checks.now) planned.items) }
    ensures within { IfOk result (λ planned.
        All (IsWithin (length pairs.now) (length checks.now)) planned.items) }
{
    let room = room_for_leaves(checks);
    let mut selections = Vec::new(alloc);
    let mut rows = Vec::new(alloc);
    for flow in 0..pairs.len() {
        selections = selections_at(alloc, selections, flow, pairs, checks, room)?;
        push_rows_of_flow(&mut rows, flow, (flow % BLOCK) as u32, &selections)?;
    }
    Ok(rows)
}

/// What each check selects of the block that has the flow: what is kept, or at the first flow of a
/// block what is found anew.
fn selections_at(
    alloc: Global,
    kept: Vec<u64>,
    flow: usize,
    pairs: &[FlowPair],
    checks: &[Check],
    room: usize,
) -> Result<Vec<u64>, AllocError>
    requires flow { flow < length pairs.now }
    requires room { 0 < room }
    requires kept { flow % 64 ≢ 0 →
        AreSelections (block_at (flow - flow % 64) pairs.now) checks.now kept.items }
    ensures { IfOk result (λ selections.
        AreSelections (block_at (flow - flow % 64) pairs.now) checks.now selections.items) }
{
    if flow % BLOCK != 0 {
        return Ok(kept);
    }
    let end = flow + (pairs.len() - flow).min(BLOCK);
    selections_of(alloc, checks, &pairs[flow..end], room)
}

/// Appends the rows of the flow at a place of a block: one for each check whose selection has it,
/// or one alone.
fn push_rows_of_flow(
    rows: &mut Vec<PlannedRow>,
    flow: usize,
    place: u32,
    selections: &[u64],
) -> Result<(), AllocError>
    requires { place < 64 }
    ensures { OnOk result ((places : List ℕ)
        × ArePlaces (λ k. HoldsAt (λ flows. HasFlow flows place) selections.now k)
        (length selections.now) places
        × (rows.new.items ≡ rows.old.items ++ rows_of_flow flow places)) }
{
    let before = rows.len();
    for (check, flows) in selections.iter().enumerate() {
        if has_flow(*flows, place) {
            rows.push(PlannedRow::Selected { flow, check })?;
        }
    }
    if rows.len() == before {
        rows.push(PlannedRow::Unselected { flow })?;
    }
    Ok(())
}
