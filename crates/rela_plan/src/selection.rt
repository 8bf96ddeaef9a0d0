//! Which flows of a block each check selects, for all flows of the block at once.

ghost use Rattle.std.specs.Prelude.{◌≡◌, ◌<◌, ◌≤◌, ℕ, ◌↔◌, All, IfOk, length, slice_index_or};
ghost use Rattle.std.specs.List.{AllByRecursion};
ghost use Rattle.rela_flows.specs.Selects.{Selects, SomeByRecursion, depth};
ghost use Rattle.rela_plan.specs.Selection.{HasFlow, IsAnswer, AreSelections, AreKnown};
ghost use Rattle.rela_snapshot.specs.declared.pairing.FlowPair.{FlowPair};

use crate::flow_bits::{but_not, first_flows, in_either};
use crate::known::{Known, nothing_known, selected_by_leaf};
use crate::leaf::leaf_count;
use rela_flows::Predicate;
use rela_snapshot::FlowPair;
use rela_translate::Check;
use std::alloc::{AllocError, Global};

/// For each check the flows of the block that it selects, as the bits of a word.
///
/// What leaves are found to select is kept in `room` places. Where these are twice the leaves of
/// the checks, time is expected linear in the nodes of the predicates, and in the flows times the
/// distinct leaves. Space: linear in the places and the checks.
///
/// # Errors
///
/// Only where memory is wanted.
pub(crate) fn selections_of(
    alloc: Global,
    checks: &[Check],
    block: &[FlowPair],
    room: usize,
) -> Result<Vec<u64>, AllocError>
    requires few { length block.now ≤ 64 }
    requires room { 0 < room }
    ensures { IfOk result (λ selections. AreSelections block.now checks.now selections.items) }
{
    let asked = first_flows(block.len());
    let mut known = nothing_known(alloc, room)?;
    let mut selections = Vec::with_capacity(alloc, checks.len())?;
    for check in checks {
        selections.push(selected(predicate_of(check), asked, block, &mut known))?;
    }
    Ok(selections)
}

/// Places for leaves, twice as many as the predicates of the checks have, so that each is found
/// fast; and one more, so that there is some. Time: linear in the nodes of the predicates.
pub(crate) fn room_for_leaves(checks: &[Check]) -> usize
    ensures { 0 < result }
{
    let mut room = 1usize;
    for check in checks {
        room = room.saturating_add(leaf_count(check.when()).saturating_mul(2));
    }
    room
}

/// The predicate by which a check selects flows, which is at most 1,000 deep.
fn predicate_of(check: &Check) -> &Predicate
    ensures predicate { result.now ≡ check.now.when }
    ensures shallow { depth result.now ≤ 1000 }
{
    // The contract of the body tells the limits of the check.
    let _body = check.body();
    check.when()
}

/// Of the flows of the block that are asked, those that the predicate selects. No part is asked of
/// flows for which the parts before it have decided. It goes as deep into the stack as the
/// predicate is deep.
#[cycle(selected)]
fn selected<'a>(
    predicate: &'a Predicate,
    asked: u64,
    block: &[FlowPair],
    known: &mut [Option<Known<'a>>],
) -> u64
    requires shallow { depth predicate.now ≤ 1000 }
    requires known { AreKnown block.now known.old }
    ensures answer { IsAnswer block.now asked predicate.now result }
    ensures known { AreKnown block.now known.new }
{
    match predicate {
        Predicate::Not(part) => but_not(asked, selected(part.get(), asked, block, known)),
        Predicate::And(parts) => selected_by_all(parts.as_slice(), asked, block, known),
        Predicate::Or(parts) => selected_by_any(parts.as_slice(), asked, block, known),
        _ => selected_by_leaf(predicate, asked, block, known),
    }
}

/// Of the flows of the block that are asked, those that each of the predicates selects.
#[cycle(selected)]
fn selected_by_all<'a>(
    parts: &'a [Predicate],
    asked: u64,
    block: &[FlowPair],
    known: &mut [Option<Known<'a>>],
) -> u64
    requires shallow { All (λ p. depth p ≤ 1000) parts.now }
    requires known { AreKnown block.now known.old }
    ensures answer { (place : ℕ) (d : FlowPair) → place < length block.now →
        HasFlow result place ↔ (HasFlow asked place
        × AllByRecursion (λ p. Selects p (slice_index_or block.now place d).class) parts.now) }
    ensures known { AreKnown block.now known.new }
{
    let mut flows = asked;
    for part in parts {
        if flows == 0 {
            return 0;
        }
        flows = selected(part, flows, block, known);
    }
    flows
}

/// Of the flows of the block that are asked, those that some of the predicates selects.
#[cycle(selected)]
fn selected_by_any<'a>(
    parts: &'a [Predicate],
    asked: u64,
    block: &[FlowPair],
    known: &mut [Option<Known<'a>>],
) -> u64
    requires shallow { All (λ p. depth p ≤ 1000) parts.now }
    requires known { AreKnown block.now known.old }
    ensures answer { (place : ℕ) (d : FlowPair) → place < length block.now →
        HasFlow result place ↔ (HasFlow asked place
        × SomeByRecursion (λ p. Selects p (slice_index_or block.now place d).class) parts.now) }
    ensures known { AreKnown block.now known.new }
{
    let mut flows = 0;
    for part in parts {
        let left = but_not(asked, flows);
        if left == 0 {
            return flows;
        }
        flows = in_either(flows, selected(part, left, block, known));
    }
    flows
}
