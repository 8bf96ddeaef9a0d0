//! Compliance that flows share whose graphs differ in the names of locations alone.

ghost use Rattle.std.specs.Prelude.{◌≡◌, ◌<◌, List, IfOk, OnOk, IsSome, IsTrue, All, length};
ghost use Rattle.rela_engine.specs.Compilation.{Compilation};
ghost use Rattle.rela_shape.specs.Shape.{IsShape};
ghost use Rattle.rela_snapshot.specs.PairsLocated.{ArePairsLocated, IsPairLocated};
ghost use Rattle.rela_snapshot.specs.declared.pairing.FlowPair.{FlowPair};
ghost use Rattle.rela_rows.specs.Kept.{AreByShape};
ghost use Rattle.rela_rows.specs.Shapes.{IsMetShape};
ghost use Rattle.rela_rows.specs.Sharing.{IsVerdict, IsVerdictOf};

use crate::verdict::Decider;
use rela_engine::Compiled;
use rela_names::Alphabet;
use rela_report::Row;
use rela_shape::{Shape, one_shape_renames, renamed_flows_meet_alike};
use rela_snapshot::FlowPair;
use std::alloc::{AllocError, Global};
use std::collections::HashSet;

/// Shapes of compliant flows, each with the index of the compiled check that they meet.
type MetShapes = HashSet<(usize, Shape)>;

/// The shapes of compliant flows, and what decides those flows that have no such shape.
#[derive(Drop)]
pub(crate) struct ByShape {
    /// The shapes.
    met: MetShapes,
    /// What decides.
    decider: Decider,
}

impl ByShape {
    /// No shape yet, and what decides flows whose locations are those of the alphabet. Time and space:
    /// linear in the symbols. The only error is want of memory.
    pub(crate) fn new(alloc: Global, alphabet: &Alphabet) -> Result<ByShape, AllocError>
        ensures { IfOk result (λ kept. (compiled : List Compilation) (pairs : List FlowPair) →
            AreByShape alphabet.now compiled pairs kept) }
    {
        Ok(ByShape {
            met: HashSet::new(alloc),
            decider: Decider::new(alloc, alphabet)?,
        })
    }
}

/// How many shapes are kept for a compiled check, on average. Where there are more, hardly two flows
/// have one shape, and keeping them isn't worth the memory.
const SHAPES_PER_CHECK: usize = 128;

/// The verdict of a compiled check on a flow, by their indexes. Where a flow of the same shape is
/// known to meet the check, this one does too; else it is decided, and its shape is kept if it is
/// compliant. No shape is made where it can't help: under a check that isn't complete, which leaves
/// each flow open, and where both graphs look the same, which mostly needs no automata.
///
/// # Errors
///
/// Only where memory is wanted.
pub(crate) fn verdict_by_shape(
    alloc: Global,
    kept: &mut ByShape,
    flow: usize,
    check: usize,
    pairs: &[FlowPair],
    compiled: &[Compiled<'_>],
    alphabet: &Alphabet,
) -> Result<Row, AllocError>
    requires flow { flow < length pairs.now }
    requires check { check < length compiled.now }
    requires locations { All (λ c. c.locations ≡ length alphabet.now) compiled.now }
    requires located { All (λ c. ArePairsLocated alphabet.now c.check.level
        pairs.now) compiled.now }
    requires kept { AreByShape alphabet.now compiled.now pairs.now kept.old }
    ensures verdict { IfOk result (IsVerdictOf alphabet.now compiled.now pairs.now flow check) }
    ensures kept { OnOk result (AreByShape alphabet.now compiled.now pairs.now kept.new) }
{
    let (pair, by) = (&pairs[flow], &compiled[check]);
    if !by.complete() || looks_unchanged(by, pair) {
        return kept.decider.verdict(alloc, by, flow, pairs, alphabet);
    }
    let shape = shape_under(alloc, by, pair, alphabet)?;
    share_compliance(by, pair, &shape, alphabet);
    let entry = (check, shape);
    if kept.met.contains(&entry) {
        return Ok(Row::Compliant);
    }
    let row = kept.decider.verdict(alloc, by, flow, pairs, alphabet)?;
    if !is_kept(&row, &kept.met, compiled.len()) {
        return Ok(row);
    }
    kept.met.insert(entry)?;
    Ok(row)
}

/// Whether the shape of a flow with this verdict is kept: it is if the flow is compliant, as long as
/// there is room.
fn is_kept(row: &Row, met: &MetShapes, checks: usize) -> bool
    ensures { IsTrue result → row.now ≡ Row.Compliant }
{
    match row {
        Row::Compliant => met.len() / SHAPES_PER_CHECK < checks,
        Row::Violated { .. } | Row::Undecided => false,
    }
}

/// Whether the graphs of the flow look the same at the check's level.
fn looks_unchanged(by: &Compiled<'_>, pair: &FlowPair) -> bool {
    let level = by.level();
    pair.before.at(level) == pair.after.at(level)
}

/// The shape of the flow at the check's level, by the blocks of the check's symbols.
///
/// # Errors
///
/// Only where memory is wanted.
fn shape_under(
    alloc: Global,
    by: &Compiled<'_>,
    pair: &FlowPair,
    alphabet: &Alphabet,
) -> Result<Shape, AllocError>
    requires locations { by.now.locations ≡ length alphabet.now }
    requires located { IsPairLocated alphabet.now by.now.check.level pair.now }
    ensures { IfOk result (IsShape by.now.blocks by.now.check.level pair.now) }
{
    Shape::of(alloc, pair, by.level(), by.blocks())
}

/// A flow meets a check that some flow of the same shape meets. The call does nothing, and its
/// contract is this law.
fn share_compliance(by: &Compiled<'_>, pair: &FlowPair, shape: &Shape, alphabet: &Alphabet)
    requires complete { IsSome by.now.relations }
    requires locations { by.now.locations ≡ length alphabet.now }
    requires located { IsPairLocated alphabet.now by.now.check.level pair.now }
    requires shape { IsShape by.now.blocks by.now.check.level pair.now shape.now }
    ensures { IsMetShape alphabet.now by.now shape.now →
        IsVerdict alphabet.now by.now pair.now Row.Compliant }
{
    let _ = by.complete();
    let _ = by.blocks();
    let _ = by.before();
    let _ = by.after();
    one_shape_renames();
    renamed_flows_meet_alike();
}
