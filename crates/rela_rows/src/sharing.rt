//! Verdicts that flows share: those that look the same at a check's level have the same paths there.

ghost use Rattle.std.specs.Prelude.{◌≡◌, ℕ, ◌<◌, List, IfOk, OnOk, All, length};
ghost use Rattle.rela_snapshot.specs.PairsLocated.{ArePairsLocated};
ghost use Rattle.rela_snapshot.specs.declared.pairing.FlowPair.{FlowPair};
ghost use Rattle.rela_engine.specs.Compilation.{Compilation};
ghost use Rattle.rela_engine.specs.RowOf.{RowOf};
ghost use Rattle.rela_engine.specs.Scenes.{SamePathSets};
ghost use Rattle.rela_report.specs.declared.rows.Row.{Row};
ghost use Rattle.rela_translate.specs.Checked.{Checked};
ghost use Rattle.rela_plan.specs.Alike.{look_of};
ghost use Rattle.rela_rows.specs.Kept.{AreKept};
ghost use Rattle.rela_rows.specs.Sharing.{IsVerdict, IsVerdictOf};

use crate::repeats::Repeats;
use crate::shapes::{ByShape, verdict_by_shape};
use rela_engine::{Compiled, TwoPathSets, rows_carry_over};
use rela_names::Alphabet;
use rela_report::Row;
use rela_snapshot::FlowPair;
use std::alloc::{AllocError, Global};
use std::collections::HashMap;
use std::marker::Brand;

/// What is known of the flows that have been decided.
#[derive(Drop)]
pub(crate) struct Kept {
    /// Their verdicts, by the indexes of the flow and the compiled check, where they may be asked for
    /// again.
    verdicts: HashMap<(usize, usize), Row>,
    /// Which flows others look like.
    flows: Repeats,
    /// Which compiled checks serve for several.
    checks: Repeats,
    /// The shapes of those that are compliant, and what decides the others.
    by_shape: ByShape,
}

impl Kept {
    /// Nothing is known of flows whose locations are those of the alphabet. For each flow `others` has
    /// the index of one that looks the same, and `places` for each check that of the compiled one that
    /// serves for it. Time and space: linear in the symbols, the flows and the checks. The only error
    /// is want of memory.
    pub(crate) fn new(
        alloc: Global,
        alphabet: &Alphabet,
        others: &[usize],
        places: &[usize],
    ) -> Result<Kept, AllocError>
        ensures { IfOk result (λ kept. (compiled : List Compilation) (pairs : List FlowPair) →
            AreKept alphabet.now compiled pairs kept) }
    {
        Ok(Kept {
            verdicts: HashMap::new(alloc),
            flows: Repeats::of(alloc, others)?,
            checks: Repeats::of(alloc, places)?,
            by_shape: ByShape::new(alloc, alphabet)?,
        })
    }
}

/// A verdict on one flow is one on each flow that looks the same at the check's level. The call does
/// nothing, and its contract is this law.
pub(crate) fn share_verdicts(
    by: &Compiled<'_>,
    pair: &FlowPair,
    other: &FlowPair,
    alphabet: &Alphabet,
)
    ensures { look_of by.now.check.level pair.now ≡ look_of by.now.check.level other.now →
        (row : Row) →
        IsVerdict alphabet.now by.now other.now row → IsVerdict alphabet.now by.now pair.now row }
{
    let level = by.level();
    other.before.same_outline_same_paths(&pair.before, level);
    other.before.same_outline_same_arrivals(&pair.before, level);
    other.after.same_outline_same_paths(&pair.after, level);
    other.after.same_outline_same_arrivals(&pair.after, level);
    carry_over::<Brand, Brand>(by, pair, other, alphabet);
}

/// The law for rows, at paths that the caller's proof picks by these values. The call does nothing,
/// and its contract is this law.
fn carry_over<P: TwoPathSets, Q: TwoPathSets>(
    _by: &Compiled<'_>,
    _pair: &FlowPair,
    _other: &FlowPair,
    _alphabet: &Alphabet,
)
    ensures { SamePathSets P.paths Q.paths → (check : Checked) (locations limit : ℕ) (row : Row) →
        RowOf check locations P.paths limit row → RowOf check locations Q.paths limit row }
{
    rows_carry_over::<P, Q>();
}

/// The verdict of a compiled check on a flow, by their indexes: a kept one, or else it is decided, and
/// kept where it may be asked for again.
///
/// # Errors
///
/// Only where memory is wanted.
pub(crate) fn verdict_on(
    alloc: Global,
    kept: &mut Kept,
    flow: usize,
    check: usize,
    pairs: &[FlowPair],
    compiled: &[Compiled<'_>],
    alphabet: &Alphabet,
) -> Result<Row, AllocError>
    requires flow { flow < length pairs.now }
    requires check { check < length compiled.now }
    requires locations { All (λ c. c.locations ≡ length alphabet.now) compiled.now }
    requires located { All (λ c. ArePairsLocated alphabet.now c.check.level
        pairs.now) compiled.now }
    requires kept { AreKept alphabet.now compiled.now pairs.now kept.old }
    ensures verdict { IfOk result (IsVerdictOf alphabet.now compiled.now pairs.now flow check) }
    ensures kept { OnOk result (AreKept alphabet.now compiled.now pairs.now kept.new) }
{
    if let Some(row) = kept.verdicts.get(&(flow, check)) {
        return row.copy(alloc);
    }
    let by_shape = &mut kept.by_shape;
    let row = verdict_by_shape(alloc, by_shape, flow, check, pairs, compiled, alphabet)?;
    if !kept.flows.has(flow) && !kept.checks.has(check) {
        return Ok(row);
    }
    kept.verdicts.insert((flow, check), row.copy(alloc)?)?;
    Ok(row)
}
