//! The rows of a run: which there are, and the verdict of each.

ghost use Rattle.std.specs.Prelude.{◌≡◌, ◌≤◌, ◌<◌, IfOk, OnOk, All, length, map};
ghost use Rattle.std.specs.List.{AllZip};
ghost use Rattle.rela_expand.specs.Listed.{ListsPathSymbols};
ghost use Rattle.rela_report.specs.Text.{RowHasTexts, VerdictHasTexts};
ghost use Rattle.rela_plan.specs.Within.{IsWithin};
ghost use Rattle.rela_rows.specs.Judging.{CanJudge, IsWorkOn};
ghost use Rattle.rela_rows.specs.Kept.{AreKept};
ghost use Rattle.rela_rows.specs.Rows.{AreChecksAt, AreRowsOf, AreRowsWritten};
ghost use Rattle.rela_rows.specs.Sharing.{IsRowBy, IsVerdictBy};
ghost use Rattle.rela_rows.specs.Writing.{AreWritten, IsOneMore};

use crate::sharing::{Kept, share_verdicts, verdict_on};
use rela_engine::{Compiled, compile};
use rela_flows::PlannedRow;
use rela_names::Alphabet;
use rela_plan::{alike_flows, plan_rows};
use rela_report::{ReportRow, ReportWriter, Row};
use rela_same_checks::asked_by;
use rela_snapshot::FlowPair;
use rela_translate::Check;
use std::alloc::{AllocError, Global};

/// What the rows of flows under checks are made by.
#[derive(Drop)]
struct Work<'c> {
    /// The rows that are planned, in their order.
    planned: Vec<PlannedRow>,
    /// What the checks ask for, compiled.
    compiled: Vec<Compiled<'c>>,
    /// For each check the index of the compiled one that asks for the same.
    places: Vec<usize>,
    /// For each flow the index of one that looks the same, whose verdicts are its own.
    others: Vec<usize>,
}

/// The checks, and what decides flows under them.
#[derive(Drop)]
struct Judges<'a, 'c> {
    /// The checks.
    checks: &'a [Check],
    /// What they ask for, compiled.
    compiled: &'a [Compiled<'c>],
    /// For each check the index of the compiled one that asks for the same.
    places: &'a [usize],
    /// For each flow the index of one that looks the same.
    others: &'a [usize],
}

/// The rows of the flows under the checks, whose locations are those of the alphabet: flow after
/// flow, one for each check that selects it, in the order of the checks, or one alone where none
/// does. `states` is the state limit. What several checks ask for is compiled once, and decided once
/// for all flows that look the same at its level, where the checks have one level; and flows of one
/// shape are found compliant once.
///
/// # Errors
///
/// Only where memory is wanted.
pub fn rows_of(
    alloc: Global,
    pairs: &[FlowPair],
    checks: &[Check],
    alphabet: &Alphabet,
    states: usize,
) -> Result<Vec<ReportRow>, AllocError>
    requires some { 1 ≤ states }
    requires checks { AreChecksAt alphabet.now pairs.now checks.now }
    ensures rows { IfOk result (λ rows. AreRowsOf alphabet.now states checks.now
        pairs.now rows.items) }
    ensures texts { IfOk result (λ rows. All (RowHasTexts alphabet.now) rows.items) }
{
    let work = prepare(alloc, pairs, checks, alphabet, states)?;
    let judges = judges_by(checks, &work);
    decide_all(alloc, &work.planned, pairs, &judges, alphabet)
}

/// The text of the rows of [`rows_of`], as far as the last of them: what is left is to finish it. No
/// row is kept once its lines are written, so the space is that of the text, the flows and the
/// checks.
///
/// # Errors
///
/// Only where memory is wanted.
pub fn write_rows(
    alloc: Global,
    pairs: &[FlowPair],
    checks: &[Check],
    alphabet: &Alphabet,
    states: usize,
) -> Result<ReportWriter, AllocError>
    requires some { 1 ≤ states }
    requires checks { AreChecksAt alphabet.now pairs.now checks.now }
    ensures { IfOk result (AreRowsWritten alphabet.now states checks.now pairs.now) }
{
    let work = prepare(alloc, pairs, checks, alphabet, states)?;
    let judges = judges_by(checks, &work);
    write_all(alloc, &work.planned, pairs, &judges, alphabet)
}

/// What is planned, what looks the same, and each check compiled under the state limit.
///
/// # Errors
///
/// Only where memory is wanted.
fn prepare<'a>(
    alloc: Global,
    pairs: &[FlowPair],
    checks: &'a [Check],
    alphabet: &Alphabet,
    states: usize,
) -> Result<Work<'a>, AllocError>
    requires some { 1 ≤ states }
    requires checks { AreChecksAt alphabet.now pairs.now checks.now }
    ensures { IfOk result (IsWorkOn alphabet.now states checks.now pairs.now) }
{
    let planned = plan_rows(alloc, pairs, checks)?;
    let others = alike_flows(alloc, pairs, checks)?;
    let asked = asked_by(alloc, checks)?;
    let compiled = compile_all(alloc, &asked.checks, alphabet, states)?;
    Ok(Work {
        planned,
        compiled,
        places: asked.places,
        others,
    })
}

/// The checks, with what decides flows under them.
fn judges_by<'a, 'c>(checks: &'a [Check], work: &'a Work<'c>) -> Judges<'a, 'c>
    ensures checks { result.checks.now ≡ checks.now }
    ensures compiled { result.compiled.now ≡ work.now.compiled.items }
    ensures places { result.places.now ≡ work.now.places.items }
    ensures others { result.others.now ≡ work.now.others.items }
{
    Judges {
        checks,
        compiled: &work.compiled,
        places: &work.places,
        others: &work.others,
    }
}

/// Each check, compiled under the state limit, in their order.
fn compile_all<'a>(
    alloc: Global,
    checks: &[&'a Check],
    alphabet: &Alphabet,
    states: usize,
) -> Result<Vec<Compiled<'a>>, AllocError>
    requires some { 1 ≤ states }
    requires listed { All (ListsPathSymbols alphabet.now) (map (λ c. c.now) checks.now) }
    ensures checks { IfOk result (λ compiled. map (λ c. c.check) compiled.items
        ≡ map (λ c. c.now) checks.now) }
    ensures locations { IfOk result (λ compiled. All (λ c. c.locations ≡ length alphabet.now)
        compiled.items) }
    ensures states { IfOk result (λ compiled. All (λ c. c.states ≡ states) compiled.items) }
{
    let mut compiled = Vec::with_capacity(alloc, checks.len())?;
    for check in checks {
        compiled.push(compile(alloc, *check, alphabet, states)?)?;
    }
    Ok(compiled)
}

/// The rows that are planned, in their order. What is asked for is decided once for flows that look
/// the same, and so are compliant flows of one shape.
fn decide_all(
    alloc: Global,
    planned: &[PlannedRow],
    pairs: &[FlowPair],
    judges: &Judges<'_, '_>,
    alphabet: &Alphabet,
) -> Result<Vec<ReportRow>, AllocError>
    requires planned { All (IsWithin (length pairs.now) (length judges.now.checks.now))
        planned.now }
    requires judges { CanJudge alphabet.now pairs.now judges.now }
    ensures rows { IfOk result (λ rows. AllZip (IsRowBy alphabet.now judges.now.checks.now
        judges.now.compiled.now pairs.now) planned.now rows.items) }
    ensures texts { IfOk result (λ rows. All (RowHasTexts alphabet.now) rows.items) }
{
    let mut kept = Kept::new(alloc, alphabet, judges.others, judges.places)?;
    decide_each(alloc, planned, pairs, judges, alphabet, &mut kept)
}

/// The rows that are planned, with what is known of the flows that have been decided.
fn decide_each(
    alloc: Global,
    planned: &[PlannedRow],
    pairs: &[FlowPair],
    judges: &Judges<'_, '_>,
    alphabet: &Alphabet,
    kept: &mut Kept,
) -> Result<Vec<ReportRow>, AllocError>
    requires planned { All (IsWithin (length pairs.now) (length judges.now.checks.now))
        planned.now }
    requires judges { CanJudge alphabet.now pairs.now judges.now }
    requires kept { AreKept alphabet.now judges.now.compiled.now pairs.now kept.old }
    ensures rows { IfOk result (λ rows. AllZip (IsRowBy alphabet.now judges.now.checks.now
        judges.now.compiled.now pairs.now) planned.now rows.items) }
    ensures texts { IfOk result (λ rows. All (RowHasTexts alphabet.now) rows.items) }
{
    let mut rows = Vec::with_capacity(alloc, planned.len())?;
    for row in planned {
        rows.push(row_of(alloc, row, pairs, judges, alphabet, kept)?)?;
    }
    Ok(rows)
}

/// The text of the rows that are planned, which are decided as [`decide_all`] does, and written one
/// after the other.
fn write_all(
    alloc: Global,
    planned: &[PlannedRow],
    pairs: &[FlowPair],
    judges: &Judges<'_, '_>,
    alphabet: &Alphabet,
) -> Result<ReportWriter, AllocError>
    requires planned { All (IsWithin (length pairs.now) (length judges.now.checks.now))
        planned.now }
    requires judges { CanJudge alphabet.now pairs.now judges.now }
    ensures { IfOk result (AreWritten (IsRowBy alphabet.now judges.now.checks.now
        judges.now.compiled.now pairs.now) alphabet.now planned.now) }
{
    let mut kept = Kept::new(alloc, alphabet, judges.others, judges.places)?;
    write_each(alloc, planned, pairs, judges, alphabet, &mut kept)
}

/// The text of the rows that are planned, with what is known of the flows that have been decided.
fn write_each(
    alloc: Global,
    planned: &[PlannedRow],
    pairs: &[FlowPair],
    judges: &Judges<'_, '_>,
    alphabet: &Alphabet,
    kept: &mut Kept,
) -> Result<ReportWriter, AllocError>
    requires planned { All (IsWithin (length pairs.now) (length judges.now.checks.now))
        planned.now }
    requires judges { CanJudge alphabet.now pairs.now judges.now }
    requires kept { AreKept alphabet.now judges.now.compiled.now pairs.now kept.old }
    ensures { IfOk result (AreWritten (IsRowBy alphabet.now judges.now.checks.now
        judges.now.compiled.now pairs.now) alphabet.now planned.now) }
{
    let mut writer = ReportWriter::new(alloc);
    for row in planned {
        write_row(alloc, row, pairs, judges, alphabet, kept, &mut writer)?;
    }
    Ok(writer)
}

/// The row that is planned.
fn row_of(
    alloc: Global,
    planned: &PlannedRow,
    pairs: &[FlowPair],
    judges: &Judges<'_, '_>,
    alphabet: &Alphabet,
    kept: &mut Kept,
) -> Result<ReportRow, AllocError>
    requires planned { IsWithin (length pairs.now) (length judges.now.checks.now) planned.now }
    requires judges { CanJudge alphabet.now pairs.now judges.now }
    requires kept { AreKept alphabet.now judges.now.compiled.now pairs.now kept.old }
    ensures row { IfOk result (IsRowBy alphabet.now judges.now.checks.now
        judges.now.compiled.now pairs.now planned.now) }
    ensures texts { IfOk result (RowHasTexts alphabet.now) }
    ensures kept { OnOk result (AreKept alphabet.now judges.now.compiled.now
        pairs.now kept.new) }
{
    match *planned {
        PlannedRow::Unselected { flow } => Ok(ReportRow::Unselected {
            flow: pairs[flow].class.name.copy(alloc)?,
        }),
        PlannedRow::Selected { flow, check } => {
            let row = verdict_of(alloc, flow, check, pairs, judges, alphabet, kept)?;
            let (pair, by) = (&pairs[flow], &judges.checks[check]);
            row_under(alloc, pair, by, row)
        }
    }
}

/// Writes the row that is planned, whose names are lent.
fn write_row(
    alloc: Global,
    planned: &PlannedRow,
    pairs: &[FlowPair],
    judges: &Judges<'_, '_>,
    alphabet: &Alphabet,
    kept: &mut Kept,
    writer: &mut ReportWriter,
) -> Result<(), AllocError>
    requires planned { IsWithin (length pairs.now) (length judges.now.checks.now) planned.now }
    requires judges { CanJudge alphabet.now pairs.now judges.now }
    requires kept { AreKept alphabet.now judges.now.compiled.now pairs.now kept.old }
    ensures row { OnOk result (IsOneMore (IsRowBy alphabet.now judges.now.checks.now
        judges.now.compiled.now pairs.now planned.now) alphabet.now writer.old writer.new) }
    ensures kept { OnOk result (AreKept alphabet.now judges.now.compiled.now
        pairs.now kept.new) }
{
    match *planned {
        PlannedRow::Unselected { flow } => writer.push_unselected(&pairs[flow].class.name),
        PlannedRow::Selected { flow, check } => {
            let row = verdict_of(alloc, flow, check, pairs, judges, alphabet, kept)?;
            let (pair, by) = (&pairs[flow], &judges.checks[check]);
            writer.push_selected(alloc, &pair.class.name, by.name(), &row, alphabet)
        }
    }
}

/// The verdict of a check on a flow, by their indexes: that on the flow that looks the same, under
/// the compiled check that asks for the same. Each symbol that it shows has a text.
///
/// # Errors
///
/// Only where memory is wanted.
fn verdict_of(
    alloc: Global,
    flow: usize,
    check: usize,
    pairs: &[FlowPair],
    judges: &Judges<'_, '_>,
    alphabet: &Alphabet,
    kept: &mut Kept,
) -> Result<Row, AllocError>
    requires flow { flow < length pairs.now }
    requires check { check < length judges.now.checks.now }
    requires judges { CanJudge alphabet.now pairs.now judges.now }
    requires kept { AreKept alphabet.now judges.now.compiled.now pairs.now kept.old }
    ensures verdict { IfOk result (IsVerdictBy alphabet.now judges.now.checks.now
        judges.now.compiled.now pairs.now flow check) }
    ensures texts { IfOk result (VerdictHasTexts alphabet.now) }
    ensures kept { OnOk result (AreKept alphabet.now judges.now.compiled.now
        pairs.now kept.new) }
{
    let (other, place) = (judges.others[flow], judges.places[check]);
    let compiled = judges.compiled;
    let row = verdict_on(alloc, kept, other, place, pairs, compiled, alphabet)?;
    let (pair, by) = (&pairs[flow], &compiled[place]);
    share_verdicts(by, pair, &pairs[other], alphabet);
    Ok(row)
}

/// The row of a flow under a check, with this verdict.
fn row_under(
    alloc: Global,
    pair: &FlowPair,
    check: &Check,
    row: Row,
) -> Result<ReportRow, AllocError>
    ensures { IfOk result (λ made. made ≡ ReportRow.Selected pair.now.class.name
        check.now.name row) }
{
    let flow = pair.class.name.copy(alloc)?;
    let check = check.name().copy(alloc)?;
    Ok(ReportRow::Selected { flow, check, row })
}
