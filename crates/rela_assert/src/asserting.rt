//! From the two snapshots, the locations and the assertions to the report.

ghost use Rattle.std.specs.Prelude.{◌≡◌, ◌≢◌, ◌≤◌, Ok, Err, All, IsTrue, IfOk, IfErr, is_some};
ghost use Rattle.rela_assertions.specs.Rows.{IsClaimAt};
ghost use Rattle.rela_io.specs.Held.{HoldsName};
ghost use Rattle.rela_locations.specs.Network.{alphabet_of};
ghost use Rattle.rela_snapshot.specs.PairsLocated.{ArePairsLocated};
ghost use Rattle.rela_inputs.specs.Answer.{answer_by, IsOutcomeStatus};
ghost use Rattle.rela_assert.specs.AssertReports.{ReportsAssertions, ReportsClaims, ReportsOver, SameAssertReports};
ghost use Rattle.rela_assert.specs.Asserted.{ReadsClaims, SameAsserted, asserted_by};
ghost use Rattle.rela_inputs.specs.Given.{IsGiven, seen};
ghost use Rattle.rela_inputs.specs.Inputs.{BytesOf, Gives};
ghost use Rattle.rela_inputs.specs.Reading.{Ends};
ghost use Rattle.rela_inputs.specs.declared.refusal.Input.TheVariants as input;

use crate::claiming::Asserted;
use crate::loading::load_claims;
use rela_assertions::{right_rows_agree, rows_of, status, text};
use rela_inputs::{Answer, Halt, load_locations, load_pairs, same_checks_are_equal, steps_chain};
use rela_io::Files;
use rela_locations::Locations;
use rela_same_flows::same_graphs_same_paths;
use rela_snapshot::FlowPair;
use std::alloc::Global;
use std::marker::Brand;

/// Reads the locations, the snapshot before, the snapshot after and the assertions in the files of
/// these names, in this order, and makes the report: what is told of each assertion for each flow.
/// `states` is the state limit of each construction. Time and space: those of decoding the files and
/// of [`rows_of`].
///
/// # Errors
///
/// The first refusal, read fault or want of memory ends it.
pub fn report_assertions<F: Files>(
    alloc: Global,
    files: &mut F,
    before: &str,
    after: &str,
    locations: &str,
    assertions: &str,
    states: usize,
) -> Result<Answer, Halt>
    requires some { 1 ≤ states }
    ensures given { IsGiven (is_some (F.holds files.old)) (F.steady files.old) SameAssertReports
        (ReportsAssertions (F.holds files.old) before.now after.now locations.now
        assertions.now states) (seen answer_by result) }
    ensures status { IfOk result (λ answer. IsOutcomeStatus answer.status) }
    ensures ends { Ends (F.faults files.old) (F.faults files.new) (F.given files.new) result }
    ensures steady_is_no_fault { IsTrue (F.steady files.old) →
        HoldsName (F.holds files.old) before.now →
        HoldsName (F.holds files.old) after.now →
        HoldsName (F.holds files.old) locations.now →
        HoldsName (F.holds files.old) assertions.now →
        result ≢ Err Halt.ReadFault }
{
    steps_chain::<Brand>();
    let locations = load_locations(alloc, files, locations)?;
    report_over(alloc, files, before, after, &locations, assertions, states)
}

/// The report on the snapshots and the assertions in the files of these names, over these locations.
///
/// # Errors
///
/// The first refusal, read fault or want of memory ends it.
fn report_over<F: Files>(
    alloc: Global,
    files: &mut F,
    before: &str,
    after: &str,
    locations: &Locations,
    assertions: &str,
    states: usize,
) -> Result<Answer, Halt>
    requires some { 1 ≤ states }
    ensures given { IsGiven (is_some (F.holds files.old)) (F.steady files.old) SameAssertReports
        (ReportsOver (F.holds files.old) before.now after.now assertions.now states locations.now)
        (seen answer_by result) }
    ensures status { IfOk result (λ answer. IsOutcomeStatus answer.status) }
    ensures ends { Ends (F.faults files.old) (F.faults files.new) (F.given files.new) result }
    ensures steady_is_no_fault { IsTrue (F.steady files.old) →
        HoldsName (F.holds files.old) before.now →
        HoldsName (F.holds files.old) after.now →
        HoldsName (F.holds files.old) assertions.now →
        result ≢ Err Halt.ReadFault }
{
    steps_chain::<Brand>();
    same_graphs_same_paths();
    same_checks_are_equal();
    right_rows_agree();
    let pairs = load_pairs(alloc, files, before, after, locations)?;
    let (pairs, asserted) = claims_behind(alloc, files, assertions, locations, pairs)?;
    report_claims(alloc, locations, &pairs, &asserted, states)
}

/// What the assertion file of this name asks for over these locations, with the value that was
/// loaded before it. An error drops the value here.
///
/// # Errors
///
/// Those of [`load_claims`].
fn claims_behind<F: Files, T: Drop>(
    alloc: Global,
    files: &mut F,
    name: &str,
    locations: &Locations,
    before: T,
) -> Result<(T, Asserted), Halt>
    ensures same { IfOk result (λ both. both.0 ≡ before) }
    ensures given { IsGiven (is_some (F.holds files.old)) (F.steady files.old) SameAsserted
        (Gives (BytesOf (F.holds files.old) name.now input.Assertions) (ReadsClaims locations.now))
        (seen (λ both. asserted_by both.1) result) }
    ensures claims { IfOk result (λ both.
        All (IsClaimAt (alphabet_of both.1.level locations.now)) both.1.claims.items) }
    ensures ends { Ends (F.faults files.old) (F.faults files.new) (F.given files.new) result }
    ensures steady_is_no_fault { IsTrue (F.steady files.old) →
        HoldsName (F.holds files.old) name.now →
        result ≢ Err Halt.ReadFault }
    ensures same_holds { F.holds files.new ≡ F.holds files.old }
    ensures same_steady { F.steady files.new ≡ F.steady files.old }
{
    let asserted = load_claims(alloc, files, name, locations)?;
    Ok((before, asserted))
}

/// The report of the flows under the claims, made whole.
///
/// # Errors
///
/// Only where memory is wanted.
fn report_claims(
    alloc: Global,
    locations: &Locations,
    pairs: &[FlowPair],
    asserted: &Asserted,
    states: usize,
) -> Result<Answer, Halt>
    requires some { 1 ≤ states }
    requires claims { All (IsClaimAt (alphabet_of asserted.now.level locations.now))
        asserted.now.claims.items }
    requires located { ArePairsLocated (alphabet_of asserted.now.level locations.now)
        asserted.now.level pairs.now }
    ensures reports { IfOk result (λ answer. ReportsClaims states locations.now pairs.now
        (asserted_by asserted.now) (Ok (answer_by answer))) }
    ensures status { IfOk result (λ answer. IsOutcomeStatus answer.status) }
    ensures memory { IfErr result (λ halt. halt ≡ Halt.Memory) }
{
    let names = locations.alphabet(asserted.level);
    let rows = rows_of(
        alloc,
        pairs,
        &asserted.claims,
        asserted.level,
        names,
        states,
    )?;
    let text = text(alloc, &rows, names)?;
    let status = status(&rows);
    Ok(Answer { text, status })
}
