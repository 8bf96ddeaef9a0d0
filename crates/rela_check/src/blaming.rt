//! The report on a change where each violated row says which alternative of its check's body claimed
//! the source.

ghost use Rattle.std.specs.Prelude.{◌≡◌, ◌≢◌, ◌≤◌, Ok, Err, All, IsTrue, IfOk, IfErr, is_some};
ghost use Rattle.rela_expand.specs.Listed.{ListsPathSymbols};
ghost use Rattle.rela_io.specs.Held.{HoldsName};
ghost use Rattle.rela_locations.specs.Network.{alphabet_of};
ghost use Rattle.rela_spec.specs.Depth.{IsLow};
ghost use Rattle.rela_spec.specs.Full.{IsFull};
ghost use Rattle.rela_spec.specs.Grammar.{Spells};
ghost use Rattle.rela_inputs.specs.Answer.{answer_by, IsOutcomeStatus};
ghost use Rattle.rela_check.specs.Blames.{Blames, BlamesOver, ReportsBlamed, SameBlamed, change_of};
ghost use Rattle.rela_inputs.specs.Given.{Equals, IsGiven, IsRead, seen};
ghost use Rattle.rela_inputs.specs.Inputs.{BytesOf, Gives};
ghost use Rattle.rela_inputs.specs.Reading.{Ends};
ghost use Rattle.rela_inputs.specs.declared.refusal.Input.TheVariants as input;
ghost use Rattle.rela_rows.specs.Rows.{AreChecksAt};
ghost use Rattle.rela_inputs.specs.Specifications.{ReadsWritten, written_by};
ghost use Rattle.rela_inputs.specs.Specified.{AsksFor, IsSpecified, SameSpecified, specified_by};

use rela_blame::{alternatives_stay_as_many, zones};
use rela_change_report::same_changes_agree;
use rela_inputs::{
    Answer, Asked, Halt, Written, ask, load_locations, load_pairs, load_written, steps_chain,
};
use rela_io::Files;
use rela_locations::Locations;
use rela_report::{status, text_blamed};
use rela_rows::rows_of;
use rela_snapshot::FlowPair;
use rela_translate::changed_paths_are_in_the_zone;
use std::alloc::Global;
use std::marker::Brand;

/// Loads the change in the files of these names, as [`rela_inputs::load_change`] does, and makes the
/// report, with the zone of each violated row. `states` is the state limit of each verdict.
///
/// # Errors
///
/// The first refusal, read fault or want of memory ends it.
pub fn report_blamed<F: Files>(
    alloc: Global,
    files: &mut F,
    before: &str,
    after: &str,
    locations: &str,
    spec: &str,
    states: usize,
) -> Result<Answer, Halt>
    requires some { 1 ≤ states }
    ensures given { IsGiven (is_some (F.holds files.old)) (F.steady files.old) SameBlamed
        (Blames (F.holds files.old) before.now after.now locations.now spec.now states)
        (seen answer_by result) }
    ensures status { IfOk result (λ answer. IsOutcomeStatus answer.status) }
    ensures ends { Ends (F.faults files.old) (F.faults files.new) (F.given files.new) result }
    ensures steady_is_no_fault { IsTrue (F.steady files.old) →
        HoldsName (F.holds files.old) before.now →
        HoldsName (F.holds files.old) after.now →
        HoldsName (F.holds files.old) locations.now →
        HoldsName (F.holds files.old) spec.now →
        result ≢ Err Halt.ReadFault }
{
    steps_chain::<Brand>();
    let locations = load_locations(alloc, files, locations)?;
    blame_over(alloc, files, before, after, &locations, spec, states)
}

/// The report on the change in the files of these names over these locations.
///
/// # Errors
///
/// The first refusal, read fault or want of memory ends it.
fn blame_over<F: Files>(
    alloc: Global,
    files: &mut F,
    before: &str,
    after: &str,
    locations: &Locations,
    spec: &str,
    states: usize,
) -> Result<Answer, Halt>
    requires some { 1 ≤ states }
    ensures given { IsGiven (is_some (F.holds files.old)) (F.steady files.old) SameBlamed
        (BlamesOver (F.holds files.old) before.now after.now spec.now states locations.now)
        (seen answer_by result) }
    ensures status { IfOk result (λ answer. IsOutcomeStatus answer.status) }
    ensures ends { Ends (F.faults files.old) (F.faults files.new) (F.given files.new) result }
    ensures steady_is_no_fault { IsTrue (F.steady files.old) →
        HoldsName (F.holds files.old) before.now →
        HoldsName (F.holds files.old) after.now →
        HoldsName (F.holds files.old) spec.now →
        result ≢ Err Halt.ReadFault }
{
    steps_chain::<Brand>();
    same_changes_agree();
    let pairs = load_pairs(alloc, files, before, after, locations)?;
    let (pairs, written) = written_behind(alloc, files, spec, pairs)?;
    let (pairs, written, asked) = asked_behind(alloc, locations, written, pairs)?;
    blame(alloc, locations, &pairs, &asked, &written, states)
}

/// The specification in the file of this name as it is written, with the value that was loaded
/// before it. An error drops the value here.
///
/// # Errors
///
/// Those of [`load_written`].
fn written_behind<F: Files, T: Drop>(
    alloc: Global,
    files: &mut F,
    name: &str,
    before: T,
) -> Result<(T, Written), Halt>
    ensures same { IfOk result (λ both. both.0 ≡ before) }
    ensures given { IsGiven (is_some (F.holds files.old)) (F.steady files.old) Equals
        (Gives (BytesOf (F.holds files.old) name.now input.Spec) ReadsWritten)
        (seen (λ both. written_by both.1) result) }
    ensures full { IfOk result (λ both. IsFull both.1.file) }
    ensures low { IfOk result (λ both. All IsLow both.1.file.items) }
    ensures spells { IfOk result (λ both. Spells both.1.tokens.items both.1.file) }
    ensures ends { Ends (F.faults files.old) (F.faults files.new) (F.given files.new) result }
    ensures steady_is_no_fault { IsTrue (F.steady files.old) →
        HoldsName (F.holds files.old) name.now →
        result ≢ Err Halt.ReadFault }
    ensures same_holds { F.holds files.new ≡ F.holds files.old }
    ensures same_steady { F.steady files.new ≡ F.steady files.old }
{
    let written = load_written(alloc, files, name)?;
    Ok((before, written))
}

/// What the specification asks for over these locations, with the value that was loaded before it
/// and the specification itself. An error drops both here.
///
/// # Errors
///
/// Those of [`ask`].
fn asked_behind<T: Drop>(
    alloc: Global,
    locations: &Locations,
    written: Written,
    before: T,
) -> Result<(T, Written, Asked), Halt>
    requires full { IsFull written.file }
    requires low { All IsLow written.file.items }
    ensures same { IfOk result (λ all. all.0 ≡ before) }
    ensures same_written { IfOk result (λ all. all.1 ≡ written) }
    ensures asked { IsRead SameSpecified (AsksFor locations.now written.file)
        (seen (λ all. specified_by all.2) result) }
    ensures is_asked { IfOk result (λ all. IsSpecified locations.now written.file
        (specified_by all.2)) }
    ensures listed { IfOk result (λ all.
        All (ListsPathSymbols (alphabet_of all.2.level locations.now)) all.2.checks.items) }
    ensures levels { IfOk result (λ all.
        All (λ check. check.level ≡ all.2.level) all.2.checks.items) }
{
    let asked = ask(alloc, &written.file, locations)?;
    Ok((before, written, asked))
}

/// The report on the change of these flows under what is asked for, whose specification is written
/// so, with the zone of each violated row.
///
/// # Errors
///
/// Only where memory is wanted.
fn blame(
    alloc: Global,
    locations: &Locations,
    pairs: &[FlowPair],
    asked: &Asked,
    written: &Written,
    states: usize,
) -> Result<Answer, Halt>
    requires some { 1 ≤ states }
    requires checks { AreChecksAt (alphabet_of asked.now.level locations.now) pairs.now
        asked.now.checks.items }
    requires asked { IsSpecified locations.now written.now.file (specified_by asked.now) }
    requires spells { Spells written.now.tokens.items written.now.file }
    requires full { IsFull written.now.file }
    ensures reports { IfOk result (λ answer. ReportsBlamed states (written_by written.now)
        (change_of locations.now pairs.now (specified_by asked.now)) (Ok (answer_by answer))) }
    ensures status { IfOk result (λ answer. IsOutcomeStatus answer.status) }
    ensures memory { IfErr result (λ halt. halt ≡ Halt.Memory) }
{
    let names = locations.alphabet(asked.level);
    let checks = asked.checks.as_slice();
    let rows = rows_of(alloc, pairs, checks, names, states)?;
    changed_paths_are_in_the_zone();
    alternatives_stay_as_many();
    let zones = zones(
        alloc,
        &rows,
        checks,
        &written.file,
        written.tokens.as_slice(),
        names,
    )?;
    let text = text_blamed(alloc, &rows, &zones, names)?;
    let status = status(&rows);
    Ok(Answer { text, status })
}
