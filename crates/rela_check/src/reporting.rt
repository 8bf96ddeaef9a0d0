//! From the two snapshots, the locations and the specification to the report.

ghost use Rattle.std.specs.Prelude.{◌≢◌, ◌≤◌, Err, IsTrue, IfOk, is_some};
ghost use Rattle.rela_change_report.specs.Reports.{SameReports};
ghost use Rattle.rela_check.specs.Checks.{Checks};
ghost use Rattle.rela_inputs.specs.Answer.{answer_by, IsOutcomeStatus};
ghost use Rattle.rela_inputs.specs.Given.{IsGiven, seen};
ghost use Rattle.rela_inputs.specs.Reading.{Ends};
ghost use Rattle.rela_io.specs.Held.{HoldsName};

use rela_change_report::{report_on, same_changes_agree};
use rela_inputs::{Answer, Halt, load_change, steps_chain};
use rela_io::Files;
use std::alloc::Global;
use std::marker::Brand;

/// Loads the change in the files of these names, as [`load_change`] does, and makes the report.
/// `states` is the state limit of each verdict.
///
/// # Errors
///
/// The first refusal, read fault or want of memory ends it.
pub fn report<F: Files>(
    alloc: Global,
    files: &mut F,
    before: &str,
    after: &str,
    locations: &str,
    spec: &str,
    states: usize,
) -> Result<Answer, Halt>
    requires some { 1 ≤ states }
    ensures given { IsGiven (is_some (F.holds files.old)) (F.steady files.old) SameReports
        (Checks (F.holds files.old) before.now after.now locations.now spec.now states)
        (seen answer_by result) }
    ensures status { IfOk result (λ answer. IsOutcomeStatus answer.status) }
    ensures ends { Ends (F.faults files.old) (F.faults files.new) (F.given files.new) result }
    ensures steady_is_no_fault { IsTrue (F.steady files.old) →
        HoldsName (F.holds files.old) before.now →
        HoldsName (F.holds files.old) after.now →
        HoldsName (F.holds files.old) locations.now →
        HoldsName (F.holds files.old) spec.now →
        result ≢ Err Halt.ReadFault }
{
    steps_chain::<Brand>();
    same_changes_agree();
    let loaded = load_change(alloc, files, before, after, locations, spec)?;
    Ok(report_on(alloc, &loaded, states)?)
}
