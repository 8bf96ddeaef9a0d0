//! The report on a change, as the words ask for it.

ghost use Rattle.std.specs.Prelude.{◌≢◌, ◌≤◌, Err, IsTrue, IfOk, is_some, string_bytes};
ghost use Rattle.rela_io.specs.Held.{HoldsName};
ghost use Rattle.rela_inputs.specs.Answer.{answer_by, IsOutcomeStatus};
ghost use Rattle.rela_check.specs.Blames.{ReportsAs, SameAs};
ghost use Rattle.rela_inputs.specs.Given.{IsGiven, seen};
ghost use Rattle.rela_inputs.specs.Reading.{Ends};

use crate::blaming::report_blamed;
use crate::reporting::report;
use rela_inputs::{Answer, Halt};
use rela_io::Files;
use rela_words::Check;
use std::alloc::Global;

/// The report on the change in the files that the words name, by [`report`], or by [`report_blamed`]
/// where its flag is given.
///
/// # Errors
///
/// The first refusal, read fault or want of memory ends it.
pub fn report_asked<F: Files>(alloc: Global, files: &mut F, check: &Check) -> Result<Answer, Halt>
    requires some { 1 ≤ check.now.states }
    ensures given { IsGiven (is_some (F.holds files.old)) (F.steady files.old)
        (SameAs check.now.blame) (ReportsAs check.now.blame (F.holds files.old)
        (string_bytes check.now.before) (string_bytes check.now.after)
        (string_bytes check.now.locations) (string_bytes check.now.spec) check.now.states)
        (seen answer_by result) }
    ensures status { IfOk result (λ answer. IsOutcomeStatus answer.status) }
    ensures ends { Ends (F.faults files.old) (F.faults files.new) (F.given files.new) result }
    ensures steady_is_no_fault { IsTrue (F.steady files.old) →
        HoldsName (F.holds files.old) (string_bytes check.now.before) →
        HoldsName (F.holds files.old) (string_bytes check.now.after) →
        HoldsName (F.holds files.old) (string_bytes check.now.locations) →
        HoldsName (F.holds files.old) (string_bytes check.now.spec) →
        result ≢ Err Halt.ReadFault }
{
    let (before, after) = (check.before.as_str(), check.after.as_str());
    let (locations, spec) = (check.locations.as_str(), check.spec.as_str());
    if check.blame {
        report_blamed(alloc, files, before, after, locations, spec, check.states)
    } else {
        report(alloc, files, before, after, locations, spec, check.states)
    }
}
