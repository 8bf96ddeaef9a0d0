//! From the files of a change and a certificate to the answer of an audit.

ghost use Rattle.std.specs.Prelude.{◌≡◌, ◌≢◌, ◌≤◌, Err, All, IsTrue, IfOk, is_some, length};
ghost use Rattle.rela_audit.specs.Audits.{AnswersAudit, Audits, SameAudits, answer_to};
ghost use Rattle.rela_expand.specs.Listed.{ListsPathSymbols};
ghost use Rattle.rela_inputs.specs.Answer.{answer_by, IsOutcomeStatus};
ghost use Rattle.rela_inputs.specs.Given.{IsGiven, seen};
ghost use Rattle.rela_inputs.specs.Loaded.{NamesDiffer, loaded_by, names_of};
ghost use Rattle.rela_inputs.specs.Reading.{Ends};
ghost use Rattle.rela_io.specs.Held.{HoldsName};
ghost use Rattle.rela_snapshot.specs.PairsLocated.{ArePairsLocated};

use rela_cert::{Audit, audit};
use rela_inputs::{
    Answer, Halt, Input, Loaded, MET, UNDECIDED, VIOLATED, load_change, read_input,
    same_checks_are_equal, steps_chain,
};
use rela_io::Files;
use rela_plan::plans_are_equal;
use std::alloc::{AllocError, Global};
use std::marker::Brand;

/// Loads the change in the files of these names, as [`load_change`] does, then reads the
/// certificate in the file of the last name, and audits it. Time and space: those of decoding the
/// files and of [`audit`].
///
/// # Errors
///
/// The first refusal, read fault or want of memory ends it. A certificate is refused only where it
/// is too long.
pub fn audit_files<F: Files>(
    alloc: Global,
    files: &mut F,
    before: &str,
    after: &str,
    locations: &str,
    spec: &str,
    certificate: &str,
) -> Result<Answer, Halt>
    ensures given { IsGiven (is_some (F.holds files.old)) (F.steady files.old) SameAudits
        (Audits (F.holds files.old) before.now after.now locations.now spec.now certificate.now)
        (seen answer_by result) }
    ensures status { IfOk result (λ answer. IsOutcomeStatus answer.status) }
    ensures ends { Ends (F.faults files.old) (F.faults files.new) (F.given files.new) result }
    ensures steady_is_no_fault { IsTrue (F.steady files.old) →
        HoldsName (F.holds files.old) before.now →
        HoldsName (F.holds files.old) after.now →
        HoldsName (F.holds files.old) locations.now →
        HoldsName (F.holds files.old) spec.now →
        HoldsName (F.holds files.old) certificate.now →
        result ≢ Err Halt.ReadFault }
{
    steps_chain::<Brand>();
    same_checks_are_equal();
    plans_are_equal();
    let loaded = load_change(alloc, files, before, after, locations, spec)?;
    let text = read_input(alloc, files, Input::Certificate, certificate)?;
    Ok(audit_loaded(alloc, &loaded, text.as_slice())?)
}

/// What the audit of this text finds for a loaded change. The only error is want of memory.
fn audit_loaded(alloc: Global, loaded: &Loaded, text: &[u8]) -> Result<Answer, AllocError>
    requires length { length text.now ≤ 33554432 }
    requires listed { All (ListsPathSymbols (names_of (loaded_by loaded.now)))
        loaded.now.asked.checks.items }
    requires located { All (λ check. ArePairsLocated (names_of (loaded_by loaded.now)) check.level
        loaded.now.pairs.items) loaded.now.asked.checks.items }
    requires names_differ { NamesDiffer (loaded_by loaded.now) }
    ensures audited { IfOk result (λ answer.
        AnswersAudit (loaded_by loaded.now) text.now (answer_by answer)) }
    ensures status { IfOk result (λ answer. IsOutcomeStatus answer.status) }
{
    let alphabet = loaded.locations.alphabet(loaded.asked.level);
    let found = audit(alloc, &loaded.asked.checks, &loaded.pairs, alphabet, text)?;
    answer_to(alloc, found)
}

/// The line that says what was found, and its status. The only error is want of memory.
fn answer_to(alloc: Global, found: Audit) -> Result<Answer, AllocError>
    ensures answer { IfOk result (λ answer. answer_by answer ≡ answer_to found) }
    ensures status { IfOk result (λ answer. IsOutcomeStatus answer.status) }
{
    match found {
        Audit::Accepted { rows } => Ok(Answer {
            text: format!(in alloc; "accepted {rows}\n")?.into_bytes(),
            status: MET,
        }),
        Audit::Rejected { line } => Ok(Answer {
            text: format!(in alloc; "rejected at {line}\n")?.into_bytes(),
            status: VIOLATED,
        }),
        Audit::TooLarge => Ok(Answer {
            text: Vec::from_slice(alloc, b"undecided\n")?,
            status: UNDECIDED,
        }),
    }
}
