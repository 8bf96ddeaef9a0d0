//! From the files of a change to a certificate of the rows that are met.

ghost use Rattle.std.specs.Prelude.{◌≢◌, ◌≤◌, Err, All, IsTrue, IfOk, is_some};
ghost use Rattle.rela_audit.specs.Audits.{subject_of};
ghost use Rattle.rela_audit.specs.Certifies.{AnswersCertificate, Certifies, SameCertificates};
ghost use Rattle.rela_expand.specs.Listed.{ListsPathSymbols};
ghost use Rattle.rela_inputs.specs.Answer.{answer_by, IsOutcomeStatus};
ghost use Rattle.rela_inputs.specs.Given.{IsGiven, seen};
ghost use Rattle.rela_inputs.specs.Loaded.{NamesDiffer, loaded_by, names_of};
ghost use Rattle.rela_inputs.specs.Reading.{Ends};
ghost use Rattle.rela_io.specs.Held.{HoldsName};
ghost use Rattle.rela_snapshot.specs.PairsLocated.{ArePairsLocated};

use rela_cert::certify;
use rela_inputs::{Answer, Halt, Loaded, MET, load_change, same_checks_are_equal, steps_chain};
use rela_io::Files;
use std::alloc::{AllocError, Global};
use std::marker::Brand;

/// Loads the change in the files of these names, as [`load_change`] does, and writes the
/// certificate of its rows that are met. A row is left out where its check is violated, or where
/// its images may have more places than `states`. Time and space: those of decoding the files and
/// of [`certify`].
///
/// # Errors
///
/// The first refusal, read fault or want of memory ends it.
pub fn certify_files<F: Files>(
    alloc: Global,
    files: &mut F,
    before: &str,
    after: &str,
    locations: &str,
    spec: &str,
    states: usize,
) -> Result<Answer, Halt>
    requires some { 1 ≤ states }
    requires few { states ≤ 4000000 }
    ensures given { IsGiven (is_some (F.holds files.old)) (F.steady files.old)
        (SameCertificates states)
        (Certifies (F.holds files.old) before.now after.now locations.now spec.now states)
        (seen answer_by result) }
    ensures status { IfOk result (λ answer. IsOutcomeStatus answer.status) }
    ensures ends { Ends (F.faults files.old) (F.faults files.new) (F.given files.new) result }
    ensures steady_is_no_fault { IsTrue (F.steady files.old) →
        HoldsName (F.holds files.old) before.now →
        HoldsName (F.holds files.old) after.now →
        HoldsName (F.holds files.old) locations.now →
        HoldsName (F.holds files.old) spec.now →
        result ≢ Err Halt.ReadFault }
{
    steps_chain::<Brand>();
    same_checks_are_equal();
    let loaded = load_change(alloc, files, before, after, locations, spec)?;
    Ok(certify_loaded(alloc, &loaded, states)?)
}

/// The certificate of a loaded change, and its status. The only error is want of memory.
fn certify_loaded(alloc: Global, loaded: &Loaded, states: usize) -> Result<Answer, AllocError>
    requires some { 1 ≤ states }
    requires few { states ≤ 4000000 }
    requires listed { All (ListsPathSymbols (names_of (loaded_by loaded.now)))
        loaded.now.asked.checks.items }
    requires located { All (λ check. ArePairsLocated (names_of (loaded_by loaded.now)) check.level
        loaded.now.pairs.items) loaded.now.asked.checks.items }
    requires names_differ { NamesDiffer (loaded_by loaded.now) }
    ensures certified { IfOk result (λ answer.
        AnswersCertificate (subject_of (loaded_by loaded.now)) states (answer_by answer)) }
    ensures status { IfOk result (λ answer. IsOutcomeStatus answer.status) }
{
    let alphabet = loaded.locations.alphabet(loaded.asked.level);
    let text = certify(alloc, &loaded.asked.checks, &loaded.pairs, alphabet, states)?;
    Ok(Answer { text, status: MET })
}
