//! What one listed row of a certificate gives its audit.

ghost use Rattle.std.specs.Prelude.{◌≡◌, ℕ, ◌<◌, ◌≤◌, IfNone, IfOk, IfSome, IsSome, OnOk, Some, length};
ghost use Rattle.std.specs.List.{slice_get};
ghost use Rattle.rela_certfile.specs.Blocks.{block_at};
ghost use Rattle.rela_certfile.specs.Listed.{AreListed};
ghost use Rattle.rela_certfile.specs.declared.rows.ListedRow.{ListedRow};
ghost use Rattle.rela_cert.specs.Answers.{answer_by};
ghost use Rattle.rela_cert.specs.Audited.{Finds, IsMet};
ghost use Rattle.rela_cert.specs.Inputs.{subject_of};
ghost use Rattle.rela_cert.specs.KeptChecks.{AreKept};
ghost use Rattle.rela_cert.specs.Planned.{IsPlanned};
ghost use Rattle.rela_cert.specs.Subject.{IsSubject, layout_of};

use crate::answer::Audit;
use crate::inputs::Inputs;
use crate::judgement::Judgement;
use crate::kept_checks::KeptChecks;
use crate::planning::Planning;
use crate::row::{flow_and_check, row_at};
use crate::row_audit::{MAX_STATES, audit_row};
use rela_certfile::{Certificate, listed_blocks};
use std::alloc::{AllocError, Global};

/// The answer that the listed row of this number gives the audit, and `None` where its check is
/// met. What is made of its check is kept for further rows. Time and space: those of [`audit_row`]. The
/// only error is want of memory.
pub(crate) fn answer_of_row(
    alloc: Global,
    inputs: &Inputs<'_>,
    planning: &Planning<'_>,
    certificate: &Certificate,
    number: usize,
    kept: &mut KeptChecks,
) -> Result<Option<Audit>, AllocError>
    requires subject { IsSubject (subject_of inputs.now) }
    requires planned { IsPlanned (subject_of inputs.now) planning.now }
    requires listed { AreListed (layout_of (subject_of inputs.now) planning.now.rows.items)
        certificate.now }
    requires number { number < length certificate.now }
    requires kept { AreKept (subject_of inputs.now) (length certificate.now) kept.old }
    ensures met { IfOk result (λ found. IfNone found ((row : ListedRow) →
        slice_get certificate.now number ≡ Some row →
        IsMet (subject_of inputs.now) planning.now.rows.items row)) }
    ensures answer { IfOk result (λ found. IfSome found (λ audit.
        Finds (subject_of inputs.now) planning.now.rows.items MAX_STATES certificate.now audit)) }
    ensures kept { OnOk result
        (AreKept (subject_of inputs.now) (length certificate.now) kept.new) }
{
    listed_blocks();
    let (_, check) = flow_and_check(inputs, planning, certificate, number);
    let row = row_at(inputs, planning, certificate, number);
    let complements = certificate.complements(alloc, number)?;
    let images = certificate.images(number);
    let judgement = audit_row(
        alloc,
        inputs,
        certificate,
        number,
        check,
        &row,
        complements.as_slice(),
        images,
        kept,
    )?;
    Ok(answer_to(certificate, number, complements.len(), judgement))
}

/// The answer that a judgement of the listed row of this number gives, which has so many complement
/// blocks, and `None` where the check is met.
fn answer_to(
    certificate: &Certificate,
    number: usize,
    count: usize,
    judgement: Judgement,
) -> Option<Audit>
    requires blocks { (k : ℕ) → k ≤ count → IsSome (block_at certificate.now number k) }
    requires block { (k : ℕ) → judgement ≡ Judgement.OpenComplement k → k < count }
    ensures { result ≡ answer_by certificate.now number count judgement }
{
    match judgement {
        Judgement::Met => None,
        Judgement::OpenComplement(block) => Some(Audit::Rejected {
            line: certificate.head_line(number, block),
        }),
        Judgement::BadImages => Some(Audit::Rejected {
            line: certificate.head_line(number, count),
        }),
        Judgement::TooLarge => Some(Audit::TooLarge),
    }
}
