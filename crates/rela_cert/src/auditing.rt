//! The audit of a certificate.

ghost use Rattle.std.specs.Prelude.{◌≡◌, ℕ, ◌<◌, ◌≤◌, ◌^◌, IfOk, OnErr, length};
ghost use Rattle.rela_certfile.specs.Listed.{AreListed};
ghost use Rattle.rela_cert.specs.Audited.{Finds, IsAudited};
ghost use Rattle.rela_cert.specs.Inputs.{subject_of};
ghost use Rattle.rela_cert.specs.Planned.{IsPlanned};
ghost use Rattle.rela_cert.specs.Subject.{IsSubject, layout_of, subject};

use crate::answer::Audit;
use crate::inputs::Inputs;
use crate::planning::{Planning, planning_of};
use crate::row_audit::MAX_STATES;
use crate::shared_judgement::shared_answer_of_row;
use rela_certfile::{Certificate, CertificateError, breaks_once, parse, unbroken};
use rela_names::Alphabet;
use rela_snapshot::FlowPair;
use rela_translate::Check;
use std::alloc::{AllocError, Global};
use std::collections::HashMap;

/// What is found of a certificate for checks of one level, whose names differ, and flows, whose
/// names differ; the alphabet is that of the level. Nothing is searched for, and nothing that the
/// text says is believed: it is accepted only where it lists rows of the plan, and the check of
/// each listed row is met.
///
/// Time and space: linear in the text and the planned rows, expected linear in the graphs of the
/// flows, and those of the judgement of each listed row up to the first that isn't met. Rows with
/// equal blocks, one check, and flows that look the same at its level are judged once as long as no
/// other of them has other blocks. So are the images blocks of rows of one check whose flows have one
/// shape, where they differ in no more than the names of locations. The relations of a check are made
/// once as long as no other of its rows has other complement blocks, and are kept for each check.
///
/// # Errors
///
/// Only where memory is wanted.
pub fn audit(
    alloc: Global,
    checks: &[Check],
    pairs: &[FlowPair],
    alphabet: &Alphabet,
    cert: &[u8],
) -> Result<Audit, AllocError>
    requires subject { IsSubject (subject checks.now pairs.now alphabet.now) }
    requires length { length cert.now ≤ 33554432 }
    ensures { IfOk result (IsAudited (subject checks.now pairs.now alphabet.now) MAX_STATES
        cert.now) }
{
    let inputs = Inputs {
        checks,
        pairs,
        alphabet,
    };
    let planning = planning_of(alloc, &inputs)?;
    let layout = planning.layout(&inputs);
    layout.is_layout();
    unbroken();
    breaks_once();
    match parse(alloc, &layout, cert) {
        Ok(certificate) => audit_rows(alloc, &inputs, &planning, &certificate),
        Err(error) => unread(error),
    }
}

/// The answer to a text that wasn't read. The only error is want of memory.
fn unread(error: CertificateError) -> Result<Audit, AllocError>
    ensures rejected { IfOk result (λ audit. (line : ℕ) × (error ≡ CertificateError.Broken line)
        × (audit ≡ Audit.Rejected line)) }
    ensures memory { OnErr result (error ≡ CertificateError.Memory) }
{
    match error {
        CertificateError::Broken { line } => Ok(Audit::Rejected { line }),
        CertificateError::Memory => Err(AllocError),
    }
}

/// What the audit of the listed rows finds: the answer of the first one whose check isn't shown to
/// be met, or how many they are. Time and space: those of [`shared_answer_of_row`] for each row.
fn audit_rows(
    alloc: Global,
    inputs: &Inputs<'_>,
    planning: &Planning<'_>,
    certificate: &Certificate,
) -> Result<Audit, AllocError>
    requires subject { IsSubject (subject_of inputs.now) }
    requires planned { IsPlanned (subject_of inputs.now) planning.now }
    requires listed { AreListed (layout_of (subject_of inputs.now) planning.now.rows.items)
        certificate.now }
    requires few { length certificate.now < 2 ^ 32 }
    ensures { IfOk result (Finds (subject_of inputs.now) planning.now.rows.items MAX_STATES
        certificate.now) }
{
    let mut known = HashMap::new(alloc);
    let mut kept = HashMap::new(alloc);
    for number in 0..certificate.len() {
        let answer = shared_answer_of_row(
            alloc,
            inputs,
            planning,
            certificate,
            number,
            &mut known,
            &mut kept,
        )?;
        if let Some(audit) = answer {
            return Ok(audit);
        }
    }
    Ok(Audit::Accepted {
        rows: certificate.len() as u32,
    })
}
