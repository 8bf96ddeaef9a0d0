//! Judgements of listed rows that are shared.

ghost use Rattle.std.specs.Prelude.{◌≡◌, ◌<◌, ◌↔◌, ℕ, IfNone, IfOk, IfSome, IsSomeAnd, IsTrue, OnOk, Some, length};
ghost use Rattle.std.specs.List.{slice_get};
ghost use Rattle.std.specs.HashMap.{get};
ghost use Rattle.rela_certfile.specs.Blocks.{blocks_of_row};
ghost use Rattle.rela_certfile.specs.Listed.{AreListed};
ghost use Rattle.rela_certfile.specs.declared.rows.ListedRow.{ListedRow};
ghost use Rattle.rela_cert.specs.Audited.{Finds, IsMet};
ghost use Rattle.rela_cert.specs.Inputs.{subject_of};
ghost use Rattle.rela_cert.specs.KeptChecks.{AreKept};
ghost use Rattle.rela_cert.specs.Planned.{IsPlanned};
ghost use Rattle.rela_cert.specs.Sharing.{AreKnownMet, same_numbers};
ghost use Rattle.rela_cert.specs.Subject.{IsSubject, layout_of};

use crate::answer::Audit;
use crate::inputs::Inputs;
use crate::kept_checks::KeptChecks;
use crate::listed_row::answer_of_row;
use crate::planning::Planning;
use crate::row::flow_and_check;
use crate::row_audit::MAX_STATES;
use crate::same_blocks::have_same_blocks;
use crate::shared_rows::rows_carry_over;
use rela_certfile::Certificate;
use std::alloc::{AllocError, Global};
use std::collections::HashMap;

/// By the indexes of a flow and a check, in this order, the number of the last listed row that was
/// judged to be met among those of the check and of flows that look like this one.
pub(crate) type KnownMet = HashMap<(usize, usize), usize>;

/// The answer that the listed row of this number gives the audit, and `None` where its check is
/// met. A row with the blocks of one in `known` whose check it has, and whose flow looks the same,
/// is met as that one is; else it is judged. Time and space: linear in its blocks, and where it is
/// judged those of [`answer_of_row`]. The only error is want of memory.
pub(crate) fn shared_answer_of_row(
    alloc: Global,
    inputs: &Inputs<'_>,
    planning: &Planning<'_>,
    certificate: &Certificate,
    number: usize,
    known: &mut KnownMet,
    kept: &mut KeptChecks,
) -> Result<Option<Audit>, AllocError>
    requires subject { IsSubject (subject_of inputs.now) }
    requires planned { IsPlanned (subject_of inputs.now) planning.now }
    requires listed { AreListed (layout_of (subject_of inputs.now) planning.now.rows.items)
        certificate.now }
    requires number { number < length certificate.now }
    requires known { AreKnownMet (subject_of inputs.now) (length certificate.now) known.old }
    requires kept { AreKept (subject_of inputs.now) (length certificate.now) kept.old }
    ensures met { IfOk result (λ found. IfNone found ((row : ListedRow) →
        slice_get certificate.now number ≡ Some row →
        IsMet (subject_of inputs.now) planning.now.rows.items row)) }
    ensures answer { IfOk result (λ found. IfSome found (λ audit.
        Finds (subject_of inputs.now) planning.now.rows.items MAX_STATES certificate.now audit)) }
    ensures known { OnOk result
        (AreKnownMet (subject_of inputs.now) (length certificate.now) known.new) }
    ensures kept { OnOk result
        (AreKept (subject_of inputs.now) (length certificate.now) kept.new) }
{
    let (flow, check) = flow_and_check(inputs, planning, certificate, number);
    let other = planning.alike[flow];
    let (pair, another) = (&inputs.pairs[flow], &inputs.pairs[other]);
    rows_carry_over(&inputs.checks[check], pair, another, inputs.alphabet);
    if is_known(certificate, number, known, (other, check)) {
        return Ok(None);
    }
    let answer = answer_of_row(alloc, inputs, planning, certificate, number, kept)?;
    if answer.is_none() {
        rows_carry_over(&inputs.checks[check], another, pair, inputs.alphabet);
        known.insert((other, check), number)?;
    }
    Ok(answer)
}

/// Whether the listed row of this number has the blocks of the one that is known by the key. Time:
/// linear in the blocks.
fn is_known(certificate: &Certificate, number: usize, known: &KnownMet, key: (usize, usize)) -> bool
    requires within { (key : ℕ × ℕ) (row : ℕ) → get same_numbers known.now key ≡ Some row →
        row < length certificate.now }
    requires number { number < length certificate.now }
    ensures { IsTrue result ↔ IsSomeAnd (get same_numbers known.now key) (λ row.
        blocks_of_row (slice_get certificate.now row)
        ≡ blocks_of_row (slice_get certificate.now number)) }
{
    match known.get(&key) {
        Some(row) => have_same_blocks(certificate, *row, number),
        None => false,
    }
}
