//! Judgements of listed rows that differ in no more than the names of locations.

ghost use Rattle.std.specs.Prelude.{◌≡◌, ℕ, ◌<◌, ◌≤◌, true, cond, IfOk, List, OnOk, map};
ghost use Rattle.std.specs.HashSet.{contains, hash_set_len};
ghost use Rattle.rela_blocks.specs.RowBlocks.{AreCheckBlocks};
ghost use Rattle.rela_certfile.specs.Listed.{IsBlock};
ghost use Rattle.rela_certfile.specs.declared.rows.Step.{Step};
ghost use Rattle.rela_shape.specs.Shape.{IsShape, places_of};
ghost use Rattle.rela_snapshot.specs.PairsLocated.{IsPairLocated};
ghost use Rattle.rela_cert.specs.KeptChecks.{IsKept, IsKeptWithForms};
ghost use Rattle.rela_cert.specs.RenamedBlocks.{renamed_step};
ghost use Rattle.rela_cert.specs.RowForms.{IsMetShape, same_form};
ghost use Rattle.rela_cert.specs.RowParts.{locations_of, paths_at, symbols_at};
ghost use Rattle.rela_cert.specs.Rows.{Judges};
ghost use Rattle.rela_cert.specs.Sharing.{IsMetBy};
ghost use Rattle.rela_cert.specs.declared.row_forms.RowForm.{RowForm};

use crate::judgement::Judgement;
use crate::kept_checks::KeptCheck;
use crate::renamed_blocks::{RenamedStep, renamed_block};
use crate::row::Row;
use crate::row_audit::{MAX_STATES, judge_images};
use crate::scene_laws::Rows;
use rela_certfile::Step;
use rela_labels::Partition;
use rela_shape::{Shape, one_shape_renames, renamed_flows_meet_alike};
use rela_translate::terms_mean_the_body;
use std::alloc::{AllocError, Global};
use std::collections::HashSet;

/// What a row of a check is but for the names of locations, as far as its judgement goes once its
/// complement blocks are judged.
#[derive(PartialEq, Eq, Hash, Drop)]
pub(crate) struct RowForm {
    /// The shape of its flow.
    shape: Shape,
    /// Its images block.
    block: Vec<RenamedStep>,
}

/// The forms of rows of a check that were judged to be met.
pub(crate) type MetForms = HashSet<RowForm>;

/// How many forms are kept of a check. Where there are more, hardly two rows have one.
const MAX_FORMS: usize = 256;

/// What is found of the images block of a row. It is met as one of its check is that was judged to be
/// met, if they have one form; else it is judged, and where it is met its form is kept.
///
/// Time and space: expected linear in the flow's graphs and the block, with a binary search for each
/// node and step among the symbols that stand apart in the check's blocks, and where the row is judged
/// those of [`judge_images`]. The only error is want of memory.
pub(crate) fn judge_by_form(
    alloc: Global,
    row: &Row<'_>,
    kept: &mut KeptCheck,
    images: &[Step],
) -> Result<Judgement, AllocError>
    requires kept { (count : ℕ) × IsKeptWithForms count row.now.alphabet.now row.now.check.now
        kept.old }
    requires located { IsPairLocated row.now.alphabet.now row.now.check.now.level row.now.pair.now }
    requires images { IsBlock (symbols_at row.now) images.now }
    ensures judged { IfOk result (λ judgement. (complements : List (List Step)) →
        Judges row.now.check.now (locations_of row.now) (paths_at row.now) MAX_STATES complements
        images.now judgement) }
    ensures kept { OnOk result ((count : ℕ) →
        IsKeptWithForms count row.now.alphabet.now row.now.check.now kept.old →
        IsKeptWithForms count row.now.alphabet.now row.now.check.now kept.new) }
{
    let form = form_of(alloc, row, &kept.parts.blocks, images)?;
    if kept.met.contains(&form) {
        met_forms_are_met(row, kept, &form);
        return Ok(Judgement::Met);
    }
    let judgement = judge_images(alloc, row, kept, images)?;
    if let Judgement::Met = judgement {
        keep_form(&mut kept.met, form)?;
    }
    Ok(judgement)
}

/// The form of the row, where these are the blocks of its check. The only error is want of memory.
fn form_of(
    alloc: Global,
    row: &Row<'_>,
    blocks: &Partition,
    images: &[Step],
) -> Result<RowForm, AllocError>
    requires blocks { AreCheckBlocks row.now.check.now (locations_of row.now) blocks.now }
    requires located { IsPairLocated row.now.alphabet.now row.now.check.now.level row.now.pair.now }
    requires images { IsBlock (symbols_at row.now) images.now }
    ensures shape { IfOk result (λ form. IsShape blocks.now row.now.check.now.level
        row.now.pair.now form.shape) }
    ensures block { IfOk result (λ form. form.block.items ≡ map (renamed_step blocks.now
        (places_of row.now.check.now.level row.now.pair.now)) images.now) }
{
    let level = row.check.level();
    let shape = Shape::of(alloc, row.pair, level, blocks)?;
    let block = renamed_block(alloc, row.pair, level, blocks, images)?;
    Ok(RowForm { shape, block })
}

/// Keeps the form, unless as many are kept as may be. The only error is want of memory.
fn keep_form(met: &mut MetForms, form: RowForm) -> Result<(), AllocError>
    ensures room { OnOk result (hash_set_len met.old < MAX_FORMS → (other : RowForm) →
        contains same_form met.new other
        ≡ cond (same_form form other) true (contains same_form met.old other)) }
    ensures full { OnOk result (MAX_FORMS ≤ hash_set_len met.old → met.new ≡ met.old) }
{
    if met.len() < MAX_FORMS {
        met.insert(form)?;
    }
    Ok(())
}

/// A check is met by the flow of a form whose shape some flow has which meets it. The call does nothing,
/// and its contract is this law.
fn met_forms_are_met(row: &Row<'_>, kept: &KeptCheck, form: &RowForm)
    requires kept { (count : ℕ) × IsKept count (locations_of row.now) row.now.check.now kept.now }
    requires located { IsPairLocated row.now.alphabet.now row.now.check.now.level row.now.pair.now }
    requires shape { IsShape kept.now.parts.blocks row.now.check.now.level row.now.pair.now
        form.now.shape }
    ensures { IsMetShape row.now.alphabet.now row.now.check.now kept.now.parts.blocks
        form.now.shape → IsMetBy (locations_of row.now) row.now.check.now (paths_at row.now) }
{
    terms_mean_the_body::<Rows>();
    one_shape_renames();
    renamed_flows_meet_alike();
}
