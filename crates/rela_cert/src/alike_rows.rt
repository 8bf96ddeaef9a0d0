//! The judgement of a row that is alike before and after the change.

ghost use Rattle.std.specs.Prelude.{◌≡◌, ℕ, ◌↔◌, IsTrue, IfOk, List};
ghost use Rattle.rela_blocks.specs.RowBlocks.{AreRowBlocks};
ghost use Rattle.rela_certfile.specs.Listed.{IsBlock, words_of};
ghost use Rattle.rela_certfile.specs.declared.rows.Step.{Step};
ghost use Rattle.rela_nfa.specs.Relabelling.{Refines};
ghost use Rattle.rela_translate.specs.Verdict.{Meets};
ghost use Rattle.rela_cert.specs.CheckRelations.{IsAlike};
ghost use Rattle.rela_cert.specs.KeptChecks.{IsKept};
ghost use Rattle.rela_cert.specs.RowParts.{IsBeforeImage, locations_of, paths_at, symbols_at};
ghost use Rattle.rela_cert.specs.Rows.{IsImageClosed, Judges};

use crate::check_relations::CheckRelations;
use crate::flow_images::before_image;
use crate::judgement::Judgement;
use crate::kept_checks::KeptCheck;
use crate::lettered::lettered;
use crate::row::Row;
use crate::row_audit::{MAX_STATES, all_letters};
use crate::scene_laws::Rows;
use crate::words::are_closed;
use rela_certfile::Step;
use rela_labels::{Partition, WideSet};
use rela_nfa::Nfa;
use rela_pairs::pass_limit;
use rela_translate::terms_mean_the_body;
use std::alloc::{AllocError, Global};

/// Whether one relation serves both sides of the change, and the flow's graphs look the same on both
/// at the check's level: then the two images have the same words. Time: linear in the nodes and the
/// edges.
pub(crate) fn is_alike(row: &Row<'_>, relations: &CheckRelations) -> bool
    ensures { IsTrue result ↔ IsAlike row.now relations.now }
{
    if relations.after.is_some() {
        return false;
    }
    let level = row.check.level();
    row.pair.before.at(level) == row.pair.after.at(level)
}

/// What is found of the images block of a row that is alike on both sides: its check is met, but the
/// block is judged all the same. One image is made, and the words are followed on it alone.
///
/// Time and space: those of [`before_image`], and for each listed word a look-up for each letter. The
/// only error is want of memory.
pub(crate) fn judge_alike(
    alloc: Global,
    row: &Row<'_>,
    kept: &KeptCheck,
    blocks: &Partition,
    images: &[Step],
) -> Result<Judgement, AllocError>
    requires kept { (count : ℕ) × IsKept count (locations_of row.now) row.now.check.now kept.now }
    requires blocks { AreRowBlocks row.now.check.now row.now.alphabet.now row.now.pair.now.before
        row.now.pair.now.after blocks.now }
    requires finer { Refines blocks.now kept.now.parts.blocks }
    requires images { IsBlock (symbols_at row.now) images.now }
    requires alike { IsAlike row.now kept.now.relations }
    ensures judged { IfOk result (λ judgement. (complements : List (List Step)) →
        Judges row.now.check.now (locations_of row.now) (paths_at row.now) MAX_STATES complements
        images.now judgement) }
    ensures closed { IfOk result (λ judgement. judgement ≡ Judgement.Met →
        IsImageClosed row.now.check.now (locations_of row.now) (paths_at row.now)
        (words_of images.now)) }
{
    terms_mean_the_body::<Rows>();
    let pair = row.pair;
    pair.before
        .same_outline_same_paths(&pair.after, row.check.level());
    match before_image(alloc, row, &kept.relations, &kept.parts.blocks, blocks) {
        Ok(image) => judge_one(alloc, row, blocks, &image, images),
        Err(error) => {
            pass_limit(error)?;
            Ok(Judgement::TooLarge)
        }
    }
}

/// What is found of the images block of a row whose check is met, by the automaton of the image of the
/// paths before the change. The only error is want of memory.
fn judge_one(
    alloc: Global,
    row: &Row<'_>,
    blocks: &Partition,
    image: &Nfa<WideSet>,
    images: &[Step],
) -> Result<Judgement, AllocError>
    requires blocks { AreRowBlocks row.now.check.now row.now.alphabet.now row.now.pair.now.before
        row.now.pair.now.after blocks.now }
    requires images { IsBlock (symbols_at row.now) images.now }
    requires image { IsBeforeImage (Unit {0}) row.now blocks.now image.now }
    requires met { Meets row.now.check.now (locations_of row.now) (paths_at row.now).pre
        (paths_at row.now).post }
    ensures judged { IfOk result (λ judgement. (complements : List (List Step)) →
        Judges row.now.check.now (locations_of row.now) (paths_at row.now) MAX_STATES complements
        images.now judgement) }
    ensures closed { IfOk result (λ judgement. judgement ≡ Judgement.Met →
        IsImageClosed row.now.check.now (locations_of row.now) (paths_at row.now)
        (words_of images.now)) }
{
    let count = blocks.blocks();
    let all = all_letters(alloc, count)?;
    let steps = lettered(alloc, blocks, images)?;
    let closed = are_closed(alloc, image, &all, steps.as_slice())?;
    if closed {
        Ok(Judgement::Met)
    } else {
        Ok(Judgement::BadImages)
    }
}
