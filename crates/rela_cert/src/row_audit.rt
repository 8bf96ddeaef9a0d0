//! The judgement of one listed row.

ghost use Rattle.std.specs.Prelude.{◌≡◌, ℕ, ◌<◌, ◌⊎◌, true, List, IfOk, OnOk, OnErr, Some, All, length, map};
ghost use Rattle.std.specs.List.{slice_get};
ghost use Rattle.rela_blocks.specs.RowBlocks.{AreRowBlocks};
ghost use Rattle.rela_certfile.specs.Listed.{IsBlock};
ghost use Rattle.rela_certfile.specs.declared.rows.Step.{Step};
ghost use Rattle.rela_labels.specs.Letters.{has};
ghost use Rattle.rela_snapshot.specs.PairsLocated.{IsPairLocated};
ghost use Rattle.rela_translate.specs.Zones.{path_symbols};
ghost use Rattle.rela_cert.specs.Inputs.{subject_of};
ghost use Rattle.rela_cert.specs.KeptChecks.{AreKept, IsKept};
ghost use Rattle.rela_cert.specs.RowParts.{IsAfterImage, IsBeforeImage, locations_of, paths_at, symbols_at};
ghost use Rattle.rela_cert.specs.Rows.{Judges};

use crate::alike_rows::{is_alike, judge_alike};
use crate::flow_images::flow_images;
use crate::images::Images;
use crate::inputs::Inputs;
use crate::judgement::Judgement;
use crate::kept_checks::{KeptCheck, KeptChecks, relations_of_row};
use crate::lettered::lettered;
use crate::row::Row;
use crate::row_forms::judge_by_form;
use crate::scene_laws::Rows;
use crate::words::judge_words;
use rela_blocks::row_blocks;
use rela_build::Stop;
use rela_certfile::{Certificate, Step};
use rela_labels::{LabelSet, Partition, WideSet};
use rela_pairs::pass_limit;
use rela_translate::images_mean_the_body;
use std::alloc::{AllocError, Global};

/// How many states an automaton may have.
pub const MAX_STATES: usize = 4_000_000;

/// What is found of the blocks of the listed row of this number, which is a row of the check of this
/// index: the complement blocks, in the order of the complements in the check's two images, and the
/// images block. Nothing is searched for: each complement is made by the words of its block, once for
/// the rows of a check with the same complement blocks that follow one another.
///
/// Time and space: linear in the complement blocks, and where they aren't those of the check's row
/// before it those of [`relations_of_row`]; and those of [`judge_by_form`]. The only error is want of
/// memory.
pub(crate) fn audit_row(
    alloc: Global,
    inputs: &Inputs<'_>,
    certificate: &Certificate,
    number: usize,
    check: usize,
    row: &Row<'_>,
    complements: &[&[Step]],
    images: &[Step],
    kept: &mut KeptChecks,
) -> Result<Judgement, AllocError>
    requires number { number < length certificate.now }
    requires check { slice_get inputs.now.checks.now check ≡ Some row.now.check.now }
    requires alphabet { row.now.alphabet.now ≡ inputs.now.alphabet.now }
    requires classes { All (λ set. All (λ s. s < path_symbols (locations_of row.now)) set.members)
        row.now.check.now.classes }
    requires located { IsPairLocated row.now.alphabet.now row.now.check.now.level row.now.pair.now }
    requires complements { All (λ block. IsBlock (path_symbols (locations_of row.now)) block.now)
        complements.now }
    requires images { IsBlock (symbols_at row.now) images.now }
    requires kept { AreKept (subject_of inputs.now) (length certificate.now) kept.old }
    ensures judged { IfOk result (Judges row.now.check.now (locations_of row.now)
        (paths_at row.now) MAX_STATES (map (λ block. block.now) complements.now) images.now) }
    ensures kept { OnOk result (AreKept (subject_of inputs.now) (length certificate.now) kept.new) }
{
    let found = kept.remove(&check);
    match relations_of_row(alloc, certificate, number, row, complements, found) {
        Ok(mut one) => {
            let judgement = judge_by_form(alloc, row, &mut one, images);
            kept.insert(check, one)?;
            judgement
        }
        Err(stop) => stopped(stop),
    }
}

/// What is found of a row of which the relations weren't made; the error is want of memory.
fn stopped(stop: Stop) -> Result<Judgement, AllocError>
    ensures judged { IfOk result (λ judgement.
        ((stop ≡ Stop.Limit) × (judgement ≡ Judgement.TooLarge))
        ⊎ ((number : ℕ) × (stop ≡ Stop.Refused number)
        × (judgement ≡ Judgement.OpenComplement number))) }
    ensures memory { OnErr result (stop ≡ Stop.Memory) }
{
    match stop {
        Stop::Limit => Ok(Judgement::TooLarge),
        Stop::Refused(number) => Ok(Judgement::OpenComplement(number)),
        Stop::Memory => Err(AllocError),
    }
}

/// What is found of the images block of a row, by the relations that are kept of its check. One image
/// is made of a row that is alike on both sides.
///
/// Time and space: those of the row's blocks and of [`flow_images`], and for each listed word a look-up
/// for each letter. The only error is want of memory.
pub(crate) fn judge_images(
    alloc: Global,
    row: &Row<'_>,
    kept: &KeptCheck,
    images: &[Step],
) -> Result<Judgement, AllocError>
    requires kept { (count : ℕ) × IsKept count (locations_of row.now) row.now.check.now kept.now }
    requires located { IsPairLocated row.now.alphabet.now row.now.check.now.level row.now.pair.now }
    requires images { IsBlock (symbols_at row.now) images.now }
    ensures { IfOk result (λ judgement. (complements : List (List Step)) →
        Judges row.now.check.now (locations_of row.now) (paths_at row.now) MAX_STATES complements
        images.now judgement) }
{
    let coarse = &kept.parts.blocks;
    let blocks = row_blocks(alloc, row.check, row.pair, row.alphabet, coarse)?;
    if is_alike(row, &kept.relations) {
        return judge_alike(alloc, row, kept, &blocks, images);
    }
    match flow_images(alloc, row, &kept.relations, coarse, &blocks) {
        Ok(both) => judge_over(alloc, row, &blocks, &both, images),
        Err(error) => {
            pass_limit(error)?;
            Ok(Judgement::TooLarge)
        }
    }
}

/// What is found of the images block, by the automata of the two images. The only error is want of
/// memory.
fn judge_over(
    alloc: Global,
    row: &Row<'_>,
    blocks: &Partition,
    both: &Images,
    images: &[Step],
) -> Result<Judgement, AllocError>
    requires blocks { AreRowBlocks row.now.check.now row.now.alphabet.now row.now.pair.now.before
        row.now.pair.now.after blocks.now }
    requires images { IsBlock (symbols_at row.now) images.now }
    requires before { IsBeforeImage (Unit {0}) row.now blocks.now both.now.before }
    requires after { IsAfterImage (Unit {0}) row.now blocks.now both.now.after }
    ensures { IfOk result (λ judgement. (complements : List (List Step)) →
        Judges row.now.check.now (locations_of row.now) (paths_at row.now) MAX_STATES complements
        images.now judgement) }
{
    images_mean_the_body::<Rows>();
    let count = blocks.blocks();
    let all = all_letters(alloc, count)?;
    let steps = lettered(alloc, blocks, images)?;
    judge_words(alloc, row.check.at_most(), both, &all, steps.as_slice())
}

/// The set of all letters, of which there are so many.
pub(crate) fn all_letters(alloc: Global, count: u32) -> Result<WideSet, AllocError>
    ensures size { IfOk result (λ set. length set ≡ count) }
    ensures all { IfOk result (λ set. (k : ℕ) → k < count → has set k ≡ true) }
{
    let mut set = WideSet::none(alloc, count)?;
    for k in 0..count {
        set.add(alloc, k)?;
    }
    Ok(set)
}
