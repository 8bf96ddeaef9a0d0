//! What a certificate lists of one row.

ghost use Rattle.std.specs.Prelude.{◌≡◌, ◌<◌, ◌≤◌, IfNone, IfOk, IfSome, All};
ghost use Rattle.rela_blocks.specs.RowBlocks.{AreRowBlocks};
ghost use Rattle.rela_certfile.specs.Listed.{HasShape};
ghost use Rattle.rela_snapshot.specs.PairsLocated.{IsPairLocated};
ghost use Rattle.rela_translate.specs.Verdict.{Meets};
ghost use Rattle.rela_translate.specs.Zones.{path_symbols};
ghost use Rattle.rela_cert.specs.Certified.{AreBlocksMade, IsExcused};
ghost use Rattle.rela_cert.specs.Found.{AreRowWords};
ghost use Rattle.rela_cert.specs.RowParts.{locations_of, paths_at};
ghost use Rattle.rela_cert.specs.Subject.{shape_of};

use crate::by_symbols::{all_by_symbols, by_symbols};
use crate::row::Row;
use crate::row_audit::MAX_STATES;
use crate::row_words::{RowWords, words_of_row};
use rela_blocks::{check_blocks, check_letters, row_blocks};
use rela_certfile::ListedRow;
use rela_labels::Partition;
use std::alloc::{AllocError, Global};

/// The row that is planned at this place as a certificate lists it, with its blocks. It isn't
/// listed where a word offends against its check, or where its images have more places than
/// `states`.
///
/// Time and space: those of the row's blocks of symbols, and of [`words_of_row`]. The only error is
/// want of memory.
pub(crate) fn certified_row(
    alloc: Global,
    row: &Row<'_>,
    place: usize,
    states: usize,
) -> Result<Option<ListedRow>, AllocError>
    requires some { 1 ≤ states }
    requires few { states ≤ MAX_STATES }
    requires classes { All (λ set. All (λ s. s < path_symbols (locations_of row.now)) set.members)
        row.now.check.now.classes }
    requires located { IsPairLocated row.now.alphabet.now row.now.check.now.level row.now.pair.now }
    ensures place { IfOk result (λ found. IfSome found (λ listed. listed.place ≡ place)) }
    ensures shape { IfOk result (λ found. IfSome found
        (HasShape (shape_of (locations_of row.now) row.now.check.now))) }
    ensures met { IfOk result (λ found. IfSome found (λ _.
        Meets row.now.check.now (locations_of row.now) (paths_at row.now).pre
        (paths_at row.now).post)) }
    ensures made { IfOk result (λ found. IfSome found (λ listed.
        AreBlocksMade (locations_of row.now) listed row.now.check.now (paths_at row.now))) }
    ensures excused { IfOk result (λ found. IfNone found
        (IsExcused (locations_of row.now) states row.now.check.now (paths_at row.now))) }
{
    let blocks = blocks_of_row(alloc, row)?;
    let Some(words) = words_over(alloc, row, &blocks, states)? else {
        return Ok(None);
    };
    let complements = all_by_symbols(alloc, &blocks, words.complements.as_slice())?;
    let images = by_symbols(alloc, &blocks, words.images.as_slice())?;
    Ok(Some(ListedRow {
        place,
        complements,
        images,
    }))
}

/// The blocks of symbols of the row. The only error is want of memory.
fn blocks_of_row(alloc: Global, row: &Row<'_>) -> Result<Partition, AllocError>
    requires classes { All (λ set. All (λ s. s < path_symbols (locations_of row.now)) set.members)
        row.now.check.now.classes }
    requires located { IsPairLocated row.now.alphabet.now row.now.check.now.level row.now.pair.now }
    ensures { IfOk result (AreRowBlocks row.now.check.now row.now.alphabet.now
        row.now.pair.now.before row.now.pair.now.after) }
{
    let coarse = check_blocks(alloc, row.check, row.alphabet)?;
    row_blocks(alloc, row.check, row.pair, row.alphabet, &coarse)
}

/// The words of the row by its blocks of symbols, as [`words_of_row`] finds them. The only error is want
/// of memory.
fn words_over(
    alloc: Global,
    row: &Row<'_>,
    blocks: &Partition,
    states: usize,
) -> Result<Option<RowWords>, AllocError>
    requires some { 1 ≤ states }
    requires few { states ≤ MAX_STATES }
    requires classes { All (λ set. All (λ s. s < path_symbols (locations_of row.now)) set.members)
        row.now.check.now.classes }
    requires blocks { AreRowBlocks row.now.check.now row.now.alphabet.now row.now.pair.now.before
        row.now.pair.now.after blocks.now }
    ensures words { IfOk result (λ found. IfSome found (λ words.
        AreRowWords row.now blocks.now words.complements.items words.images)) }
    ensures met { IfOk result (λ found. IfSome found (λ _.
        Meets row.now.check.now (locations_of row.now) (paths_at row.now).pre
        (paths_at row.now).post)) }
    ensures excused { IfOk result (λ found. IfNone found
        (IsExcused (locations_of row.now) states row.now.check.now (paths_at row.now))) }
{
    let letters = check_letters(alloc, row.check, row.alphabet, blocks)?;
    words_of_row(alloc, row, &letters, states)
}
