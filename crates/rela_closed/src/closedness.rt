//! Whether letters lead from the sets of a table to no others.
ghost use Rattle.std.specs.Prelude.{◌≡◌, ℕ, ◌<◌, [], true, IfOk, IsFalse, IsTrue, length, slice_index_or};
ghost use Rattle.std.specs.List.{All};
ghost use Rattle.rela_labels.specs.Letters.{has};
ghost use Rattle.rela_closed.specs.Listing.{AreFollowed, IsFollowed, IsLeft};
ghost use Rattle.rela_closed.specs.Sets.{AreMet};

use crate::followers::follower;
use crate::reader::Reader;
use crate::table::Table;
use rela_labels::LabelSet;
use std::alloc::{AllocError, Global};

/// Whether each letter of `over` leads from all sets of the table to sets of the table. Time: a
/// step of the reader for each of the sets and each block of letters.
pub(crate) fn is_closed<'a, L: LabelSet>(
    alloc: Global,
    reader: &mut Reader<'a, L>,
    over: &L,
    table: &mut Table,
) -> Result<bool, AllocError>
    requires { All (AreMet reader.old) table.old }
    ensures closed { IfOk result (λ closed. IsTrue closed → AreFollowed (L.letters over.now)
        reader.old table.old (length table.old)) }
    ensures kept { IfOk result (λ closed. IsTrue closed → table.new ≡ table.old) }
    ensures left { IfOk result (λ closed. IsFalse closed → IsLeft (L.letters over.now) reader.old
        table.old) }
    ensures same { reader.new ≡ reader.old }
{
    for number in 0..table.len() {
        if !is_followed(alloc, reader, over, table, number)? {
            return Ok(false);
        }
    }
    Ok(true)
}

/// Whether each letter of `over` leads from the sets of this number to sets of the table. Those to
/// which one leads otherwise are put behind the others.
fn is_followed<'a, L: LabelSet>(
    alloc: Global,
    reader: &mut Reader<'a, L>,
    over: &L,
    table: &mut Table,
    number: usize,
) -> Result<bool, AllocError>
    requires number { number < length table.old }
    requires met { AreMet reader.old (slice_index_or table.old number []) }
    ensures followed { IfOk result (λ followed. IsTrue followed → (k : ℕ) →
        has (L.letters over.now) k ≡ true →
        IsFollowed reader.old table.old (slice_index_or table.old number []) k) }
    ensures kept { IfOk result (λ followed. IsTrue followed → table.new ≡ table.old) }
    ensures left { IfOk result (λ followed. IsFalse followed → IsLeft (L.letters over.now)
        reader.old table.old) }
    ensures same { reader.new ≡ reader.old }
{
    let mut blocks = reader.blocks(alloc, over, table.get(number))?;
    for letter in 0..over.size() {
        if !blocks.has_left(letter) {
            continue;
        }
        blocks.take(alloc, letter)?;
        if follower(alloc, reader, table, number, letter)?.is_none() {
            return Ok(false);
        }
    }
    Ok(true)
}
