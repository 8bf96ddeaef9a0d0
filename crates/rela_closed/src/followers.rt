//! Where a letter leads from the sets of a table.
ghost use Rattle.std.specs.Prelude.{◌≡◌, ◌<◌, [], IfNone, IfOk, IfSome, length, slice_index_or};
ghost use Rattle.rela_closed.specs.Listing.{LeadsOut, LeadsTo};
ghost use Rattle.rela_closed.specs.Sets.{AreMet};

use crate::reader::Reader;
use crate::table::Table;
use rela_labels::LabelSet;
use std::alloc::{AllocError, Global};

/// The number of the sets to which the letter leads from those of this number, and `None` where
/// they aren't in the table, behind whose sets they are then put. Time: a step of the reader, and a
/// look-up.
pub(crate) fn follower<'a, L: LabelSet>(
    alloc: Global,
    reader: &mut Reader<'a, L>,
    table: &mut Table,
    number: usize,
    letter: u32,
) -> Result<Option<usize>, AllocError>
    requires number { number < length table.old }
    requires met { AreMet reader.old (slice_index_or table.old number []) }
    ensures follows { IfOk result (λ next. IfSome next (λ to.
        LeadsTo reader.old table.old (slice_index_or table.old number []) letter to)) }
    ensures kept { IfOk result (λ next. IfSome next (λ _. table.new ≡ table.old)) }
    ensures out { IfOk result (λ next. IfNone next
        (LeadsOut reader.old table.old (slice_index_or table.old number []) letter)) }
    ensures same { reader.new ≡ reader.old }
{
    let known = table.len();
    let next = reader.next(alloc, table.get(number), letter)?;
    let to = table.number(next)?;
    if to == known {
        return Ok(None);
    }
    Ok(Some(to))
}
