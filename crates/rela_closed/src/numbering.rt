//! The sets of states that listed words reach.
ghost use Rattle.std.specs.Prelude.{◌≡◌, [], IfOk};
ghost use Rattle.rela_closed.specs.Listing.{AreListed};
ghost use Rattle.rela_closed.specs.Words.{AreOrdered, words_of};

use crate::reader::Reader;
use crate::step::Step;
use crate::table::Table;
use rela_labels::LabelSet;
use std::alloc::{AllocError, Global};

/// For each listed word the number of the sets that it reaches, which are put into the table, where
/// there are none before. Time: a step of the reader for each word but the first, from the sets of
/// its parent.
pub(crate) fn number_words<'a, L: LabelSet>(
    alloc: Global,
    reader: &mut Reader<'a, L>,
    steps: &[Step],
    table: &mut Table,
) -> Result<Vec<usize>, AllocError>
    requires ordered { AreOrdered steps.now }
    requires empty { table.old ≡ [] }
    ensures listed { IfOk result (λ numbers. AreListed reader.old (words_of steps.now) table.new
        numbers.items) }
    ensures same { reader.new ≡ reader.old }
{
    let first = reader.first(alloc)?;
    let mut numbers = Vec::with_capacity(alloc, steps.len() + 1)?;
    numbers.push(table.number(first)?)?;
    for step in steps {
        let from = numbers[step.parent as usize];
        let next = reader.next(alloc, table.get(from), step.letter)?;
        numbers.push(table.number(next)?)?;
    }
    Ok(numbers)
}
