//! The numbers of classes.

ghost use Rattle.std.specs.Prelude.{◌≡◌, ◌≤◌, IfOk, length, map};
ghost use Rattle.rela_claims.specs.Classes.{each_once};
ghost use Rattle.rela_claims.specs.Written.{IsNarrow, class_of, classes_of, numbered};

use crate::classes::{Mention, Written};
use indexmap::IndexSet;
use rela_names::Level;
use std::alloc::{AllocError, Global};

/// What classes are at a level, and which number each has.
#[derive(Clone, Copy)]
pub(crate) struct Numbers<'a, 'b> {
    /// The level of a bare name.
    pub(crate) level: Level,
    /// The classes, in the order of their numbers from 0.
    pub(crate) table: &'b IndexSet<Written<'a>>,
}

impl<'a> Numbers<'a, '_> {
    /// The number of a class: its place in the table, or, where it is not there, the table's
    /// length. Time: expected linear in its name.
    pub(crate) fn of(&self, class: Written<'a>) -> u32
        requires { IsNarrow self.now }
        ensures { result ≡ numbered self.now (class_of class.entry) }
    {
        let place = self.table.get_index_of(&class).unwrap_or(self.table.len());
        place as u32
    }
}

/// The classes that are mentioned, each once and in the order of their first mentions: the place of
/// one is its number. The only error is want of memory.
///
/// Time: expected linear in the mentions and their names.
pub(crate) fn table<'a>(
    alloc: Global,
    mentions: &[Mention<'a>],
) -> Result<IndexSet<Written<'a>>, AllocError>
    ensures each { IfOk result (λ table.
        map class_of table.keys ≡ each_once (classes_of mentions.now)) }
    ensures few { IfOk result (λ table. length table.keys ≤ length mentions.now) }
{
    let mut table = IndexSet::new(alloc);
    for mention in mentions {
        table.insert(mention.class)?;
    }
    Ok(table)
}
