//! The numbers of the classes and markers of a check.

ghost use Rattle.std.specs.Prelude.{◌≡◌, ◌-◌, ◌<◌, ◌^◌, List, length, IfOk, OnOk};
ghost use Rattle.rela_expand.specs.Known.{ArePlaced, AreWritten};
ghost use Rattle.rela_expand.specs.Numbered.{placed};
ghost use Rattle.rela_expand.specs.Numbering.{nothing_numbered};
ghost use Rattle.rela_expand.specs.Places.{Place};
ghost use Rattle.rela_expand.specs.Shapes.{Shape};
ghost use Rattle.rela_expand.specs.Tables.{IsCounted, entry_of, numbering_of};

use crate::entry::Entry;
use crate::written::Written;
use indexmap::IndexSet;
use std::alloc::{AllocError, Global};
use std::collections::HashMap;

/// The numbering of the classes and markers of one check, as far as it has gone. A class is listed
/// at its first use alone: then its number is known by what is written, and by the place of the
/// form that it came from.
#[derive(Drop)]
pub(crate) struct Numbers<'a> {
    /// The entries of the class table in the order of their numbers, from 0, found by their hash.
    pub(crate) classes: IndexSet<Entry>,
    /// How many symbols the entries list together, at most 2^64 - 1.
    pub(crate) listed: u64,
    /// How many markers have been given out. They are numbered from 1.
    pub(crate) markers: u32,
    /// The numbers of the classes that have been met, by what is written.
    pub(crate) written: HashMap<Written<'a>, u32>,
    /// The numbers of the classes in brackets that have been met, by the places of their forms.
    pub(crate) places: HashMap<usize, u32>,
}

impl<'a> Numbers<'a> {
    /// No class and no marker.
    pub(crate) fn new(alloc: Global) -> Numbers<'a>
        ensures none { numbering_of result ≡ nothing_numbered }
        ensures counted { IsCounted result }
        ensures written { (place : Place) → AreWritten place result }
        ensures places { (place : Place) (shapes : List Shape) → ArePlaced place shapes result }
    {
        Numbers {
            classes: IndexSet::new(alloc),
            listed: 0,
            markers: 0,
            written: HashMap::new(alloc),
            places: HashMap::new(alloc),
        }
    }

    /// The number of a class, which is added to the table where it isn't there yet. The only error
    /// is want of memory.
    pub(crate) fn class(&mut self, entry: Entry) -> Result<u32, AllocError>
        requires room { length self.old.classes.keys < 2 ^ 32 }
        requires counted { IsCounted self.old }
        ensures placed { IfOk result (λ k. placed (entry_of entry) (numbering_of self.old)
            ≡ record { value = k; after = numbering_of self.new }) }
        ensures counted { OnOk result (IsCounted self.new) }
        ensures written { self.new.written ≡ self.old.written }
        ensures places { self.new.places ≡ self.old.places }
    {
        let count = entry.members.len() as u64;
        let (number, is_new) = self.classes.insert_full(entry)?;
        if is_new {
            self.listed = self.listed.saturating_add(count);
        }
        Ok(number as u32)
    }
}
