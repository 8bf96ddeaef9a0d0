//! The letters of the automata of terms.

ghost use Rattle.std.specs.Prelude.{◌≡◌, ℕ, ◌+◌, ◌<◌, Bool, List, IfOk, IfNone, IfSome, All, length, slice_index_or};
ghost use Rattle.rela_labels.specs.Partition.{block_count};
ghost use Rattle.rela_rir.specs.declared.set.SymbolSet.{SymbolSet};
ghost use Rattle.rela_trans.specs.Composition.{Covers};
ghost use Rattle.rela_build.specs.Lettering.{AreClassLetters, AreLetterBlocks, IsAlone, IsInEntry};
ghost use Rattle.rela_build.specs.Reading.{HoldsJust, read_by};

use crate::letter_sets::{letters_below, letters_of};
use rela_labels::{LabelSet, Partition, WideSet};
use rela_names::Symbol;
use rela_rir::SymbolSet;
use std::alloc::{AllocError, Global};
use std::marker::Model;

/// The letters of automata of terms: the blocks of the symbols, with the sets of those that the terms
/// speak of. Contracts see it as a `Lettering`.
#[derive(Drop)]
pub struct Letters<'a> {
    /// The class table.
    table: &'a [SymbolSet],
    /// The number of path symbols, which are the first ones.
    path_symbols: u32,
    /// The number of markers, which come after the path symbols.
    markers: u32,
    /// The blocks of all these symbols. A letter is the number of a block.
    blocks: &'a Partition,
    /// The letters of the path symbols.
    path: WideSet,
    /// The letters of each entry of the class table.
    classes: Vec<WideSet>,
}

impl<'a> Model for Letters<'a> {
    ghost use Rattle.rela_build.specs.Lettering.{Lettering, AreLetters};

    ghost Value = { Lettering };

    ghost view = { λ l. record {
      classes = l.table.now;
      path_symbols = l.path_symbols;
      markers = l.markers;
      blocks = l.blocks.now;
    } };

    ghost invariant = { λ l. AreLetters (record {
      classes = l.table.now;
      path_symbols = l.path_symbols;
      markers = l.markers;
      blocks = l.blocks.now;
    }) l.path
        l.classes.items };
}

impl<'a> Letters<'a> {
    /// The letters of terms with this class table, this number of path symbols and this number of
    /// markers, by the blocks of all these symbols. No block has both path symbols and markers, and
    /// each class is a union of blocks.
    ///
    /// Time: linear in the path symbols, the members of the classes, and the letters for each
    /// class; space: at most a bit for each class and each letter.
    ///
    /// # Errors
    ///
    /// `AllocError` where there isn't memory for the sets.
    pub fn new(
        alloc: Global,
        table: &'a [SymbolSet],
        path_symbols: u32,
        markers: u32,
        blocks: &'a Partition,
    ) -> Result<Letters<'a>, AllocError>
        requires blocks { AreLetterBlocks (record {
          classes = table.now;
          path_symbols = path_symbols;
          markers = markers;
          blocks = blocks.now;
        }) }
        requires members { All (λ set. All (λ s. s < path_symbols) set.members) table.now }
        ensures { IfOk result (λ letters. letters ≡ record {
          classes = table.now;
          path_symbols = path_symbols;
          markers = markers;
          blocks = blocks.now;
        }) }
    {
        let path = letters_below(alloc, blocks, path_symbols)?;
        let classes = letters_of_classes(alloc, table, blocks, &path)?;
        Ok(Letters {
            table,
            path_symbols,
            markers,
            blocks,
            path,
            classes,
        })
    }

    /// The blocks of the symbols.
    pub fn partition(&self) -> &Partition
        ensures { result.now ≡ self.now.blocks }
    {
        self.blocks
    }

    /// How many letters there are.
    pub fn count(&self) -> u32
        ensures { result ≡ block_count self.now.blocks }
    {
        self.blocks.blocks()
    }

    /// Each letter is that of some symbol, and the symbols are the path symbols and the markers. The call
    /// does nothing, and its contract is this law.
    pub fn are_covered(&self)
        ensures letters { Covers (read_by self.now.blocks) (block_count self.now.blocks) }
        ensures symbols { length self.now.blocks ≡ self.now.path_symbols + self.now.markers }
    {
        let _ = &self.path;
    }

    /// The letter of a symbol that is a block of its own.
    pub fn own(&self, s: Symbol) -> u32
        requires { IsAlone self.now.blocks s }
        ensures letter { result ≡ read_by self.now.blocks s }
        ensures below { result < block_count self.now.blocks }
        ensures alone { (t : ℕ) → read_by self.now.blocks t ≡ result → t ≡ s }
    {
        let _ = &self.path;
        self.blocks.block_of(s)
    }

    /// The letters of the path symbols.
    pub fn path(&self) -> &WideSet
        ensures { HoldsJust self.now.blocks (λ s. s < self.now.path_symbols) result.now }
    {
        &self.path
    }

    /// The letters of a class, and `None` where the table has no such entry.
    pub fn class(&self, entry: u32) -> Option<&WideSet>
        ensures letters { IfSome result (λ set.
            HoldsJust self.now.blocks (IsInEntry self.now entry) set.now) }
        ensures none { IfNone result ((s : ℕ) → ¬ IsInEntry self.now entry s) }
    {
        self.classes.get(entry as usize)
    }
}

/// The letters of each class of the table.
fn letters_of_classes(
    alloc: Global,
    classes: &[SymbolSet],
    blocks: &Partition,
    path: &WideSet,
) -> Result<Vec<WideSet>, AllocError>
    requires members { All (λ class. All (λ s. s < length blocks.now) class.members) classes.now }
    requires path { length path.now ≡ block_count blocks.now }
    ensures count { IfOk result (λ sets. length sets.items ≡ length classes.now) }
    ensures letters { IfOk result (λ sets. (k : ℕ) (class : SymbolSet) (set : List Bool) →
        k < length classes.now
        → AreClassLetters blocks.now path.now (slice_index_or classes.now k class)
        (slice_index_or sets.items k set)) }
{
    let mut sets = Vec::with_capacity(alloc, classes.len())?;
    for class in classes {
        sets.push(letters_of_class(alloc, class, blocks, path)?)?;
    }
    Ok(sets)
}

/// The letters of a class, where `path` are those of the path symbols.
fn letters_of_class(
    alloc: Global,
    class: &SymbolSet,
    blocks: &Partition,
    path: &WideSet,
) -> Result<WideSet, AllocError>
    requires members { All (λ s. s < length blocks.now) class.now.members }
    requires path { length path.now ≡ block_count blocks.now }
    ensures { IfOk result (AreClassLetters blocks.now path.now class.now) }
{
    let members = letters_of(alloc, blocks, class.members.as_slice())?;
    if class.negated {
        path.minus(alloc, &members)
    } else {
        Ok(members)
    }
}
