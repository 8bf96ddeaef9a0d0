//! The letters of a set in blocks, by each of which the same edges may be taken.
ghost use Rattle.std.specs.Prelude.{◌≡◌, ℕ, ◌&&◌, ◌≤◌, ◌↔◌, not, true, IfOk, length, map};
ghost use Rattle.std.specs.List.{All};
ghost use Rattle.rela_labels.specs.Letters.{has};
ghost use Rattle.rela_closed.specs.Splitting.{AreFewer, AreTogether, IsBlock, remains};

use crate::labels::Labels;
use crate::single::one_letter;
use rela_labels::LabelSet;
use std::alloc::{AllocError, Global};
use std::marker::Model;

/// How many blocks at most are split off by set operations, whatever the number of letters.
const MOST_SPLITS: u32 = 64;

/// Letters of a set that are taken in blocks. Those that labels have alone come by themselves, and
/// cost nothing for the other labels. Contracts see the letters that remain, the rest of them, which
/// the labels tell apart, and the labels.
#[derive(Drop)]
pub(crate) struct Blocks<'a, L: LabelSet> {
    /// The letters that remain. Those that come by themselves stay when they have been taken.
    left: L,
    /// Those of them that don't come by themselves.
    rest: L,
    /// The labels that tell the letters of the rest apart.
    labels: Vec<&'a L>,
    /// How many more blocks may be split off.
    splits: u32,
}

impl<'a, L: LabelSet> Model for Blocks<'a, L> {
    ghost use Rattle.std.specs.Prelude.{◌≡◌, ℕ, true, length, map};
    ghost use Rattle.std.specs.List.{All};
    ghost use Rattle.rela_labels.specs.Letters.{has};
    ghost use Rattle.rela_closed.specs.Splitting.{Splitting};

    ghost Value = { Splitting };

    ghost view = { λ blocks. record {
      left = L.letters blocks.left;
      rest = L.letters blocks.rest;
      labels = map (λ label. L.letters label.now) blocks.labels.items;
    } };

    ghost invariant = { λ blocks. (length (L.letters blocks.left) ≡ length (L.letters blocks.rest))
        × ((k : ℕ) → has (L.letters blocks.rest) k ≡ true → has (L.letters blocks.left) k ≡ true)
        × All (λ label. length label ≡ length (L.letters blocks.rest))
        (map (λ label. L.letters label.now) blocks.labels.items) };
}

impl<'a, L: LabelSet> Blocks<'a, L> {
    /// All letters of `over` remain. Time: a few set operations.
    pub(crate) fn new(
        alloc: Global,
        over: &L,
        labels: Labels<'a, L>,
    ) -> Result<Blocks<'a, L>, AllocError>
        requires { length labels.alone ≡ length (L.letters over.now) }
        ensures all { IfOk result (λ blocks. (k : ℕ) → remains blocks k
            ≡ has (L.letters over.now) k) }
        ensures rest { IfOk result (λ blocks. (k : ℕ) → has blocks.rest k
            ≡ (has (L.letters over.now) k && not (has labels.entry.alone k))) }
        ensures labels { IfOk result (λ blocks. blocks.labels ≡ labels.entry.others) }
        ensures size { IfOk result (λ blocks. length blocks.rest ≡ length (L.letters over.now)) }
    {
        let Labels { alone, others } = labels;
        let rest = over.minus(alloc, &alone)?;
        let left = over.copy(alloc)?;
        Ok(Blocks {
            left,
            rest,
            labels: others,
            splits: most_splits(over.size()),
        })
    }

    /// Whether the letter remains.
    pub(crate) fn has_left(&self, letter: u32) -> bool
        ensures { result ≡ remains self.now letter }
    {
        self.left.contains(letter)
    }

    /// The block of this letter, which remains. A block of the rest doesn't remain. Time: constant,
    /// where the letter comes by itself, and else a set operation for each label.
    pub(crate) fn take(&mut self, alloc: Global, letter: u32) -> Result<L, AllocError>
        requires { remains self.old letter ≡ true }
        ensures block { IfOk result (λ block. IsBlock self.old letter (L.letters block)) }
        ensures fewer { IfOk result (λ block. AreFewer (L.letters block) self.old self.new) }
    {
        if self.splits == 0 || !self.rest.contains(letter) {
            return one_letter(alloc, self.left.size(), letter);
        }
        self.splits -= 1;
        self.split_off(alloc, letter)
    }

    /// The block of this letter, which is of the rest: all letters of the rest that no label tells
    /// from it.
    fn split_off(&mut self, alloc: Global, letter: u32) -> Result<L, AllocError>
        requires { has self.old.rest letter ≡ true }
        ensures block { IfOk result (λ block. IsBlock self.old letter (L.letters block)) }
        ensures fewer { IfOk result (λ block. AreFewer (L.letters block) self.old self.new) }
    {
        let block = narrowed(alloc, &self.rest, &self.labels, letter)?;
        let rest = self.rest.minus(alloc, &block)?;
        let left = self.left.minus(alloc, &block)?;
        self.rest = rest;
        self.left = left;
        Ok(block)
    }
}

/// How many blocks are split off at most from so many letters. The set operations for these cost
/// about as much as a look at each letter for each label; where there are more blocks, the letters
/// that remain come by themselves.
fn most_splits(letters: u32) -> u32
    ensures { result ≤ MOST_SPLITS }
{
    (letters / 4 + 4).min(MOST_SPLITS)
}

/// The letters of the set that are in the same of the labels as this letter. Time: a set operation
/// for each label.
fn narrowed<L: LabelSet>(
    alloc: Global,
    set: &L,
    labels: &[&L],
    letter: u32,
) -> Result<L, AllocError>
    requires { All (λ label. length label ≡ length (L.letters set.now))
        (map (λ label. L.letters label.now) labels.now) }
    ensures size { IfOk result (λ block. length (L.letters block)
        ≡ length (L.letters set.now)) }
    ensures together { IfOk result (λ block. (k : ℕ) → (has (L.letters block) k ≡ true)
        ↔ ((has (L.letters set.now) k ≡ true)
        × AreTogether (map (λ label. L.letters label.now) labels.now) letter k)) }
{
    let mut block = set.copy(alloc)?;
    for label in labels {
        block = cut(alloc, &block, label, letter)?;
    }
    Ok(block)
}

/// The letters of the block that are in the label, if this letter is, and else those that aren't.
fn cut<L: LabelSet>(alloc: Global, block: &L, label: &L, letter: u32) -> Result<L, AllocError>
    requires { length (L.letters block.now) ≡ length (L.letters label.now) }
    ensures size { IfOk result (λ part. length (L.letters part) ≡ length (L.letters block.now)) }
    ensures together { IfOk result (λ part. (k : ℕ) → (has (L.letters part) k ≡ true)
        ↔ ((has (L.letters block.now) k ≡ true)
        × (has (L.letters label.now) k ≡ has (L.letters label.now) letter))) }
{
    if label.contains(letter) {
        block.meet(alloc, label)
    } else {
        block.minus(alloc, label)
    }
}
