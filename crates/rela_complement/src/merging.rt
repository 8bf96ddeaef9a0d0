//! Automata with letters merged that they do not tell apart.
ghost use Rattle.std.specs.Prelude.{◌≡◌, ℕ, ◌^◌, ◌<◌, IfOk, IfSome, length, slice_index};
ghost use Rattle.rela_labels.specs.Partition.{IsLeastOf, block_of};
ghost use Rattle.rela_complement.specs.Merging.{AreUnions, IsMerged, IsUnion};

use crate::letter_classes::letter_classes;
use crate::relabelled::relabelled;
use rela_labels::{Partition, WideSet};
use rela_nfa::{Nfa, relabelled_set};
use std::alloc::{AllocError, Global};

/// An automaton and a set of letters, once the letters that they do not tell apart are merged into
/// classes.
#[derive(Drop)]
pub(crate) struct Merged {
    /// The automaton over the classes.
    pub(crate) part: Nfa<WideSet>,
    /// The set, of classes.
    pub(crate) over: WideSet,
    /// The class of each letter.
    pub(crate) classes: Vec<u32>,
}

/// How many classes are always worth while: so many fit into one word.
const A_WORD: u32 = 64;

/// The automaton and the set with letters merged that they do not tell apart; `None` where that would
/// save little. The classes are numbered in the order of their least letters, so they follow from
/// what the labels and the set have of the symbols that the letters stand for. Time and space: those
/// of finding the classes, and a look at each class for each label. The only error is want of memory.
pub(crate) fn merge(
    alloc: Global,
    part: &Nfa<WideSet>,
    over: &WideSet,
) -> Result<Option<Merged>, AllocError>
    requires { length over.now ≡ part.now.letters }
    ensures letters { IfOk result (λ found. IfSome found (λ merged.
        length merged.over ≡ merged.part.letters)) }
    ensures merged { IfOk result (λ found. IfSome found (λ merged.
        IsMerged part.now over.now merged.classes.items merged.part merged.over)) }
{
    if part.letters() == 0 {
        return Ok(None);
    }
    let classes = letter_classes(alloc, part, over)?;
    if !are_few(classes.blocks(), part.letters()) {
        return Ok(None);
    }
    let merged = merge_by(alloc, part, over, &classes)?;
    Ok(Some(merged))
}

/// Whether so few classes save much: fewer than the letters, and at most a word of them or half as
/// many.
fn are_few(classes: u32, letters: u32) -> bool {
    classes < letters && (classes <= A_WORD || classes <= letters / 2)
}

/// The automaton and the set by these classes, of which each label and the set are unions. The only
/// error is want of memory.
fn merge_by(
    alloc: Global,
    part: &Nfa<WideSet>,
    over: &WideSet,
    classes: &Partition,
) -> Result<Merged, AllocError>
    requires letters { length classes.now ≡ part.now.letters }
    requires sized { length over.now ≡ part.now.letters }
    requires over { IsUnion classes.now over.now }
    requires labels { AreUnions classes.now part.now }
    ensures letters { IfOk result (λ merged. length merged.over ≡ merged.part.letters) }
    ensures merged { IfOk result (λ merged.
        IsMerged part.now over.now merged.classes.items merged.part merged.over) }
{
    let letters = least_letters(alloc, classes)?;
    let small = relabelled(alloc, part, &letters)?;
    let set = relabelled_set(alloc, over, &letters)?;
    let each = class_of_each(alloc, classes, part.letters())?;
    Ok(Merged {
        part: small,
        over: set,
        classes: each,
    })
}

/// The least letter of each class. The only error is want of memory.
fn least_letters(alloc: Global, classes: &Partition) -> Result<Vec<u32>, AllocError>
    ensures few { IfOk result (λ letters. length letters.items < 2 ^ 32) }
    ensures counted { IfOk result (λ letters. (k : ℕ) → k < length classes.now →
        block_of classes.now k < length letters.items) }
    ensures least { IfOk result (λ letters. (c : ℕ) → c < length letters.items →
        IsLeastOf classes.now c (slice_index letters.items c)) }
{
    let mut letters = Vec::with_capacity(alloc, classes.blocks() as usize)?;
    for class in 0..classes.blocks() {
        letters.push(classes.representative(class))?;
    }
    Ok(letters)
}

/// The class of each letter. The only error is want of memory.
fn class_of_each(alloc: Global, classes: &Partition, letters: u32) -> Result<Vec<u32>, AllocError>
    requires { letters ≡ length classes.now }
    ensures { IfOk result (λ each. each.items ≡ classes.now) }
{
    let mut each = Vec::with_capacity(alloc, letters as usize)?;
    for letter in 0..letters {
        each.push(classes.block_of(letter))?;
    }
    Ok(each)
}
