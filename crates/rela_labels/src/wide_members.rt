//! The letters of a set that are no single word, in the form that takes the least memory.
ghost use Rattle.std.specs.Prelude.{◌≡◌, ℕ, ◌^◌, ◌<◌, ◌↔◌, ◌==◌, ◌&&◌, ◌||◌, true, false, not, IsTrue, IfOk, IfErr, OnOk, IfNone, IfSome};
ghost use Rattle.rela_labels.specs.WideSets.{holds, AreFew, HaveOneSize, IsHeld};
ghost use Rattle.rela_labels.specs.Words.{bit_of, IsWide};

use crate::boxed_words::BoxedWords;
use crate::words::{
    disjoint_words, has_bit, is_only_bit, join_words, least_bit, meet_words, minus_words, only_bit,
    same_words, set_bit,
};
use std::alloc::{AllocError, Global};

/// The letters of a set: none, one, or those whose bits are 1. Only the last takes memory on the
/// heap, and it may have one letter or none as well.
#[derive(Debug, Drop)]
pub(crate) enum Members {
    /// No letter.
    Nothing,
    /// This letter alone.
    One(u32),
    /// The letters whose bits are 1: letter `k` is bit `k % 64` of word `k / 64`.
    Many(BoxedWords),
}

impl Members {
    /// Whether the letter is there.
    pub(crate) fn contains(&self, letter: u32) -> bool
        ensures { result ≡ holds self.now letter }
    {
        match self {
            Members::Nothing => false,
            Members::One(one) => *one == letter,
            Members::Many(words) => has_bit(words.as_slice(), letter),
        }
    }

    /// The same letters.
    pub(crate) fn copied(&self, alloc: Global, size: u32) -> Result<Members, AllocError>
        requires { IsHeld size self.now }
        ensures held { IfOk result (IsHeld size) }
        ensures same { IfOk result (λ members. (k : ℕ) → holds members k ≡ holds self.now k) }
    {
        match self {
            Members::Nothing => Ok(Members::Nothing),
            Members::One(letter) => Ok(Members::One(*letter)),
            Members::Many(words) => many(alloc, Vec::from_slice(alloc, words.as_slice())?),
        }
    }

    /// The letters as the bits of words, of which there are as many as letters below the size need.
    fn words(&self, alloc: Global, size: u32) -> Result<Vec<u64>, AllocError>
        requires { IsHeld size self.now }
        ensures wide { IfOk result (λ words. IsWide size words.items) }
        ensures same { IfOk result (λ words. (k : ℕ) → bit_of words.items k ≡ holds self.now k) }
    {
        match self {
            Members::Nothing => no_bits(alloc, size),
            Members::One(letter) => one_bit(alloc, size, *letter),
            Members::Many(words) => Vec::from_slice(alloc, words.as_slice()),
        }
    }

    /// Puts the letter among these. An error leaves them as they were.
    pub(crate) fn add(&mut self, alloc: Global, size: u32, letter: u32) -> Result<(), AllocError>
        requires held { IsHeld size self.old }
        requires below { letter < size }
        ensures held { IsHeld size self.new }
        ensures each { OnOk result ((k : ℕ) → holds self.new k
            ≡ (holds self.old k || letter == k)) }
        ensures unchanged { IfErr result (λ _. self.new ≡ self.old) }
    {
        if let Members::Many(words) = self {
            words.set_bit(letter);
            return Ok(());
        }
        *self = self.with(alloc, size, letter)?;
        Ok(())
    }

    /// The letter and those that are there. The letters as bits where there are then two or more.
    fn with(&self, alloc: Global, size: u32, letter: u32) -> Result<Members, AllocError>
        requires held { IsHeld size self.now }
        requires below { letter < size }
        ensures held { IfOk result (IsHeld size) }
        ensures each { IfOk result (λ members. (k : ℕ) → holds members k
            ≡ (holds self.now k || letter == k)) }
    {
        if let Members::Nothing = self {
            return Ok(Members::One(letter));
        }
        if self.contains(letter) {
            return self.copied(alloc, size);
        }
        let mut words = self.words(alloc, size)?;
        set_bit(&mut words, letter);
        many(alloc, words)
    }

    /// The letters that are in both.
    pub(crate) fn meet(
        &self,
        alloc: Global,
        size: u32,
        other: &Members,
    ) -> Result<Members, AllocError>
        requires first { IsHeld size self.now }
        requires second { IsHeld size other.now }
        ensures held { IfOk result (IsHeld size) }
        ensures both { IfOk result (λ members. (k : ℕ) → holds members k
            ≡ (holds self.now k && holds other.now k)) }
    {
        match self {
            Members::Nothing => Ok(Members::Nothing),
            Members::One(letter) => Ok(one_if(*letter, other.contains(*letter))),
            Members::Many(words) => match other {
                Members::Nothing => Ok(Members::Nothing),
                Members::One(letter) => Ok(one_if(*letter, self.contains(*letter))),
                Members::Many(others) => {
                    let mut both = Vec::from_slice(alloc, words.as_slice())?;
                    meet_words(&mut both, others.as_slice());
                    many(alloc, both)
                }
            },
        }
    }

    /// The letters that are in one or the other.
    pub(crate) fn join(
        &self,
        alloc: Global,
        size: u32,
        other: &Members,
    ) -> Result<Members, AllocError>
        requires first { IsHeld size self.now }
        requires second { IsHeld size other.now }
        ensures held { IfOk result (IsHeld size) }
        ensures either { IfOk result (λ members. (k : ℕ) → holds members k
            ≡ (holds self.now k || holds other.now k)) }
    {
        match other {
            Members::Nothing => self.copied(alloc, size),
            Members::One(letter) => self.with(alloc, size, *letter),
            Members::Many(others) => {
                let mut all = self.words(alloc, size)?;
                join_words(&mut all, others.as_slice());
                many(alloc, all)
            }
        }
    }

    /// The letters that are here and not in the other.
    pub(crate) fn minus(
        &self,
        alloc: Global,
        size: u32,
        other: &Members,
    ) -> Result<Members, AllocError>
        requires first { IsHeld size self.now }
        requires second { IsHeld size other.now }
        ensures held { IfOk result (IsHeld size) }
        ensures first_only { IfOk result (λ members. (k : ℕ) → holds members k
            ≡ (holds self.now k && not (holds other.now k))) }
    {
        match self {
            Members::Nothing => Ok(Members::Nothing),
            Members::One(letter) => Ok(one_if(*letter, !other.contains(*letter))),
            Members::Many(words) => {
                let mut left = Vec::from_slice(alloc, words.as_slice())?;
                let others = other.words(alloc, size)?;
                minus_words(&mut left, &others);
                many(alloc, left)
            }
        }
    }

    /// Whether no letter is there.
    pub(crate) fn is_empty(&self) -> bool
        requires { AreFew self.now }
        ensures { IsTrue result ↔ ((k : ℕ) → holds self.now k ≡ false) }
    {
        self.least().is_none()
    }

    /// Whether no letter is in both.
    pub(crate) fn is_disjoint(&self, other: &Members) -> bool
        requires { HaveOneSize self.now other.now }
        ensures { IsTrue result ↔ ((k : ℕ) →
            (holds self.now k && holds other.now k) ≡ false) }
    {
        match self {
            Members::Nothing => true,
            Members::One(letter) => !other.contains(*letter),
            Members::Many(words) => match other {
                Members::Nothing => true,
                Members::One(letter) => !self.contains(*letter),
                Members::Many(others) => disjoint_words(words.as_slice(), others.as_slice()),
            },
        }
    }

    /// The least letter, and `None` where there is none.
    pub(crate) fn least(&self) -> Option<u32>
        requires { AreFew self.now }
        ensures none { IfNone result ((k : ℕ) → holds self.now k ≡ false) }
        ensures member { IfSome result (λ least. holds self.now least ≡ true) }
        ensures least { IfSome result (λ least. (k : ℕ) → k < least → holds self.now k ≡ false) }
    {
        match self {
            Members::Nothing => None,
            Members::One(letter) => Some(*letter),
            Members::Many(words) => least_bit(words.as_slice()),
        }
    }

    /// The letter, if there is just one, and else `None`.
    pub(crate) fn only(&self) -> Option<u32>
        requires { AreFew self.now }
        ensures only { IfSome result (λ only. (k : ℕ) → holds self.now k ≡ (only == k)) }
        ensures other { IfNone result ((only : ℕ) →
            ¬ ((k : ℕ) → holds self.now k ≡ (only == k))) }
    {
        match self {
            Members::Nothing => None,
            Members::One(letter) => Some(*letter),
            Members::Many(words) => only_bit(words.as_slice()),
        }
    }

    /// Whether the letters are the same.
    pub(crate) fn same(&self, other: &Members) -> bool
        requires first { AreFew self.now }
        requires second { AreFew other.now }
        requires sizes { HaveOneSize self.now other.now }
        ensures { IsTrue result ↔ ((k : ℕ) → holds self.now k ≡ holds other.now k) }
    {
        match self {
            Members::Nothing => other.is_empty(),
            Members::One(letter) => other.is_only(*letter),
            Members::Many(words) => match other {
                Members::Nothing => self.is_empty(),
                Members::One(letter) => self.is_only(*letter),
                Members::Many(others) => same_words(words.as_slice(), others.as_slice()),
            },
        }
    }

    /// Whether this letter is there, and no other.
    fn is_only(&self, letter: u32) -> bool
        ensures { IsTrue result ↔ ((k : ℕ) → holds self.now k ≡ (letter == k)) }
    {
        match self {
            Members::Nothing => false,
            Members::One(one) => *one == letter,
            Members::Many(words) => is_only_bit(words.as_slice(), letter),
        }
    }
}

/// The letters whose bits are 1.
fn many(alloc: Global, words: Vec<u64>) -> Result<Members, AllocError>
    ensures held { IfOk result (λ members. (size : ℕ) →
        IsWide size words.items → IsHeld size members) }
    ensures each { IfOk result (λ members. (k : ℕ) → holds members k ≡ bit_of words.items k) }
{
    Ok(Members::Many(BoxedWords::new(alloc, words)?))
}

/// This letter alone where `is_there` says so, and else none.
fn one_if(letter: u32, is_there: bool) -> Members
    ensures held { (size : ℕ) → letter < size → size < 2 ^ 32 → IsHeld size result }
    ensures each { (k : ℕ) → holds result k ≡ (is_there && letter == k) }
{
    if is_there {
        Members::One(letter)
    } else {
        Members::Nothing
    }
}

/// Words for letters below the size, in which no bit is 1.
fn no_bits(alloc: Global, size: u32) -> Result<Vec<u64>, AllocError>
    ensures wide { IfOk result (λ words. IsWide size words.items) }
    ensures none { IfOk result (λ words. (k : ℕ) → bit_of words.items k ≡ false) }
{
    let words = vec![in alloc; 0; (size as usize + 63) / 64]?;
    Ok(words)
}

/// Words for letters below the size, in which the bit of `letter` alone is 1.
fn one_bit(alloc: Global, size: u32, letter: u32) -> Result<Vec<u64>, AllocError>
    requires { letter < size }
    ensures wide { IfOk result (λ words. IsWide size words.items) }
    ensures one { IfOk result (λ words. (k : ℕ) → bit_of words.items k ≡ (letter == k)) }
{
    let mut words = no_bits(alloc, size)?;
    set_bit(&mut words, letter);
    Ok(words)
}
