//! The letters of a set of any size: the bits of one word where the size is at most 64.
ghost use Rattle.std.specs.Prelude.{◌≡◌, ℕ, ◌<◌, ◌↔◌, ◌==◌, ◌&&◌, ◌||◌, true, false, not, IsTrue, IfOk, IfErr, OnOk, IfNone, IfSome};
ghost use Rattle.rela_labels.specs.WideSets.{has_letter, AreAlike, HaveFewWords, IsSized};

use crate::wide_members::Members;
use crate::word::{
    is_disjoint_word, is_empty_word, is_in_word, is_same_word, join_word, least_of_word, meet_word,
    minus_word, only_of_word, with_letter,
};
use std::alloc::{AllocError, Global};

/// The letters of a set. One whose size is at most 64 is always a word, and takes no memory on the
/// heap; one of a greater size never is. The size is kept by the set.
#[derive(Debug, Drop)]
pub(crate) enum Letters {
    /// The letters below 64: letter `k` is there where bit `k` is 1.
    Few(u64),
    /// The letters of a set whose size is more than 64.
    Wide(Members),
}

impl Letters {
    /// No letter, for a set of this size.
    pub(crate) fn none(size: u32) -> Letters
        ensures sized { IsSized size result }
        ensures none { (k : ℕ) → has_letter result k ≡ false }
    {
        if size <= 64 {
            Letters::Few(0)
        } else {
            Letters::Wide(Members::Nothing)
        }
    }

    /// Whether the letter is there.
    pub(crate) fn contains(&self, letter: u32) -> bool
        ensures { result ≡ has_letter self.now letter }
    {
        match self {
            Letters::Few(word) => is_in_word(*word, letter),
            Letters::Wide(members) => members.contains(letter),
        }
    }

    /// The same letters, of a set of this size.
    pub(crate) fn copied(&self, alloc: Global, size: u32) -> Result<Letters, AllocError>
        requires { IsSized size self.now }
        ensures sized { IfOk result (IsSized size) }
        ensures same { IfOk result (λ letters. (k : ℕ) → has_letter letters k
            ≡ has_letter self.now k) }
    {
        match self {
            Letters::Few(word) => Ok(Letters::Few(*word)),
            Letters::Wide(members) => Ok(Letters::Wide(members.copied(alloc, size)?)),
        }
    }

    /// Puts the letter among these. An error leaves them as they were.
    pub(crate) fn add(&mut self, alloc: Global, size: u32, letter: u32) -> Result<(), AllocError>
        requires sized { IsSized size self.old }
        requires below { letter < size }
        ensures sized { IsSized size self.new }
        ensures each { OnOk result ((k : ℕ) → has_letter self.new k
            ≡ (has_letter self.old k || letter == k)) }
        ensures unchanged { IfErr result (λ _. self.new ≡ self.old) }
    {
        match self {
            Letters::Few(word) => {
                *word = with_letter(*word, letter);
                Ok(())
            }
            Letters::Wide(members) => members.add(alloc, size, letter),
        }
    }

    /// The letters that are in both, which are of one size.
    pub(crate) fn meet(
        &self,
        alloc: Global,
        size: u32,
        other: &Letters,
    ) -> Result<Letters, AllocError>
        requires first { IsSized size self.now }
        requires second { IsSized size other.now }
        ensures sized { IfOk result (IsSized size) }
        ensures both { IfOk result (λ letters. (k : ℕ) → has_letter letters k
            ≡ (has_letter self.now k && has_letter other.now k)) }
    {
        match (self, other) {
            (Letters::Few(word), Letters::Few(other)) => {
                Ok(Letters::Few(meet_word(*word, *other)))
            }
            (Letters::Wide(members), Letters::Wide(others)) => {
                Ok(Letters::Wide(members.meet(alloc, size, others)?))
            }
            _ => unreachable!(),
        }
    }

    /// The letters that are in one or the other, which are of one size.
    pub(crate) fn join(
        &self,
        alloc: Global,
        size: u32,
        other: &Letters,
    ) -> Result<Letters, AllocError>
        requires first { IsSized size self.now }
        requires second { IsSized size other.now }
        ensures sized { IfOk result (IsSized size) }
        ensures either { IfOk result (λ letters. (k : ℕ) → has_letter letters k
            ≡ (has_letter self.now k || has_letter other.now k)) }
    {
        match (self, other) {
            (Letters::Few(word), Letters::Few(other)) => {
                Ok(Letters::Few(join_word(*word, *other)))
            }
            (Letters::Wide(members), Letters::Wide(others)) => {
                Ok(Letters::Wide(members.join(alloc, size, others)?))
            }
            _ => unreachable!(),
        }
    }

    /// The letters that are here and not in the other, which are of one size.
    pub(crate) fn minus(
        &self,
        alloc: Global,
        size: u32,
        other: &Letters,
    ) -> Result<Letters, AllocError>
        requires first { IsSized size self.now }
        requires second { IsSized size other.now }
        ensures sized { IfOk result (IsSized size) }
        ensures first_only { IfOk result (λ letters. (k : ℕ) → has_letter letters k
            ≡ (has_letter self.now k && not (has_letter other.now k))) }
    {
        match (self, other) {
            (Letters::Few(word), Letters::Few(other)) => {
                Ok(Letters::Few(minus_word(*word, *other)))
            }
            (Letters::Wide(members), Letters::Wide(others)) => {
                Ok(Letters::Wide(members.minus(alloc, size, others)?))
            }
            _ => unreachable!(),
        }
    }

    /// Whether no letter is there.
    pub(crate) fn is_empty(&self) -> bool
        requires { HaveFewWords self.now }
        ensures { IsTrue result ↔ ((k : ℕ) → has_letter self.now k ≡ false) }
    {
        match self {
            Letters::Few(word) => is_empty_word(*word),
            Letters::Wide(members) => members.is_empty(),
        }
    }

    /// Whether no letter is in both, where both are of one size.
    pub(crate) fn is_disjoint(&self, other: &Letters) -> bool
        requires { AreAlike self.now other.now }
        ensures { IsTrue result ↔ ((k : ℕ) →
            (has_letter self.now k && has_letter other.now k) ≡ false) }
    {
        match (self, other) {
            (Letters::Few(word), Letters::Few(other)) => is_disjoint_word(*word, *other),
            (Letters::Wide(members), Letters::Wide(others)) => members.is_disjoint(others),
            _ => unreachable!(),
        }
    }

    /// The least letter, and `None` where there is none.
    pub(crate) fn least(&self) -> Option<u32>
        requires { HaveFewWords self.now }
        ensures none { IfNone result ((k : ℕ) → has_letter self.now k ≡ false) }
        ensures member { IfSome result (λ least. has_letter self.now least ≡ true) }
        ensures least { IfSome result (λ least. (k : ℕ) → k < least →
            has_letter self.now k ≡ false) }
    {
        match self {
            Letters::Few(word) => least_of_word(*word),
            Letters::Wide(members) => members.least(),
        }
    }

    /// The letter, if there is just one, and else `None`.
    pub(crate) fn only(&self) -> Option<u32>
        requires { HaveFewWords self.now }
        ensures only { IfSome result (λ only. (k : ℕ) → has_letter self.now k ≡ (only == k)) }
        ensures other { IfNone result ((only : ℕ) →
            ¬ ((k : ℕ) → has_letter self.now k ≡ (only == k))) }
    {
        match self {
            Letters::Few(word) => only_of_word(*word),
            Letters::Wide(members) => members.only(),
        }
    }

    /// Whether the letters are the same, where both are of one size.
    pub(crate) fn same(&self, other: &Letters) -> bool
        requires first { HaveFewWords self.now }
        requires second { HaveFewWords other.now }
        requires alike { AreAlike self.now other.now }
        ensures { IsTrue result ↔ ((k : ℕ) → has_letter self.now k ≡ has_letter other.now k) }
    {
        match (self, other) {
            (Letters::Few(word), Letters::Few(other)) => is_same_word(*word, *other),
            (Letters::Wide(members), Letters::Wide(others)) => members.same(others),
            _ => unreachable!(),
        }
    }
}
