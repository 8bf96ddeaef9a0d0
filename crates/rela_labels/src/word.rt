//! Letters below 64 as the bits of one word: letter `k` is bit `k`.
ghost use Rattle.std.specs.Prelude.{◌≡◌, ℕ, ◌<◌, ◌↔◌, ◌==◌, ◌&&◌, ◌||◌, true, false, not, IsTrue, IfNone, IfSome};
ghost use Rattle.rela_labels.specs.Words.{word_has};

/// Whether the letter's bit is 1, which that of no letter from 64 on is.
pub(crate) fn is_in_word(word: u64, letter: u32) -> bool
    ensures { result ≡ word_has word letter }
{
    letter < 64 && word >> letter & 1 == 1
}

/// The word with the letter's bit set to 1.
#[tactic(auto, using(crate::proofs::OneWord::set_bits))]
pub(crate) fn with_letter(word: u64, letter: u32) -> u64
    requires { letter < 64 }
    ensures { (k : ℕ) → word_has result k ≡ (word_has word k || letter == k) }
{
    word | 1 << letter
}

/// The word whose bits are 1 where those of both are.
#[tactic(auto, using(crate::proofs::WordBits::meet_bits))]
pub(crate) fn meet_word(word: u64, other: u64) -> u64
    ensures { (k : ℕ) → word_has result k ≡ (word_has word k && word_has other k) }
{
    word & other
}

/// The word whose bits are 1 where those of one or the other are.
#[tactic(auto, using(crate::proofs::WordBits::join_bits))]
pub(crate) fn join_word(word: u64, other: u64) -> u64
    ensures { (k : ℕ) → word_has result k ≡ (word_has word k || word_has other k) }
{
    word | other
}

/// The word whose bits are 1 where those of the first are and those of the other aren't.
#[tactic(auto, using(crate::proofs::OneWord::minus_bits))]
pub(crate) fn minus_word(word: u64, other: u64) -> u64
    ensures { (k : ℕ) → word_has result k ≡ (word_has word k && not (word_has other k)) }
{
    word & !other
}

/// The least letter whose bit is 1, and `None` where no bit is.
pub(crate) fn least_of_word(word: u64) -> Option<u32>
    ensures none { IfNone result ((k : ℕ) → word_has word k ≡ false) }
    ensures member { IfSome result (λ least. word_has word least ≡ true) }
    ensures least { IfSome result (λ least. (k : ℕ) → k < least → word_has word k ≡ false) }
{
    if word == 0 {
        None
    } else {
        Some(word.trailing_zeros())
    }
}

/// The letter whose bit alone is 1, and `None` where more are or none is.
pub(crate) fn only_of_word(word: u64) -> Option<u32>
    ensures only { IfSome result (λ only. (k : ℕ) → word_has word k ≡ (only == k)) }
    ensures other { IfNone result ((only : ℕ) → ¬ ((k : ℕ) → word_has word k ≡ (only == k))) }
{
    let Some(least) = least_of_word(word) else {
        return None;
    };
    if is_same_word(word, with_letter(0, least)) {
        Some(least)
    } else {
        None
    }
}

/// Whether no letter's bit is 1 in both.
pub(crate) fn is_disjoint_word(word: u64, other: u64) -> bool
    ensures { IsTrue result ↔ ((k : ℕ) → (word_has word k && word_has other k) ≡ false) }
{
    is_empty_word(meet_word(word, other))
}

/// Whether no bit is 1.
pub(crate) fn is_empty_word(word: u64) -> bool
    ensures { IsTrue result ↔ ((k : ℕ) → word_has word k ≡ false) }
{
    word == 0
}

/// Whether the bits are the same.
pub(crate) fn is_same_word(word: u64, other: u64) -> bool
    ensures { IsTrue result ↔ ((k : ℕ) → word_has word k ≡ word_has other k) }
{
    word == other
}
