//! Sets of letters as the bits of words of 64 bits: letter `k` is bit `k % 64` of word `k / 64`.
ghost use Rattle.std.specs.Prelude.{◌≡◌, ◌≢◌, ℕ, ◌*◌, ◌^◌, ◌<◌, ◌≤◌, ◌↔◌, ◌+◌, ◌==◌, ◌&&◌, ◌||◌, true, false, not, IsTrue, length, IfNone, IfSome};
ghost use Rattle.rela_labels.specs.Words.{bit_of};
ghost use Rattle.std.specs.Int.{bit_at};

/// Whether the letter's bit is 1. The bits past the last word are 0.
pub(crate) fn has_bit(words: &[u64], letter: u32) -> bool
    ensures { result ≡ bit_of words.now letter }
{
    match words.get(letter as usize / 64) {
        Some(word) => word >> (letter % 64) & 1 == 1,
        None => false,
    }
}

/// Sets the letter's bit to 1.
pub(crate) fn set_bit(words: &mut [u64], letter: u32)
    requires { letter < 64 * length words.old }
    ensures added { bit_of words.new letter ≡ true }
    ensures others { (k : ℕ) → k ≢ letter → bit_of words.new k ≡ bit_of words.old k }
{
    words[letter as usize / 64] |= 1 << (letter % 64);
}

/// Keeps the bits at 1 that are 1 in the other too, which has as many words.
pub(crate) fn meet_words(words: &mut [u64], other: &[u64])
    requires { length words.old ≡ length other.now }
    ensures { (k : ℕ) → bit_of words.new k ≡ (bit_of words.old k && bit_of other.now k) }
{
    for i in 0..words.len() {
        words[i] &= other[i];
    }
}

/// Sets the bits to 1 that are 1 in the other, which has as many words.
pub(crate) fn join_words(words: &mut [u64], other: &[u64])
    requires { length words.old ≡ length other.now }
    ensures { (k : ℕ) → bit_of words.new k ≡ (bit_of words.old k || bit_of other.now k) }
{
    for i in 0..words.len() {
        words[i] |= other[i];
    }
}

/// Sets the bits to 0 that are 1 in the other, which has as many words.
pub(crate) fn minus_words(words: &mut [u64], other: &[u64])
    requires { length words.old ≡ length other.now }
    ensures { (k : ℕ) → bit_of words.new k ≡ (bit_of words.old k && not (bit_of other.now k)) }
{
    for i in 0..words.len() {
        words[i] &= !other[i];
    }
}

/// The least letter whose bit is 1, and `None` where no bit is.
pub(crate) fn least_bit(words: &[u64]) -> Option<u32>
    requires { length words.now ≤ 2 ^ 26 }
    ensures none { IfNone result ((k : ℕ) → bit_of words.now k ≡ false) }
    ensures member { IfSome result (λ least. bit_of words.now least ≡ true) }
    ensures least { IfSome result (λ least. (k : ℕ) → k < least → bit_of words.now k ≡ false) }
{
    for (i, word) in words.iter().enumerate() {
        if *word != 0 {
            return Some(i as u32 * 64 + word.trailing_zeros());
        }
    }
    None
}

/// Whether the bits are the same, of as many words.
pub(crate) fn same_words(words: &[u64], other: &[u64]) -> bool
    requires { length words.now ≡ length other.now }
    ensures { IsTrue result ↔ ((k : ℕ) → bit_of words.now k ≡ bit_of other.now k) }
{
    for i in 0..words.len() {
        if words[i] != other[i] {
            return false;
        }
    }
    true
}

/// Whether no bit is 1 in both, of as many words.
pub(crate) fn disjoint_words(words: &[u64], other: &[u64]) -> bool
    requires { length words.now ≡ length other.now }
    ensures { IsTrue result ↔ ((k : ℕ) →
        (bit_of words.now k && bit_of other.now k) ≡ false) }
{
    for i in 0..words.len() {
        if words[i] & other[i] != 0 {
            return false;
        }
    }
    true
}

/// The letter whose bit alone is 1, and `None` where more are or none is.
pub(crate) fn only_bit(words: &[u64]) -> Option<u32>
    requires { length words.now ≤ 2 ^ 26 }
    ensures only { IfSome result (λ only. (k : ℕ) → bit_of words.now k ≡ (only == k)) }
    ensures other { IfNone result ((only : ℕ) →
        ¬ ((k : ℕ) → bit_of words.now k ≡ (only == k))) }
{
    let Some(least) = least_bit(words) else {
        return None;
    };
    if is_only_bit(words, least) {
        Some(least)
    } else {
        None
    }
}

/// Whether the letter's bit is 1, and no other.
pub(crate) fn is_only_bit(words: &[u64], letter: u32) -> bool
    ensures { IsTrue result ↔ ((k : ℕ) → bit_of words.now k ≡ (letter == k)) }
{
    if !has_bit(words, letter) {
        return false;
    }
    for (i, word) in words.iter().enumerate() {
        if *word != word_of(letter, i) {
            return false;
        }
    }
    true
}

/// The word at this place where the letter's bit alone is 1.
fn word_of(letter: u32, place: usize) -> u64
    ensures { (b : ℕ) → b < 64 → (bit_at result b == 1) ≡ (letter == 64 * place + b) }
{
    if letter as usize / 64 == place {
        1 << (letter % 64)
    } else {
        0
    }
}
