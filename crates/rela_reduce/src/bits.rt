//! Rows of bits, as words of 64 bits: bit `j` of a row is bit `j % 64` of its word `j / 64`.
ghost use Rattle.std.specs.Prelude.{◌≡◌, ℕ, ◌<◌, ◌⊎◌, ◌↔◌, ◌==◌, [], IsTrue, false, slice_index, slice_index_or};
ghost use Rattle.std.specs.Int.{bit_at};
ghost use Rattle.rela_reduce.specs.Bits.{HasBit, bit_of};
ghost use Rattle.rela_reduce.specs.Stored.{lists_of};

use std::alloc::{AllocError, Global};

/// The bits of a word.
pub(crate) const WORD: usize = 64;

/// As many rows as `count`, of words enough for so many bits, each of which is `word`.
pub(crate) fn rows(
    alloc: Global,
    count: usize,
    bits: usize,
    word: u64,
) -> Result<Vec<Vec<u64>>, AllocError> {
    let mut rows = Vec::with_capacity(alloc, count)?;
    for _row in 0..count {
        rows.push(vec![in alloc; word; bits.div_ceil(WORD)]?)?;
    }
    Ok(rows)
}

/// The words of row `i`, and none past the rows.
pub(crate) fn row_at(rows: &[Vec<u64>], i: usize) -> &[u64]
    ensures { result.now ≡ slice_index_or (lists_of rows.now) i [] }
{
    match rows.get(i) {
        Some(row) => row,
        None => &[],
    }
}

/// Whether the bit is 1. None past the words is.
pub(crate) fn bit(words: &[u64], j: usize) -> bool
    ensures { result ≡ bit_of words.now j }
{
    match words.get(j / 64) {
        Some(word) => word >> (j % 64) & 1 == 1,
        None => false,
    }
}

/// Whether bit `j` of row `i` is 1. None past the row or past the rows is.
pub(crate) fn has_bit(rows: &[Vec<u64>], i: usize, j: usize) -> bool
    ensures { IsTrue result ↔ HasBit (lists_of rows.now) i j }
{
    bit(row_at(rows, i), j)
}

/// The word at this place of row `i`, and 0 past the row or past the rows.
pub(crate) fn word_at(rows: &[Vec<u64>], i: usize, place: usize) -> u64
    ensures { result ≡ slice_index (slice_index_or (lists_of rows.now) i []) place }
{
    row_at(rows, i).get(place).copied().unwrap_or(0)
}

/// Whether bit `b` of the word is 1.
pub(crate) fn is_one(word: u64, b: usize) -> bool
    requires { b < 64 }
    ensures { result ≡ (bit_at word b == 1) }
{
    word >> b & 1 == 1
}

/// Clears bit `j` of row `i`, if there is one.
pub(crate) fn clear_bit(rows: &mut [Vec<u64>], i: usize, j: usize) {
    if let Some(row) = rows.get_mut(i) {
        if let Some(word) = row.get_mut(j / 64) {
            *word &= !(1 << (j % 64));
        }
    }
}

/// Clears all bits.
pub(crate) fn clear_all(words: &mut [u64])
    ensures { (j : ℕ) → bit_of words.new j ≡ false }
{
    for word in words.iter_mut() {
        *word = 0;
    }
}

/// Sets the bits that are 1 in the other, as far as there are words.
pub(crate) fn join(words: &mut [u64], other: &[u64])
    ensures { (j : ℕ) → IsTrue (bit_of words.new j)
        → IsTrue (bit_of words.old j) ⊎ IsTrue (bit_of other.now j) }
{
    for i in 0..words.len().min(other.len()) {
        words[i] |= other[i];
    }
}
