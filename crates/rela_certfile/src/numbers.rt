//! Numbers in decimal, and word lines.

ghost use Rattle.std.specs.Prelude.{◌≡◌, ◌<◌, ◌≤◌, ◌+◌, ◌^◌, ◌++◌, ◌∷◌, [], ℕ, ◌↔◌, Some, IsTrue, OnOk, decimal, length, slice_index};
ghost use Rattle.std.specs.Str.Parse.{IsNumeral, digits_value};
ghost use Rattle.rela_certfile.specs.Text.{IsWordLine, word_line};

use crate::lines::cut_at;
use crate::rows::Step;
use std::alloc::AllocError;

/// The number of 32 bits that a decimal with no leading zero writes, or `None` where the text is
/// none. Time: constant, since no byte past the tenth is looked at.
fn number_of(text: &[u8]) -> Option<u32>
    ensures { (n : ℕ) → (result ≡ Some n) ↔ ((n < 2 ^ 32) × (text.now ≡ decimal n)) }
{
    if has_leading_zero(text) {
        return None;
    }
    let number = short_number(text)?;
    if number < 1 << 32 {
        Some(number as u32)
    } else {
        None
    }
}

/// Whether the text begins with a zero, and more follows.
fn has_leading_zero(text: &[u8]) -> bool
    ensures { IsTrue result ↔ ((1 < length text.now) × (slice_index text.now 0 ≡ 48)) }
{
    text.len() > 1 && text[0] == b'0'
}

/// The number that one to ten digits write, or `None` where the text is no such numeral.
fn short_number(text: &[u8]) -> Option<u64>
    ensures { (n : ℕ) → (result ≡ Some n)
        ↔ (IsNumeral 10 text.now × (length text.now ≤ 10) × (n ≡ digits_value 10 text.now)) }
{
    if text.is_empty() || text.len() > 10 {
        return None;
    }
    let mut number: u64 = 0;
    for &byte in text {
        let digit = char::from(byte).to_digit(10)?;
        number = number * 10 + digit as u64;
    }
    Some(number)
}

/// The step that a word line writes, or `None` where it is no word line.
pub(crate) fn step_of(line: &[u8]) -> Option<Step>
    ensures { (step : Step) → (result ≡ Some step) ↔ IsWordLine line.now step }
{
    let (parent, symbol) = cut_at(line, b' ')?;
    Some(Step {
        parent: number_of(parent)?,
        symbol: number_of(symbol)?,
    })
}

/// Appends the word line of a step, with its line feed.
pub(crate) fn push_step(text: &mut Vec<u8>, step: Step) -> Result<(), AllocError>
    ensures { OnOk result (text.new.items ≡ text.old.items ++ (word_line step ++ 10 ∷ [])) }
{
    let mut digits = itoa::Buffer::new();
    text.extend_from_slice(digits.format(step.parent).as_bytes())?;
    text.push(b' ')?;
    text.extend_from_slice(digits.format(step.symbol).as_bytes())?;
    text.push(b'\n')?;
    Ok(())
}
