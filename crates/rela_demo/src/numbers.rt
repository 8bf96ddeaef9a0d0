//! Numbers in decimal.

ghost use Rattle.std.specs.Prelude.{◌≡◌, ◌++◌, OnOk, decimal};
ghost use Rattle.rela_demo.specs.Names.{three_digits};

use std::alloc::AllocError;

/// Adds a number in decimal.
pub(crate) fn push_number(text: &mut Vec<u8>, number: u32) -> Result<(), AllocError>
    ensures { OnOk result (text.new.items ≡ text.old.items ++ decimal number) }
{
    let mut digits = itoa::Buffer::new();
    text.extend_from_slice(digits.format(number).as_bytes())
}

/// Adds the last three decimal digits of a number.
pub(crate) fn push_three_digits(text: &mut Vec<u8>, number: u32) -> Result<(), AllocError>
    ensures { OnOk result (text.new.items ≡ text.old.items ++ three_digits number) }
{
    let hundreds = (number / 100 % 10) as u8;
    let tens = (number / 10 % 10) as u8;
    let ones = (number % 10) as u8;
    text.extend_from_slice(&[b'0' + hundreds, b'0' + tens, b'0' + ones])
}
