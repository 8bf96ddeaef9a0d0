//! Whole numbers.

ghost use Rattle.std.specs.Prelude.{◌<◌, IfOk, OnOk, length};
ghost use Rattle.rela_tokens.specs.Holds.{Holds};
ghost use Rattle.rela_tokens.specs.Pieces.{whole};

use crate::reader::Reader;
use crate::unread::Unread;

/// Takes a whole number of at most nine digits, written without sign, fraction or exponent. Time:
/// constant.
///
/// # Errors
///
/// `Unread`, which says nothing of what stands there. The reader may then stand anywhere.
pub fn read_number(reader: &mut Reader<'_>) -> Result<u32, Unread>
    ensures number { IfOk result (λ n. Holds 0 reader.old (whole n) reader.new) }
    ensures shorter { OnOk result (length reader.new < length reader.old) }
{
    match reader.next_number() {
        Some(number) => Ok(number),
        None => Err(Unread),
    }
}
