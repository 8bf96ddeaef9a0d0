//! What stands around the values of a text that is laid out in a known order.

ghost use Rattle.std.specs.Prelude.{◌≡◌, [], ◌∷◌, None, Some, OnOk};
ghost use Rattle.json.specs.Json.{read_key};
ghost use Rattle.json.specs.Token.{begin_array, begin_object, key as key_token};

use crate::reader::{Reader, Token};
use crate::unread::Unread;

/// Takes the brace that opens an object. Time: constant.
///
/// # Errors
///
/// `Unread`, which says nothing of what stands there. The reader may then stand anywhere.
pub fn open_object(reader: &mut Reader<'_>) -> Result<(), Unread>
    ensures brace { OnOk result (reader.old ≡ begin_object ∷ reader.new) }
{
    match reader.next() {
        Some(Token::BeginObject) => Ok(()),
        _ => Err(Unread),
    }
}

/// Takes the key of this name. Time: linear in the key.
///
/// # Errors
///
/// `Unread`, which says nothing of what stands there. The reader may then stand anywhere.
pub fn take_key(reader: &mut Reader<'_>, name: &str) -> Result<(), Unread>
    ensures key { OnOk result (reader.old ≡ key_token name.now ∷ reader.new) }
{
    match reader.next() {
        Some(Token::Key(key)) => { if key == name { Ok(()) } else { Err(Unread) } }
        _ => Err(Unread),
    }
}

/// Takes the key of this name, and the bracket that opens an array. Time: linear in the key.
///
/// # Errors
///
/// `Unread`, which says nothing of what stands there. The reader may then stand anywhere.
pub fn open_array(reader: &mut Reader<'_>, name: &str) -> Result<(), Unread>
    ensures bracket { OnOk result (reader.old ≡ key_token name.now ∷ begin_array ∷ reader.new) }
{
    take_key(reader, name)?;
    match reader.next() {
        Some(Token::BeginArray) => Ok(()),
        _ => Err(Unread),
    }
}

/// Takes the brace that closes an object. Time: constant.
///
/// # Errors
///
/// `Unread`, which says nothing of what stands there. The reader may then stand anywhere.
pub fn close_object(reader: &mut Reader<'_>) -> Result<(), Unread>
    ensures brace { OnOk result (read_key reader.old ≡ Some (None, reader.new)) }
{
    if reader.next_key()?.is_some() {
        return Err(Unread);
    }
    Ok(())
}

/// Takes the brace that closes an object, behind which the text ends. Time: constant.
///
/// # Errors
///
/// `Unread`, which says nothing of what stands there. The reader may then stand anywhere.
pub fn close_text(reader: &mut Reader<'_>) -> Result<(), Unread>
    ensures brace { OnOk result (read_key reader.old ≡ Some (None, [])) }
{
    close_object(reader)?;
    if reader.is_over() {
        Ok(())
    } else {
        Err(Unread)
    }
}
