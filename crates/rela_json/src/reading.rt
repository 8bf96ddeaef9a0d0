//! From bytes to a JSON value.

ghost use Rattle.std.specs.Prelude.{◌≡◌, Some, None, IfOk, IsErrOf};
ghost use Rattle.serde_json.specs.View.{view};
ghost use Rattle.rela_json.specs.Reading.{reading};

use crate::error::ReadJsonError;
use serde_json::Value;
use std::alloc::Global;

/// The value of a JSON text (RFC 8259) in UTF-8. Of an object's members of one name the last one counts. Arrays and
/// objects may nest 127 deep. Time: linear in the bytes, and a search among the object's earlier members for each
/// member; space: linear.
///
/// # Errors
///
/// `NotJson` where the bytes are no such text; `Memory` where memory runs out.
pub fn read(alloc: Global, bytes: &[u8]) -> Result<Value, ReadJsonError>
    ensures value { IfOk result (λ v. reading bytes.now ≡ Some (view v)) }
    ensures not_json { IsErrOf result ReadJsonError.NotJson → reading bytes.now ≡ None }
{
    Ok(Value::from_slice(alloc, bytes)?)
}
