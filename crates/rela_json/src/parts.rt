//! The parts of a JSON value, each of the kind that is asked for.

ghost use Rattle.std.specs.Prelude.{◌≡◌, Some, None, map, option_map, IfOk, OnErr};
ghost use Rattle.serde_json.specs.View.{view};
ghost use Rattle.rela_json.specs.Parts.{member_of, text_of, number_of, items_of};

use crate::error::Shape;
use serde_json::Value;

/// An object's member of that name, and `None` where the object has none. Time: logarithmic in the number of members.
///
/// # Errors
///
/// `Shape` where the value is no object.
pub fn member<'a>(value: &'a Value, name: &str) -> Result<Option<&'a Value>, Shape>
    ensures found { IfOk result (λ m. member_of name.now (view value.now)
        ≡ Some (option_map (λ v. view v.now) m)) }
    ensures shape { OnErr result (member_of name.now (view value.now) ≡ None) }
{
    if value.is_object() {
        Ok(value.get(name))
    } else {
        Err(Shape)
    }
}

/// The bytes of a string, in UTF-8 and with its escapes resolved.
///
/// # Errors
///
/// `Shape` where the value is no string.
pub fn text(value: &Value) -> Result<&[u8], Shape>
    ensures found { IfOk result (λ bytes. text_of (view value.now) ≡ Some bytes.now) }
    ensures shape { OnErr result (text_of (view value.now) ≡ None) }
{
    let text = value.as_str().ok_or(Shape)?;
    Ok(text.as_bytes())
}

/// A whole number from 0 to 2^64 - 1, written without a sign, a fraction or an exponent.
///
/// # Errors
///
/// `Shape` where the value is no such number.
pub fn number(value: &Value) -> Result<u64, Shape>
    ensures found { IfOk result (λ n. number_of (view value.now) ≡ Some n) }
    ensures shape { OnErr result (number_of (view value.now) ≡ None) }
{
    value.as_u64().ok_or(Shape)
}

/// The entries of an array, in order.
///
/// # Errors
///
/// `Shape` where the value is no array.
pub fn array(value: &Value) -> Result<&[Value], Shape>
    ensures found { IfOk result (λ entries. items_of (view value.now)
        ≡ Some (map view entries.now)) }
    ensures shape { OnErr result (items_of (view value.now) ≡ None) }
{
    let entries = value.as_array().ok_or(Shape)?;
    Ok(entries.as_slice())
}
