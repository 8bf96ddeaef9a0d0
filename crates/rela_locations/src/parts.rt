//! The parts of a JSON value. Each refuses as `WrongShape` with the rule that wants the part, and
//! the row of its entry.

ghost use Rattle.std.specs.Prelude.{◌≡◌, Ok, Err, map, option_map, IfOk, IfErr};
ghost use Rattle.serde_json.specs.View.{view};
ghost use Rattle.rela_json.specs.Parts.{text_of, number_of, items_of};
ghost use Rattle.rela_locations.specs.Load.{part as part_of, needed};

use rela_json::{LoadError, Shape, Value, array, member, number, text};

/// An object's member of that name, and `None` where the object has none.
///
/// # Errors
///
/// `WrongShape` where the value is no object.
pub(crate) fn part<'a>(
    value: &'a Value,
    name: &str,
    rule: u8,
    row: u32,
) -> Result<Option<&'a Value>, LoadError>
    ensures found { IfOk result (λ m. part_of rule row name.now (view value.now)
        ≡ Ok (option_map (λ v. view v.now) m)) }
    ensures fault { IfErr result (λ e. part_of rule row name.now (view value.now) ≡ Err e) }
{
    match member(value, name) {
        Ok(found) => Ok(found),
        Err(Shape) => Err(LoadError::WrongShape { rule, row }),
    }
}

/// The bytes of a string that has to be there.
///
/// # Errors
///
/// `WrongShape` where it is missing or no string.
pub(crate) fn bytes<'a>(value: Option<&'a Value>, rule: u8, row: u32) -> Result<&'a [u8], LoadError>
    ensures found { IfOk result (λ bytes.
        needed rule row text_of (option_map (λ v. view v.now) value.entry) ≡ Ok bytes.now) }
    ensures fault { IfErr result (λ e. needed rule row text_of (option_map (λ v.
        view v.now) value.entry) ≡ Err e) }
{
    let Some(value) = value else {
        return Err(LoadError::WrongShape { rule, row });
    };
    match text(value) {
        Ok(found) => Ok(found),
        Err(Shape) => Err(LoadError::WrongShape { rule, row }),
    }
}

/// The entries of an array that has to be there.
///
/// # Errors
///
/// `WrongShape` where it is missing or no array.
pub(crate) fn entries<'a>(
    value: Option<&'a Value>,
    rule: u8,
    row: u32,
) -> Result<&'a [Value], LoadError>
    ensures found { IfOk result (λ entries.
        needed rule row items_of (option_map (λ v. view v.now) value.entry)
        ≡ Ok (map view entries.now)) }
    ensures fault { IfErr result (λ e. needed rule row items_of (option_map (λ v.
        view v.now) value.entry) ≡ Err e) }
{
    let Some(value) = value else {
        return Err(LoadError::WrongShape { rule, row });
    };
    match array(value) {
        Ok(found) => Ok(found),
        Err(Shape) => Err(LoadError::WrongShape { rule, row }),
    }
}

/// A whole number that has to be there.
///
/// # Errors
///
/// `WrongShape` where it is missing or no whole number from 0 to 2^64 - 1.
pub(crate) fn whole_number(value: Option<&Value>, rule: u8, row: u32) -> Result<u64, LoadError>
    ensures found { IfOk result (λ n. needed rule row number_of (option_map (λ v.
        view v.now) value.entry) ≡ Ok n) }
    ensures fault { IfErr result (λ e. needed rule row number_of (option_map (λ v.
        view v.now) value.entry) ≡ Err e) }
{
    let Some(value) = value else {
        return Err(LoadError::WrongShape { rule, row });
    };
    match number(value) {
        Ok(found) => Ok(found),
        Err(Shape) => Err(LoadError::WrongShape { rule, row }),
    }
}
