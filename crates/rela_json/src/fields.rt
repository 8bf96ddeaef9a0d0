//! The parts of an entry of a JSON file, each with the rule that it breaks where it is of another kind.

ghost use Rattle.std.specs.Prelude.{◌≡◌, ◌≤◌, Ok, Err, Some, IfOk, IfErr, length, map, option_map};
ghost use Rattle.serde_json.specs.View.{view};
ghost use Rattle.rela_json.specs.Fields.{part_of, string_of, entries_of, whole_number_of, few_entries_of, two_entries_of};

use crate::error::LoadError;
use crate::parts::{array, member, number, text};
use serde_json::Value;

/// An object's member of that name, and `None` where the object has none.
///
/// # Errors
///
/// `WrongShape` where the value is no object.
#[tactic(auto, unfolding(crate::specs::Fields::part_of))]
pub fn part<'a>(
    value: &'a Value,
    name: &str,
    rule: u8,
    row: u32,
) -> Result<Option<&'a Value>, LoadError>
    ensures found { IfOk result (λ m. part_of name.now rule row (view value.now)
        ≡ Ok (option_map (λ v. view v.now) m)) }
    ensures fault { IfErr result (λ e. part_of name.now rule row (view value.now) ≡ Err e) }
{
    member(value, name).map_err(|_| LoadError::WrongShape { rule, row })
}

/// The bytes of a string that has to be there.
///
/// # Errors
///
/// `WrongShape` where it is missing or no string.
#[tactic(auto, unfolding(crate::specs::Fields::string_of))]
pub fn string(value: Option<&Value>, rule: u8, row: u32) -> Result<&[u8], LoadError>
    ensures found { IfOk result (λ bytes.
        string_of rule row (option_map (λ v. view v.now) value.entry) ≡ Ok bytes.now) }
    ensures fault { IfErr result (λ e. string_of rule row (option_map (λ v. view v.now) value.entry)
        ≡ Err e) }
{
    let value = value.ok_or(LoadError::WrongShape { rule, row })?;
    text(value).map_err(|_| LoadError::WrongShape { rule, row })
}

/// The entries of an array that has to be there.
///
/// # Errors
///
/// `WrongShape` where it is missing or no array.
#[tactic(auto, unfolding(crate::specs::Fields::entries_of))]
pub fn entries(value: Option<&Value>, rule: u8, row: u32) -> Result<&[Value], LoadError>
    ensures found { IfOk result (λ vs. entries_of rule row (option_map (λ v.
        view v.now) value.entry) ≡ Ok (map view vs.now)) }
    ensures fault { IfErr result (λ e. entries_of rule row (option_map (λ v.
        view v.now) value.entry) ≡ Err e) }
{
    let value = value.ok_or(LoadError::WrongShape { rule, row })?;
    array(value).map_err(|_| LoadError::WrongShape { rule, row })
}

/// A whole number that has to be there.
///
/// # Errors
///
/// `WrongShape` where it is missing or no whole number from 0 to 2^64 - 1.
#[tactic(auto, unfolding(crate::specs::Fields::whole_number_of))]
pub fn whole_number(value: Option<&Value>, rule: u8, row: u32) -> Result<u64, LoadError>
    ensures found { IfOk result (λ n. whole_number_of rule row (option_map (λ v.
        view v.now) value.entry) ≡ Ok n) }
    ensures fault { IfErr result (λ e. whole_number_of rule row (option_map (λ v.
        view v.now) value.entry) ≡ Err e) }
{
    let value = value.ok_or(LoadError::WrongShape { rule, row })?;
    number(value).map_err(|_| LoadError::WrongShape { rule, row })
}

/// The entries of an array that has to be there, at most `most` of them.
///
/// # Errors
///
/// `WrongShape` where it is missing or no array; else `TooMany` where it has more entries.
#[tactic(auto, unfolding(crate::specs::Fields::few_entries_of))]
pub fn few_entries(
    value: Option<&Value>,
    most: usize,
    rule: u8,
    row: u32,
) -> Result<&[Value], LoadError>
    ensures found { IfOk result (λ vs. few_entries_of most rule row (option_map (λ v.
        view v.now) value.entry) ≡ Ok (map view vs.now)) }
    ensures few { IfOk result (λ vs. length vs.now ≤ most) }
    ensures fault { IfErr result (λ e. few_entries_of most rule row (option_map (λ v.
        view v.now) value.entry) ≡ Err e) }
{
    let found = entries(value, rule, row)?;
    if most < found.len() {
        return Err(LoadError::TooMany { row });
    }
    Ok(found)
}

/// The two entries of an array that has to have just two.
///
/// # Errors
///
/// `WrongShape` where the value is no such array.
#[tactic(auto, unfolding(crate::specs::Fields::two_entries_of))]
pub fn two_entries(value: &Value, rule: u8, row: u32) -> Result<(&Value, &Value), LoadError>
    ensures found { IfOk result (λ ends. two_entries_of rule row (view value.now)
        ≡ Ok (view ends.0.now, view ends.1.now)) }
    ensures fault { IfErr result (λ e. two_entries_of rule row (view value.now) ≡ Err e) }
{
    match entries(Some(value), rule, row)? {
        [first, second] => Ok((first, second)),
        _ => Err(LoadError::WrongShape { rule, row }),
    }
}
