//! The pieces of compact JSON (RFC 8259) that a snapshot is written of.

ghost use Rattle.std.specs.Prelude.{◌≡◌, ◌++◌, [], OnOk, decimal, slice_index_or};
ghost use Rattle.json.specs.Print.{escape};
ghost use Rattle.serde_json.specs.Data.{string};
ghost use Rattle.serde_json.specs.Written.{comma_if, compact_text};
ghost use Rattle.rela_names.specs.Alphabet.{IsAlphabet};
ghost use Rattle.rela_names.specs.declared.level.Level.TheVariants.{Interface};
ghost use Rattle.rela_locations.specs.Network.{alphabet_of};
ghost use Rattle.rela_fib.specs.Text.{list_data, names_of, numbers_data};
ghost use Rattle.rela_fib.specs.Writing.{array_text, key_text, plain_text};

use rela_locations::Locations;
use rela_names::{Alphabet, Level, Symbol};
use std::alloc::AllocError;

/// Adds a comma, if a member or entry stands before.
pub(crate) fn push_comma(text: &mut Vec<u8>, later: bool) -> Result<(), AllocError>
    ensures { OnOk result (text.new.items ≡ text.old.items ++ comma_if later) }
{
    if later {
        text.push(b',')?;
    }
    Ok(())
}

/// Adds the name of a member, with its colon, and a comma before it if a member stands before.
pub(crate) fn push_key(text: &mut Vec<u8>, later: bool, name: &[u8]) -> Result<(), AllocError>
    ensures { OnOk result (text.new.items ≡ text.old.items ++ key_text later name.now) }
{
    push_comma(text, later)?;
    text.push(b'"')?;
    text.extend_from_slice(name)?;
    text.extend_from_slice(b"\":")
}

/// Adds a string that needs no escapes.
pub(crate) fn push_plain(text: &mut Vec<u8>, string: &[u8]) -> Result<(), AllocError>
    ensures { OnOk result (text.new.items ≡ text.old.items ++ plain_text string.now) }
{
    text.push(b'"')?;
    text.extend_from_slice(string)?;
    text.push(b'"')?;
    Ok(())
}

/// Adds a number in decimal.
pub(crate) fn push_number(text: &mut Vec<u8>, number: u32) -> Result<(), AllocError>
    ensures { OnOk result (text.new.items ≡ text.old.items ++ decimal number) }
{
    let mut digits = itoa::Buffer::new();
    text.extend_from_slice(digits.format(number).as_bytes())
}

/// Adds an array of numbers.
pub(crate) fn push_numbers(text: &mut Vec<u8>, numbers: &[u32]) -> Result<(), AllocError>
    ensures { OnOk result (text.new.items
        ≡ text.old.items ++ compact_text (numbers_data numbers.now)) }
{
    text.push(b'[')?;
    for (place, number) in numbers.iter().enumerate() {
        push_comma(text, place > 0)?;
        push_number(text, *number)?;
    }
    text.push(b']')?;
    Ok(())
}

/// Adds an array of these entries, each of which has a comma before it.
pub(crate) fn push_array(text: &mut Vec<u8>, entries: &[u8]) -> Result<(), AllocError>
    ensures { OnOk result (text.new.items ≡ text.old.items ++ array_text entries.now) }
{
    text.push(b'[')?;
    if !entries.is_empty() {
        text.extend_from_slice(&entries[1..])?;
    }
    text.push(b']')?;
    Ok(())
}

/// The names of the interfaces ascend, and each is one that a location may have. The call reads
/// their number alone, and its contract is this law.
pub(crate) fn interfaces_ascend(locations: &Locations)
    ensures { IsAlphabet (alphabet_of Interface locations.now) }
{
    let _len = locations.alphabet(Level::Interface).len();
}

/// The name of a symbol, which needs no escapes. It is empty for a symbol that is no location.
fn name_in(alphabet: &Alphabet, symbol: Symbol) -> &[u8]
    ensures name { result.now ≡ slice_index_or alphabet.now symbol [] }
    ensures plain { escape result.now ≡ result.now }
{
    match alphabet.name_of(symbol) {
        Some(name) => name.as_bytes(),
        None => &[],
    }
}

/// Adds an array of the names of these interfaces. Time: linear in the text.
pub(crate) fn push_names(
    text: &mut Vec<u8>,
    locations: &Locations,
    nodes: &[Symbol],
) -> Result<(), AllocError>
    ensures { OnOk result (text.new.items
        ≡ text.old.items ++ compact_text (list_data string (names_of locations.now nodes.now))) }
{
    let alphabet = locations.alphabet(Level::Interface);
    text.push(b'[')?;
    for (place, node) in nodes.iter().enumerate() {
        push_comma(text, place > 0)?;
        push_plain(text, name_in(alphabet, *node))?;
    }
    text.push(b']')?;
    Ok(())
}
