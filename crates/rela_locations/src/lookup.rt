//! Look-ups of the members of a named location or of a tag.

ghost use Rattle.std.specs.Prelude.{◌≡◌, ◌≢◌, ◌<◌, ℕ, [], ◌∷◌, true, false, Err, length, map, slice_index_or, is_some, IfOk, OnOk, OnErr, IsErrOf, ◌↔◌};
ghost use Rattle.std.specs.BTreeMap.{get};
ghost use Rattle.std.specs.List.{All, list_any};
ghost use Rattle.std.specs.List.Sorted.{IsStrictlySortedBy};
ghost use Rattle.std.specs.Ordering.{nat_cmp};
ghost use Rattle.rela_names.specs.Name.{bytes_cmp};
ghost use Rattle.rela_locations.specs.Names.{has_name};
ghost use Rattle.rela_locations.specs.Tables.{index_of, has_number, devices_for};

use crate::members::MemberError;
use crate::name_index::NameIndex;
use crate::tags::Tagged;
use rela_names::{Name, Symbol};
use std::alloc::{AllocError, Global};

/// The location of this name, as its only member.
///
/// # Errors
///
/// `Unknown` where no location has the name; `Memory`. Never `Finer`.
pub(crate) fn itself(
    alloc: Global,
    alphabet: &NameIndex,
    name: &Name,
) -> Result<Vec<Symbol>, MemberError>
    ensures members { IfOk result (λ members. members.items ≡ index_of alphabet.now name.now ∷ []) }
    ensures known { OnOk result (has_name alphabet.now name.now ≡ true) }
    ensures unknown { IsErrOf result MemberError.Unknown ↔
        (has_name alphabet.now name.now ≡ false) }
    ensures not_finer { result ≢ Err MemberError.Finer }
{
    let symbol = find(alphabet, name)?;
    Ok(vec![in alloc; symbol]?)
}

/// A copy of the list that belongs to the location of this name. `lists` has one for each location,
/// by its symbol.
///
/// # Errors
///
/// `Unknown` where no location has the name; `Memory`. Never `Finer`.
pub(crate) fn inside(
    alloc: Global,
    alphabet: &NameIndex,
    lists: &[Vec<Symbol>],
    name: &Name,
) -> Result<Vec<Symbol>, MemberError>
    requires { length lists.now ≡ length alphabet.now }
    ensures members { IfOk result (λ members. members.items
        ≡ slice_index_or (map (λ list. list.items) lists.now) (index_of alphabet.now name.now) []) }
    ensures known { OnOk result (has_name alphabet.now name.now ≡ true) }
    ensures unknown { IsErrOf result MemberError.Unknown ↔
        (has_name alphabet.now name.now ≡ false) }
    ensures not_finer { result ≢ Err MemberError.Finer }
{
    let symbol = find(alphabet, name)?;
    Ok(Vec::from_slice(alloc, lists[symbol as usize].as_slice())?)
}

/// The devices with this tag, ascending.
///
/// # Errors
///
/// `Unknown` where no device carries the tag; `Memory`. Never `Finer`.
pub(crate) fn devices_with(
    alloc: Global,
    tagged: &Tagged,
    tag: &Name,
) -> Result<Vec<Symbol>, MemberError>
    ensures rising { IfOk result (λ members. IsStrictlySortedBy nat_cmp members.items) }
    ensures members { IfOk result (λ members. (n : ℕ) → has_number members.items n
        ≡ has_number (devices_for tagged.now tag.now) n) }
    ensures known { OnOk result (is_some (get bytes_cmp tagged.now tag.now) ≡ true) }
    ensures unknown { IsErrOf result MemberError.Unknown ↔
        (is_some (get bytes_cmp tagged.now tag.now) ≡ false) }
    ensures not_finer { result ≢ Err MemberError.Finer }
{
    let Some(devices) = tagged.get(tag) else {
        return Err(MemberError::Unknown);
    };
    let members = Vec::from_slice(alloc, devices.as_slice())?;
    Ok(ascending(members))
}

/// The interfaces of the devices with this tag, ascending. `lists` has the interfaces of each
/// device, by its symbol.
///
/// # Errors
///
/// `Unknown` where no device carries the tag; `Memory`. Never `Finer`.
pub(crate) fn interfaces_with(
    alloc: Global,
    tagged: &Tagged,
    lists: &[Vec<Symbol>],
    tag: &Name,
) -> Result<Vec<Symbol>, MemberError>
    requires { All (λ device. device < length lists.now) (devices_for tagged.now tag.now) }
    ensures rising { IfOk result (λ members. IsStrictlySortedBy nat_cmp members.items) }
    ensures members { IfOk result (λ members. (n : ℕ) → has_number members.items n
        ≡ list_any (λ device. has_number (slice_index_or (map (λ list. list.items) lists.now)
        device []) n) (devices_for tagged.now tag.now)) }
    ensures known { OnOk result (is_some (get bytes_cmp tagged.now tag.now) ≡ true) }
    ensures unknown { IsErrOf result MemberError.Unknown ↔
        (is_some (get bytes_cmp tagged.now tag.now) ≡ false) }
    ensures not_finer { result ≢ Err MemberError.Finer }
{
    let Some(devices) = tagged.get(tag) else {
        return Err(MemberError::Unknown);
    };
    let members = joined(alloc, lists, devices.as_slice())?;
    Ok(ascending(members))
}

/// The lists at these indexes, one after another.
fn joined(
    alloc: Global,
    lists: &[Vec<Symbol>],
    places: &[Symbol],
) -> Result<Vec<Symbol>, AllocError>
    requires { All (λ place. place < length lists.now) places.now }
    ensures { IfOk result (λ all. (n : ℕ) → has_number all.items n
        ≡ list_any (λ place. has_number (slice_index_or (map (λ list. list.items) lists.now)
        place []) n) places.now) }
{
    let mut all = Vec::new(alloc);
    for place in places {
        all.extend_from_slice(lists[*place as usize].as_slice())?;
    }
    Ok(all)
}

/// The same symbols, ascending and each once. Time: O(n log n); no memory is taken.
fn ascending(symbols: Vec<Symbol>) -> Vec<Symbol>
    ensures rising { IsStrictlySortedBy nat_cmp result.items }
    ensures same { (n : ℕ) → has_number result.items n ≡ has_number symbols.items n }
{
    let mut symbols = symbols;
    symbols.sort_unstable();
    symbols.dedup();
    symbols
}

/// Whether a location has this name.
pub(crate) fn has(alphabet: &NameIndex, name: &Name) -> bool
    ensures { result ≡ has_name alphabet.now name.now }
{
    find(alphabet, name).is_ok()
}

/// The symbol of a name, or `Unknown` where no location has it.
fn find(alphabet: &NameIndex, name: &Name) -> Result<Symbol, MemberError>
    ensures found { IfOk result (λ symbol. symbol ≡ index_of alphabet.now name.now) }
    ensures known { OnOk result (has_name alphabet.now name.now ≡ true) }
    ensures unknown { OnErr result (has_name alphabet.now name.now ≡ false) }
    ensures error { OnErr result (result ≡ Err MemberError.Unknown) }
{
    match alphabet.find(name.as_bytes()) {
        Some(symbol) => Ok(symbol),
        None => Err(MemberError::Unknown),
    }
}
