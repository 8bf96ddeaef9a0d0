//! The texts of the nodes' indexes, which are made once.

ghost use Rattle.std.specs.Prelude.{◌≡◌, ◌∷◌, ◌++◌, [], IfOk, OnOk, decimal};
ghost use Rattle.rela_fib.specs.Writing.{AreNumerals, IsNumeral};

use crate::pieces::push_number;
use std::alloc::{AllocError, Global};

/// What the arrays of a graph have of a node's index.
#[derive(Drop)]
pub(crate) struct Numeral {
    /// A comma and the index: an entry behind others.
    pub(crate) entry: Vec<u8>,
    /// A comma, a bracket and the index: how an edge from the node begins behind another.
    pub(crate) opening: Vec<u8>,
    /// A comma, the index and a bracket: how an edge to the node ends.
    pub(crate) closing: Vec<u8>,
}

/// The numerals of the numbers below `count`. Time and space: linear.
///
/// # Errors
///
/// Only where memory is wanted.
pub(crate) fn numerals_below(alloc: Global, count: u32) -> Result<Vec<Numeral>, AllocError>
    ensures { IfOk result (λ numerals. AreNumerals numerals.items) }
{
    let mut numerals = Vec::with_capacity(alloc, count as usize)?;
    for number in 0..count {
        numerals.push(numeral_of(alloc, number)?)?;
    }
    Ok(numerals)
}

/// The numeral of a number.
fn numeral_of(alloc: Global, number: u32) -> Result<Numeral, AllocError>
    ensures { IfOk result (IsNumeral number) }
{
    let mut entry = Vec::new(alloc);
    entry.push(b',')?;
    push_number(&mut entry, number)?;
    let mut opening = Vec::new(alloc);
    opening.extend_from_slice(b",[")?;
    push_number(&mut opening, number)?;
    let mut closing = Vec::new(alloc);
    closing.push(b',')?;
    push_number(&mut closing, number)?;
    closing.push(b']')?;
    Ok(Numeral {
        entry,
        opening,
        closing,
    })
}

/// Adds a number with a comma before it, copied from its numeral if it has one.
pub(crate) fn push_entry(
    text: &mut Vec<u8>,
    numerals: &[Numeral],
    number: u32,
) -> Result<(), AllocError>
    requires { AreNumerals numerals.now }
    ensures { OnOk result (text.new.items ≡ text.old.items ++ (44 ∷ decimal number)) }
{
    let place = number as usize;
    if place < numerals.len() {
        return text.extend_from_slice(numerals[place].entry.as_slice());
    }
    text.push(b',')?;
    push_number(text, number)
}

/// Adds how an edge from a node begins, copied from the node's numeral if it has one.
pub(crate) fn push_opening(
    text: &mut Vec<u8>,
    numerals: &[Numeral],
    from: u32,
) -> Result<(), AllocError>
    requires { AreNumerals numerals.now }
    ensures { OnOk result (text.new.items ≡ text.old.items ++ (44 ∷ 91 ∷ decimal from)) }
{
    let place = from as usize;
    if place < numerals.len() {
        return text.extend_from_slice(numerals[place].opening.as_slice());
    }
    text.extend_from_slice(b",[")?;
    push_number(text, from)
}

/// Adds how an edge to a node ends, copied from the node's numeral if it has one.
pub(crate) fn push_closing(
    text: &mut Vec<u8>,
    numerals: &[Numeral],
    to: u32,
) -> Result<(), AllocError>
    requires { AreNumerals numerals.now }
    ensures { OnOk result (text.new.items ≡ text.old.items ++ (44 ∷ (decimal to ++ 93 ∷ []))) }
{
    let place = to as usize;
    if place < numerals.len() {
        return text.extend_from_slice(numerals[place].closing.as_slice());
    }
    text.push(b',')?;
    push_number(text, to)?;
    text.push(b']')?;
    Ok(())
}
