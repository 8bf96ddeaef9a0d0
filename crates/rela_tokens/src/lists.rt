//! Arrays of values of one kind, each read behind its first opening.

ghost use Rattle.std.specs.Prelude.{◌∷◌, ◌<◌, IfOk, List, OnOk, length, map};
ghost use Rattle.json.specs.Token.{Token as SpecToken, begin_array, string};
ghost use Rattle.rela_tokens.specs.Holds.{Holds};
ghost use Rattle.rela_tokens.specs.Pieces.{list, pair as pair_of, text as text_of, whole};

use crate::number::read_number;
use crate::reader::{Reader, Token};
use crate::unread::Unread;
use std::alloc::Global;

/// How many entries an array has room for before it grows.
const ROOM: usize = 16;

/// Takes the rest of an array of strings, behind the first of them.
pub(crate) fn read_texts<'a>(
    alloc: Global,
    reader: &mut Reader<'a>,
    first: &'a str,
) -> Result<Vec<&'a str>, Unread>
    ensures texts { IfOk result (λ texts. Holds 1 (begin_array ∷ string first.now ∷ reader.old)
        (list (map text_of texts.items)) reader.new) }
    ensures shorter { OnOk result (length reader.new < length reader.old) }
{
    let mut texts = Vec::with_capacity(alloc, ROOM)?;
    texts.push(first)?;
    'texts: while !reader.take_end_array() {
        let text = read_text(reader)?;
        texts.push(text)?;
    }
    Ok(texts)
}

/// Takes a string. Time: linear in it.
///
/// # Errors
///
/// `Unread`, which says nothing of what stands there. The reader may then stand anywhere.
pub fn read_text<'a>(reader: &mut Reader<'a>) -> Result<&'a str, Unread>
    ensures text { IfOk result (λ text. Holds 0 reader.old (text_of text) reader.new) }
    ensures shorter { OnOk result (length reader.new < length reader.old) }
{
    match reader.next() {
        Some(Token::String(text)) => Ok(text),
        _ => Err(Unread),
    }
}

/// Takes the rest of an array of whole numbers, behind the first of them.
pub(crate) fn read_numbers(
    alloc: Global,
    reader: &mut Reader<'_>,
    first: u32,
) -> Result<Vec<u32>, Unread>
    ensures numbers { IfOk result (λ numbers. (start : List SpecToken) →
        Holds 0 start (whole first) reader.old →
        Holds 1 (begin_array ∷ start) (list (map whole numbers.items)) reader.new) }
    ensures shorter { OnOk result (length reader.new < length reader.old) }
{
    let mut numbers = Vec::with_capacity(alloc, ROOM)?;
    numbers.push(first)?;
    'numbers: while !reader.take_end_array() {
        let next = read_number(reader)?;
        numbers.push(next)?;
    }
    Ok(numbers)
}

/// Takes the rest of an array of pairs, behind the opening bracket of the first of them.
pub(crate) fn read_pairs(alloc: Global, reader: &mut Reader<'_>) -> Result<Vec<(u32, u32)>, Unread>
    ensures pairs { IfOk result (λ pairs. Holds 2 (begin_array ∷ begin_array ∷ reader.old)
        (list (map pair_of pairs.items)) reader.new) }
    ensures shorter { OnOk result (length reader.new < length reader.old) }
{
    let first = read_opened_pair(reader)?;
    let pairs = read_more_pairs(alloc, reader, first)?;
    Ok(pairs)
}

/// Takes the rest of an array of pairs, behind the first of them.
fn read_more_pairs(
    alloc: Global,
    reader: &mut Reader<'_>,
    first: (u32, u32),
) -> Result<Vec<(u32, u32)>, Unread>
    ensures pairs { IfOk result (λ pairs. (start : List SpecToken) →
        Holds 1 start (pair_of first) reader.old →
        Holds 2 (begin_array ∷ start) (list (map pair_of pairs.items)) reader.new) }
    ensures shorter { OnOk result (length reader.new < length reader.old) }
{
    let mut pairs = Vec::with_capacity(alloc, ROOM)?;
    pairs.push(first)?;
    'pairs: while !reader.take_end_array() {
        let next = read_pair(reader)?;
        pairs.push(next)?;
    }
    Ok(pairs)
}

/// Takes an array of two whole numbers.
fn read_pair(reader: &mut Reader<'_>) -> Result<(u32, u32), Unread>
    ensures pair { IfOk result (λ pair. Holds 1 reader.old (pair_of pair) reader.new) }
    ensures shorter { OnOk result (length reader.new < length reader.old) }
{
    match reader.next() {
        Some(Token::BeginArray) => read_opened_pair(reader),
        _ => Err(Unread),
    }
}

/// Takes the rest of an array of two whole numbers, behind its opening bracket.
fn read_opened_pair(reader: &mut Reader<'_>) -> Result<(u32, u32), Unread>
    ensures pair { IfOk result (λ pair.
        Holds 1 (begin_array ∷ reader.old) (pair_of pair) reader.new) }
    ensures shorter { OnOk result (length reader.new < length reader.old) }
{
    let first = read_number(reader)?;
    let second = read_number(reader)?;
    if reader.take_end_array() {
        Ok((first, second))
    } else {
        Err(Unread)
    }
}
