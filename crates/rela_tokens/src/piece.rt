//! A piece: a JSON value of one of a few plain kinds.

ghost use Rattle.std.specs.Prelude.{◌≡◌, ◌∷◌, ◌<◌, IfOk, OnOk, length, map, []};
ghost use Rattle.json.specs.Token.{begin_array};
ghost use Rattle.rela_tokens.specs.Holds.{Holds};
ghost use Rattle.rela_tokens.specs.Pieces.{data_of, list, pair, text as text_of, whole};

use crate::lists::{read_numbers, read_pairs, read_texts};
use crate::reader::{Reader, Token};
use crate::unread::Unread;
use std::alloc::Global;

/// A string, a whole number, or an array of strings, of whole numbers or of pairs of them.
#[derive(Drop)]
pub enum Piece<'a> {
    /// A string, with its escapes resolved.
    Text(&'a str),
    /// A whole number below 2^32.
    Number(u32),
    /// An array of nothing.
    Empty,
    /// An array of strings.
    Texts(Vec<&'a str>),
    /// An array of whole numbers below 2^32.
    Numbers(Vec<u32>),
    /// An array of arrays of two whole numbers below 2^32.
    Pairs(Vec<(u32, u32)>),
}

/// A member of an object.
#[derive(Drop)]
pub struct Member<'a> {
    /// The key, with its escapes resolved.
    pub name: &'a str,
    /// The value.
    pub piece: Piece<'a>,
}

impl<'a> Piece<'a> {
    /// The string, or `Unread` where the piece is of another kind.
    pub fn text(&self) -> Result<&'a str, Unread>
        ensures text { IfOk result (λ text. data_of self.now ≡ text_of text) }
    {
        match self {
            Piece::Text(text) => Ok(*text),
            _ => Err(Unread),
        }
    }

    /// The strings of an array, or `Unread` where the piece is of another kind.
    pub fn texts(&self) -> Result<&[&'a str], Unread>
        ensures texts { IfOk result (λ texts. data_of self.now ≡ list (map text_of texts.now)) }
    {
        match self {
            Piece::Empty => Ok(none()),
            Piece::Texts(texts) => Ok(texts.as_slice()),
            _ => Err(Unread),
        }
    }

    /// The whole numbers of an array, or `Unread` where the piece is of another kind.
    pub fn numbers(&self) -> Result<&[u32], Unread>
        ensures numbers { IfOk result (λ numbers. data_of self.now ≡ list (map whole numbers.now)) }
    {
        match self {
            Piece::Empty => Ok(none()),
            Piece::Numbers(numbers) => Ok(numbers.as_slice()),
            _ => Err(Unread),
        }
    }

    /// The pairs of an array, or `Unread` where the piece is of another kind.
    pub fn pairs(&self) -> Result<&[(u32, u32)], Unread>
        ensures pairs { IfOk result (λ pairs. data_of self.now ≡ list (map pair pairs.now)) }
    {
        match self {
            Piece::Empty => Ok(none()),
            Piece::Pairs(pairs) => Ok(pairs.as_slice()),
            _ => Err(Unread),
        }
    }
}

/// The slice of nothing.
fn none<'s, T>() -> &'s [T]
    ensures none { result.now ≡ [] }
{
    &[]
}

/// Takes the value that comes next, where it is of one of the kinds of a piece. Time and space:
/// linear in the value.
///
/// # Errors
///
/// `Unread`, which says nothing of what stands there. The reader may then stand anywhere.
pub fn read_piece<'a>(alloc: Global, reader: &mut Reader<'a>) -> Result<Piece<'a>, Unread>
    ensures piece { IfOk result (λ piece. Holds 2 reader.old (data_of piece) reader.new) }
    ensures shorter { OnOk result (length reader.new < length reader.old) }
{
    match reader.next() {
        Some(Token::String(text)) => Ok(Piece::Text(text)),
        Some(Token::Number(number)) => Ok(Piece::Number(number)),
        Some(Token::BeginArray) => read_array(alloc, reader),
        _ => Err(Unread),
    }
}

/// Takes the rest of an array, behind its opening bracket.
fn read_array<'a>(alloc: Global, reader: &mut Reader<'a>) -> Result<Piece<'a>, Unread>
    ensures piece { IfOk result (λ piece.
        Holds 2 (begin_array ∷ reader.old) (data_of piece) reader.new) }
    ensures shorter { OnOk result (length reader.new < length reader.old) }
{
    match reader.next() {
        Some(Token::EndArray) => Ok(Piece::Empty),
        Some(Token::String(first)) => {
            let texts = read_texts(alloc, reader, first)?;
            Ok(Piece::Texts(texts))
        }
        Some(Token::Number(first)) => {
            let numbers = read_numbers(alloc, reader, first)?;
            Ok(Piece::Numbers(numbers))
        }
        Some(Token::BeginArray) => {
            let pairs = read_pairs(alloc, reader)?;
            Ok(Piece::Pairs(pairs))
        }
        _ => Err(Unread),
    }
}
