//! A reader of the tokens of a JSON text.

ghost use Rattle.std.specs.Prelude.{◌≡◌, ◌≤◌, [], IfOk, IfSome, IsTrue, Some, drop, get_or, length, option_map, true};
ghost use Rattle.std.specs.Bool.{MatchBool};
ghost use Rattle.json.specs.Json.{after_end_array, read_key};
ghost use Rattle.json.specs.Lex.{Place, between, lex, may_begin, punctuate, tokens};
ghost use Rattle.rela_tokens.specs.Reading.{Takes, TakesNumber, tokens_from};

use crate::plain::plain_end;
use crate::scan::{byte_at, number_in, solid_from, value_from};
use crate::unread::Unread;
use std::marker::Model;

/// What a reader hands out.
#[derive(Clone, Copy, Drop)]
pub enum Token<'a> {
    /// The brace that opens an object.
    BeginObject,
    /// The brace that closes an object.
    EndObject,
    /// The bracket that opens an array.
    BeginArray,
    /// The bracket that closes an array.
    EndArray,
    /// A key with its colon.
    Key(&'a str),
    /// A string.
    String(&'a str),
    /// A whole number.
    Number(u32),
}

/// A JSON text whose tokens are taken one by one from its front. Contracts see it as the tokens
/// that are still to come. Strings are lent by the text, so one with an escape isn't read, and
/// neither are `true`, `false`, `null`, and numbers other than whole ones of at most nine digits.
#[derive(Drop)]
pub struct Reader<'a> {
    /// The whole text.
    text: &'a str,
    /// The place behind the last token.
    at: usize,
    /// Whether that token ends a value.
    after_value: bool,
}

impl<'a> Model for Reader<'a> {
    ghost use Rattle.std.specs.Prelude.{List, drop, length, ◌≤◌};
    ghost use Rattle.json.specs.Token.{Token as SpecToken, tokens_code};
    ghost use Rattle.rela_tokens.specs.Reading.{tokens_from};

    ghost Value = { List SpecToken };

    ghost coded = { tokens_code };

    ghost view = { λ reader. tokens_from reader.after_value (drop reader.at reader.text.now) };

    ghost invariant = { λ reader. reader.at ≤ length reader.text.now };
}

impl<'a> Reader<'a> {
    /// A reader of a text, which stands at its beginning.
    pub fn new(text: &'a str) -> Reader<'a>
        ensures { result ≡ tokens text.now }
    {
        Reader {
            text,
            at: 0,
            after_value: false,
        }
    }

    /// The next token. `None` says nothing of what stands there: the text may end, or be at fault,
    /// or go on with what isn't read here. Time: linear in the token.
    #[inline(always)]
    pub fn next(&mut self) -> Option<Token<'a>>
        ensures token { IfSome result (λ token. Takes self.old token self.new) }
    {
        let (token, at, after_value) = token_at(self.text, self.at, self.after_value)?;
        self.at = at;
        self.after_value = after_value;
        Some(token)
    }

    /// Takes a whole number, if it is next. `None` says nothing of what stands there. Time:
    /// constant.
    #[inline(always)]
    pub(crate) fn next_number(&mut self) -> Option<u32>
        ensures number { IfSome result (λ n. TakesNumber self.old n self.new) }
    {
        let text = self.text.as_bytes();
        let front = solid_from(text, self.at);
        let from = value_from(text, front, self.after_value)?;
        let (number, count) = number_in(&text[from..])?;
        self.at = from + count;
        self.after_value = true;
        Some(number)
    }

    /// Takes a key, and gives `None` at the brace that closes an object. Time: linear in the key.
    ///
    /// # Errors
    ///
    /// `Unread`, which says nothing of what stands there.
    #[inline(always)]
    pub fn next_key(&mut self) -> Result<Option<&'a str>, Unread>
        ensures key { IfOk result (λ key.
            read_key self.old ≡ Some (option_map (λ name. name.now) key, self.new)) }
    {
        match self.next() {
            Some(Token::Key(key)) => Ok(Some(key)),
            Some(Token::EndObject) => Ok(None),
            _ => Err(Unread),
        }
    }

    /// Takes the bracket that closes an array, if it is next. Time: constant.
    #[inline(always)]
    pub fn take_end_array(&mut self) -> bool
        ensures bracket { MatchBool result (after_end_array self.old ≡ Some self.new)
            (self.new ≡ self.old) }
    {
        let text = self.text.as_bytes();
        let front = solid_from(text, self.at);
        if byte_at(text, front) != b']' {
            return false;
        }
        self.at = front + 1;
        self.after_value = true;
        true
    }

    /// Whether no token is left. Time: constant.
    pub(crate) fn is_over(&self) -> bool
        ensures { IsTrue result → self.now ≡ [] }
    {
        solid_from(self.text.as_bytes(), self.at) == self.text.len()
    }
}

/// The token of a text from `at` on, the place behind it, and whether it ends a value.
#[inline(always)]
fn token_at<'a>(text: &'a str, at: usize, after_value: bool) -> Option<(Token<'a>, usize, bool)>
    requires { at ≤ length text.now }
    ensures token { IfSome result (λ found. Takes (tokens_from after_value (drop at text.now))
        found.0 (tokens_from found.2 (drop found.1 text.now))) }
    ensures within { IfSome result (λ found. found.1 ≤ length text.now) }
{
    let bytes = text.as_bytes();
    let front = solid_from(bytes, at);
    match byte_at(bytes, front) {
        b'}' => Some((Token::EndObject, front + 1, true)),
        b']' => Some((Token::EndArray, front + 1, true)),
        _ => {
            let from = value_from(bytes, front, after_value)?;
            opening_at(text, from)
        }
    }
}

/// The token at a place where a value or a key may begin, the place behind it, and whether it ends
/// a value.
#[inline(always)]
fn opening_at<'a>(text: &'a str, from: usize) -> Option<(Token<'a>, usize, bool)>
    requires { from ≤ length text.now }
    ensures token { IfSome result (λ found. (p : Place) → may_begin p ≡ true →
        Takes (punctuate p (lex between (drop from text.now))) found.0
        (tokens_from found.2 (drop found.1 text.now))) }
    ensures within { IfSome result (λ found. found.1 ≤ length text.now) }
{
    let bytes = text.as_bytes();
    match byte_at(bytes, from) {
        b'"' => string_at(text, from),
        b'{' => Some((Token::BeginObject, from + 1, false)),
        b'[' => Some((Token::BeginArray, from + 1, false)),
        _ => {
            let (number, count) = number_in(&bytes[from..])?;
            Some((Token::Number(number), from + count, true))
        }
    }
}

/// The string or the key whose opening quote stands at `from`, the place behind it, and whether it
/// ends a value.
#[inline(always)]
fn string_at<'a>(text: &'a str, from: usize) -> Option<(Token<'a>, usize, bool)>
    requires { get_or text.now from 32 ≡ 34 }
    ensures token { IfSome result (λ found. (p : Place) → may_begin p ≡ true →
        Takes (punctuate p (lex between (drop from text.now))) found.0
        (tokens_from found.2 (drop found.1 text.now))) }
    ensures within { IfSome result (λ found. found.1 ≤ length text.now) }
{
    let bytes = text.as_bytes();
    let end = plain_end(bytes, from + 1);
    if byte_at(bytes, end) != b'"' {
        return None;
    }
    let string = &text[from + 1..end];
    let front = solid_from(bytes, end + 1);
    if byte_at(bytes, front) == b':' {
        Some((Token::Key(string), front + 1, false))
    } else {
        Some((Token::String(string), front, true))
    }
}
