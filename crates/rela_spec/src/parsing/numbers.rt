//! Numbers of repetitions.

ghost use Rattle.std.specs.Prelude.{◌≡◌, ◌<◌, true, if◌then◌else◌, Some, None};
ghost use Rattle.std.specs.Char.{is_ascii_digit, digit_value};
ghost use Rattle.std.specs.Str.Parse.{digits_value};
ghost use Rattle.rela_spec.specs.Grammar.{bad_in_front, bad_number, is_bad_number};
ghost use Rattle.rela_spec.specs.GrammarWords.{is_number, is_good_number, number_of};

use crate::parsing::cursor::is_mark;
use rela_lex::{Token, TokenKind};

/// The greatest number of repetitions.
const MAX_TIMES: u32 = 64;

/// Whether the word is a number: of decimal digits alone.
pub(crate) fn is_number(word: &[u8]) -> bool
    ensures { result ≡ is_number word.now }
{
    word.iter().all(|byte| byte.is_ascii_digit())
}

/// Whether the number is at most 64, and has no leading zero unless it is `0`.
fn is_good_number(word: &[u8]) -> bool
    requires { is_number word.now ≡ true }
    ensures { result ≡ is_good_number word.now }
{
    good_number(word).is_some()
}

/// The number, or 0 for a bad one.
#[tactic(auto, unfolding(crate::specs::GrammarWords::number_of))]
pub(crate) fn number_of(word: &[u8]) -> u32
    requires { is_number word.now ≡ true }
    ensures { result ≡ number_of word.now }
{
    good_number(word).unwrap_or(0)
}

/// The number, or `None` where it is above 64, or has a leading zero and is not `0`.
fn good_number(word: &[u8]) -> Option<u32>
    requires { is_number word.now ≡ true }
    ensures { result ≡ (if is_good_number word.now then Some (digits_value 10 word.now) else None) }
{
    if word.len() > 1 && word[0] == b'0' {
        return None;
    }
    let mut value: u32 = 0;
    for byte in word {
        value = value * 10 + digit(*byte);
        if value > MAX_TIMES {
            return None;
        }
    }
    Some(value)
}

/// The value of a decimal digit, and 0 for any other byte.
fn digit(byte: u8) -> u32
    ensures low { result < 10 }
    ensures value { is_ascii_digit byte ≡ true → result ≡ digit_value byte }
{
    match byte {
        b'0'..=b'9' => u32::from(byte - b'0'),
        _ => 0,
    }
}

/// The offset of the first bad number, or `None` where there is none. In a text of the grammar a
/// bare word of digits is a number exactly where it stands between `{` and `}`.
#[tactic(auto, unfolding(crate::specs::Grammar::bad_number))]
pub(crate) fn bad_number(tokens: &[Token]) -> Option<u32>
    ensures { result ≡ bad_number tokens.now }
{
    let mut rest = tokens;
    while let Some((_, others)) = rest.split_first() {
        if let Some(at) = bad_in_front(rest) {
            return Some(at);
        }
        rest = others;
    }
    None
}

/// The offset of a bad number in braces at the front of the tokens, or `None` where there is none.
#[tactic(auto, unfolding(crate::specs::Grammar::bad_in_front))]
fn bad_in_front(tokens: &[Token]) -> Option<u32>
    ensures { result ≡ bad_in_front tokens.now }
{
    let (open, behind) = tokens.split_first()?;
    let (number, behind) = behind.split_first()?;
    let (close, _) = behind.split_first()?;
    if is_mark(&open.kind, b'{') && is_bad_number(&number.kind) && is_mark(&close.kind, b'}') {
        Some(number.at)
    } else {
        None
    }
}

/// Whether the token is a number, and a bad one.
fn is_bad_number(kind: &TokenKind) -> bool
    ensures { result ≡ is_bad_number kind.now }
{
    match kind {
        TokenKind::Bare(word) => is_number(word.as_bytes()) && !is_good_number(word.as_bytes()),
        _ => false,
    }
}
