//! The piece at the front of a text.

ghost use Rattle.std.specs.Prelude.{◌≡◌, ◌<◌, ◌≤◌, length, if◌then◌else◌, IsTrue, IfOk, OnErr, Some, None};
ghost use Rattle.std.specs.List.{prefix_len};
ghost use Rattle.rela_names.specs.Name.{is_name_byte, is_name, IsName};
ghost use Rattle.rela_lex.specs.Spells.{is_blank, is_mark, is_lone_mark, is_within_line};
ghost use Rattle.rela_lex.specs.Front.{begins_with, quoted_front, reference_front, bare_front, front_of, has_token};

use crate::token::TokenKind;
use rela_names::{Name, NameError, is_name_byte};
use std::alloc::{AllocError, Global};

/// The piece at the front of a text.
#[derive(Drop)]
pub(crate) struct Front {
    /// Its token; a blank and a comment have none.
    pub(crate) token: Option<TokenKind>,
    /// The number of its bytes.
    pub(crate) len: usize,
}

/// The piece at the front of a text, or `None` where none begins there. Memory is wanted only for a
/// token.
#[tactic(auto, unfolding(crate::specs::Front::front_of))]
pub(crate) fn read_front(alloc: Global, text: &[u8]) -> Result<Option<Front>, AllocError>
    ensures piece { IfOk result (λ found. found ≡ front_of text.now) }
    ensures token { OnErr result (IsTrue (has_token (front_of text.now))) }
{
    let Some((first, rest)) = text.split_first() else {
        return Ok(None);
    };
    match *first {
        byte if is_blank(byte) => Ok(Some(Front {
            token: None,
            len: 1,
        })),
        b'#' => Ok(Some(Front {
            token: None,
            len: 1 + line_len(rest),
        })),
        b'"' => read_quoted(alloc, rest),
        b'$' => read_reference(alloc, rest),
        byte if is_name_byte(byte) => read_bare(alloc, text),
        byte if is_mark(byte) => Ok(Some(Front {
            token: Some(TokenKind::Mark(byte)),
            len: 1,
        })),
        _ => Ok(None),
    }
}

/// The quoted name behind an opening `"`, or `None` where no name with a `"` behind it follows. Its
/// length counts both quotes.
#[tactic(auto, unfolding(crate::specs::Front::quoted_front))]
fn read_quoted(alloc: Global, rest: &[u8]) -> Result<Option<Front>, AllocError>
    requires { length rest.now < usize.MAX }
    ensures piece { IfOk result (λ found. found ≡ quoted_front rest.now) }
    ensures token { OnErr result (IsTrue (has_token (quoted_front rest.now))) }
{
    let len = run_len(rest);
    let (name, after) = rest.split_at(len);
    if !begins_with(after, b'"') {
        return Ok(None);
    }
    let Some(name) = name_of(alloc, name)? else {
        return Ok(None);
    };
    Ok(Some(Front {
        token: Some(TokenKind::Quoted(name)),
        len: len + 2,
    }))
}

/// The reference behind a `$`, or `None` where no name follows. Its length counts the `$`.
#[tactic(auto, unfolding(crate::specs::Front::reference_front))]
fn read_reference(alloc: Global, rest: &[u8]) -> Result<Option<Front>, AllocError>
    ensures piece { IfOk result (λ found. found ≡ reference_front rest.now) }
    ensures token { OnErr result (IsTrue (has_token (reference_front rest.now))) }
{
    let len = run_len(rest);
    let Some(name) = name_of(alloc, &rest[..len])? else {
        return Ok(None);
    };
    Ok(Some(Front {
        token: Some(TokenKind::Reference(name)),
        len: len + 1,
    }))
}

/// The longest run of name bytes at the front of a text that begins with one: a name, or the mark
/// `.` or `:`. `None` where the run is longer than a name may be.
#[tactic(auto, unfolding(crate::specs::Front::bare_front))]
fn read_bare(alloc: Global, text: &[u8]) -> Result<Option<Front>, AllocError>
    ensures piece { IfOk result (λ found. found ≡ bare_front text.now) }
    ensures token { OnErr result (IsTrue (has_token (bare_front text.now))) }
{
    let len = run_len(text);
    let run = &text[..len];
    if is_lone_mark(run) {
        return Ok(Some(Front {
            token: Some(TokenKind::Mark(run[0])),
            len: 1,
        }));
    }
    let Some(name) = name_of(alloc, run)? else {
        return Ok(None);
    };
    Ok(Some(Front {
        token: Some(TokenKind::Bare(name)),
        len,
    }))
}

/// The name of these bytes, or `None` where they are none. The only error is want of memory, for a
/// name.
fn name_of(alloc: Global, bytes: &[u8]) -> Result<Option<Name>, AllocError>
    ensures found { IfOk result (λ found.
        found ≡ (if is_name bytes.now then Some bytes.now else None)) }
    ensures name { OnErr result (IsName bytes.now) }
{
    match Name::from_bytes(alloc, bytes) {
        Ok(name) => Ok(Some(name)),
        Err(NameError::Memory) => Err(AllocError),
        Err(_) => Ok(None),
    }
}

/// The number of name bytes at the front.
fn run_len(text: &[u8]) -> usize
    ensures passed { result ≡ prefix_len is_name_byte text.now }
    ensures within { result ≤ length text.now }
{
    text.iter().take_while(|byte| is_name_byte(**byte)).count()
}

/// The number of bytes before the first line feed, or of all bytes where there is none.
fn line_len(text: &[u8]) -> usize
    ensures passed { result ≡ prefix_len is_within_line text.now }
    ensures within { result ≤ length text.now }
{
    text.iter().take_while(|byte| **byte != b'\n').count()
}

/// Whether the text begins with the byte.
fn begins_with(text: &[u8], byte: u8) -> bool
    ensures { result ≡ begins_with byte text.now }
{
    text.first().is_some_and(|first| *first == byte)
}

/// Whether the byte separates tokens.
fn is_blank(byte: u8) -> bool
    ensures { result ≡ is_blank byte }
{
    matches!(byte, b' ' | b'\t' | b'\r' | b'\n')
}

/// Whether a run of name bytes is a mark and no word.
fn is_lone_mark(run: &[u8]) -> bool
    ensures { result ≡ is_lone_mark run.now }
{
    run == b".".as_slice() || run == b":".as_slice()
}

/// Whether the byte is a mark whatever follows it.
fn is_mark(byte: u8) -> bool
    ensures { result ≡ is_mark byte }
{
    b"(){}[]^*+?!&|,;=".contains(&byte)
}
