//! The cut of a text into tokens.

ghost use Rattle.std.specs.Prelude.{◌≡◌, ◌≤◌, ◌⊎◌, ℕ, List, ◌++◌, length, is_some, IsTrue, IfOk, IfErr, OnOk, OnErr, MatchResult};
ghost use Rattle.rela_lex.specs.declared.token.Token.{Token};
ghost use Rattle.rela_lex.specs.Spells.{tokens_at, Spells, IsBadToken, IsFault};

use crate::error::SpecError;
use crate::front::{Front, read_front};
use crate::token::{Token, TokenKind};
use std::alloc::{AllocError, Global};

/// The greatest number of bytes in a specification's text: 32 MiB.
pub const MAX_TEXT_LEN: usize = 33_554_432;

/// The tokens of the text in their order, each with the number of bytes before it. Blanks, tabs,
/// carriage returns and line feeds stand between tokens, and so do comments, from a `#` to before
/// the next line feed.
///
/// Time: linear in the bytes; space: linear in the tokens and the bytes of their names.
///
/// # Errors
///
/// `BadToken` at the first byte where no token, blank or comment begins; `Memory` where memory runs
/// out, and so only at a token.
pub fn tokens(alloc: Global, bytes: &[u8]) -> Result<Vec<Token>, SpecError>
    requires { length bytes.now ≤ MAX_TEXT_LEN }
    // What is read is spelled so, and what is refused has its fault there.
    ensures tokens { IfOk result (λ found. Spells bytes.now found.items) }
    ensures fault { IfErr result (λ e. IsFault bytes.now e) }

    // What is spelled is read, and what has a fault is refused there, unless memory runs out.
    ensures spelled { (ts : List Token) → Spells bytes.now ts
        → MatchResult result (λ found. found.items ≡ ts) (λ e. e ≡ SpecError.Memory) }
    ensures bad { (at : ℕ) → IsBadToken bytes.now at
        → MatchResult result (λ _. ⊥) (λ e. (e ≡ SpecError.BadToken at) ⊎ (e ≡ SpecError.Memory)) }
{
    let mut tokens = Vec::new(alloc);
    let mut at: usize = 0;
    while at < bytes.len() {
        let Some(Front { token, len }) = read_front(alloc, &bytes[at..])? else {
            return Err(SpecError::BadToken { at: at as u32 });
        };
        keep(&mut tokens, at as u32, token)?;
        at += len;
    }
    Ok(tokens)
}

/// Appends the token, if there is one.
fn keep(tokens: &mut Vec<Token>, at: u32, token: Option<TokenKind>) -> Result<(), AllocError>
    ensures kept { OnOk result (tokens.new.items ≡ tokens.old.items ++ tokens_at at token) }
    ensures some { OnErr result (IsTrue (is_some token)) }
{
    if let Some(kind) = token {
        tokens.push(Token { at, kind })?;
    }
    Ok(())
}
