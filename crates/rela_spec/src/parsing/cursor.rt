//! The tokens that are left to read. What has to come next and doesn't is `Syntax`, at the token
//! that comes instead or at the end of the text.

ghost use Rattle.std.specs.Prelude.{◌≡◌, ◌≢◌, ◌+◌, ◌-◌, ◌<◌, ◌≤◌, true, false, Ok, Err, ℕ, length, IfOk, IfErr, OnOk, IsOk, IsErrOf};
ghost use Rattle.std.specs.Option.{option_map, option_copied};
ghost use Rattle.rela_flows.specs.Written.{prefix_of};
ghost use Rattle.rela_lex.specs.declared.error.SpecError.TheVariants.{Memory, Syntax};
ghost use Rattle.rela_spec.specs.Grammar.{is_mark_of, offset};
ghost use Rattle.rela_spec.specs.Readings.{next_is, read_open};
ghost use Rattle.rela_spec.specs.ReadWords.{is_word_of, is_name_kind, is_reference_kind, name_in, named, prefix_in, read_mark, read_word, read_name, read_number, read_prefix, read_reference, whether_mark, whether_word};

use crate::parsing::numbers::{is_number, number_of};
use crate::words::is_keyword;
use rela_flows::{Prefix, prefixes_are_read_exactly};
use rela_lex::{SpecError, Token, TokenKind};
use rela_names::Name;
use std::alloc::Global;

/// The tokens of a text that are left to read. Each operation takes constant time, and the copy of a
/// name that of its bytes.
#[derive(Drop)]
pub struct Cursor<'a> {
    /// The tokens that are left, the next one first.
    pub rest: &'a [Token],
    /// The number of bytes in the text.
    pub end: u32,
}

impl<'a> Cursor<'a> {
    /// A cursor before the first of these tokens, of a text of `end` bytes.
    pub fn new(tokens: &'a [Token], end: u32) -> Cursor<'a>
        ensures rest { result.rest.now ≡ tokens.now }
        ensures end { result.end ≡ end }
    {
        Cursor { rest: tokens, end }
    }

    /// The offset of the next token in bytes, or the length of the text where none is left.
    pub fn here(&self) -> u32
        ensures { result ≡ offset self.now.end self.now.rest.now }
    {
        match self.rest.split_first() {
            Some((token, _)) => token.at,
            None => self.end,
        }
    }

    /// The syntax error of a text that cannot go on with the next token.
    pub(crate) fn syntax(&self) -> SpecError
        ensures { result ≡ Syntax (offset self.now.end self.now.rest.now) }
    {
        SpecError::Syntax { at: self.here() }
    }

    /// Whether a token is left.
    pub fn has_next(&self) -> bool
        ensures { result ≡ next_is (λ _. true) self.now.rest.now }
    {
        self.rest.split_first().is_some()
    }

    /// Whether this mark comes next.
    pub(crate) fn is_at_mark(&self, mark: u8) -> bool
        ensures { result ≡ next_is (is_mark_of mark) self.now.rest.now }
    {
        match self.rest.split_first() {
            Some((token, _)) => is_mark(&token.kind, mark),
            None => false,
        }
    }

    /// Whether this word comes next, without quotes.
    pub fn is_at_word(&self, word: &[u8]) -> bool
        ensures { result ≡ next_is (is_word_of word.now) self.now.rest.now }
    {
        match self.rest.split_first() {
            Some((token, _)) => is_word(&token.kind, word),
            None => false,
        }
    }

    /// Whether a name comes next: a quoted word, or a bare word that is no keyword.
    pub(crate) fn is_at_name(&self) -> bool
        ensures { result ≡ next_is is_name_kind self.now.rest.now }
    {
        match self.rest.split_first() {
            Some((token, _)) => is_name(&token.kind),
            None => false,
        }
    }

    /// Whether a reference comes next.
    pub(crate) fn is_at_reference(&self) -> bool
        ensures { result ≡ next_is is_reference_kind self.now.rest.now }
    {
        match self.rest.split_first() {
            Some((token, _)) => is_reference(&token.kind),
            None => false,
        }
    }

    /// Goes past the mark if it comes next, and says whether it did.
    #[tactic(auto, unfolding(crate::specs::ReadWords::read_mark))]
    pub(crate) fn take_mark(&mut self, mark: u8) -> bool
        ensures end { self.new.end ≡ self.old.end }
        ensures next { result ≡ next_is (is_mark_of mark) self.old.rest.now }
        ensures taken { result ≡ true → read_mark self.old.end mark self.old.rest.now
            ≡ Ok (tt, self.new.rest.now) }
        ensures refused { result ≡ false → read_mark self.old.end mark self.old.rest.now
            ≡ Err (Syntax (offset self.old.end self.old.rest.now)) }
        ensures kept { result ≡ false → self.new.rest.now ≡ self.old.rest.now }
        ensures whether { whether_mark self.old.end mark self.old.rest.now
            ≡ Ok (result, self.new.rest.now) }
        ensures left { length self.new.rest.now ≤ length self.old.rest.now }
        ensures less { result ≡ true → length self.new.rest.now < length self.old.rest.now }
    {
        match self.rest.split_first() {
            Some((token, others)) if is_mark(&token.kind, mark) => {
                self.rest = others;
                true
            }
            _ => false,
        }
    }

    /// Goes past the word if it comes next, and says whether it did.
    #[tactic(auto, unfolding(crate::specs::ReadWords::read_word))]
    pub fn take_word(&mut self, word: &[u8]) -> bool
        ensures end { self.new.end ≡ self.old.end }
        ensures next { result ≡ next_is (is_word_of word.now) self.old.rest.now }
        ensures taken { result ≡ true → read_word self.old.end word.now self.old.rest.now
            ≡ Ok (tt, self.new.rest.now) }
        ensures refused { result ≡ false → read_word self.old.end word.now self.old.rest.now
            ≡ Err (Syntax (offset self.old.end self.old.rest.now)) }
        ensures kept { result ≡ false → self.new.rest.now ≡ self.old.rest.now }
        ensures whether { whether_word self.old.end word.now self.old.rest.now
            ≡ Ok (result, self.new.rest.now) }
        ensures left { length self.new.rest.now ≤ length self.old.rest.now }
        ensures less { result ≡ true → length self.new.rest.now < length self.old.rest.now }
    {
        match self.rest.split_first() {
            Some((token, others)) if is_word(&token.kind, word) => {
                self.rest = others;
                true
            }
            _ => false,
        }
    }

    /// Goes past the mark, which has to come next.
    pub fn mark(&mut self, mark: u8) -> Result<(), SpecError>
        ensures end { self.new.end ≡ self.old.end }
        ensures read { IfOk result (λ _. read_mark self.old.end mark self.old.rest.now
            ≡ Ok (tt, self.new.rest.now)) }
        ensures fault { IfErr result (λ e. read_mark self.old.end mark self.old.rest.now ≡ Err e) }
        ensures less { OnOk result (length self.new.rest.now < length self.old.rest.now) }
    {
        let syntax = self.syntax();
        if self.take_mark(mark) {
            Ok(())
        } else {
            Err(syntax)
        }
    }

    /// Goes past the mark, which has to come next, and gives the value back. Where another token
    /// comes, the value is dropped here, since a caller that drops a tree has to be proved for each
    /// of its forms.
    pub fn closed<T: Drop>(&mut self, value: T, mark: u8) -> Result<T, SpecError>
        ensures end { self.new.end ≡ self.old.end }
        ensures same { IfOk result (λ v. v ≡ value) }
        ensures read { IfOk result (λ _. read_mark self.old.end mark self.old.rest.now
            ≡ Ok (tt, self.new.rest.now)) }
        ensures fault { IfErr result (λ e. read_mark self.old.end mark self.old.rest.now ≡ Err e) }
        ensures less { OnOk result (length self.new.rest.now < length self.old.rest.now) }
    {
        self.mark(mark)?;
        Ok(value)
    }

    /// Goes past the word, which has to come next.
    pub fn word(&mut self, word: &[u8]) -> Result<(), SpecError>
        ensures end { self.new.end ≡ self.old.end }
        ensures read { IfOk result (λ _. read_word self.old.end word.now self.old.rest.now
            ≡ Ok (tt, self.new.rest.now)) }
        ensures fault { IfErr result (λ e. read_word self.old.end word.now self.old.rest.now
            ≡ Err e) }
        ensures less { OnOk result (length self.new.rest.now < length self.old.rest.now) }
    {
        let syntax = self.syntax();
        if self.take_word(word) {
            Ok(())
        } else {
            Err(syntax)
        }
    }

    /// Goes past the opening bracket, which has to come next, and gives the number of brackets that
    /// may be opened within it, where `room` more may be opened in all.
    ///
    /// # Errors
    ///
    /// `TooDeep` at the bracket where `room` is 0; `Syntax` where no such bracket comes next.
    #[tactic(auto, unfolding(crate::specs::Readings::read_open))]
    pub fn open(&mut self, bracket: u8, room: usize) -> Result<usize, SpecError>
        ensures end { self.new.end ≡ self.old.end }
        ensures read { IfOk result (λ _. read_open self.old.end bracket room self.old.rest.now
            ≡ Ok (tt, self.new.rest.now)) }
        ensures room { IfOk result (λ inner. room ≡ inner + 1) }
        ensures inner { IfOk result (λ inner. inner ≡ room - 1) }
        ensures fault { IfErr result (λ e. read_open self.old.end bracket room self.old.rest.now
            ≡ Err e) }
        ensures less { OnOk result (length self.new.rest.now < length self.old.rest.now) }
    {
        match self.rest.split_first() {
            Some((token, others)) if is_mark(&token.kind, bracket) => {
                if room == 0 {
                    return Err(SpecError::TooDeep { at: token.at });
                }
                self.rest = others;
                Ok(room - 1)
            }
            _ => Err(self.syntax()),
        }
    }

    /// The name that has to come next.
    #[tactic(auto, unfolding(crate::specs::ReadWords::read_name))]
    pub(crate) fn name(&mut self, alloc: Global) -> Result<Name, SpecError>
        ensures end { self.new.end ≡ self.old.end }
        ensures read { IfOk result (λ name. read_name self.old.end self.old.rest.now
            ≡ Ok (named (offset self.old.end self.old.rest.now) name, self.new.rest.now)) }
        ensures fault { IfErr result (λ e. e ≢ Memory →
            read_name self.old.end self.old.rest.now ≡ Err e) }
        ensures memory { IsErrOf result Memory → IsOk (read_name self.old.end self.old.rest.now) }
        ensures less { OnOk result (length self.new.rest.now < length self.old.rest.now) }
    {
        match self.rest.split_first() {
            Some((token, others)) => {
                let Some(name) = name_in(&token.kind) else {
                    return Err(SpecError::Syntax { at: token.at });
                };
                self.rest = others;
                Ok(name.copy(alloc)?)
            }
            None => Err(SpecError::Syntax { at: self.end }),
        }
    }

    /// The name of the reference that has to come next.
    #[tactic(auto, unfolding(crate::specs::ReadWords::read_reference))]
    pub(crate) fn reference(&mut self, alloc: Global) -> Result<Name, SpecError>
        ensures end { self.new.end ≡ self.old.end }
        ensures read { IfOk result (λ name. read_reference self.old.end self.old.rest.now
            ≡ Ok (named (offset self.old.end self.old.rest.now) name, self.new.rest.now)) }
        ensures fault { IfErr result (λ e. e ≢ Memory →
            read_reference self.old.end self.old.rest.now ≡ Err e) }
        ensures memory { IsErrOf result Memory →
            IsOk (read_reference self.old.end self.old.rest.now) }
        ensures less { OnOk result (length self.new.rest.now < length self.old.rest.now) }
    {
        match self.rest.split_first() {
            Some((token, others)) => match &token.kind {
                TokenKind::Reference(name) => {
                    self.rest = others;
                    Ok(name.copy(alloc)?)
                }
                _ => Err(SpecError::Syntax { at: token.at }),
            },
            None => Err(SpecError::Syntax { at: self.end }),
        }
    }

    /// The number that has to come next: a bare word of digits. One that is above 64 or has a
    /// leading zero counts as 0.
    #[tactic(auto, unfolding(crate::specs::ReadWords::read_number))]
    pub(crate) fn number(&mut self) -> Result<u32, SpecError>
        ensures end { self.new.end ≡ self.old.end }
        ensures read { IfOk result (λ n. read_number self.old.end self.old.rest.now
            ≡ Ok (n, self.new.rest.now)) }
        ensures fault { IfErr result (λ e. read_number self.old.end self.old.rest.now ≡ Err e) }
        ensures less { OnOk result (length self.new.rest.now < length self.old.rest.now) }
    {
        match self.rest.split_first() {
            Some((token, others)) => match &token.kind {
                TokenKind::Bare(word) if is_number(word.as_bytes()) => {
                    self.rest = others;
                    Ok(number_of(word.as_bytes()))
                }
                _ => Err(SpecError::Syntax { at: token.at }),
            },
            None => Err(SpecError::Syntax { at: self.end }),
        }
    }

    /// The prefix that has to come next.
    #[tactic(auto, unfolding(crate::specs::ReadWords::read_prefix))]
    pub(crate) fn prefix(&mut self) -> Result<Prefix, SpecError>
        ensures end { self.new.end ≡ self.old.end }
        ensures read { IfOk result (λ p. read_prefix self.old.end self.old.rest.now
            ≡ Ok (p, self.new.rest.now)) }
        ensures fault { IfErr result (λ e. read_prefix self.old.end self.old.rest.now ≡ Err e) }
        ensures less { OnOk result (length self.new.rest.now < length self.old.rest.now) }
    {
        match self.rest.split_first() {
            Some((token, others)) => {
                let Some(prefix) = prefix_in(&token.kind) else {
                    return Err(SpecError::Syntax { at: token.at });
                };
                self.rest = others;
                Ok(prefix)
            }
            None => Err(SpecError::Syntax { at: self.end }),
        }
    }
}

/// Whether the token is this mark.
pub(crate) fn is_mark(kind: &TokenKind, mark: u8) -> bool
    ensures { result ≡ is_mark_of mark kind.now }
{
    match kind {
        TokenKind::Mark(byte) => *byte == mark,
        _ => false,
    }
}

/// Whether the token is this word, without quotes.
fn is_word(kind: &TokenKind, word: &[u8]) -> bool
    ensures { result ≡ is_word_of word.now kind.now }
{
    match kind {
        TokenKind::Bare(name) => name.as_bytes() == word,
        _ => false,
    }
}

/// Whether the token is a name: a quoted word, or a bare word that is no keyword.
fn is_name(kind: &TokenKind) -> bool
    ensures { result ≡ is_name_kind kind.now }
{
    match kind {
        TokenKind::Bare(name) => !is_keyword(name.as_bytes()),
        TokenKind::Quoted(_) => true,
        _ => false,
    }
}

/// Whether the token is a reference.
fn is_reference(kind: &TokenKind) -> bool
    ensures { result ≡ is_reference_kind kind.now }
{
    matches!(kind, TokenKind::Reference(_))
}

/// The name that the token is, or `None` where it is none.
fn name_in(kind: &TokenKind) -> Option<&Name>
    ensures { (at : ℕ) → name_in at kind.now ≡ option_map (named at) (option_copied result) }
{
    match kind {
        TokenKind::Bare(name) if !is_keyword(name.as_bytes()) => Some(name),
        TokenKind::Quoted(name) => Some(name),
        _ => None,
    }
}

/// The prefix that the token writes, or `None` where it writes none.
fn prefix_in(kind: &TokenKind) -> Option<Prefix>
    ensures { result ≡ prefix_in kind.now }
{
    match kind {
        TokenKind::Bare(word) => prefix_of(word.as_bytes()),
        _ => None,
    }
}

/// The prefix that the word writes, or `None` where it writes none.
fn prefix_of(word: &[u8]) -> Option<Prefix>
    ensures { result ≡ prefix_of word.now }
{
    prefixes_are_read_exactly();
    Prefix::parse(word)
}
