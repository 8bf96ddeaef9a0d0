//! What a specification asks for, from its text.

ghost use Rattle.std.specs.Prelude.{◌≡◌, ◌≤◌, IfOk, All, length};
ghost use Rattle.rela_expand.specs.Listed.{ListsPathSymbols};
ghost use Rattle.rela_locations.specs.Network.{alphabet_of};
ghost use Rattle.rela_spec.specs.Depth.{IsLow};
ghost use Rattle.rela_spec.specs.Full.{IsFull};
ghost use Rattle.rela_inputs.specs.Given.{Equals, IsRead, seen};
ghost use Rattle.rela_spec.specs.Grammar.{Spells};
ghost use Rattle.rela_inputs.specs.Specifications.{ReadsTree, ReadsWritten, written_by};
ghost use Rattle.rela_inputs.specs.Specified.{AsksFor, IsSpecified, ReadsChecks, SameSpecified, specified_by};

use crate::halts::spec_halt;
use crate::reading::Halt;
use crate::refusal::Input;
use rela_expand::expand;
use rela_lex::{Token, tokens};
use rela_locations::Locations;
use rela_names::Level;
use rela_spec::{SpecFile, parse};
use rela_translate::Check;
use std::alloc::Global;

/// What a specification asks for: checks over the locations of one level.
#[derive(Drop)]
pub struct Asked {
    /// The level of its locations.
    pub level: Level,
    /// Its checks, in their order, with all names replaced by what they stand for.
    pub checks: Vec<Check>,
}

/// The tree of a specification's text, which has at most 32 MiB. No predicate in it is deeper than
/// 1,000, and each of its lists has two parts or more. Time and space: linear in the text.
///
/// # Errors
///
/// `Refused` with `BadToken` where no token begins; else with the first fault of the tokens,
/// `Syntax`, `TooDeep` or `BadNumber`; `Memory`.
pub fn read_tree(alloc: Global, text: &[u8]) -> Result<SpecFile, Halt>
    requires { length text.now ≤ 33554432 }
    ensures tree { IsRead Equals (ReadsTree text.now) result }
    ensures full { IfOk result (λ file. IsFull file) }
    ensures low { IfOk result (λ file. All IsLow file.items) }
{
    let tokens = match tokens(alloc, text) {
        Ok(tokens) => tokens,
        Err(error) => return Err(spec_halt(Input::Spec, error)),
    };
    match parse(alloc, tokens.as_slice(), text.len() as u32) {
        Ok(file) => Ok(file),
        Err(error) => Err(spec_halt(Input::Spec, error)),
    }
}

/// A specification as it is written.
#[derive(Drop)]
pub struct Written {
    /// Its tokens.
    pub tokens: Vec<Token>,
    /// The tree that they spell.
    pub file: SpecFile,
}

/// The same tree, with the tokens that spell it.
///
/// # Errors
///
/// Those of [`read_tree`].
pub fn read_written(alloc: Global, text: &[u8]) -> Result<Written, Halt>
    requires { length text.now ≤ 33554432 }
    ensures written { IsRead Equals (ReadsWritten text.now) (seen written_by result) }
    ensures full { IfOk result (λ written. IsFull written.file) }
    ensures low { IfOk result (λ written. All IsLow written.file.items) }
    ensures spells { IfOk result (λ written. Spells written.tokens.items written.file) }
{
    let tokens = match tokens(alloc, text) {
        Ok(tokens) => tokens,
        Err(error) => return Err(spec_halt(Input::Spec, error)),
    };
    match parse(alloc, tokens.as_slice(), text.len() as u32) {
        Ok(file) => Ok(Written { tokens, file }),
        Err(error) => Err(spec_halt(Input::Spec, error)),
    }
}

/// What a text of at most 32 MiB asks for over these locations. Time and space: linear in the text
/// and in the checks, whose names are written out.
///
/// # Errors
///
/// `Refused` with the first fault of the text: `BadToken` where no token begins; else `Syntax`,
/// `TooDeep` or `BadNumber` as the tokens are read; else, as what is read is expanded,
/// `RepeatedName`, `UnknownName`, `FinerLevel`, `UnknownLocation`, `TooDeep` or `TooLarge`;
/// `Memory`.
pub fn read_asked(alloc: Global, text: &[u8], locations: &Locations) -> Result<Asked, Halt>
    requires { length text.now ≤ 33554432 }
    ensures asked { IsRead SameSpecified (ReadsChecks locations.now text.now)
        (seen specified_by result) }
    ensures listed { IfOk result (λ asked.
        All (ListsPathSymbols (alphabet_of asked.level locations.now)) asked.checks.items) }
    ensures levels { IfOk result (λ asked.
        All (λ check. check.level ≡ asked.level) asked.checks.items) }
{
    let file = read_tree(alloc, text)?;
    ask(alloc, &file, locations)
}

/// What a tree asks for over these locations. Time and space: linear in the tree and in the checks,
/// whose names are written out.
///
/// # Errors
///
/// `Refused` with the first fault as the tree is expanded; `Memory`.
pub fn ask(alloc: Global, file: &SpecFile, locations: &Locations) -> Result<Asked, Halt>
    requires full { IsFull file.now }
    requires low { All IsLow file.now.items }
    ensures asked { IsRead SameSpecified (AsksFor locations.now file.now)
        (seen specified_by result) }
    ensures is_asked { IfOk result (λ asked. IsSpecified locations.now file.now
        (specified_by asked)) }
    ensures listed { IfOk result (λ asked.
        All (ListsPathSymbols (alphabet_of asked.level locations.now)) asked.checks.items) }
    ensures levels { IfOk result (λ asked.
        All (λ check. check.level ≡ asked.level) asked.checks.items) }
{
    match expand(alloc, file, locations) {
        Ok(checks) => Ok(Asked {
            level: file.level,
            checks,
        }),
        Err(error) => Err(spec_halt(Input::Spec, error)),
    }
}
