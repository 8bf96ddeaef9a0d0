//! The tree of an assertion file, from its text.

ghost use Rattle.std.specs.Prelude.{◌≤◌, length};
ghost use Rattle.rela_inputs.specs.Given.{Equals, IsRead};
ghost use Rattle.rela_inputs.specs.Specifications.{ReadsAssertions};

use crate::halts::spec_halt;
use crate::reading::Halt;
use crate::refusal::Input;
use rela_lex::tokens;
use rela_rirfile::{AssertFile, parse};
use std::alloc::Global;

/// The tree of an assertion file's text, which has at most 32 MiB. Time and space: linear in the
/// text.
///
/// # Errors
///
/// `Refused` with `BadToken` where no token begins; else with the first fault of the tokens,
/// `Syntax` or `TooDeep`; `Memory`.
pub fn read_assertions(alloc: Global, text: &[u8]) -> Result<AssertFile, Halt>
    requires { length text.now ≤ 33554432 }
    ensures { IsRead Equals (ReadsAssertions text.now) result }
{
    let tokens = match tokens(alloc, text) {
        Ok(tokens) => tokens,
        Err(error) => return Err(spec_halt(Input::Assertions, error)),
    };
    match parse(alloc, tokens.as_slice(), text.len() as u32) {
        Ok(file) => Ok(file),
        Err(error) => Err(spec_halt(Input::Assertions, error)),
    }
}
