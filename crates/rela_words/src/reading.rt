//! What the words of the command line ask for.

ghost use Rattle.std.specs.Prelude.{◌≡◌, IfOk, IfErr, IsErrOf, map, string_bytes};
ghost use Rattle.rela_words.specs.Words.{AskJust, AskNothing, BeginByName, HasNumbers};
ghost use Rattle.rela_words.specs.Commands.{command_of};

use crate::command::Command;
use crate::commands::{
    read_audit, read_certify, read_check, read_demo, read_fib, read_fmt, read_rir, read_zone,
};
use crate::errors::WordsError;
use crate::parts::parse;
use crate::verb::Verb;
use std::alloc::Global;

/// Reads the words of the command line: a command's name, and then what it takes. Time and space:
/// linear in the bytes of the words.
///
/// # Errors
///
/// - `Bad` where the words ask for nothing.
/// - `Memory` where there isn't memory to read them, which is asked for only where the first word is
///   a command's name.
pub fn read_words(alloc: Global, words: &[String]) -> Result<Command, WordsError>
    ensures asked { IfOk result (λ c. AskJust (map string_bytes words.now) (command_of c)) }
    ensures bad { IfErr result (λ e. e ≡ WordsError.Bad
        → AskNothing (map string_bytes words.now)) }
    ensures memory { IsErrOf result WordsError.Memory
        → BeginByName (map string_bytes words.now) }
    ensures numbers { IfOk result (λ c. HasNumbers (command_of c)) }
{
    let Some((name, rest)) = words.split_first() else {
        return Err(WordsError::Bad);
    };
    let Some(verb) = Verb::named(name.as_str()) else {
        return Err(WordsError::Bad);
    };
    let parts = parse(alloc, rest)?;
    match verb {
        Verb::Check => read_check(alloc, &parts),
        Verb::Fmt => read_fmt(alloc, &parts),
        Verb::Fib => read_fib(alloc, &parts),
        Verb::Zone => read_zone(alloc, &parts),
        Verb::Rir => read_rir(alloc, &parts),
        Verb::Certify => read_certify(alloc, &parts),
        Verb::Audit => read_audit(alloc, &parts),
        Verb::Demo => read_demo(&parts),
    }
}
