//! Names, which are quoted words, and bare ones that the grammar doesn't reserve.

ghost use Rattle.std.specs.Prelude.{◌≡◌, ◌≢◌, ◌<◌, Ok, Err, ℕ, length, IfOk, IfErr, OnOk, IsOk, IsErrOf};
ghost use Rattle.std.specs.Option.{option_map, option_copied};
ghost use Rattle.rela_lex.specs.declared.error.SpecError.TheVariants.{Memory};
ghost use Rattle.rela_spec.specs.Grammar.{offset};
ghost use Rattle.rela_spec.specs.ReadWords.{named};
ghost use Rattle.rela_rirfile.specs.ReadWords.{name_in, read_name};

use crate::words::is_reserved;
use rela_lex::{SpecError, TokenKind};
use rela_names::Name;
use rela_spec::Cursor;
use std::alloc::Global;

/// The name that has to come next.
#[tactic(auto, unfolding(crate::specs::ReadWords::read_name))]
pub(crate) fn name(alloc: Global, cursor: &mut Cursor) -> Result<Name, SpecError>
    ensures end { cursor.new.end ≡ cursor.old.end }
    ensures read { IfOk result (λ name. read_name cursor.old.end cursor.old.rest.now
        ≡ Ok (named (offset cursor.old.end cursor.old.rest.now) name, cursor.new.rest.now)) }
    ensures fault { IfErr result (λ e. e ≢ Memory →
        read_name cursor.old.end cursor.old.rest.now ≡ Err e) }
    ensures memory { IsErrOf result Memory → IsOk (read_name cursor.old.end cursor.old.rest.now) }
    ensures less { OnOk result (length cursor.new.rest.now < length cursor.old.rest.now) }
{
    match cursor.rest.split_first() {
        Some((token, others)) => {
            let Some(name) = name_in(&token.kind) else {
                return Err(SpecError::Syntax { at: token.at });
            };
            cursor.rest = others;
            Ok(name.copy(alloc)?)
        }
        None => Err(SpecError::Syntax { at: cursor.end }),
    }
}

/// The name that the token is, or `None` where it is none.
fn name_in(kind: &TokenKind) -> Option<&Name>
    ensures { (at : ℕ) → name_in at kind.now ≡ option_map (named at) (option_copied result) }
{
    match kind {
        TokenKind::Bare(name) if !is_reserved(name.as_bytes()) => Some(name),
        TokenKind::Quoted(name) => Some(name),
        _ => None,
    }
}
