//! The tree that a list of tokens spells.

ghost use Rattle.std.specs.Prelude.{◌≡◌, ◌≢◌, ◌⊎◌, ℕ, Ok, Err, Some, None, [], IfOk, IfErr, OnOk, MatchResult};
ghost use Rattle.std.specs.List.{All};
ghost use Rattle.rela_lex.specs.declared.error.SpecError.TheVariants.{Syntax, TooDeep, BadNumber, Memory};
ghost use Rattle.rela_spec.specs.declared.tree.SpecFile.{SpecFile};
ghost use Rattle.rela_spec.specs.Grammar.{bad_number, Spells, IsSyntax, IsTooDeep, IsBadNumber, IsFault};
ghost use Rattle.rela_spec.specs.Depth.{IsLow};
ghost use Rattle.rela_spec.specs.Full.{IsFull};
ghost use Rattle.rela_spec.specs.ReadFile.{read_items, read_file};

mod cursor;
mod items;
mod members;
mod numbers;
mod paths;
mod postfix;
mod predicates;
mod specs;

use crate::tree::{Item, SpecFile};
pub use cursor::Cursor;
use items::item;
pub use items::level_line;
pub use members::{is_at_picking, picked_by};
use numbers::bad_number;
use rela_flows::prefixes_are_read_exactly;
use rela_lex::{SpecError, Token};
use rela_names::List;
use std::alloc::Global;

/// The greatest number of brackets that may be open at once.
const MAX_OPEN_BRACKETS: usize = 100;

/// The tree that the tokens spell. `end` is the number of bytes in the text.
///
/// Time and space: linear in the tokens and the bytes of their names. It goes as deep into the
/// stack as brackets are open.
///
/// # Errors
///
/// `Syntax` at the first token such that no text of the grammar begins with the tokens up to and
/// with it, or at `end` where the tokens only begin such a text; `TooDeep` at the first bracket
/// after which more than 100 are open. Of the two the one that comes first. Where neither comes,
/// `BadNumber` at the first number that is above 64 or has a leading zero and is not `0`. `Memory`.
pub fn parse(alloc: Global, tokens: &[Token], end: u32) -> Result<SpecFile, SpecError>
    // What is read is spelled so, and what is refused has its fault there.
    ensures tree { IfOk result (λ file. Spells tokens.now file) }
    ensures fault { IfErr result (λ e. IsFault tokens.now end e) }

    // What is spelled is read, and what has a fault is refused there, unless memory runs out.
    ensures spelled { (tree : SpecFile) → Spells tokens.now tree
        → MatchResult result (λ file. file ≡ tree) (λ e. e ≡ Memory) }
    ensures syntax { (at : ℕ) → IsSyntax tokens.now end at
        → MatchResult result (λ _. ⊥) (λ e. (e ≡ Syntax at) ⊎ (e ≡ Memory)) }
    ensures too_deep { (at : ℕ) → IsTooDeep tokens.now at
        → MatchResult result (λ _. ⊥) (λ e. (e ≡ TooDeep at) ⊎ (e ≡ Memory)) }
    ensures bad_number { (at : ℕ) → IsBadNumber tokens.now at
        → MatchResult result (λ _. ⊥) (λ e. (e ≡ BadNumber at) ⊎ (e ≡ Memory)) }

    // No predicate is deeper than 1,000, and each list of the tree has two parts or more.
    ensures low { IfOk result (λ file. All IsLow file.items) }
    ensures full { IfOk result (λ file. IsFull file) }
{
    prefixes_are_read_exactly();
    let file = file(alloc, tokens, end)?;
    refuse_bad_number(tokens)?;
    Ok(file)
}

/// `BadNumber` at the first bad number, if there is one. It asks for no memory.
fn refuse_bad_number(tokens: &[Token]) -> Result<(), SpecError>
    ensures none { OnOk result (bad_number tokens.now ≡ None) }
    ensures bad { IfErr result (λ e. (at : ℕ) × (bad_number tokens.now ≡ Some at)
        × (e ≡ BadNumber at)) }
{
    match bad_number(tokens) {
        Some(at) => Err(SpecError::BadNumber { at }),
        None => Ok(()),
    }
}

/// The tree of the tokens, in which each bad number counts as 0.
#[tactic(auto, unfolding(crate::specs::ReadFile::read_file))]
fn file(alloc: Global, tokens: &[Token], end: u32) -> Result<SpecFile, SpecError>
    ensures read { IfOk result (λ file. read_file end 100 tokens.now ≡ Ok (file, [])) }
    ensures fault { IfErr result (λ e. e ≢ Memory → read_file end 100 tokens.now ≡ Err e) }
    ensures low { IfOk result (λ file. All IsLow file.items) }
{
    let mut cursor = Cursor::new(tokens, end);
    let level = level_line(&mut cursor)?;
    let items = all_items(alloc, &mut cursor)?;
    Ok(SpecFile {
        level,
        items: List::from_vec(items),
    })
}

/// The items that are left, up to the end of the text.
#[tactic(auto, unfolding(crate::specs::ReadFile::read_items))]
fn all_items(alloc: Global, cursor: &mut Cursor) -> Result<Vec<Item>, SpecError>
    ensures end { cursor.new.end ≡ cursor.old.end }
    ensures all { OnOk result (cursor.new.rest.now ≡ []) }
    ensures read { IfOk result (λ items. read_items cursor.old.end 100 cursor.old.rest.now
        ≡ Ok (items.items, cursor.new.rest.now)) }
    ensures fault { IfErr result (λ e. e ≢ Memory →
        read_items cursor.old.end 100 cursor.old.rest.now ≡ Err e) }
    ensures low { IfOk result (λ items. All IsLow items.items) }
{
    let mut items = Vec::new(alloc);
    while cursor.has_next() {
        items.push(item(alloc, cursor, MAX_OPEN_BRACKETS)?)?;
    }
    Ok(items)
}
