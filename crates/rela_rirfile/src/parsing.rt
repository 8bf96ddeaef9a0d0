//! The tree that a list of tokens spells.

ghost use Rattle.std.specs.Prelude.{◌≡◌, ◌≢◌, ◌⊎◌, ◌<◌, ◌≤◌, ℕ, Ok, Err, [], length, IfOk, IfErr, OnOk, MatchResult};
ghost use Rattle.std.specs.List.{All};
ghost use Rattle.rela_lex.specs.declared.error.SpecError.TheVariants.{Syntax, TooDeep, Memory};
ghost use Rattle.rela_rirfile.specs.declared.written.AssertFile.{AssertFile};
ghost use Rattle.rela_rirfile.specs.Grammar.{Spells, IsSyntax, IsTooDeep, IsFault};
ghost use Rattle.rela_rirfile.specs.Depth.{IsLow, deepest};
ghost use Rattle.rela_rirfile.specs.ReadFile.{read_assert, read_asserts, read_file};
ghost use Rattle.rela_rirfile.specs.ReadTrees.{read_tree};

mod asserts;
mod members;
mod names;
mod pairs;
mod sets;

use crate::written::{Assert, AssertExpr, AssertFile};
use asserts::tree;
use names::name;
use rela_lex::{SpecError, Token};
use rela_names::List;
use rela_spec::{Cursor, level_line};
use std::alloc::Global;

/// The greatest number of brackets that may be open at once.
const MAX_OPEN_BRACKETS: usize = 100;

/// The tree that the tokens spell. `end` is the number of bytes in the text.
///
/// Time and space: linear in the tokens and the bytes of their names. It goes as deep into the
/// stack as brackets are open.
///
/// # Errors
///
/// `Syntax` at the first token such that no text of the grammar begins with the tokens up to and
/// with it, or at `end` where the tokens only begin such a text; `TooDeep` at the first bracket
/// after which more than 100 are open. Of the two the one that comes first. `Memory`.
pub fn parse(alloc: Global, tokens: &[Token], end: u32) -> Result<AssertFile, SpecError>
    // What is read is spelled so, and what is refused has its fault there.
    ensures tree { IfOk result (λ file. Spells tokens.now file) }
    ensures fault { IfErr result (λ e. IsFault tokens.now end e) }

    // What is spelled is read, and what has a fault is refused there, unless memory runs out.
    ensures spelled { (tree : AssertFile) → Spells tokens.now tree
        → MatchResult result (λ file. file ≡ tree) (λ e. e ≡ Memory) }
    ensures syntax { (at : ℕ) → IsSyntax tokens.now end at
        → MatchResult result (λ _. ⊥) (λ e. (e ≡ Syntax at) ⊎ (e ≡ Memory)) }
    ensures too_deep { (at : ℕ) → IsTooDeep tokens.now at
        → MatchResult result (λ _. ⊥) (λ e. (e ≡ TooDeep at) ⊎ (e ≡ Memory)) }

    // No set is deeper than 1,000.
    ensures low { IfOk result (λ file. All IsLow file.asserts) }
{
    file(alloc, tokens, end)
}

/// The tree of the tokens, as it is read.
#[tactic(auto, unfolding(crate::specs::ReadFile::read_file))]
fn file(alloc: Global, tokens: &[Token], end: u32) -> Result<AssertFile, SpecError>
    ensures read { IfOk result (λ file. read_file end 100 tokens.now ≡ Ok (file, [])) }
    ensures fault { IfErr result (λ e. e ≢ Memory → read_file end 100 tokens.now ≡ Err e) }
    ensures low { IfOk result (λ file. All IsLow file.asserts) }
{
    let mut cursor = Cursor::new(tokens, end);
    let level = level_line(&mut cursor)?;
    let asserts = all_asserts(alloc, &mut cursor)?;
    Ok(AssertFile {
        level,
        asserts: List::from_vec(asserts),
    })
}

/// The assertions that are left, up to the end of the text.
#[tactic(auto, unfolding(crate::specs::ReadFile::read_asserts))]
fn all_asserts(alloc: Global, cursor: &mut Cursor) -> Result<Vec<Assert>, SpecError>
    ensures end { cursor.new.end ≡ cursor.old.end }
    ensures all { OnOk result (cursor.new.rest.now ≡ []) }
    ensures read { IfOk result (λ asserts. read_asserts cursor.old.end 100 cursor.old.rest.now
        ≡ Ok (asserts.items, cursor.new.rest.now)) }
    ensures fault { IfErr result (λ e. e ≢ Memory →
        read_asserts cursor.old.end 100 cursor.old.rest.now ≡ Err e) }
    ensures low { IfOk result (λ asserts. All IsLow asserts.items) }
{
    let mut asserts = Vec::new(alloc);
    while cursor.has_next() {
        asserts.push(assertion(alloc, cursor)?)?;
    }
    Ok(asserts)
}

/// The assertion that has to come next.
#[tactic(auto, unfolding(crate::specs::ReadFile::read_assert))]
fn assertion(alloc: Global, cursor: &mut Cursor) -> Result<Assert, SpecError>
    ensures end { cursor.new.end ≡ cursor.old.end }
    ensures read { IfOk result (λ assertion. read_assert cursor.old.end 100 cursor.old.rest.now
        ≡ Ok (assertion, cursor.new.rest.now)) }
    ensures fault { IfErr result (λ e. e ≢ Memory →
        read_assert cursor.old.end 100 cursor.old.rest.now ≡ Err e) }
    ensures less { OnOk result (length cursor.new.rest.now < length cursor.old.rest.now) }
    ensures low { IfOk result (λ assertion. IsLow assertion) }
{
    cursor.word(b"assert")?;
    let at = cursor.here();
    let name = name(alloc, cursor)?;
    let name = cursor.closed(name, b'=')?;
    let both = tree_behind(alloc, cursor, name)?;
    let (name, tree) = cursor.closed(both, b';')?;
    Ok(Assert { name, at, tree })
}

/// What is asserted, which has to come next, with the value that was read before it. An error drops
/// the value here, for the reason that [`Cursor::closed`] has.
fn tree_behind<T: Drop>(
    alloc: Global,
    cursor: &mut Cursor,
    before: T,
) -> Result<(T, AssertExpr), SpecError>
    ensures end { cursor.new.end ≡ cursor.old.end }
    ensures same { IfOk result (λ both. both.0 ≡ before) }
    ensures read { IfOk result (λ both. read_tree cursor.old.end 100 cursor.old.rest.now
        ≡ Ok (both.1, cursor.new.rest.now)) }
    ensures fault { IfErr result (λ e. e ≢ Memory →
        read_tree cursor.old.end 100 cursor.old.rest.now ≡ Err e) }
    ensures less { OnOk result (length cursor.new.rest.now < length cursor.old.rest.now) }
    ensures low { IfOk result (λ both. deepest both.1 ≤ 1000) }
{
    let tree = tree(alloc, cursor, MAX_OPEN_BRACKETS)?;
    Ok((before, tree))
}
