//! Items, and the level that a text may begin with.

ghost use Rattle.std.specs.Prelude.{◌≡◌, ◌≢◌, ◌<◌, ◌≤◌, Ok, Err, length, IfOk, IfErr, OnOk};
ghost use Rattle.rela_flows.specs.Selects.{depth};
ghost use Rattle.rela_lex.specs.declared.error.SpecError.TheVariants.{Memory};
ghost use Rattle.rela_spec.specs.Depth.{IsLow};
ghost use Rattle.rela_spec.specs.ReadFile.{read_level_word, read_level_line, read_condition, read_path_item, read_spec_item, read_check_item, read_item};

use crate::parsing::cursor::Cursor;
use crate::parsing::paths::path_behind;
use crate::parsing::predicates::predicate;
use crate::parsing::specs::body_behind;
use crate::tree::Item;
use rela_flows::Predicate;
use rela_lex::SpecError;
use rela_names::Level;
use std::alloc::Global;

/// The level that the text begins with, or that of interfaces where it begins with none.
#[tactic(auto, unfolding(crate::specs::ReadFile::read_level_line))]
pub fn level_line(cursor: &mut Cursor) -> Result<Level, SpecError>
    ensures end { cursor.new.end ≡ cursor.old.end }
    ensures read { IfOk result (λ level. read_level_line cursor.old.end cursor.old.rest.now
        ≡ Ok (level, cursor.new.rest.now)) }
    ensures fault { IfErr result (λ e. read_level_line cursor.old.end cursor.old.rest.now ≡ Err e) }
    ensures left { OnOk result (length cursor.new.rest.now ≤ length cursor.old.rest.now) }
{
    if !cursor.take_word(b"level") {
        return Ok(Level::Interface);
    }
    let level = level_word(cursor)?;
    cursor.mark(b';')?;
    Ok(level)
}

/// The level whose word has to come next.
#[tactic(auto, unfolding(crate::specs::ReadFile::read_level_word))]
fn level_word(cursor: &mut Cursor) -> Result<Level, SpecError>
    ensures end { cursor.new.end ≡ cursor.old.end }
    ensures read { IfOk result (λ level. read_level_word cursor.old.end cursor.old.rest.now
        ≡ Ok (level, cursor.new.rest.now)) }
    ensures fault { IfErr result (λ e. read_level_word cursor.old.end cursor.old.rest.now ≡ Err e) }
    ensures less { OnOk result (length cursor.new.rest.now < length cursor.old.rest.now) }
{
    if cursor.take_word(b"interface") {
        return Ok(Level::Interface);
    }
    if cursor.take_word(b"device") {
        return Ok(Level::Device);
    }
    cursor.word(b"group")?;
    Ok(Level::Group)
}

/// The item that has to come next, where `room` more brackets may be opened.
#[tactic(auto, unfolding(crate::specs::ReadFile::read_item))]
pub(crate) fn item(alloc: Global, cursor: &mut Cursor, room: usize) -> Result<Item, SpecError>
    requires { room ≤ 100 }
    ensures end { cursor.new.end ≡ cursor.old.end }
    ensures read { IfOk result (λ item. read_item cursor.old.end room cursor.old.rest.now
        ≡ Ok (item, cursor.new.rest.now)) }
    ensures fault { IfErr result (λ e. e ≢ Memory →
        read_item cursor.old.end room cursor.old.rest.now ≡ Err e) }
    ensures less { OnOk result (length cursor.new.rest.now < length cursor.old.rest.now) }
    ensures low { IfOk result (λ item. IsLow item) }
{
    if cursor.take_word(b"path") {
        return path_item(alloc, cursor, room);
    }
    if cursor.take_word(b"spec") {
        return spec_item(alloc, cursor, room);
    }
    cursor.word(b"check")?;
    check_item(alloc, cursor, room)
}

/// The rest of a definition of paths, behind the word `path`.
#[tactic(auto, unfolding(crate::specs::ReadFile::read_path_item))]
fn path_item(alloc: Global, cursor: &mut Cursor, room: usize) -> Result<Item, SpecError>
    ensures end { cursor.new.end ≡ cursor.old.end }
    ensures read { IfOk result (λ item. read_path_item cursor.old.end room cursor.old.rest.now
        ≡ Ok (item, cursor.new.rest.now)) }
    ensures fault { IfErr result (λ e. e ≢ Memory →
        read_path_item cursor.old.end room cursor.old.rest.now ≡ Err e) }
    ensures less { OnOk result (length cursor.new.rest.now < length cursor.old.rest.now) }
    ensures low { IfOk result (λ item. IsLow item) }
{
    let at = cursor.here();
    let name = cursor.name(alloc)?;
    let name = cursor.closed(name, b'=')?;
    let both = path_behind(alloc, cursor, room, name)?;
    let (name, body) = cursor.closed(both, b';')?;
    Ok(Item::Path { name, at, body })
}

/// The rest of a definition of a specification, behind the word `spec`.
#[tactic(auto, unfolding(crate::specs::ReadFile::read_spec_item))]
fn spec_item(alloc: Global, cursor: &mut Cursor, room: usize) -> Result<Item, SpecError>
    ensures end { cursor.new.end ≡ cursor.old.end }
    ensures read { IfOk result (λ item. read_spec_item cursor.old.end room cursor.old.rest.now
        ≡ Ok (item, cursor.new.rest.now)) }
    ensures fault { IfErr result (λ e. e ≢ Memory →
        read_spec_item cursor.old.end room cursor.old.rest.now ≡ Err e) }
    ensures less { OnOk result (length cursor.new.rest.now < length cursor.old.rest.now) }
    ensures low { IfOk result (λ item. IsLow item) }
{
    let at = cursor.here();
    let name = cursor.name(alloc)?;
    let name = cursor.closed(name, b'=')?;
    let both = body_behind(alloc, cursor, room, name)?;
    let (name, body) = cursor.closed(both, b';')?;
    Ok(Item::Spec { name, at, body })
}

/// The rest of a check, behind the word `check`.
#[tactic(auto, unfolding(crate::specs::ReadFile::read_check_item))]
fn check_item(alloc: Global, cursor: &mut Cursor, room: usize) -> Result<Item, SpecError>
    requires { room ≤ 100 }
    ensures end { cursor.new.end ≡ cursor.old.end }
    ensures read { IfOk result (λ item. read_check_item cursor.old.end room cursor.old.rest.now
        ≡ Ok (item, cursor.new.rest.now)) }
    ensures fault { IfErr result (λ e. e ≢ Memory →
        read_check_item cursor.old.end room cursor.old.rest.now ≡ Err e) }
    ensures less { OnOk result (length cursor.new.rest.now < length cursor.old.rest.now) }
    ensures low { IfOk result (λ item. IsLow item) }
{
    let at_most = cursor.take_word(b"atmost");
    let at = cursor.here();
    let name = cursor.name(alloc)?;
    let named = condition_behind(alloc, cursor, room, name)?;
    let named = cursor.closed(named, b':')?;
    let both = body_behind(alloc, cursor, room, named)?;
    let ((name, when), body) = cursor.closed(both, b';')?;
    Ok(Item::Check {
        at_most,
        name,
        at,
        when,
        body,
    })
}

/// The flows that a check is for, with the value that was read before it. An error drops the value
/// here, for the reason that [`Cursor::closed`] has.
fn condition_behind<T: Drop>(
    alloc: Global,
    cursor: &mut Cursor,
    room: usize,
    before: T,
) -> Result<(T, Predicate), SpecError>
    requires { room ≤ 100 }
    ensures end { cursor.new.end ≡ cursor.old.end }
    ensures same { IfOk result (λ both. both.0 ≡ before) }
    ensures read { IfOk result (λ both. read_condition cursor.old.end room cursor.old.rest.now
        ≡ Ok (both.1, cursor.new.rest.now)) }
    ensures fault { IfErr result (λ e. e ≢ Memory →
        read_condition cursor.old.end room cursor.old.rest.now ≡ Err e) }
    ensures left { OnOk result (length cursor.new.rest.now ≤ length cursor.old.rest.now) }
    ensures depth { IfOk result (λ both. depth both.1 ≤ 1000) }
{
    let when = condition(alloc, cursor, room)?;
    Ok((before, when))
}

/// The flows that a check is for, which stand behind `for`: all where that word doesn't come next.
#[tactic(auto, unfolding(crate::specs::ReadFile::read_condition), using(crate::proofs::Depths::depth_all))]
fn condition(alloc: Global, cursor: &mut Cursor, room: usize) -> Result<Predicate, SpecError>
    requires { room ≤ 100 }
    ensures end { cursor.new.end ≡ cursor.old.end }
    ensures read { IfOk result (λ when. read_condition cursor.old.end room cursor.old.rest.now
        ≡ Ok (when, cursor.new.rest.now)) }
    ensures fault { IfErr result (λ e. e ≢ Memory →
        read_condition cursor.old.end room cursor.old.rest.now ≡ Err e) }
    ensures left { OnOk result (length cursor.new.rest.now ≤ length cursor.old.rest.now) }
    ensures depth { IfOk result (λ when. depth when ≤ 1000) }
{
    if cursor.take_word(b"for") {
        return predicate(alloc, cursor, room);
    }
    Ok(Predicate::All)
}
