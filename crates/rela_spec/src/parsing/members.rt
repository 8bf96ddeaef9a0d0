//! Members, and classes of members in brackets.

ghost use Rattle.std.specs.Prelude.{◌≡◌, ◌≢◌, ◌<◌, ◌≤◌, Ok, Err, length, IfOk, IfErr, OnOk};
ghost use Rattle.rela_lex.specs.declared.error.SpecError.TheVariants.{Memory};
ghost use Rattle.rela_spec.specs.Readings.{next_is};
ghost use Rattle.rela_spec.specs.ReadPaths.{is_picking, read_class, read_member, read_members, read_picked, read_picked_by, starts_member};

use crate::parsing::cursor::Cursor;
use crate::tree::{Member, PathExpr};
use rela_lex::SpecError;
use rela_locations::By;
use rela_names::List;
use std::alloc::Global;

/// Whether a member comes next.
#[tactic(auto, unfolding(crate::specs::ReadPaths::starts_member))]
pub(crate) fn is_at_member(cursor: &Cursor) -> bool
    ensures { result ≡ next_is starts_member cursor.now.rest.now }
{
    cursor.is_at_word(b"drop")
        || cursor.is_at_word(b"loop")
        || is_at_picking(cursor)
        || cursor.is_at_name()
}

/// Whether a word comes next that says by what locations are picked.
pub fn is_at_picking(cursor: &Cursor) -> bool
    ensures { result ≡ next_is is_picking cursor.now.rest.now }
{
    cursor.is_at_word(b"interface")
        || cursor.is_at_word(b"device")
        || cursor.is_at_word(b"group")
        || cursor.is_at_word(b"tag")
}

/// By what locations are picked, of which the word has to come next.
#[tactic(auto, unfolding(crate::specs::ReadPaths::read_picked_by))]
pub fn picked_by(cursor: &mut Cursor) -> Result<By, SpecError>
    ensures end { cursor.new.end ≡ cursor.old.end }
    ensures read { IfOk result (λ by. read_picked_by cursor.old.end cursor.old.rest.now
        ≡ Ok (by, cursor.new.rest.now)) }
    ensures fault { IfErr result (λ e. read_picked_by cursor.old.end cursor.old.rest.now ≡ Err e) }
    ensures less { OnOk result (length cursor.new.rest.now < length cursor.old.rest.now) }
{
    if cursor.take_word(b"interface") {
        return Ok(By::Interface);
    }
    if cursor.take_word(b"device") {
        return Ok(By::Device);
    }
    if cursor.take_word(b"group") {
        return Ok(By::Group);
    }
    cursor.word(b"tag")?;
    Ok(By::Tag)
}

/// The member that picks locations by a word and a name in brackets, which has to come next, where
/// `room` more brackets may be opened.
#[tactic(auto, unfolding(crate::specs::ReadPaths::read_picked))]
fn picked(alloc: Global, cursor: &mut Cursor, room: usize) -> Result<Member, SpecError>
    ensures end { cursor.new.end ≡ cursor.old.end }
    ensures read { IfOk result (λ member. read_picked cursor.old.end room cursor.old.rest.now
        ≡ Ok (member, cursor.new.rest.now)) }
    ensures fault { IfErr result (λ e. e ≢ Memory →
        read_picked cursor.old.end room cursor.old.rest.now ≡ Err e) }
    ensures less { OnOk result (length cursor.new.rest.now < length cursor.old.rest.now) }
{
    let by = picked_by(cursor)?;
    cursor.open(b'(', room)?;
    let at = cursor.here();
    let name = cursor.name(alloc)?;
    cursor.mark(b')')?;
    Ok(Member::Within { by, name, at })
}

/// The member that has to come next, where `room` more brackets may be opened.
#[tactic(auto, unfolding(crate::specs::ReadPaths::read_member))]
pub(crate) fn member(alloc: Global, cursor: &mut Cursor, room: usize) -> Result<Member, SpecError>
    ensures end { cursor.new.end ≡ cursor.old.end }
    ensures read { IfOk result (λ member. read_member cursor.old.end room cursor.old.rest.now
        ≡ Ok (member, cursor.new.rest.now)) }
    ensures fault { IfErr result (λ e. e ≢ Memory →
        read_member cursor.old.end room cursor.old.rest.now ≡ Err e) }
    ensures less { OnOk result (length cursor.new.rest.now < length cursor.old.rest.now) }
{
    if cursor.take_word(b"drop") {
        return Ok(Member::Drop);
    }
    if cursor.take_word(b"loop") {
        return Ok(Member::Loop);
    }
    if is_at_picking(cursor) {
        return picked(alloc, cursor, room);
    }
    let at = cursor.here();
    let name = cursor.name(alloc)?;
    Ok(Member::Here { name, at })
}

/// The members that come next, which may be none.
#[tactic(auto, unfolding(crate::specs::ReadPaths::read_members))]
fn members(alloc: Global, cursor: &mut Cursor, room: usize) -> Result<Vec<Member>, SpecError>
    ensures end { cursor.new.end ≡ cursor.old.end }
    ensures read { IfOk result (λ members. read_members cursor.old.end room cursor.old.rest.now
        ≡ Ok (members.items, cursor.new.rest.now)) }
    ensures fault { IfErr result (λ e. e ≢ Memory →
        read_members cursor.old.end room cursor.old.rest.now ≡ Err e) }
    ensures left { OnOk result (length cursor.new.rest.now ≤ length cursor.old.rest.now) }
{
    let mut members = Vec::new(alloc);
    while is_at_member(cursor) {
        members.push(member(alloc, cursor, room)?)?;
    }
    Ok(members)
}

/// The class in brackets that has to come next, where `room` more brackets may be opened.
#[tactic(auto, unfolding(crate::specs::ReadPaths::read_class))]
pub(crate) fn class(alloc: Global, cursor: &mut Cursor, room: usize) -> Result<PathExpr, SpecError>
    ensures end { cursor.new.end ≡ cursor.old.end }
    ensures read { IfOk result (λ path. read_class cursor.old.end room cursor.old.rest.now
        ≡ Ok (path, cursor.new.rest.now)) }
    ensures fault { IfErr result (λ e. e ≢ Memory →
        read_class cursor.old.end room cursor.old.rest.now ≡ Err e) }
    ensures less { OnOk result (length cursor.new.rest.now < length cursor.old.rest.now) }
{
    let inner = cursor.open(b'[', room)?;
    let negated = cursor.take_mark(b'^');
    let members = members(alloc, cursor, inner)?;
    cursor.mark(b']')?;
    Ok(PathExpr::Class {
        negated,
        members: List::from_vec(members),
    })
}
