//! Specifications of changes. `else` binds more loosely than `then`.

ghost use Rattle.std.specs.Prelude.{◌≡◌, ◌≢◌, ◌<◌, ◌≤◌, Ok, Err, length, IfOk, IfErr, OnOk};
ghost use Rattle.rela_lex.specs.declared.error.SpecError.TheVariants.{Memory};
ghost use Rattle.rela_spec.specs.Readings.{next_is};
ghost use Rattle.rela_spec.specs.ReadWords.{is_word_of, read_word};
ghost use Rattle.rela_spec.specs.ReadSpecs.{read_argument, read_replacement, read_change, read_unit, read_body, group_at, single_at, form, between, part_at, next_at, chain_at, more_at};

use crate::parsing::cursor::Cursor;
use crate::parsing::paths::{path, path_behind};
use crate::tree::{Modifier, PathExpr, SpecExpr};
use rela_lex::SpecError;
use rela_names::List;
use std::alloc::Global;

/// How the parts of a chain are joined, from the loosest on.
#[derive(Clone, Copy)]
enum Joint {
    /// By `else`.
    Else,
    /// By `then`.
    Then,
}

/// The specification of changes that has to come next, where `room` more brackets may be opened.
#[tactic(auto, using(crate::proofs::SpecReadings::body_is_chain))]
#[cycle(spec)]
pub(crate) fn body(alloc: Global, cursor: &mut Cursor, room: usize) -> Result<SpecExpr, SpecError>
    ensures end { cursor.new.end ≡ cursor.old.end }
    ensures read { IfOk result (λ spec. read_body cursor.old.end room cursor.old.rest.now
        ≡ Ok (spec, cursor.new.rest.now)) }
    ensures fault { IfErr result (λ e. e ≢ Memory →
        read_body cursor.old.end room cursor.old.rest.now ≡ Err e) }
    ensures less { OnOk result (length cursor.new.rest.now < length cursor.old.rest.now) }
{
    chain(alloc, cursor, Joint::Else, room)
}

/// The specification of changes that has to come next, with the value that was read before it. An
/// error drops the value here, for the reason that [`Cursor::closed`] has.
pub(crate) fn body_behind<T: Drop>(
    alloc: Global,
    cursor: &mut Cursor,
    room: usize,
    before: T,
) -> Result<(T, SpecExpr), SpecError>
    ensures end { cursor.new.end ≡ cursor.old.end }
    ensures same { IfOk result (λ both. both.0 ≡ before) }
    ensures read { IfOk result (λ both. read_body cursor.old.end room cursor.old.rest.now
        ≡ Ok (both.1, cursor.new.rest.now)) }
    ensures fault { IfErr result (λ e. e ≢ Memory →
        read_body cursor.old.end room cursor.old.rest.now ≡ Err e) }
    ensures less { OnOk result (length cursor.new.rest.now < length cursor.old.rest.now) }
{
    let spec = body(alloc, cursor, room)?;
    Ok((before, spec))
}

/// A part, or a list of two or more parts that are joined so.
#[cycle(spec)]
fn chain(
    alloc: Global,
    cursor: &mut Cursor,
    joint: Joint,
    room: usize,
) -> Result<SpecExpr, SpecError>
    ensures end { cursor.new.end ≡ cursor.old.end }
    ensures read { IfOk result (λ spec. chain_at joint cursor.old.end room cursor.old.rest.now
        ≡ Ok (spec, cursor.new.rest.now)) }
    ensures fault { IfErr result (λ e. e ≢ Memory →
        chain_at joint cursor.old.end room cursor.old.rest.now ≡ Err e) }
    ensures less { OnOk result (length cursor.new.rest.now < length cursor.old.rest.now) }
{
    let first = part(alloc, cursor, joint, room)?;
    if !is_joined(cursor, joint) {
        return Ok(first);
    }
    let mut parts = Vec::new(alloc);
    parts.push(first)?;
    more_parts(alloc, cursor, joint, room, &mut parts)?;
    Ok(joined(joint, List::from_vec(parts)))
}

/// A part of a chain: a chain that binds more tightly, or a specification that binds most tightly.
#[tactic(auto, unfolding(crate::specs::ReadSpecs::part_at, crate::specs::ReadSpecs::chain_at))]
#[cycle(spec)]
fn part(
    alloc: Global,
    cursor: &mut Cursor,
    joint: Joint,
    room: usize,
) -> Result<SpecExpr, SpecError>
    ensures end { cursor.new.end ≡ cursor.old.end }
    ensures read { IfOk result (λ spec. part_at joint cursor.old.end room cursor.old.rest.now
        ≡ Ok (spec, cursor.new.rest.now)) }
    ensures fault { IfErr result (λ e. e ≢ Memory →
        part_at joint cursor.old.end room cursor.old.rest.now ≡ Err e) }
    ensures less { OnOk result (length cursor.new.rest.now < length cursor.old.rest.now) }
{
    match joint {
        Joint::Else => chain(alloc, cursor, Joint::Then, room),
        Joint::Then => single(alloc, cursor, room),
    }
}

/// What joins a further part to a chain, and then that part.
#[tactic(auto, unfolding(crate::specs::ReadSpecs::next_at))]
#[cycle(spec)]
fn next_part(
    alloc: Global,
    cursor: &mut Cursor,
    joint: Joint,
    room: usize,
) -> Result<SpecExpr, SpecError>
    ensures end { cursor.new.end ≡ cursor.old.end }
    ensures read { IfOk result (λ spec. next_at joint cursor.old.end room cursor.old.rest.now
        ≡ Ok (spec, cursor.new.rest.now)) }
    ensures fault { IfErr result (λ e. e ≢ Memory →
        next_at joint cursor.old.end room cursor.old.rest.now ≡ Err e) }
    ensures less { OnOk result (length cursor.new.rest.now < length cursor.old.rest.now) }
{
    join(cursor, joint)?;
    part(alloc, cursor, joint, room)
}

/// Appends the further parts of a chain to `parts`, as long as it goes on.
#[tactic(auto, unfolding(crate::specs::ReadSpecs::more_at))]
#[cycle(spec)]
fn more_parts(
    alloc: Global,
    cursor: &mut Cursor,
    joint: Joint,
    room: usize,
    parts: &mut Vec<SpecExpr>,
) -> Result<(), SpecError>
    ensures end { cursor.new.end ≡ cursor.old.end }
    ensures read { IfOk result (λ _. more_at joint cursor.old.end room parts.old.items
        cursor.old.rest.now ≡ Ok (parts.new.items, cursor.new.rest.now)) }
    ensures fault { IfErr result (λ e. e ≢ Memory →
        more_at joint cursor.old.end room parts.old.items cursor.old.rest.now ≡ Err e) }
    ensures left { OnOk result (length cursor.new.rest.now ≤ length cursor.old.rest.now) }
{
    while is_joined(cursor, joint) {
        parts.push(next_part(alloc, cursor, joint, room)?)?;
    }
    Ok(())
}

/// Whether the chain goes on with a further part.
fn is_joined(cursor: &Cursor, joint: Joint) -> bool
    ensures { result ≡ next_is (is_word_of (between joint)) cursor.now.rest.now }
{
    match joint {
        Joint::Else => cursor.is_at_word(b"else"),
        Joint::Then => cursor.is_at_word(b"then"),
    }
}

/// Goes past the word that joins the next part, which has to come next.
fn join(cursor: &mut Cursor, joint: Joint) -> Result<(), SpecError>
    ensures end { cursor.new.end ≡ cursor.old.end }
    ensures read { IfOk result (λ _. read_word cursor.old.end (between joint) cursor.old.rest.now
        ≡ Ok (tt, cursor.new.rest.now)) }
    ensures fault { IfErr result (λ e. read_word cursor.old.end (between joint) cursor.old.rest.now
        ≡ Err e) }
    ensures less { OnOk result (length cursor.new.rest.now < length cursor.old.rest.now) }
{
    match joint {
        Joint::Else => cursor.word(b"else"),
        Joint::Then => cursor.word(b"then"),
    }
}

/// The specification of these parts, joined so.
fn joined(joint: Joint, parts: List<SpecExpr>) -> SpecExpr
    ensures { result ≡ form joint parts }
{
    match joint {
        Joint::Else => SpecExpr::Else(parts),
        Joint::Then => SpecExpr::Then(parts),
    }
}

/// A specification that binds most tightly: a reference, one in brackets, or a unit.
#[tactic(auto, unfolding(crate::specs::ReadSpecs::single_at))]
#[cycle(spec)]
fn single(alloc: Global, cursor: &mut Cursor, room: usize) -> Result<SpecExpr, SpecError>
    ensures end { cursor.new.end ≡ cursor.old.end }
    ensures read { IfOk result (λ spec. single_at cursor.old.end room cursor.old.rest.now
        ≡ Ok (spec, cursor.new.rest.now)) }
    ensures fault { IfErr result (λ e. e ≢ Memory →
        single_at cursor.old.end room cursor.old.rest.now ≡ Err e) }
    ensures less { OnOk result (length cursor.new.rest.now < length cursor.old.rest.now) }
{
    if cursor.is_at_reference() {
        let at = cursor.here();
        let name = cursor.reference(alloc)?;
        return Ok(SpecExpr::Reference { name, at });
    }
    if cursor.is_at_mark(b'(') {
        return group(alloc, cursor, room);
    }
    unit(alloc, cursor, room)
}

/// A specification of changes in brackets, which has to come next.
#[tactic(auto, unfolding(crate::specs::ReadSpecs::group_at), using(crate::proofs::SpecReadings::inside_is))]
#[cycle(spec)]
fn group(alloc: Global, cursor: &mut Cursor, room: usize) -> Result<SpecExpr, SpecError>
    ensures end { cursor.new.end ≡ cursor.old.end }
    ensures read { IfOk result (λ spec. group_at cursor.old.end room cursor.old.rest.now
        ≡ Ok (spec, cursor.new.rest.now)) }
    ensures fault { IfErr result (λ e. e ≢ Memory →
        group_at cursor.old.end room cursor.old.rest.now ≡ Err e) }
    ensures less { OnOk result (length cursor.new.rest.now < length cursor.old.rest.now) }
{
    let inner = cursor.open(b'(', room)?;
    let inside = body(alloc, cursor, inner)?;
    cursor.closed(inside, b')')
}

/// A zone with its modifier, in braces.
#[tactic(auto, unfolding(crate::specs::ReadSpecs::read_unit))]
fn unit(alloc: Global, cursor: &mut Cursor, room: usize) -> Result<SpecExpr, SpecError>
    ensures end { cursor.new.end ≡ cursor.old.end }
    ensures read { IfOk result (λ spec. read_unit cursor.old.end room cursor.old.rest.now
        ≡ Ok (spec, cursor.new.rest.now)) }
    ensures fault { IfErr result (λ e. e ≢ Memory →
        read_unit cursor.old.end room cursor.old.rest.now ≡ Err e) }
    ensures less { OnOk result (length cursor.new.rest.now < length cursor.old.rest.now) }
{
    let inner = cursor.open(b'{', room)?;
    let zone = path(alloc, cursor, inner)?;
    let zone = cursor.closed(zone, b':')?;
    let both = change_behind(alloc, cursor, inner, zone)?;
    let (zone, modifier) = cursor.closed(both, b'}')?;
    Ok(SpecExpr::Unit { zone, modifier })
}

/// The modifier that has to come next, with the value that was read before it. An error drops the
/// value here, for the reason that [`Cursor::closed`] has.
fn change_behind<T: Drop>(
    alloc: Global,
    cursor: &mut Cursor,
    room: usize,
    before: T,
) -> Result<(T, Modifier<PathExpr>), SpecError>
    ensures end { cursor.new.end ≡ cursor.old.end }
    ensures same { IfOk result (λ both. both.0 ≡ before) }
    ensures read { IfOk result (λ both. read_change cursor.old.end room cursor.old.rest.now
        ≡ Ok (both.1, cursor.new.rest.now)) }
    ensures fault { IfErr result (λ e. e ≢ Memory →
        read_change cursor.old.end room cursor.old.rest.now ≡ Err e) }
    ensures less { OnOk result (length cursor.new.rest.now < length cursor.old.rest.now) }
{
    let modifier = change(alloc, cursor, room)?;
    Ok((before, modifier))
}

/// The modifier that has to come next: what has to become of the paths of a zone.
#[tactic(auto, unfolding(crate::specs::ReadSpecs::read_change))]
fn change(alloc: Global, cursor: &mut Cursor, room: usize) -> Result<Modifier<PathExpr>, SpecError>
    ensures end { cursor.new.end ≡ cursor.old.end }
    ensures read { IfOk result (λ modifier. read_change cursor.old.end room cursor.old.rest.now
        ≡ Ok (modifier, cursor.new.rest.now)) }
    ensures fault { IfErr result (λ e. e ≢ Memory →
        read_change cursor.old.end room cursor.old.rest.now ≡ Err e) }
    ensures less { OnOk result (length cursor.new.rest.now < length cursor.old.rest.now) }
{
    if cursor.take_word(b"preserve") {
        return Ok(Modifier::Preserve);
    }
    if cursor.take_word(b"drop") {
        return Ok(Modifier::Drop);
    }
    if cursor.take_word(b"add") {
        return Ok(Modifier::Add(argument(alloc, cursor, room)?));
    }
    if cursor.take_word(b"remove") {
        return Ok(Modifier::Remove(argument(alloc, cursor, room)?));
    }
    if cursor.take_word(b"replace") {
        return replacement(alloc, cursor, room);
    }
    if cursor.take_word(b"any") {
        return Ok(Modifier::AnyOf(argument(alloc, cursor, room)?));
    }
    cursor.word(b"ignore")?;
    Ok(Modifier::Ignore(argument(alloc, cursor, room)?))
}

/// A path expression in brackets, which has to come next.
#[tactic(auto, unfolding(crate::specs::ReadSpecs::read_argument))]
fn argument(alloc: Global, cursor: &mut Cursor, room: usize) -> Result<PathExpr, SpecError>
    ensures end { cursor.new.end ≡ cursor.old.end }
    ensures read { IfOk result (λ path. read_argument cursor.old.end room cursor.old.rest.now
        ≡ Ok (path, cursor.new.rest.now)) }
    ensures fault { IfErr result (λ e. e ≢ Memory →
        read_argument cursor.old.end room cursor.old.rest.now ≡ Err e) }
    ensures less { OnOk result (length cursor.new.rest.now < length cursor.old.rest.now) }
{
    let inner = cursor.open(b'(', room)?;
    let argument = path(alloc, cursor, inner)?;
    cursor.closed(argument, b')')
}

/// The two path expressions of `replace`, in brackets, which have to come next.
#[tactic(auto, unfolding(crate::specs::ReadSpecs::read_replacement))]
fn replacement(
    alloc: Global,
    cursor: &mut Cursor,
    room: usize,
) -> Result<Modifier<PathExpr>, SpecError>
    ensures end { cursor.new.end ≡ cursor.old.end }
    ensures read { IfOk result (λ modifier. read_replacement cursor.old.end room cursor.old.rest.now
        ≡ Ok (modifier, cursor.new.rest.now)) }
    ensures fault { IfErr result (λ e. e ≢ Memory →
        read_replacement cursor.old.end room cursor.old.rest.now ≡ Err e) }
    ensures less { OnOk result (length cursor.new.rest.now < length cursor.old.rest.now) }
{
    let inner = cursor.open(b'(', room)?;
    let old = path(alloc, cursor, inner)?;
    let old = cursor.closed(old, b',')?;
    let both = path_behind(alloc, cursor, inner, old)?;
    let (old, new) = cursor.closed(both, b')')?;
    Ok(Modifier::Replace(old, new))
}
