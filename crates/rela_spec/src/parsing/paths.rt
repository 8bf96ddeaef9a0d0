//! Path expressions. From the loosest on, `|`, `&` and standing side by side join parts, `!`
//! negates one, and what repeats a part binds most tightly.

ghost use Rattle.std.specs.Prelude.{◌≡◌, ◌≢◌, ◌<◌, ◌≤◌, Ok, Err, length, IfOk, IfErr, OnOk};
ghost use Rattle.rela_lex.specs.declared.error.SpecError.TheVariants.{Memory};
ghost use Rattle.rela_spec.specs.Readings.{next_is};
ghost use Rattle.rela_spec.specs.ReadPaths.{starts_path, read_path, group_at, atom_at, postfixed_at, negation_at, form, goes_on, part_at, read_joint, next_at, chain_at, more_at};

use crate::parsing::cursor::Cursor;
use crate::parsing::members::{class, is_at_member, member};
use crate::parsing::postfix::postfix;
use crate::tree::PathExpr;
use rela_lex::SpecError;
use rela_names::{Boxed, List};
use std::alloc::Global;

/// How the parts of a chain are joined, from the loosest on.
#[derive(Clone, Copy)]
enum Joint {
    /// By `|`.
    Alt,
    /// By `&`.
    And,
    /// By standing side by side.
    Seq,
}

/// The path expression that has to come next, where `room` more brackets may be opened.
#[tactic(auto, using(crate::proofs::PathReadings::path_is_chain))]
#[cycle(path)]
pub(crate) fn path(alloc: Global, cursor: &mut Cursor, room: usize) -> Result<PathExpr, SpecError>
    ensures end { cursor.new.end ≡ cursor.old.end }
    ensures read { IfOk result (λ path. read_path cursor.old.end room cursor.old.rest.now
        ≡ Ok (path, cursor.new.rest.now)) }
    ensures fault { IfErr result (λ e. e ≢ Memory →
        read_path cursor.old.end room cursor.old.rest.now ≡ Err e) }
    ensures less { OnOk result (length cursor.new.rest.now < length cursor.old.rest.now) }
{
    chain(alloc, cursor, Joint::Alt, room)
}

/// The path expression that has to come next, with the value that was read before it. An error
/// drops the value here, for the reason that [`Cursor::closed`] has.
pub(crate) fn path_behind<T: Drop>(
    alloc: Global,
    cursor: &mut Cursor,
    room: usize,
    before: T,
) -> Result<(T, PathExpr), SpecError>
    ensures end { cursor.new.end ≡ cursor.old.end }
    ensures same { IfOk result (λ both. both.0 ≡ before) }
    ensures read { IfOk result (λ both. read_path cursor.old.end room cursor.old.rest.now
        ≡ Ok (both.1, cursor.new.rest.now)) }
    ensures fault { IfErr result (λ e. e ≢ Memory →
        read_path cursor.old.end room cursor.old.rest.now ≡ Err e) }
    ensures less { OnOk result (length cursor.new.rest.now < length cursor.old.rest.now) }
{
    let path = path(alloc, cursor, room)?;
    Ok((before, path))
}

/// A part, or a list of two or more parts that are joined so.
#[cycle(path)]
fn chain(
    alloc: Global,
    cursor: &mut Cursor,
    joint: Joint,
    room: usize,
) -> Result<PathExpr, SpecError>
    ensures end { cursor.new.end ≡ cursor.old.end }
    ensures read { IfOk result (λ path. chain_at joint cursor.old.end room cursor.old.rest.now
        ≡ Ok (path, cursor.new.rest.now)) }
    ensures fault { IfErr result (λ e. e ≢ Memory →
        chain_at joint cursor.old.end room cursor.old.rest.now ≡ Err e) }
    ensures less { OnOk result (length cursor.new.rest.now < length cursor.old.rest.now) }
{
    let first = part(alloc, cursor, joint, room)?;
    if !is_joined(cursor, joint) {
        return Ok(first);
    }
    let mut parts = Vec::new(alloc);
    parts.push(first)?;
    more_parts(alloc, cursor, joint, room, &mut parts)?;
    Ok(joined(joint, List::from_vec(parts)))
}

/// A part of a chain: a chain that binds more tightly, or in a sequence a part with its `!`, if it
/// has one.
#[tactic(auto, unfolding(crate::specs::ReadPaths::part_at, crate::specs::ReadPaths::chain_at))]
#[cycle(path)]
fn part(
    alloc: Global,
    cursor: &mut Cursor,
    joint: Joint,
    room: usize,
) -> Result<PathExpr, SpecError>
    ensures end { cursor.new.end ≡ cursor.old.end }
    ensures read { IfOk result (λ path. part_at joint cursor.old.end room cursor.old.rest.now
        ≡ Ok (path, cursor.new.rest.now)) }
    ensures fault { IfErr result (λ e. e ≢ Memory →
        part_at joint cursor.old.end room cursor.old.rest.now ≡ Err e) }
    ensures less { OnOk result (length cursor.new.rest.now < length cursor.old.rest.now) }
{
    match joint {
        Joint::Alt => chain(alloc, cursor, Joint::And, room),
        Joint::And => chain(alloc, cursor, Joint::Seq, room),
        Joint::Seq => negation(alloc, cursor, room),
    }
}

/// What joins a further part to a chain, and then that part.
#[tactic(auto, unfolding(crate::specs::ReadPaths::next_at))]
#[cycle(path)]
fn next_part(
    alloc: Global,
    cursor: &mut Cursor,
    joint: Joint,
    room: usize,
) -> Result<PathExpr, SpecError>
    ensures end { cursor.new.end ≡ cursor.old.end }
    ensures read { IfOk result (λ path. next_at joint cursor.old.end room cursor.old.rest.now
        ≡ Ok (path, cursor.new.rest.now)) }
    ensures fault { IfErr result (λ e. e ≢ Memory →
        next_at joint cursor.old.end room cursor.old.rest.now ≡ Err e) }
    ensures less { OnOk result (length cursor.new.rest.now < length cursor.old.rest.now) }
{
    join(cursor, joint)?;
    part(alloc, cursor, joint, room)
}

/// Appends the further parts of a chain to `parts`, as long as it goes on.
#[tactic(auto, unfolding(crate::specs::ReadPaths::more_at))]
#[cycle(path)]
fn more_parts(
    alloc: Global,
    cursor: &mut Cursor,
    joint: Joint,
    room: usize,
    parts: &mut Vec<PathExpr>,
) -> Result<(), SpecError>
    ensures end { cursor.new.end ≡ cursor.old.end }
    ensures read { IfOk result (λ _. more_at joint cursor.old.end room parts.old.items
        cursor.old.rest.now ≡ Ok (parts.new.items, cursor.new.rest.now)) }
    ensures fault { IfErr result (λ e. e ≢ Memory →
        more_at joint cursor.old.end room parts.old.items cursor.old.rest.now ≡ Err e) }
    ensures left { OnOk result (length cursor.new.rest.now ≤ length cursor.old.rest.now) }
{
    while is_joined(cursor, joint) {
        parts.push(next_part(alloc, cursor, joint, room)?)?;
    }
    Ok(())
}

/// Whether the chain goes on with a further part.
fn is_joined(cursor: &Cursor, joint: Joint) -> bool
    ensures { result ≡ next_is (goes_on joint) cursor.now.rest.now }
{
    match joint {
        Joint::Alt => cursor.is_at_mark(b'|'),
        Joint::And => cursor.is_at_mark(b'&'),
        Joint::Seq => is_at_path(cursor),
    }
}

/// Goes past the mark that joins the next part, if one does.
#[tactic(auto, unfolding(crate::specs::ReadPaths::read_joint))]
fn join(cursor: &mut Cursor, joint: Joint) -> Result<(), SpecError>
    ensures end { cursor.new.end ≡ cursor.old.end }
    ensures read { IfOk result (λ _. read_joint joint cursor.old.end cursor.old.rest.now
        ≡ Ok (tt, cursor.new.rest.now)) }
    ensures fault { IfErr result (λ e. read_joint joint cursor.old.end cursor.old.rest.now
        ≡ Err e) }
    ensures left { OnOk result (length cursor.new.rest.now ≤ length cursor.old.rest.now) }
{
    match joint {
        Joint::Alt => cursor.mark(b'|'),
        Joint::And => cursor.mark(b'&'),
        Joint::Seq => Ok(()),
    }
}

/// The expression of these parts, joined so.
fn joined(joint: Joint, parts: List<PathExpr>) -> PathExpr
    ensures { result ≡ form joint parts }
{
    match joint {
        Joint::Alt => PathExpr::Alt(parts),
        Joint::And => PathExpr::And(parts),
        Joint::Seq => PathExpr::Seq(parts),
    }
}

/// Whether a path expression begins with what comes next.
#[tactic(auto, unfolding(crate::specs::ReadPaths::starts_path))]
fn is_at_path(cursor: &Cursor) -> bool
    ensures { result ≡ next_is starts_path cursor.now.rest.now }
{
    cursor.is_at_mark(b'!')
        || cursor.is_at_mark(b'.')
        || cursor.is_at_mark(b'(')
        || cursor.is_at_mark(b'[')
        || cursor.is_at_reference()
        || is_at_member(cursor)
}

/// A part of a sequence: with a `!` before it, its complement.
#[tactic(auto, unfolding(crate::specs::ReadPaths::negation_at))]
#[cycle(path)]
fn negation(alloc: Global, cursor: &mut Cursor, room: usize) -> Result<PathExpr, SpecError>
    ensures end { cursor.new.end ≡ cursor.old.end }
    ensures read { IfOk result (λ path. negation_at cursor.old.end room cursor.old.rest.now
        ≡ Ok (path, cursor.new.rest.now)) }
    ensures fault { IfErr result (λ e. e ≢ Memory →
        negation_at cursor.old.end room cursor.old.rest.now ≡ Err e) }
    ensures less { OnOk result (length cursor.new.rest.now < length cursor.old.rest.now) }
{
    if !cursor.take_mark(b'!') {
        return postfixed(alloc, cursor, room);
    }
    let part = postfixed(alloc, cursor, room)?;
    Ok(PathExpr::Not(Boxed::new(alloc, part)?))
}

/// A path expression that binds most tightly, with what repeats it, if anything does.
#[tactic(auto, unfolding(crate::specs::ReadPaths::postfixed_at))]
#[cycle(path)]
fn postfixed(alloc: Global, cursor: &mut Cursor, room: usize) -> Result<PathExpr, SpecError>
    ensures end { cursor.new.end ≡ cursor.old.end }
    ensures read { IfOk result (λ path. postfixed_at cursor.old.end room cursor.old.rest.now
        ≡ Ok (path, cursor.new.rest.now)) }
    ensures fault { IfErr result (λ e. e ≢ Memory →
        postfixed_at cursor.old.end room cursor.old.rest.now ≡ Err e) }
    ensures less { OnOk result (length cursor.new.rest.now < length cursor.old.rest.now) }
{
    let part = atom(alloc, cursor, room)?;
    postfix(alloc, cursor, room, part)
}

/// A path expression that binds most tightly: `.`, what stands in brackets, a class, a reference or
/// a member.
#[tactic(auto, unfolding(crate::specs::ReadPaths::atom_at))]
#[cycle(path)]
fn atom(alloc: Global, cursor: &mut Cursor, room: usize) -> Result<PathExpr, SpecError>
    ensures end { cursor.new.end ≡ cursor.old.end }
    ensures read { IfOk result (λ path. atom_at cursor.old.end room cursor.old.rest.now
        ≡ Ok (path, cursor.new.rest.now)) }
    ensures fault { IfErr result (λ e. e ≢ Memory →
        atom_at cursor.old.end room cursor.old.rest.now ≡ Err e) }
    ensures less { OnOk result (length cursor.new.rest.now < length cursor.old.rest.now) }
{
    if cursor.take_mark(b'.') {
        return Ok(PathExpr::Any);
    }
    if cursor.is_at_mark(b'(') {
        return group(alloc, cursor, room);
    }
    if cursor.is_at_mark(b'[') {
        return class(alloc, cursor, room);
    }
    if cursor.is_at_reference() {
        let at = cursor.here();
        let name = cursor.reference(alloc)?;
        return Ok(PathExpr::Reference { name, at });
    }
    Ok(PathExpr::One(member(alloc, cursor, room)?))
}

/// A path expression in brackets, or the empty path, which is brackets with nothing inside.
#[tactic(auto, unfolding(crate::specs::ReadPaths::group_at), using(crate::proofs::PathReadings::inside_is))]
#[cycle(path)]
fn group(alloc: Global, cursor: &mut Cursor, room: usize) -> Result<PathExpr, SpecError>
    ensures end { cursor.new.end ≡ cursor.old.end }
    ensures read { IfOk result (λ path. group_at cursor.old.end room cursor.old.rest.now
        ≡ Ok (path, cursor.new.rest.now)) }
    ensures fault { IfErr result (λ e. e ≢ Memory →
        group_at cursor.old.end room cursor.old.rest.now ≡ Err e) }
    ensures less { OnOk result (length cursor.new.rest.now < length cursor.old.rest.now) }
{
    let inner = cursor.open(b'(', room)?;
    if cursor.take_mark(b')') {
        return Ok(PathExpr::Empty);
    }
    let inside = path(alloc, cursor, inner)?;
    cursor.closed(inside, b')')
}
