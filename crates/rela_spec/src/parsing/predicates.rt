//! Predicates on flows. `or` binds more loosely than `and`, and `not` more tightly than both.

ghost use Rattle.std.specs.Prelude.{◌≡◌, ◌≢◌, ◌<◌, ◌≤◌, ◌+◌, ◌*◌, Ok, Err, length, map, IfOk, IfErr, OnOk};
ghost use Rattle.rela_flows.specs.Selects.{depth, greatest};
ghost use Rattle.rela_lex.specs.declared.error.SpecError.TheVariants.{Memory};
ghost use Rattle.rela_spec.specs.Readings.{next_is};
ghost use Rattle.rela_spec.specs.ReadWords.{is_word_of, read_word};
ghost use Rattle.rela_spec.specs.ReadPredicates.{read_destination, read_source, read_test, read_predicate, group_at, single_at, denial_at, form, between, part_at, next_at, chain_at, more_at, within};

use crate::parsing::cursor::Cursor;
use rela_flows::Predicate;
use rela_lex::SpecError;
use rela_names::{Boxed, List};
use std::alloc::Global;

/// How the parts of a chain are joined, from the loosest on.
#[derive(Clone, Copy)]
enum Joint {
    /// By `or`.
    Or,
    /// By `and`.
    And,
}

/// The predicate that has to come next, where `room` more brackets may be opened.
#[tactic(auto, using(crate::proofs::PredicateReadings::predicate_is_chain))]
#[cycle(predicate)]
pub(crate) fn predicate(
    alloc: Global,
    cursor: &mut Cursor,
    room: usize,
) -> Result<Predicate, SpecError>
    ensures end { cursor.new.end ≡ cursor.old.end }
    ensures read { IfOk result (λ p. read_predicate cursor.old.end room cursor.old.rest.now
        ≡ Ok (p, cursor.new.rest.now)) }
    ensures fault { IfErr result (λ e. e ≢ Memory →
        read_predicate cursor.old.end room cursor.old.rest.now ≡ Err e) }
    ensures less { OnOk result (length cursor.new.rest.now < length cursor.old.rest.now) }
    ensures depth { IfOk result (λ p. depth p ≤ 3 * room + 4) }
{
    chain(alloc, cursor, Joint::Or, room)
}

/// A part, or a list of two or more parts that are joined so.
#[tactic(auto, using(crate::proofs::Depths::greatest_append))]
#[cycle(predicate)]
fn chain(
    alloc: Global,
    cursor: &mut Cursor,
    joint: Joint,
    room: usize,
) -> Result<Predicate, SpecError>
    ensures end { cursor.new.end ≡ cursor.old.end }
    ensures read { IfOk result (λ p. chain_at joint cursor.old.end room cursor.old.rest.now
        ≡ Ok (p, cursor.new.rest.now)) }
    ensures fault { IfErr result (λ e. e ≢ Memory →
        chain_at joint cursor.old.end room cursor.old.rest.now ≡ Err e) }
    ensures less { OnOk result (length cursor.new.rest.now < length cursor.old.rest.now) }
    ensures depth { IfOk result (λ p. depth p ≤ 3 * room + (within joint + 1)) }
{
    let first = part(alloc, cursor, joint, room)?;
    if !is_joined(cursor, joint) {
        return Ok(first);
    }
    let mut parts = Vec::new(alloc);
    parts.push(first)?;
    more_parts(alloc, cursor, joint, room, &mut parts)?;
    Ok(joined(joint, List::from_vec(parts)))
}

/// A part of a chain: a chain that binds more tightly, or in a conjunction a part with its `not`,
/// if it has one.
#[tactic(auto, unfolding(crate::specs::ReadPredicates::part_at, crate::specs::ReadPredicates::chain_at))]
#[cycle(predicate)]
fn part(
    alloc: Global,
    cursor: &mut Cursor,
    joint: Joint,
    room: usize,
) -> Result<Predicate, SpecError>
    ensures end { cursor.new.end ≡ cursor.old.end }
    ensures read { IfOk result (λ p. part_at joint cursor.old.end room cursor.old.rest.now
        ≡ Ok (p, cursor.new.rest.now)) }
    ensures fault { IfErr result (λ e. e ≢ Memory →
        part_at joint cursor.old.end room cursor.old.rest.now ≡ Err e) }
    ensures less { OnOk result (length cursor.new.rest.now < length cursor.old.rest.now) }
    ensures depth { IfOk result (λ p. depth p ≤ 3 * room + within joint) }
{
    match joint {
        Joint::Or => chain(alloc, cursor, Joint::And, room),
        Joint::And => denial(alloc, cursor, room),
    }
}

/// What joins a further part to a chain, and then that part.
#[tactic(auto, unfolding(crate::specs::ReadPredicates::next_at))]
#[cycle(predicate)]
fn next_part(
    alloc: Global,
    cursor: &mut Cursor,
    joint: Joint,
    room: usize,
) -> Result<Predicate, SpecError>
    ensures end { cursor.new.end ≡ cursor.old.end }
    ensures read { IfOk result (λ p. next_at joint cursor.old.end room cursor.old.rest.now
        ≡ Ok (p, cursor.new.rest.now)) }
    ensures fault { IfErr result (λ e. e ≢ Memory →
        next_at joint cursor.old.end room cursor.old.rest.now ≡ Err e) }
    ensures less { OnOk result (length cursor.new.rest.now < length cursor.old.rest.now) }
    ensures depth { IfOk result (λ p. depth p ≤ 3 * room + within joint) }
{
    join(cursor, joint)?;
    part(alloc, cursor, joint, room)
}

/// Appends the further parts of a chain to `parts`, as long as it goes on.
#[tactic(auto, unfolding(crate::specs::ReadPredicates::more_at), using(crate::proofs::Depths::greatest_append))]
#[cycle(predicate)]
fn more_parts(
    alloc: Global,
    cursor: &mut Cursor,
    joint: Joint,
    room: usize,
    parts: &mut Vec<Predicate>,
) -> Result<(), SpecError>
    requires { greatest (map depth parts.old.items) ≤ 3 * room + within joint }
    ensures end { cursor.new.end ≡ cursor.old.end }
    ensures read { IfOk result (λ _. more_at joint cursor.old.end room parts.old.items
        cursor.old.rest.now ≡ Ok (parts.new.items, cursor.new.rest.now)) }
    ensures fault { IfErr result (λ e. e ≢ Memory →
        more_at joint cursor.old.end room parts.old.items cursor.old.rest.now ≡ Err e) }
    ensures left { OnOk result (length cursor.new.rest.now ≤ length cursor.old.rest.now) }
    ensures depth { OnOk result (greatest (map depth parts.new.items) ≤ 3 * room + within joint) }
{
    while is_joined(cursor, joint) {
        parts.push(next_part(alloc, cursor, joint, room)?)?;
    }
    Ok(())
}

/// Whether the chain goes on with a further part.
fn is_joined(cursor: &Cursor, joint: Joint) -> bool
    ensures { result ≡ next_is (is_word_of (between joint)) cursor.now.rest.now }
{
    match joint {
        Joint::Or => cursor.is_at_word(b"or"),
        Joint::And => cursor.is_at_word(b"and"),
    }
}

/// Goes past the word that joins the next part, which has to come next.
fn join(cursor: &mut Cursor, joint: Joint) -> Result<(), SpecError>
    ensures end { cursor.new.end ≡ cursor.old.end }
    ensures read { IfOk result (λ _. read_word cursor.old.end (between joint) cursor.old.rest.now
        ≡ Ok (tt, cursor.new.rest.now)) }
    ensures fault { IfErr result (λ e. read_word cursor.old.end (between joint) cursor.old.rest.now
        ≡ Err e) }
    ensures less { OnOk result (length cursor.new.rest.now < length cursor.old.rest.now) }
{
    match joint {
        Joint::Or => cursor.word(b"or"),
        Joint::And => cursor.word(b"and"),
    }
}

/// The predicate of these parts, joined so.
#[tactic(auto, using(crate::proofs::Depths::depth_or, crate::proofs::Depths::depth_and))]
fn joined(joint: Joint, parts: List<Predicate>) -> Predicate
    ensures form { result ≡ form joint parts }
    ensures depth { depth result ≡ greatest (map depth parts) + 1 }
{
    match joint {
        Joint::Or => Predicate::Or(parts),
        Joint::And => Predicate::And(parts),
    }
}

/// A part of a conjunction: with `not` before it, its negation.
#[tactic(auto, unfolding(crate::specs::ReadPredicates::denial_at), using(crate::proofs::Depths::depth_not))]
#[cycle(predicate)]
fn denial(alloc: Global, cursor: &mut Cursor, room: usize) -> Result<Predicate, SpecError>
    ensures end { cursor.new.end ≡ cursor.old.end }
    ensures read { IfOk result (λ p. denial_at cursor.old.end room cursor.old.rest.now
        ≡ Ok (p, cursor.new.rest.now)) }
    ensures fault { IfErr result (λ e. e ≢ Memory →
        denial_at cursor.old.end room cursor.old.rest.now ≡ Err e) }
    ensures less { OnOk result (length cursor.new.rest.now < length cursor.old.rest.now) }
    ensures depth { IfOk result (λ p. depth p ≤ 3 * room + 2) }
{
    if !cursor.take_word(b"not") {
        return single(alloc, cursor, room);
    }
    let part = single(alloc, cursor, room)?;
    Ok(Predicate::Not(Boxed::new(alloc, part)?))
}

/// A predicate that binds most tightly: one in brackets, or one test.
#[tactic(auto, unfolding(crate::specs::ReadPredicates::single_at))]
#[cycle(predicate)]
fn single(alloc: Global, cursor: &mut Cursor, room: usize) -> Result<Predicate, SpecError>
    ensures end { cursor.new.end ≡ cursor.old.end }
    ensures read { IfOk result (λ p. single_at cursor.old.end room cursor.old.rest.now
        ≡ Ok (p, cursor.new.rest.now)) }
    ensures fault { IfErr result (λ e. e ≢ Memory →
        single_at cursor.old.end room cursor.old.rest.now ≡ Err e) }
    ensures less { OnOk result (length cursor.new.rest.now < length cursor.old.rest.now) }
    ensures depth { IfOk result (λ p. depth p ≤ 3 * room + 1) }
{
    if cursor.is_at_mark(b'(') {
        return group(alloc, cursor, room);
    }
    test(alloc, cursor)
}

/// A predicate in brackets, which has to come next.
#[tactic(auto, unfolding(crate::specs::ReadPredicates::group_at), using(crate::proofs::PredicateReadings::inside_is))]
#[cycle(predicate)]
fn group(alloc: Global, cursor: &mut Cursor, room: usize) -> Result<Predicate, SpecError>
    ensures end { cursor.new.end ≡ cursor.old.end }
    ensures read { IfOk result (λ p. group_at cursor.old.end room cursor.old.rest.now
        ≡ Ok (p, cursor.new.rest.now)) }
    ensures fault { IfErr result (λ e. e ≢ Memory →
        group_at cursor.old.end room cursor.old.rest.now ≡ Err e) }
    ensures less { OnOk result (length cursor.new.rest.now < length cursor.old.rest.now) }
    ensures depth { IfOk result (λ p. depth p ≤ 3 * room + 1) }
{
    let inner = cursor.open(b'(', room)?;
    let inside = predicate(alloc, cursor, inner)?;
    cursor.closed(inside, b')')
}

/// A predicate of one test, which has to come next.
#[tactic(auto, unfolding(crate::specs::ReadPredicates::read_test), using(crate::proofs::Depths::depth_all, crate::proofs::Depths::depth_flow, crate::proofs::Depths::depth_class))]
fn test(alloc: Global, cursor: &mut Cursor) -> Result<Predicate, SpecError>
    ensures end { cursor.new.end ≡ cursor.old.end }
    ensures read { IfOk result (λ p. read_test cursor.old.end cursor.old.rest.now
        ≡ Ok (p, cursor.new.rest.now)) }
    ensures fault { IfErr result (λ e. e ≢ Memory →
        read_test cursor.old.end cursor.old.rest.now ≡ Err e) }
    ensures less { OnOk result (length cursor.new.rest.now < length cursor.old.rest.now) }
    ensures depth { IfOk result (λ p. depth p ≤ 1) }
{
    if cursor.take_word(b"all") {
        return Ok(Predicate::All);
    }
    if cursor.take_word(b"dst") {
        return destination(cursor);
    }
    if cursor.take_word(b"src") {
        return source(cursor);
    }
    if cursor.take_word(b"flow") {
        return Ok(Predicate::Flow(cursor.name(alloc)?));
    }
    cursor.word(b"class")?;
    Ok(Predicate::Class(cursor.name(alloc)?))
}

/// The rest of a test of a flow's destinations, behind the word `dst`.
#[tactic(auto, unfolding(crate::specs::ReadPredicates::read_destination), using(crate::proofs::Depths::depth_dst_in, crate::proofs::Depths::depth_dst_overlaps))]
fn destination(cursor: &mut Cursor) -> Result<Predicate, SpecError>
    ensures end { cursor.new.end ≡ cursor.old.end }
    ensures read { IfOk result (λ p. read_destination cursor.old.end cursor.old.rest.now
        ≡ Ok (p, cursor.new.rest.now)) }
    ensures fault { IfErr result (λ e. read_destination cursor.old.end cursor.old.rest.now
        ≡ Err e) }
    ensures less { OnOk result (length cursor.new.rest.now < length cursor.old.rest.now) }
    ensures depth { IfOk result (λ p. depth p ≤ 1) }
{
    if cursor.take_word(b"in") {
        return Ok(Predicate::DstIn(cursor.prefix()?));
    }
    cursor.word(b"overlaps")?;
    Ok(Predicate::DstOverlaps(cursor.prefix()?))
}

/// The rest of a test of a flow's sources, behind the word `src`.
#[tactic(auto, unfolding(crate::specs::ReadPredicates::read_source), using(crate::proofs::Depths::depth_src_in, crate::proofs::Depths::depth_src_overlaps))]
fn source(cursor: &mut Cursor) -> Result<Predicate, SpecError>
    ensures end { cursor.new.end ≡ cursor.old.end }
    ensures read { IfOk result (λ p. read_source cursor.old.end cursor.old.rest.now
        ≡ Ok (p, cursor.new.rest.now)) }
    ensures fault { IfErr result (λ e. read_source cursor.old.end cursor.old.rest.now ≡ Err e) }
    ensures less { OnOk result (length cursor.new.rest.now < length cursor.old.rest.now) }
    ensures depth { IfOk result (λ p. depth p ≤ 1) }
{
    if cursor.take_word(b"in") {
        return Ok(Predicate::SrcIn(cursor.prefix()?));
    }
    cursor.word(b"overlaps")?;
    Ok(Predicate::SrcOverlaps(cursor.prefix()?))
}
