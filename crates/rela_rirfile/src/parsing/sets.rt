//! Sets of words and relations between words: a word, and behind it the parts in brackets.

ghost use Rattle.std.specs.Prelude.{◌≡◌, ◌≢◌, ◌+◌, ◌<◌, ◌≤◌, Ok, Err, length, IfOk, IfErr, OnOk};
ghost use Rattle.rela_lex.specs.declared.error.SpecError.TheVariants.{Memory};
ghost use Rattle.rela_rirfile.specs.Depth.{set_depth, rel_depth};
ghost use Rattle.rela_rirfile.specs.ReadTrees.{read_plain, read_set, read_rel, read_one_set, read_two_sets, read_set_and_rel, read_one_rel, read_two_rels};

use crate::parsing::members::member;
use crate::parsing::pairs::{closed_box, closed_boxes, paired};
use crate::written::{PathExpr, RelExpr};
use rela_lex::SpecError;
use rela_names::Boxed;
use rela_spec::Cursor;
use std::alloc::Global;

/// The set that has to come next, where `room` more brackets may be opened.
#[tactic(auto, unfolding(crate::specs::ReadTrees::read_set), using(crate::proofs::Depths::depth_forms))]
#[cycle(expr)]
pub(crate) fn set(alloc: Global, cursor: &mut Cursor, room: usize) -> Result<PathExpr, SpecError>
    ensures end { cursor.new.end ≡ cursor.old.end }
    ensures read { IfOk result (λ set. read_set cursor.old.end room cursor.old.rest.now
        ≡ Ok (set, cursor.new.rest.now)) }
    ensures fault { IfErr result (λ e. e ≢ Memory →
        read_set cursor.old.end room cursor.old.rest.now ≡ Err e) }
    ensures less { OnOk result (length cursor.new.rest.now < length cursor.old.rest.now) }
    ensures low { IfOk result (λ set. set_depth set ≤ room + 1) }
{
    if cursor.take_word(b"union") {
        let (a, b) = two_sets(alloc, cursor, room)?;
        return Ok(PathExpr::Union(a, b));
    }
    if cursor.take_word(b"concat") {
        let (a, b) = two_sets(alloc, cursor, room)?;
        return Ok(PathExpr::Concat(a, b));
    }
    if cursor.take_word(b"meet") {
        let (a, b) = two_sets(alloc, cursor, room)?;
        return Ok(PathExpr::Meet(a, b));
    }
    if cursor.take_word(b"star") {
        return Ok(PathExpr::Star(one_set(alloc, cursor, room)?));
    }
    if cursor.take_word(b"complement") {
        return Ok(PathExpr::Complement(one_set(alloc, cursor, room)?));
    }
    if cursor.take_word(b"image") {
        let (a, b) = set_and_rel(alloc, cursor, room)?;
        return Ok(PathExpr::Image(a, b));
    }
    plain(alloc, cursor, room)
}

/// The set without parts that has to come next.
#[tactic(auto, unfolding(crate::specs::ReadTrees::read_plain), using(crate::proofs::Depths::depth_forms))]
fn plain(alloc: Global, cursor: &mut Cursor, room: usize) -> Result<PathExpr, SpecError>
    ensures end { cursor.new.end ≡ cursor.old.end }
    ensures read { IfOk result (λ set. read_plain cursor.old.end room cursor.old.rest.now
        ≡ Ok (set, cursor.new.rest.now)) }
    ensures fault { IfErr result (λ e. e ≢ Memory →
        read_plain cursor.old.end room cursor.old.rest.now ≡ Err e) }
    ensures less { OnOk result (length cursor.new.rest.now < length cursor.old.rest.now) }
    ensures low { IfOk result (λ set. set_depth set ≡ 1) }
{
    if cursor.take_word(b"none") {
        return Ok(PathExpr::None);
    }
    if cursor.take_word(b"eps") {
        return Ok(PathExpr::Empty);
    }
    if cursor.take_word(b"pre") {
        return Ok(PathExpr::Pre);
    }
    if cursor.take_word(b"post") {
        return Ok(PathExpr::Post);
    }
    if cursor.take_word(b"all") {
        return Ok(PathExpr::All);
    }
    Ok(PathExpr::Member(member(alloc, cursor, room)?))
}

/// The relation that has to come next, where `room` more brackets may be opened.
#[tactic(auto, unfolding(crate::specs::ReadTrees::read_rel), using(crate::proofs::Depths::depth_forms))]
#[cycle(expr)]
fn rel(alloc: Global, cursor: &mut Cursor, room: usize) -> Result<RelExpr, SpecError>
    ensures end { cursor.new.end ≡ cursor.old.end }
    ensures read { IfOk result (λ rel. read_rel cursor.old.end room cursor.old.rest.now
        ≡ Ok (rel, cursor.new.rest.now)) }
    ensures fault { IfErr result (λ e. e ≢ Memory →
        read_rel cursor.old.end room cursor.old.rest.now ≡ Err e) }
    ensures less { OnOk result (length cursor.new.rest.now < length cursor.old.rest.now) }
    ensures low { IfOk result (λ rel. rel_depth rel ≤ room + 1) }
{
    if cursor.take_word(b"identity") {
        return Ok(RelExpr::Identity(one_set(alloc, cursor, room)?));
    }
    if cursor.take_word(b"product") {
        let (a, b) = two_sets(alloc, cursor, room)?;
        return Ok(RelExpr::Product(a, b));
    }
    if cursor.take_word(b"star") {
        return Ok(RelExpr::Star(one_rel(alloc, cursor, room)?));
    }
    if cursor.take_word(b"union") {
        let (a, b) = two_rels(alloc, cursor, room)?;
        return Ok(RelExpr::Union(a, b));
    }
    if cursor.take_word(b"concat") {
        let (a, b) = two_rels(alloc, cursor, room)?;
        return Ok(RelExpr::Concat(a, b));
    }
    cursor.word(b"compose")?;
    let (a, b) = two_rels(alloc, cursor, room)?;
    Ok(RelExpr::Compose(a, b))
}

/// A set, in brackets, where `room` more may be opened.
#[tactic(auto, unfolding(crate::specs::ReadTrees::read_one_set), using(crate::proofs::Inside::inside_forms))]
#[cycle(expr)]
fn one_set(alloc: Global, cursor: &mut Cursor, room: usize) -> Result<Boxed<PathExpr>, SpecError>
    ensures end { cursor.new.end ≡ cursor.old.end }
    ensures read { IfOk result (λ part. read_one_set cursor.old.end room cursor.old.rest.now
        ≡ Ok (part, cursor.new.rest.now)) }
    ensures fault { IfErr result (λ e. e ≢ Memory →
        read_one_set cursor.old.end room cursor.old.rest.now ≡ Err e) }
    ensures less { OnOk result (length cursor.new.rest.now < length cursor.old.rest.now) }
    ensures low { IfOk result (λ part. set_depth part ≤ room) }
{
    let inner = cursor.open(b'(', room)?;
    let part = set(alloc, cursor, inner)?;
    closed_box(alloc, cursor, part)
}

/// Two sets, in brackets, where `room` more may be opened.
#[tactic(auto, unfolding(crate::specs::ReadTrees::read_two_sets), using(crate::proofs::Inside::inside_forms))]
#[cycle(expr)]
pub(crate) fn two_sets(
    alloc: Global,
    cursor: &mut Cursor,
    room: usize,
) -> Result<(Boxed<PathExpr>, Boxed<PathExpr>), SpecError>
    ensures end { cursor.new.end ≡ cursor.old.end }
    ensures read { IfOk result (λ p. read_two_sets cursor.old.end room cursor.old.rest.now
        ≡ Ok ((p.0, p.1), cursor.new.rest.now)) }
    ensures fault { IfErr result (λ e. e ≢ Memory →
        read_two_sets cursor.old.end room cursor.old.rest.now ≡ Err e) }
    ensures less { OnOk result (length cursor.new.rest.now < length cursor.old.rest.now) }
    ensures low { IfOk result (λ p. (set_depth p.0 ≤ room) × (set_depth p.1 ≤ room)) }
{
    let inner = cursor.open(b'(', room)?;
    let first = set(alloc, cursor, inner)?;
    let first = cursor.closed(first, b',')?;
    let second = set(alloc, cursor, inner);
    let both = paired(first, second)?;
    closed_boxes(alloc, cursor, both)
}

/// A set and a relation, in brackets, where `room` more may be opened.
#[tactic(auto, unfolding(crate::specs::ReadTrees::read_set_and_rel), using(crate::proofs::Inside::inside_forms))]
#[cycle(expr)]
fn set_and_rel(
    alloc: Global,
    cursor: &mut Cursor,
    room: usize,
) -> Result<(Boxed<PathExpr>, Boxed<RelExpr>), SpecError>
    ensures end { cursor.new.end ≡ cursor.old.end }
    ensures read { IfOk result (λ p. read_set_and_rel cursor.old.end room cursor.old.rest.now
        ≡ Ok ((p.0, p.1), cursor.new.rest.now)) }
    ensures fault { IfErr result (λ e. e ≢ Memory →
        read_set_and_rel cursor.old.end room cursor.old.rest.now ≡ Err e) }
    ensures less { OnOk result (length cursor.new.rest.now < length cursor.old.rest.now) }
    ensures low { IfOk result (λ p. (set_depth p.0 ≤ room) × (rel_depth p.1 ≤ room)) }
{
    let inner = cursor.open(b'(', room)?;
    let first = set(alloc, cursor, inner)?;
    let first = cursor.closed(first, b',')?;
    let second = rel(alloc, cursor, inner);
    let both = paired(first, second)?;
    closed_boxes(alloc, cursor, both)
}

/// A relation, in brackets, where `room` more may be opened.
#[tactic(auto, unfolding(crate::specs::ReadTrees::read_one_rel), using(crate::proofs::Inside::inside_forms))]
#[cycle(expr)]
fn one_rel(alloc: Global, cursor: &mut Cursor, room: usize) -> Result<Boxed<RelExpr>, SpecError>
    ensures end { cursor.new.end ≡ cursor.old.end }
    ensures read { IfOk result (λ part. read_one_rel cursor.old.end room cursor.old.rest.now
        ≡ Ok (part, cursor.new.rest.now)) }
    ensures fault { IfErr result (λ e. e ≢ Memory →
        read_one_rel cursor.old.end room cursor.old.rest.now ≡ Err e) }
    ensures less { OnOk result (length cursor.new.rest.now < length cursor.old.rest.now) }
    ensures low { IfOk result (λ part. rel_depth part ≤ room) }
{
    let inner = cursor.open(b'(', room)?;
    let part = rel(alloc, cursor, inner)?;
    closed_box(alloc, cursor, part)
}

/// Two relations, in brackets, where `room` more may be opened.
#[tactic(auto, unfolding(crate::specs::ReadTrees::read_two_rels), using(crate::proofs::Inside::inside_forms))]
#[cycle(expr)]
fn two_rels(
    alloc: Global,
    cursor: &mut Cursor,
    room: usize,
) -> Result<(Boxed<RelExpr>, Boxed<RelExpr>), SpecError>
    ensures end { cursor.new.end ≡ cursor.old.end }
    ensures read { IfOk result (λ p. read_two_rels cursor.old.end room cursor.old.rest.now
        ≡ Ok ((p.0, p.1), cursor.new.rest.now)) }
    ensures fault { IfErr result (λ e. e ≢ Memory →
        read_two_rels cursor.old.end room cursor.old.rest.now ≡ Err e) }
    ensures less { OnOk result (length cursor.new.rest.now < length cursor.old.rest.now) }
    ensures low { IfOk result (λ p. (rel_depth p.0 ≤ room) × (rel_depth p.1 ≤ room)) }
{
    let inner = cursor.open(b'(', room)?;
    let first = rel(alloc, cursor, inner)?;
    let first = cursor.closed(first, b',')?;
    let second = rel(alloc, cursor, inner);
    let both = paired(first, second)?;
    closed_boxes(alloc, cursor, both)
}
