//! What is asserted: a word, and behind it the parts in brackets.

ghost use Rattle.std.specs.Prelude.{◌≡◌, ◌≢◌, ◌<◌, ◌≤◌, Ok, Err, length, IfOk, IfErr, OnOk};
ghost use Rattle.rela_lex.specs.declared.error.SpecError.TheVariants.{Memory};
ghost use Rattle.rela_rirfile.specs.Depth.{deepest};
ghost use Rattle.rela_rirfile.specs.ReadTrees.{read_tree, read_one_tree, read_two_trees};

use crate::parsing::pairs::{closed_box, closed_boxes, paired};
use crate::parsing::sets::two_sets;
use crate::written::AssertExpr;
use rela_lex::SpecError;
use rela_names::Boxed;
use rela_spec::Cursor;
use std::alloc::Global;

/// What is asserted, which has to come next, where `room` more brackets may be opened.
#[tactic(auto, unfolding(crate::specs::ReadTrees::read_tree), using(crate::proofs::Depths::depth_forms))]
#[cycle(tree)]
pub(crate) fn tree(alloc: Global, cursor: &mut Cursor, room: usize) -> Result<AssertExpr, SpecError>
    ensures end { cursor.new.end ≡ cursor.old.end }
    ensures read { IfOk result (λ tree. read_tree cursor.old.end room cursor.old.rest.now
        ≡ Ok (tree, cursor.new.rest.now)) }
    ensures fault { IfErr result (λ e. e ≢ Memory →
        read_tree cursor.old.end room cursor.old.rest.now ≡ Err e) }
    ensures less { OnOk result (length cursor.new.rest.now < length cursor.old.rest.now) }
    ensures low { IfOk result (λ tree. deepest tree ≤ room) }
{
    if cursor.take_word(b"equal") {
        let (a, b) = two_sets(alloc, cursor, room)?;
        return Ok(AssertExpr::Equal(a, b));
    }
    if cursor.take_word(b"included") {
        let (a, b) = two_sets(alloc, cursor, room)?;
        return Ok(AssertExpr::Included(a, b));
    }
    if cursor.take_word(b"and") {
        let (a, b) = two_trees(alloc, cursor, room)?;
        return Ok(AssertExpr::And(a, b));
    }
    if cursor.take_word(b"or") {
        let (a, b) = two_trees(alloc, cursor, room)?;
        return Ok(AssertExpr::Or(a, b));
    }
    cursor.word(b"not")?;
    Ok(AssertExpr::Not(one_tree(alloc, cursor, room)?))
}

/// What is asserted, in brackets, where `room` more may be opened.
#[tactic(auto, unfolding(crate::specs::ReadTrees::read_one_tree), using(crate::proofs::Inside::inside_forms))]
#[cycle(tree)]
fn one_tree(alloc: Global, cursor: &mut Cursor, room: usize) -> Result<Boxed<AssertExpr>, SpecError>
    ensures end { cursor.new.end ≡ cursor.old.end }
    ensures read { IfOk result (λ part. read_one_tree cursor.old.end room cursor.old.rest.now
        ≡ Ok (part, cursor.new.rest.now)) }
    ensures fault { IfErr result (λ e. e ≢ Memory →
        read_one_tree cursor.old.end room cursor.old.rest.now ≡ Err e) }
    ensures less { OnOk result (length cursor.new.rest.now < length cursor.old.rest.now) }
    ensures low { IfOk result (λ part. deepest part ≤ room) }
{
    let inner = cursor.open(b'(', room)?;
    let part = tree(alloc, cursor, inner)?;
    closed_box(alloc, cursor, part)
}

/// What is asserted, twice, in brackets, where `room` more may be opened.
#[tactic(auto, unfolding(crate::specs::ReadTrees::read_two_trees), using(crate::proofs::Inside::inside_forms))]
#[cycle(tree)]
fn two_trees(
    alloc: Global,
    cursor: &mut Cursor,
    room: usize,
) -> Result<(Boxed<AssertExpr>, Boxed<AssertExpr>), SpecError>
    ensures end { cursor.new.end ≡ cursor.old.end }
    ensures read { IfOk result (λ p. read_two_trees cursor.old.end room cursor.old.rest.now
        ≡ Ok ((p.0, p.1), cursor.new.rest.now)) }
    ensures fault { IfErr result (λ e. e ≢ Memory →
        read_two_trees cursor.old.end room cursor.old.rest.now ≡ Err e) }
    ensures less { OnOk result (length cursor.new.rest.now < length cursor.old.rest.now) }
    ensures low { IfOk result (λ p. (deepest p.0 ≤ room) × (deepest p.1 ≤ room)) }
{
    let inner = cursor.open(b'(', room)?;
    let first = tree(alloc, cursor, inner)?;
    let first = cursor.closed(first, b',')?;
    let second = tree(alloc, cursor, inner);
    let both = paired(first, second)?;
    closed_boxes(alloc, cursor, both)
}
