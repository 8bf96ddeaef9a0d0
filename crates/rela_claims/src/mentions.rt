//! Which classes an assertion mentions.

ghost use Rattle.std.specs.Prelude.{◌≡◌, ◌+◌, ◌++◌, ◌∷◌, [], IfOk, OnOk, length, map};
ghost use Rattle.rela_claims.specs.Terms.{mentions_in, mentions_in_set, mentions_in_rel};
ghost use Rattle.rela_claims.specs.Written.{mentioned};

use crate::classes::Mention;
use rela_names::Level;
use rela_rirfile::{AssertExpr, PathExpr, RelExpr};
use std::alloc::{AllocError, Global};

/// The classes that an assertion mentions, from left to right. It goes as deep into the stack
/// as the assertion's sets are deep. The only error is want of memory.
///
/// Time and space: linear in the assertion.
pub(crate) fn mentions(
    alloc: Global,
    level: Level,
    tree: &AssertExpr,
) -> Result<Vec<Mention<'_>>, AllocError>
    ensures all { IfOk result (λ mentions.
        map mentioned mentions.items ≡ mentions_in level tree.now) }
{
    let mut mentions = Vec::new(alloc);
    mentions_of_tree(level, tree, &mut mentions)?;
    Ok(mentions)
}

/// Appends the classes that what is asserted mentions.
#[cycle(tree)]
#[tactic(auto, using(crate::proofs::MentionForms::mention_forms))]
fn mentions_of_tree<'a>(
    level: Level,
    tree: &'a AssertExpr,
    mentions: &mut Vec<Mention<'a>>,
) -> Result<(), AllocError>
    ensures all { OnOk result (map mentioned mentions.new.items
        ≡ map mentioned mentions.old.items ++ mentions_in level tree.now) }
{
    match tree {
        AssertExpr::Equal(x, y) | AssertExpr::Included(x, y) => {
            mentions_of_set(level, x.get(), mentions)?;
            mentions_of_set(level, y.get(), mentions)
        }
        AssertExpr::And(a, b) | AssertExpr::Or(a, b) => {
            mentions_of_tree(level, a.get(), mentions)?;
            mentions_of_tree(level, b.get(), mentions)
        }
        AssertExpr::Not(part) => mentions_of_tree(level, part.get(), mentions),
    }
}

/// Appends the classes that a set mentions.
#[cycle(set)]
#[tactic(auto, using(crate::proofs::MentionForms::mention_forms))]
fn mentions_of_set<'a>(
    level: Level,
    set: &'a PathExpr,
    mentions: &mut Vec<Mention<'a>>,
) -> Result<(), AllocError>
    ensures all { OnOk result (map mentioned mentions.new.items
        ≡ map mentioned mentions.old.items ++ mentions_in_set level set.now) }
{
    match set {
        PathExpr::None | PathExpr::Empty | PathExpr::Pre | PathExpr::Post => Ok(()),
        PathExpr::All => mention(Mention::all(), mentions),
        PathExpr::Member(member) => mention(Mention::of(level, member), mentions),
        PathExpr::Union(x, y) | PathExpr::Concat(x, y) | PathExpr::Meet(x, y) => {
            mentions_of_set(level, x.get(), mentions)?;
            mentions_of_set(level, y.get(), mentions)
        }
        PathExpr::Star(part) | PathExpr::Complement(part) => {
            mentions_of_set(level, part.get(), mentions)
        }
        PathExpr::Image(x, r) => {
            mentions_of_set(level, x.get(), mentions)?;
            mentions_of_rel(level, r.get(), mentions)
        }
    }
}

/// Appends the classes that a relation mentions.
#[cycle(set)]
#[tactic(auto, using(crate::proofs::MentionForms::mention_forms))]
fn mentions_of_rel<'a>(
    level: Level,
    rel: &'a RelExpr,
    mentions: &mut Vec<Mention<'a>>,
) -> Result<(), AllocError>
    ensures all { OnOk result (map mentioned mentions.new.items
        ≡ map mentioned mentions.old.items ++ mentions_in_rel level rel.now) }
{
    match rel {
        RelExpr::Identity(x) => mentions_of_set(level, x.get(), mentions),
        RelExpr::Product(x, y) => {
            mentions_of_set(level, x.get(), mentions)?;
            mentions_of_set(level, y.get(), mentions)
        }
        RelExpr::Star(part) => mentions_of_rel(level, part.get(), mentions),
        RelExpr::Union(r, s) | RelExpr::Concat(r, s) | RelExpr::Compose(r, s) => {
            mentions_of_rel(level, r.get(), mentions)?;
            mentions_of_rel(level, s.get(), mentions)
        }
    }
}

/// Appends one mention.
fn mention<'a>(mention: Mention<'a>, mentions: &mut Vec<Mention<'a>>) -> Result<(), AllocError>
    ensures all { OnOk result (map mentioned mentions.new.items
        ≡ map mentioned mentions.old.items ++ mentioned mention.entry ∷ []) }
    ensures one { OnOk result (length mentions.new.items ≡ length mentions.old.items + 1) }
{
    mentions.push(mention)?;
    Ok(())
}
