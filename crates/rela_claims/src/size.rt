//! How large the terms of an assertion are, told before they are made.

ghost use Rattle.std.specs.Prelude.{◌≡◌, ◌+◌, ◌-◌, ◌^◌, ◌<◌, ◌≤◌, IfErr, OnOk, min};
ghost use Rattle.rela_lex.specs.declared.error.SpecError.TheVariants.{TooLarge};
ghost use Rattle.rela_claims.specs.Sizes.{size_of_rel, size_of_set, size_of_tree};

use rela_lex::SpecError;
use rela_rirfile::{AssertExpr, PathExpr, RelExpr};

/// The greatest number of nodes that the terms of an assertion may have together.
const MAX_NODES: u64 = 20_000;

/// Sees that the terms of the assertion are small enough. It goes as deep into the stack as they are
/// deep.
///
/// Time: linear in the assertion.
///
/// # Errors
///
/// `TooLarge` where they have more than 20,000 nodes together.
pub(crate) fn look_at_size(tree: &AssertExpr, at: u32) -> Result<(), SpecError>
    ensures small { OnOk result (size_of_tree tree.now ≤ 20000) }
    ensures refused { IfErr result (λ e. e ≡ TooLarge at) }
    ensures large { IfErr result (λ e. 20000 < size_of_tree tree.now) }
{
    if nodes_of_tree(tree) > MAX_NODES {
        return Err(SpecError::TooLarge { at });
    }
    Ok(())
}

/// The number of nodes of all the terms together, up to 2^64 - 1.
#[cycle(tree)]
#[tactic(auto, using(crate::proofs::CountForms::count_forms))]
fn nodes_of_tree(tree: &AssertExpr) -> u64
    ensures { result ≡ min (size_of_tree tree.now) (2 ^ 64 - 1) }
{
    match tree {
        AssertExpr::Equal(x, y) | AssertExpr::Included(x, y) => {
            nodes_of_set(x.get()).saturating_add(nodes_of_set(y.get()))
        }
        AssertExpr::And(a, b) | AssertExpr::Or(a, b) => {
            nodes_of_tree(a.get()).saturating_add(nodes_of_tree(b.get()))
        }
        AssertExpr::Not(part) => nodes_of_tree(part.get()),
    }
}

/// The number of nodes of the term of a set, up to 2^64 - 1.
#[cycle(set)]
#[tactic(auto, using(crate::proofs::CountForms::count_forms))]
fn nodes_of_set(set: &PathExpr) -> u64
    ensures { result ≡ min (size_of_set set.now) (2 ^ 64 - 1) }
{
    match set {
        PathExpr::None
        | PathExpr::Empty
        | PathExpr::Pre
        | PathExpr::Post
        | PathExpr::All
        | PathExpr::Member(_) => 1,
        PathExpr::Union(x, y) | PathExpr::Concat(x, y) | PathExpr::Meet(x, y) => {
            with_parts(nodes_of_set(x.get()), nodes_of_set(y.get()))
        }
        PathExpr::Star(part) | PathExpr::Complement(part) => {
            nodes_of_set(part.get()).saturating_add(1)
        }
        PathExpr::Image(x, r) => with_parts(nodes_of_set(x.get()), nodes_of_relation(r.get())),
    }
}

/// The number of nodes of the term of a relation, up to 2^64 - 1.
#[cycle(set)]
#[tactic(auto, using(crate::proofs::CountForms::count_forms))]
fn nodes_of_relation(rel: &RelExpr) -> u64
    ensures { result ≡ min (size_of_rel rel.now) (2 ^ 64 - 1) }
{
    match rel {
        RelExpr::Identity(x) => nodes_of_set(x.get()).saturating_add(1),
        RelExpr::Product(x, y) => with_parts(nodes_of_set(x.get()), nodes_of_set(y.get())),
        RelExpr::Star(part) => nodes_of_relation(part.get()).saturating_add(1),
        RelExpr::Union(r, s) | RelExpr::Concat(r, s) | RelExpr::Compose(r, s) => {
            with_parts(nodes_of_relation(r.get()), nodes_of_relation(s.get()))
        }
    }
}

/// The number of nodes of a term whose two parts have these: one more than both, up to 2^64 - 1.
fn with_parts(a: u64, b: u64) -> u64
    ensures { result ≡ min (a + b + 1) (2 ^ 64 - 1) }
{
    a.saturating_add(b).saturating_add(1)
}
