//! From assertions as they are written to trees of assertions about terms.

ghost use Rattle.std.specs.Prelude.{◌≡◌, IfOk};
ghost use Rattle.rela_claims.specs.Terms.{term_of, rel_term_of, tree_of};
ghost use Rattle.rela_claims.specs.Written.{IsNarrow, numbered};

use crate::claim::Tree;
use crate::classes::{Mention, Written};
use crate::numbers::Numbers;
use crate::pairs::both;
use rela_names::Boxed;
use rela_rir::{Assertion, PathTerm, RelTerm};
use rela_rirfile::{AssertExpr, PathExpr, RelExpr};
use std::alloc::{AllocError, Global};

/// The tree of what is asserted. It goes as deep into the stack as the assertion's sets are deep.
/// The only error is want of memory.
///
/// Time and space: linear in the assertion.
#[cycle(tree)]
#[tactic(auto, using(crate::proofs::TreeForms::tree_forms))]
pub(crate) fn tree<'a>(
    alloc: Global,
    numbers: &Numbers<'a, '_>,
    written: &'a AssertExpr,
) -> Result<Tree, AllocError>
    requires { IsNarrow numbers.now }
    ensures made { IfOk result (λ tree.
        tree ≡ tree_of numbers.now.level (numbered numbers.now) written.now) }
{
    Ok(match written {
        AssertExpr::Equal(x, y) => {
            let (x, y) = both(term(alloc, numbers, x.get()), term(alloc, numbers, y.get()))?;
            Tree::Leaf(Assertion::Equal(x, y))
        }
        AssertExpr::Included(x, y) => {
            let (x, y) = both(term(alloc, numbers, x.get()), term(alloc, numbers, y.get()))?;
            Tree::Leaf(Assertion::Included(x, y))
        }
        AssertExpr::And(a, b) => {
            let (a, b) = both(boxed_tree(alloc, numbers, a), boxed_tree(alloc, numbers, b))?;
            Tree::And(a, b)
        }
        AssertExpr::Or(a, b) => {
            let (a, b) = both(boxed_tree(alloc, numbers, a), boxed_tree(alloc, numbers, b))?;
            Tree::Or(a, b)
        }
        AssertExpr::Not(part) => Tree::Not(boxed_tree(alloc, numbers, part)?),
    })
}

/// The tree of a part, in a box.
#[cycle(tree)]
fn boxed_tree<'a>(
    alloc: Global,
    numbers: &Numbers<'a, '_>,
    written: &'a Boxed<AssertExpr>,
) -> Result<Boxed<Tree>, AllocError>
    requires { IsNarrow numbers.now }
    ensures made { IfOk result (λ tree.
        tree ≡ tree_of numbers.now.level (numbered numbers.now) written.now) }
{
    Boxed::new(alloc, tree(alloc, numbers, written.get())?)
}

/// The term of a set.
#[cycle(term)]
#[tactic(auto, using(crate::proofs::TermForms::term_forms))]
fn term<'a>(
    alloc: Global,
    numbers: &Numbers<'a, '_>,
    set: &'a PathExpr,
) -> Result<PathTerm, AllocError>
    requires { IsNarrow numbers.now }
    ensures made { IfOk result (λ term.
        term ≡ term_of numbers.now.level (numbered numbers.now) set.now) }
{
    Ok(match set {
        PathExpr::None => PathTerm::None,
        PathExpr::Empty => PathTerm::Empty,
        PathExpr::Pre => PathTerm::Pre,
        PathExpr::Post => PathTerm::Post,
        PathExpr::All => PathTerm::Class(numbers.of(Written::All)),
        PathExpr::Member(member) => {
            PathTerm::Class(numbers.of(Mention::of(numbers.level, member).class))
        }
        PathExpr::Union(x, y) => {
            let (x, y) = both(boxed_term(alloc, numbers, x), boxed_term(alloc, numbers, y))?;
            PathTerm::Union(x, y)
        }
        PathExpr::Concat(x, y) => {
            let (x, y) = both(boxed_term(alloc, numbers, x), boxed_term(alloc, numbers, y))?;
            PathTerm::Concat(x, y)
        }
        PathExpr::Meet(x, y) => {
            let (x, y) = both(boxed_term(alloc, numbers, x), boxed_term(alloc, numbers, y))?;
            PathTerm::Meet(x, y)
        }
        PathExpr::Star(part) => PathTerm::Star(boxed_term(alloc, numbers, part)?),
        PathExpr::Complement(part) => PathTerm::Complement(boxed_term(alloc, numbers, part)?),
        PathExpr::Image(x, r) => {
            let (x, r) = both(boxed_term(alloc, numbers, x), boxed_rel(alloc, numbers, r))?;
            PathTerm::Image(x, r)
        }
    })
}

/// The term of a part, in a box.
#[cycle(term)]
fn boxed_term<'a>(
    alloc: Global,
    numbers: &Numbers<'a, '_>,
    set: &'a Boxed<PathExpr>,
) -> Result<Boxed<PathTerm>, AllocError>
    requires { IsNarrow numbers.now }
    ensures made { IfOk result (λ term.
        term ≡ term_of numbers.now.level (numbered numbers.now) set.now) }
{
    Boxed::new(alloc, term(alloc, numbers, set.get())?)
}

/// The term of a relation.
#[cycle(term)]
#[tactic(auto, using(crate::proofs::TermForms::term_forms))]
fn rel_term<'a>(
    alloc: Global,
    numbers: &Numbers<'a, '_>,
    rel: &'a RelExpr,
) -> Result<RelTerm, AllocError>
    requires { IsNarrow numbers.now }
    ensures made { IfOk result (λ term.
        term ≡ rel_term_of numbers.now.level (numbered numbers.now) rel.now) }
{
    Ok(match rel {
        RelExpr::Identity(x) => RelTerm::Identity(boxed_term(alloc, numbers, x)?),
        RelExpr::Product(x, y) => {
            let (x, y) = both(boxed_term(alloc, numbers, x), boxed_term(alloc, numbers, y))?;
            RelTerm::Product(x, y)
        }
        RelExpr::Star(part) => RelTerm::Star(boxed_rel(alloc, numbers, part)?),
        RelExpr::Union(r, s) => {
            let (r, s) = both(boxed_rel(alloc, numbers, r), boxed_rel(alloc, numbers, s))?;
            RelTerm::Union(r, s)
        }
        RelExpr::Concat(r, s) => {
            let (r, s) = both(boxed_rel(alloc, numbers, r), boxed_rel(alloc, numbers, s))?;
            RelTerm::Concat(r, s)
        }
        RelExpr::Compose(r, s) => {
            let (r, s) = both(boxed_rel(alloc, numbers, r), boxed_rel(alloc, numbers, s))?;
            RelTerm::Compose(r, s)
        }
    })
}

/// The term of a relation, in a box.
#[cycle(term)]
fn boxed_rel<'a>(
    alloc: Global,
    numbers: &Numbers<'a, '_>,
    rel: &'a Boxed<RelExpr>,
) -> Result<Boxed<RelTerm>, AllocError>
    requires { IsNarrow numbers.now }
    ensures made { IfOk result (λ term.
        term ≡ rel_term_of numbers.now.level (numbered numbers.now) rel.now) }
{
    Boxed::new(alloc, rel_term(alloc, numbers, rel.get())?)
}
