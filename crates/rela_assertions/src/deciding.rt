//! The rows of flows under assertions.

ghost use Rattle.std.specs.Prelude.{◌≡◌, ◌<◌, ◌≤◌, [], All, IfOk, OnOk};
ghost use Rattle.rela_claims.specs.Named.{symbols_in_tree};
ghost use Rattle.rela_names.specs.Alphabet.{path_symbols};
ghost use Rattle.rela_snapshot.specs.PairsLocated.{ArePairsLocated, IsPairLocated};
ghost use Rattle.rela_assertions.specs.Rows.{Appended, AreRowsOf, IsClaimAt, IsDecided, IsRowOf, scene_for};
ghost use Rattle.rela_assertions.specs.Text.{RowHasTexts};

use crate::row::AssertionRow;
use rela_claims::{Claim, Tree};
use rela_complement::LimitedComplements;
use rela_engine::{Leaf, decide_assertion};
use rela_names::{Alphabet, Level};
use rela_rir::{SymbolSet, Value};
use rela_snapshot::FlowPair;
use std::alloc::{AllocError, Global};

/// The rows of the flows under the assertions: flow after flow, one for each assertion, in the order
/// of both. The alphabet is that of the level, and each construction may have at most `states`
/// states.
///
/// All flows and all assertions share the complements that were made: one whose part names neither
/// the paths before nor those after is the same for each flow, and is made once as long as there is
/// room for it. What stands for a flow's paths, and the automata of the terms around such complements,
/// are over the blocks of the flow's own symbols, and are made for each flow.
///
/// Time and space: those of [`decide_assertion`] for each flow and each assertion that a row is put
/// together of.
///
/// # Errors
///
/// Only where memory is wanted.
pub fn rows_of(
    alloc: Global,
    pairs: &[FlowPair],
    claims: &[Claim],
    level: Level,
    alphabet: &Alphabet,
    states: usize,
) -> Result<Vec<AssertionRow>, AllocError>
    requires some { 1 ≤ states }
    requires claims { All (IsClaimAt alphabet.now) claims.now }
    requires located { ArePairsLocated alphabet.now level pairs.now }
    ensures rows { IfOk result (λ rows. AreRowsOf alphabet.now level states pairs.now claims.now
        rows.items) }
    ensures texts { IfOk result (λ rows. All (RowHasTexts alphabet.now) rows.items) }
{
    let complements = LimitedComplements::across_letters(alloc, states);
    let mut rows = Vec::with_capacity(alloc, pairs.len().saturating_mul(claims.len()))?;
    for pair in pairs {
        push_rows(
            alloc,
            &mut rows,
            pair,
            claims,
            level,
            alphabet,
            &complements,
        )?;
    }
    Ok(rows)
}

/// Appends the rows of a flow.
fn push_rows(
    alloc: Global,
    rows: &mut Vec<AssertionRow>,
    pair: &FlowPair,
    claims: &[Claim],
    level: Level,
    alphabet: &Alphabet,
    complements: &LimitedComplements,
) -> Result<(), AllocError>
    requires claims { All (IsClaimAt alphabet.now) claims.now }
    requires located { IsPairLocated alphabet.now level pair.now }
    ensures rows { OnOk result (Appended (IsRowOf alphabet.now level complements.now pair.now)
        claims.now rows.old.items rows.new.items) }
{
    for claim in claims {
        rows.push(row_of(alloc, pair, claim, level, alphabet, complements)?)?;
    }
    Ok(())
}

/// The row of a flow under an assertion.
fn row_of(
    alloc: Global,
    pair: &FlowPair,
    claim: &Claim,
    level: Level,
    alphabet: &Alphabet,
    complements: &LimitedComplements,
) -> Result<AssertionRow, AllocError>
    requires claim { IsClaimAt alphabet.now claim.now }
    requires located { IsPairLocated alphabet.now level pair.now }
    ensures { IfOk result (IsRowOf alphabet.now level complements.now pair.now claim.now) }
{
    let flow = Flow {
        pair,
        classes: &claim.classes,
        level,
        alphabet,
        complements,
    };
    let mut leaves = Vec::new(alloc);
    let value = decide_tree(alloc, &claim.tree, &flow, &mut leaves)?;
    Ok(AssertionRow {
        flow: pair.class.name.copy(alloc)?,
        assertion: claim.name.copy(alloc)?,
        value,
        leaves,
    })
}

/// For what an assertion is decided.
#[derive(Clone, Copy)]
struct Flow<'a> {
    /// The flow's graphs before and after the change.
    pair: &'a FlowPair,
    /// The class table that its terms name.
    classes: &'a [SymbolSet],
    /// The level of its locations.
    level: Level,
    /// The locations of that level.
    alphabet: &'a Alphabet,
    /// The complements that were made so far, under the limit of states.
    complements: &'a LimitedComplements,
}

/// What is known of the tree, with what is told of each of its leaves appended to those before it.
/// The calls go as deep as the tree and its terms.
///
/// # Errors
///
/// Only where memory is wanted.
fn decide_tree(
    alloc: Global,
    tree: &Tree,
    flow: &Flow<'_>,
    leaves: &mut Vec<Leaf>,
) -> Result<Value, AllocError>
    requires classes { All (λ set. All (λ s. s < path_symbols flow.now.alphabet.now) set.members)
        flow.now.classes.now }
    requires plain { symbols_in_tree tree.now ≡ [] }
    requires located { IsPairLocated flow.now.alphabet.now flow.now.level flow.now.pair.now }
    ensures decided { IfOk result (λ value. IsDecided (scene_for flow.now.alphabet.now
        flow.now.level flow.now.classes.now flow.now.pair.now) flow.now.complements.now
        tree.now leaves.old.items leaves.new.items value) }
{
    match tree {
        Tree::Leaf(assertion) => {
            let leaf = decide_assertion(
                alloc,
                assertion,
                flow.classes,
                flow.level,
                flow.pair,
                flow.alphabet,
                flow.complements,
            )?;
            let value = leaf.value();
            leaves.push(leaf)?;
            Ok(value)
        }
        Tree::And(a, b) => {
            let first = decide_tree(alloc, a.get(), flow, leaves)?;
            let second = decide_tree(alloc, b.get(), flow, leaves)?;
            Ok(first.and(second))
        }
        Tree::Or(a, b) => {
            let first = decide_tree(alloc, a.get(), flow, leaves)?;
            let second = decide_tree(alloc, b.get(), flow, leaves)?;
            Ok(first.or(second))
        }
        Tree::Not(a) => Ok(decide_tree(alloc, a.get(), flow, leaves)?.not()),
    }
}
