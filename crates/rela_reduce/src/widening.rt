//! Silent arrows to what states simulate.
ghost use Rattle.std.specs.Prelude.{◌≡◌, ℕ, ◌<◌, ◌⊎◌, None, false, IsTrue, IfOk, OnOk, Contains, length};
ghost use Rattle.rela_reduce.specs.Bits.{HasBit, bit_of};
ghost use Rattle.rela_reduce.specs.Numbered.{IsPlain};
ghost use Rattle.rela_reduce.specs.Simulation.{AddsLower, IsCovered, IsLowered, IsWidened};
ghost use Rattle.rela_reduce.specs.Stored.{lists_of, plain};
ghost use Rattle.rela_reduce.specs.declared.ranking.Ranked.{Ranked as RankedOf};

use crate::arrow::Arrow;
use crate::bits::{WORD, bit, clear_all, has_bit, join, row_at};
use crate::numbered::Numbered;
use crate::ranking::{Ranked, ranking};
use std::alloc::{AllocError, Global};

/// The arrows of each state, and silent ones that lead on to the states that it simulates. A state
/// that another leads to, which simulates it too, needs none of its own. Time: for each state a look
/// at each other, and a step for each word of a row and silent arrow.
pub(crate) fn widened(
    alloc: Global,
    whole: &Numbered,
    relation: &[Vec<u64>],
) -> Result<Vec<Vec<Arrow>>, AllocError>
    requires { IsPlain (plain whole.now) }
    ensures each { IfOk result (λ lists. length lists.items ≡ length whole.now.finals.items) }
    ensures widened { IfOk result (λ lists. IsWidened (lists_of relation.now)
        (length whole.now.finals.items) (lists_of whole.now.arrows.items)
        (lists_of lists.items)) }
{
    let states = whole.finals.len();
    let order = ranking(alloc, relation, states)?;
    let mut covered = vec![in alloc; 0; states.div_ceil(WORD)]?;
    let mut lists = copied(alloc, &whole.arrows)?;
    widen(&mut lists, &order, relation, states, &mut covered)?;
    Ok(lists)
}

/// Copies of the lists.
fn copied(alloc: Global, lists: &[Vec<Arrow>]) -> Result<Vec<Vec<Arrow>>, AllocError>
    ensures { IfOk result (λ copies. lists_of copies.items ≡ lists_of lists.now) }
{
    let mut copies = Vec::with_capacity(alloc, lists.len())?;
    for list in lists {
        copies.push(Vec::from_slice(alloc, list)?)?;
    }
    Ok(copies)
}

/// Puts the silent arrows behind the others of each state, in this order of states.
fn widen(
    lists: &mut [Vec<Arrow>],
    order: &[Ranked],
    relation: &[Vec<u64>],
    states: usize,
    covered: &mut [u64],
) -> Result<(), AllocError>
    requires count { length lists.old ≡ states }
    requires below { (r : RankedOf) → Contains order.now r → r.state < states }
    requires each { (p : ℕ) → p < states → (r : RankedOf) × Contains order.now r × (r.state ≡ p) }
    ensures { OnOk result (IsWidened (lists_of relation.now) states (lists_of lists.old)
        (lists_of lists.new)) }
{
    for i in 0..order.len() {
        let p = order[i].state;
        add_lower(&mut lists[p], &order[..i], relation, states, p, covered)?;
    }
    Ok(())
}

/// Puts silent arrows behind those of `p`, to states that it simulates: to earlier ones, of which
/// those come first that simulate the most, and to those that none of them simulates.
fn add_lower(
    list: &mut Vec<Arrow>,
    earlier: &[Ranked],
    relation: &[Vec<u64>],
    states: usize,
    p: usize,
    covered: &mut [u64],
) -> Result<(), AllocError>
    requires { (r : RankedOf) → Contains earlier.now r → r.state < states }
    ensures { OnOk result (AddsLower (lists_of relation.now) states p earlier.now list.old.items
        list.new.items) }
{
    clear_all(covered);
    add_earlier(list, earlier, relation, states, p, covered)?;
    add_others(list, relation, states, p, covered)?;
    Ok(())
}

/// Puts silent arrows to earlier states behind the others, the last states first, and sets the bits
/// of what these simulate. A state whose bit is set gets none.
fn add_earlier(
    list: &mut Vec<Arrow>,
    earlier: &[Ranked],
    relation: &[Vec<u64>],
    states: usize,
    p: usize,
    covered: &mut [u64],
) -> Result<(), AllocError>
    requires below { (r : RankedOf) → Contains earlier.now r → r.state < states }
    requires none { (q : ℕ) → bit_of covered.old q ≡ false }
    ensures lowered { OnOk result (IsLowered (lists_of relation.now) states p list.old.items
        list.new.items) }
    ensures covered { OnOk result ((q : ℕ) → IsTrue (bit_of covered.new q)
        → IsCovered (lists_of relation.now) earlier.now list.new.items q) }
{
    for later in 0..earlier.len() {
        let r = earlier[earlier.len() - 1 - later].state;
        if r != p && has_bit(relation, p, r) && !bit(covered, r) {
            list.push(Arrow { label: None, to: r })?;
            join(covered, row_at(relation, r));
        }
    }
    Ok(())
}

/// Puts silent arrows behind the others to the states that `p` simulates and whose bits aren't set.
fn add_others(
    list: &mut Vec<Arrow>,
    relation: &[Vec<u64>],
    states: usize,
    p: usize,
    covered: &[u64],
) -> Result<(), AllocError>
    ensures lowered { OnOk result (IsLowered (lists_of relation.now) states p list.old.items
        list.new.items) }
    ensures leads { OnOk result ((q : ℕ) → q < states → HasBit (lists_of relation.now) p q
        → (p ≡ q) ⊎ (Contains list.new.items (record { label = None; to = q })
        ⊎ IsTrue (bit_of covered.now q))) }
{
    for q in 0..states {
        if q != p && has_bit(relation, p, q) && !bit(covered, q) {
            list.push(Arrow { label: None, to: q })?;
        }
    }
    Ok(())
}
