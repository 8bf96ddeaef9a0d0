//! States in the order of how many others they simulate.
ghost use Rattle.std.specs.Prelude.{◌≡◌, ℕ, ◌<◌, IfOk, Contains};
ghost use Rattle.rela_reduce.specs.declared.ranking.Ranked.{Ranked as RankedOf};

use crate::bits::row_at;
use std::alloc::{AllocError, Global};

/// A state, and how many states it simulates.
#[derive(Clone, Copy, Debug)]
pub(crate) struct Ranked {
    /// The state.
    pub(crate) state: usize,
    /// How many states it simulates.
    pub(crate) size: u64,
}

/// The states, those that simulate the fewest first. Time: n log n in the states, with a look at each
/// word of each row.
pub(crate) fn ranking(
    alloc: Global,
    relation: &[Vec<u64>],
    states: usize,
) -> Result<Vec<Ranked>, AllocError>
    ensures below { IfOk result (λ order. (r : RankedOf) → Contains order.items r
        → r.state < states) }
    ensures each { IfOk result (λ order. (p : ℕ) → p < states
        → (r : RankedOf) × Contains order.items r × (r.state ≡ p)) }
{
    let mut order = in_turn(alloc, relation, states)?;
    order.sort_unstable_by_key(|ranked| ranked.size);
    Ok(order)
}

/// The states, in the order of their numbers.
fn in_turn(alloc: Global, relation: &[Vec<u64>], states: usize) -> Result<Vec<Ranked>, AllocError>
    ensures below { IfOk result (λ order. (r : RankedOf) → Contains order.items r
        → r.state < states) }
    ensures each { IfOk result (λ order. (p : ℕ) → p < states
        → (r : RankedOf) × Contains order.items r × (r.state ≡ p)) }
{
    let mut order = Vec::with_capacity(alloc, states)?;
    for state in 0..states {
        let size = ones(row_at(relation, state));
        order.push(Ranked { state, size })?;
    }
    Ok(order)
}

/// How many bits are 1.
fn ones(words: &[u64]) -> u64 {
    let mut count: u64 = 0;
    for word in words {
        count = count.saturating_add(u64::from(word.count_ones()));
    }
    count
}
