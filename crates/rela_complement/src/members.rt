//! The letters of a set, listed.
ghost use Rattle.std.specs.Prelude.{◌≡◌, ℕ, ◌<◌, ◌↔◌, true, All, Contains, IfOk, length};
ghost use Rattle.rela_labels.specs.Letters.{has};

use rela_labels::{LabelSet, WideSet};
use std::alloc::{AllocError, Global};

/// The letters of the set in ascending order. Time: constant where it has one letter alone, and else
/// a step for each letter below its size. The only error is want of memory.
pub(crate) fn members_of(alloc: Global, set: &WideSet) -> Result<Vec<u32>, AllocError>
    ensures below { IfOk result (λ members. All (λ k. k < length set.now) members.items) }
    ensures each { IfOk result (λ members. (k : ℕ) →
        Contains members.items k ↔ (has set.now k ≡ true)) }
{
    match set.only() {
        Some(letter) => Ok(vec![in alloc; letter; 1]?),
        None => listed(alloc, set),
    }
}

/// The letters of the set, found by a look at each below its size.
fn listed(alloc: Global, set: &WideSet) -> Result<Vec<u32>, AllocError>
    ensures below { IfOk result (λ members. All (λ k. k < length set.now) members.items) }
    ensures each { IfOk result (λ members. (k : ℕ) →
        Contains members.items k ↔ (has set.now k ≡ true)) }
{
    let mut members = Vec::new(alloc);
    for letter in 0..set.size() {
        if set.contains(letter) {
            members.push(letter)?;
        }
    }
    Ok(members)
}
