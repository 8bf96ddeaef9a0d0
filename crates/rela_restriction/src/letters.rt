//! Sets of letters in a row.
ghost use Rattle.std.specs.Prelude.{◌≡◌, ℕ, ◌<◌, ◌≤◌, true, IfOk, length};
ghost use Rattle.rela_labels.specs.Letters.{has};

use rela_labels::LabelSet;
use std::alloc::{AllocError, Global};

/// The set of this size of the letters from one number up to another. Time: linear in them.
pub(crate) fn letters_between<L: LabelSet>(
    alloc: Global,
    size: u32,
    from: u32,
    to: u32,
) -> Result<L, AllocError>
    requires fits { L.fits size }
    requires room { to ≤ size }
    ensures size { IfOk result (λ set. length (L.letters set) ≡ size) }
    ensures all { IfOk result (λ set. (k : ℕ) → from ≤ k → k < to →
        has (L.letters set) k ≡ true) }
    ensures only { IfOk result (λ set. (k : ℕ) → has (L.letters set) k ≡ true →
        (from ≤ k) × (k < to)) }
{
    let mut set = L::none(alloc, size)?;
    for letter in from..to {
        set.add(alloc, letter)?;
    }
    Ok(set)
}
