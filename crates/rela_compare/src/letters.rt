//! All letters.
ghost use Rattle.std.specs.Prelude.{◌≡◌, ℕ, ◌<◌, true, IfOk, length};
ghost use Rattle.rela_labels.specs.Letters.{has};

use rela_labels::LabelSet;
use std::alloc::{AllocError, Global};

/// The set of all letters below a number. Time: linear in that number.
pub(crate) fn all_letters<L: LabelSet>(alloc: Global, letters: u32) -> Result<L, AllocError>
    requires { L.fits letters }
    ensures size { IfOk result (λ set. length (L.letters set) ≡ letters) }
    ensures all { IfOk result (λ set. (k : ℕ) → k < letters → has (L.letters set) k ≡ true) }
{
    let mut set = L::none(alloc, letters)?;
    for letter in 0..letters {
        set.add(alloc, letter)?;
    }
    Ok(set)
}
