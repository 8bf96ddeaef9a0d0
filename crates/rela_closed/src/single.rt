//! Sets of one letter.
ghost use Rattle.std.specs.Prelude.{◌≡◌, ℕ, ◌<◌, ◌↔◌, true, IfOk, IfSome, length};
ghost use Rattle.rela_labels.specs.Letters.{has};

use rela_labels::LabelSet;
use std::alloc::{AllocError, Global};

/// The set, of this size, of one letter.
pub(crate) fn one_letter<L: LabelSet>(
    alloc: Global,
    size: u32,
    letter: u32,
) -> Result<L, AllocError>
    requires fits { L.fits size }
    requires below { letter < size }
    ensures size { IfOk result (λ set. length (L.letters set) ≡ size) }
    ensures alone { IfOk result (λ set. (k : ℕ) → (has (L.letters set) k ≡ true) ↔ (k ≡ letter)) }
{
    let mut set = L::none(alloc, size)?;
    set.add(alloc, letter)?;
    Ok(set)
}

/// The letter of the set, if it has just one, and else `None`.
pub(crate) fn only_letter<L: LabelSet>(alloc: Global, set: &L) -> Result<Option<u32>, AllocError>
    ensures only { IfOk result (λ only. IfSome only (λ letter. (k : ℕ) →
        has (L.letters set.now) k ≡ true → k ≡ letter)) }
    ensures member { IfOk result (λ only. IfSome only (λ letter.
        has (L.letters set.now) letter ≡ true)) }
    ensures below { IfOk result (λ only. IfSome only (λ letter. letter
        < length (L.letters set.now))) }
{
    let Some(least) = set.least() else {
        return Ok(None);
    };
    let single: L = one_letter(alloc, set.size(), least)?;
    if set.same(&single) {
        Ok(Some(least))
    } else {
        Ok(None)
    }
}
