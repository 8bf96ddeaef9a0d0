//! The letters of the acts that read some letters alone.
ghost use Rattle.std.specs.Prelude.{◌≡◌, ℕ, ◌+◌, ◌<◌, ◌^◌, true, Contains, IfOk, length};
ghost use Rattle.std.specs.List.{All};
ghost use Rattle.rela_labels.specs.Letters.{has};
ghost use Rattle.rela_restriction.specs.Acts.{IsActOn};
ghost use Rattle.rela_restriction.specs.Automata.{act_count};

use crate::letters::letters_between;
use rela_labels::LabelSet;
use std::alloc::{AllocError, Global};

/// The letters of acts that read nothing, or one of the inputs. Time: linear in the number of
/// letters and the inputs.
pub(crate) fn acts_on<L: LabelSet>(
    alloc: Global,
    letters: u32,
    inputs: &[u32],
) -> Result<L, AllocError>
    requires fits { L.fits (act_count letters) }
    requires few { act_count letters < 2 ^ 32 }
    requires inputs { All (λ k. k < letters) inputs.now }
    ensures size { IfOk result (λ set. length (L.letters set) ≡ act_count letters) }
    ensures writes { IfOk result (λ set. (k : ℕ) → k < letters →
        has (L.letters set) (letters + k) ≡ true) }
    ensures reads { IfOk result (λ set. (k : ℕ) → Contains inputs.now k →
        has (L.letters set) k ≡ true) }
    ensures keeps { IfOk result (λ set. (k : ℕ) → Contains inputs.now k →
        has (L.letters set) (letters + (letters + k)) ≡ true) }
    ensures only { IfOk result (λ set. (x : ℕ) → has (L.letters set) x ≡ true →
        IsActOn letters inputs.now x) }
{
    let twice = letters + letters;
    let mut set: L = letters_between(alloc, letters + twice, letters, twice)?;
    for input in inputs {
        set.add(alloc, *input)?;
        set.add(alloc, letters + (letters + *input))?;
    }
    Ok(set)
}
