//! Edges of which one leads to each class.
ghost use Rattle.std.specs.Prelude.{◌≡◌, ℕ, true, IfOk, count_by, length};
ghost use Rattle.std.specs.List.{All};
ghost use Rattle.rela_labels.specs.Letters.{has};
ghost use Rattle.rela_subset.specs.Deterministic.{takes};
ghost use Rattle.rela_minimise.specs.Joining.{HasSize, IsPut};

use rela_labels::LabelSet;
use rela_subset::Bundle;
use std::alloc::{AllocError, Global};

/// Puts an edge with a copy of this label to this class among the others: where one leads there,
/// the label is joined to that one's. Time: a copy of the label, and a set operation.
pub(crate) fn put<L: LabelSet>(
    alloc: Global,
    bundle: &mut Bundle<L>,
    label: &L,
    to: usize,
) -> Result<(), AllocError>
    requires sized { All (HasSize (length (L.letters label.now))) bundle.old }
    requires free { (k : ℕ) → has (L.letters label.now) k ≡ true →
        count_by (takes k) bundle.old ≡ 0 }
    ensures { IfOk result (λ _. IsPut (L.letters label.now) to bundle.old bundle.new) }
{
    let copy = label.copy(alloc)?;
    bundle.put(alloc, copy, to)
}
