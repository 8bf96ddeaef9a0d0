//! Which labels are within others.
ghost use Rattle.std.specs.Prelude.{ℕ, ◌<◌, false, IsTrue, IfOk, length, slice_index_or};
ghost use Rattle.rela_reduce.specs.Simulation.{AreWithin, IsWithin};
ghost use Rattle.rela_reduce.specs.Stored.{lists_of};

use crate::labels::Labels;
use rela_labels::LabelSet;
use std::alloc::{AllocError, Global};

/// For each label a flag for each label, whether each letter of the one is in the other. Time: a
/// set operation for each pair of labels; space: a flag for each pair.
pub(crate) fn containments<L: LabelSet>(
    alloc: Global,
    labels: &Labels<'_, L>,
) -> Result<Vec<Vec<bool>>, AllocError>
    ensures { IfOk result (λ rows. AreWithin labels.now (lists_of rows.items)) }
{
    let mut rows = Vec::with_capacity(alloc, labels.len())?;
    for k in 0..labels.len() {
        let row = containment(alloc, labels, k)?;
        rows.push(row)?;
    }
    Ok(rows)
}

/// For each label whether each letter of this one is in it.
fn containment<L: LabelSet>(
    alloc: Global,
    labels: &Labels<'_, L>,
    k: usize,
) -> Result<Vec<bool>, AllocError>
    requires { k < length labels.now }
    ensures { IfOk result (λ row. (l : ℕ) → IsTrue (slice_index_or row.items l false) →
        IsWithin labels.now k l) }
{
    let mut row = Vec::with_capacity(alloc, labels.len())?;
    for l in 0..labels.len() {
        row.push(labels.is_within(alloc, k, l)?)?;
    }
    Ok(row)
}
