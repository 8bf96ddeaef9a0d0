//! How states are told apart by the classes to which letters lead.
ghost use Rattle.std.specs.Prelude.{◌≡◌, ◌<◌, IfOk, length, slice_index};
ghost use Rattle.std.specs.List.{All};
ghost use Rattle.rela_subset.specs.Deterministic.{states};
ghost use Rattle.rela_minimise.specs.Refining.{IsMap, signature as is_signature};
ghost use Rattle.rela_minimise.specs.Stored.{lists_of};

use rela_labels::LabelSet;
use rela_subset::Dfa;
use std::alloc::{AllocError, Global};

/// What tells the state apart: 1 if it is final and else 0, and then for each of the columns the
/// class of the state to which it leads.
pub(crate) fn signature<L: LabelSet>(
    alloc: Global,
    dfa: &Dfa<L>,
    columns: &[Vec<usize>],
    classes: &[usize],
    q: usize,
) -> Result<Vec<usize>, AllocError>
    requires classes { length classes.now ≡ states dfa.now }
    requires columns { All (IsMap (states dfa.now)) (lists_of columns.now) }
    requires state { q < states dfa.now }
    ensures { IfOk result (λ signed. signed.items
        ≡ is_signature dfa.now (lists_of columns.now) classes.now q) }
{
    let mut signed = Vec::with_capacity(alloc, columns.len().saturating_add(1))?;
    signed.push(if dfa.is_final(q) { 1 } else { 0 })?;
    for column in columns {
        signed.push(class_by(classes, column, q))?;
    }
    Ok(signed)
}

/// The class of the state to which the column leads from the state.
fn class_by(classes: &[usize], column: &[usize], q: usize) -> usize
    requires column { IsMap (length classes.now) column.now }
    requires state { q < length classes.now }
    ensures { result ≡ slice_index classes.now (slice_index column.now q) }
{
    let to = column[q];
    classes[to]
}
