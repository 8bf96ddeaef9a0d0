//! The classes of states that accept the same words, by refinement.
ghost use Rattle.std.specs.Prelude.{◌≡◌, ℕ, ◌<◌, IfOk, length, slice_index};
ghost use Rattle.rela_subset.specs.Deterministic.{IsDeterministic};
ghost use Rattle.rela_minimise.specs.Classes.{AreClasses};
ghost use Rattle.rela_minimise.specs.Refining.{AreColumns, IsStart};
ghost use Rattle.rela_minimise.specs.Stored.{lists_of, stage_of};

use crate::marking::mark_before_new;
use crate::predecessors::predecessors;
use crate::refinement::Refinement;
use rela_labels::LabelSet;
use rela_subset::Dfa;
use std::alloc::{AllocError, Global};

/// The classes of states that accept the same words: first all are in one class, and then classes
/// are split by whether their states are final and by the classes to which letters lead from them,
/// until none splits (E. F. Moore, "Gedanken-experiments on sequential machines", 1956). In each
/// round only those states are looked at again from which a letter leads to a new class.
pub(crate) fn refined<L: LabelSet>(
    alloc: Global,
    dfa: &Dfa<L>,
    columns: &[Vec<usize>],
) -> Result<Refinement, AllocError>
    requires deterministic { IsDeterministic dfa.now }
    requires columns { AreColumns dfa.now (lists_of columns.now) }
    ensures { IfOk result (λ made. AreClasses dfa.now (length made.members.items)
        made.classes.items) }
{
    let predecessors = predecessors(alloc, dfa)?;
    let mut refinement = one_class(alloc, dfa.states())?;
    let mut waiting = numbers_below(alloc, dfa.states())?;
    let mut before = 0;
    while before < refinement.members.len() {
        before = refinement.members.len();
        refinement.split(alloc, dfa, columns, &waiting)?;
        waiting.clear();
        mark_before_new(
            &mut refinement.stale,
            &mut waiting,
            &predecessors,
            &refinement.members,
            before,
        )?;
    }
    Ok(refinement)
}

/// All states in one class, each of them stale.
fn one_class(alloc: Global, states: usize) -> Result<Refinement, AllocError>
    ensures { IfOk result (λ made. IsStart states (stage_of made)) }
{
    let mut members = Vec::new(alloc);
    members.push(Vec::new(alloc))?;
    let mut signatures = Vec::new(alloc);
    signatures.push(Vec::new(alloc))?;
    Ok(Refinement {
        classes: vec![in alloc; 0; states]?,
        members,
        signatures,
        stale: vec![in alloc; true; states]?,
    })
}

/// The numbers below the count, in ascending order.
fn numbers_below(alloc: Global, count: usize) -> Result<Vec<usize>, AllocError>
    ensures each { IfOk result (λ numbers. length numbers.items ≡ count) }
    ensures own { IfOk result (λ numbers. (q : ℕ) → q < count → slice_index numbers.items q ≡ q) }
{
    let mut numbers = Vec::with_capacity(alloc, count)?;
    for q in 0..count {
        numbers.push(q)?;
    }
    Ok(numbers)
}
