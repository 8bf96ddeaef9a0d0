//! To which state each letter leads from a state.
ghost use Rattle.std.specs.Prelude.{◌≡◌, ℕ, ◌<◌, ◌≤◌, true, IfOk, OnOk, length, slice_index, if◌then◌else◌};
ghost use Rattle.std.specs.Option.{ForSome};
ghost use Rattle.rela_labels.specs.Letters.{has};
ghost use Rattle.rela_nfa.specs.Stored.{move_of};
ghost use Rattle.rela_subset.specs.Deterministic.{next, states, takes};

use rela_labels::{LabelSet, WideSet};
use rela_nfa::Edge;
use rela_subset::Dfa;
use std::alloc::{AllocError, Global};

/// The state to which each letter leads from the state; 0 for a letter that isn't read. Time: a step
/// for each letter, and one more of these for each edge by more letters than one.
pub(crate) fn letter_targets(
    alloc: Global,
    dfa: &Dfa<WideSet>,
    q: usize,
) -> Result<Vec<usize>, AllocError>
    requires { q < states dfa.now }
    ensures each { IfOk result (λ targets. length targets.items ≡ length dfa.now.over) }
    ensures led { IfOk result (λ targets. (k : ℕ) → k < length dfa.now.over →
        slice_index targets.items k ≡ next dfa.now q k) }
{
    prove!(dfa.start() < dfa.states());
    let mut targets = vec![in alloc; 0; dfa.letters() as usize]?;
    // The first edge by a letter is the one that counts, so it is gone along last.
    let mut edges = dfa.edges(q);
    while let Some((last, earlier)) = edges.split_last() {
        lead_along(alloc, &mut targets, last)?;
        edges = earlier;
    }
    Ok(targets)
}

/// Has each letter of the edge's label lead to where the edge does. Time: constant where it has one
/// letter, and else a step for each letter from the least of the label on.
fn lead_along(alloc: Global, targets: &mut [usize], edge: &Edge<WideSet>) -> Result<(), AllocError>
    requires { ForSome edge.now.label (λ set. length set ≡ length targets.old) }
    ensures each { length targets.new ≡ length targets.old }
    ensures led { OnOk result ((k : ℕ) → k < length targets.old → slice_index targets.new k
        ≡ (if takes k (move_of (λ set. set) edge.now) then edge.now.to
        else slice_index targets.old k)) }
{
    let Some(label) = &edge.label else {
        return Ok(());
    };
    let Some(first) = label.least() else {
        return Ok(());
    };
    let end = end_of(alloc, label, first)?;
    for letter in first..end {
        if label.contains(letter) {
            targets[letter as usize] = edge.to;
        }
    }
    Ok(())
}

/// A number that the letters of the set, of which this is the least, are below: the next one where there
/// is no other.
fn end_of(alloc: Global, set: &WideSet, least: u32) -> Result<u32, AllocError>
    requires { least < length set.now }
    ensures past { IfOk result (λ end. (k : ℕ) → has set.now k ≡ true → k < end) }
    ensures within { IfOk result (λ end. end ≤ length set.now) }
{
    let mut single = WideSet::none(alloc, set.size())?;
    single.add(alloc, least)?;
    if set.same(&single) {
        Ok(least + 1)
    } else {
        Ok(set.size())
    }
}
