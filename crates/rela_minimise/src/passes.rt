//! The classes of states that accept the same words, by passes over all states.
ghost use Rattle.std.specs.Prelude.{◌≡◌, ◌≢◌, ◌<◌, IfOk, IfSome};
ghost use Rattle.rela_subset.specs.Deterministic.{IsDeterministic, states};
ghost use Rattle.rela_minimise.specs.Classes.{AreClasses, finality};
ghost use Rattle.rela_minimise.specs.Cutting.{AreCoarse};
ghost use Rattle.rela_minimise.specs.Refining.{AreColumns};
ghost use Rattle.rela_minimise.specs.Stored.{lists_of};

use crate::cutting::cut_by_all;
use crate::refinement::Classes;
use rela_labels::LabelSet;
use rela_subset::Dfa;
use std::alloc::{AllocError, Global};

/// How many passes are made. States that only long words tell apart need more, and are few.
const PASSES: usize = 32;

/// The classes of states that accept the same words: first the final states are in one class and
/// the others in another, and then classes are split by each column, in passes, until no column
/// splits any (E. F. Moore, "Gedanken-experiments on sequential machines", 1956). `None` where that
/// takes more passes than [`PASSES`]. Time: for each pass a step for each state and column.
pub(crate) fn by_passes<L: LabelSet>(
    alloc: Global,
    dfa: &Dfa<L>,
    columns: &[Vec<usize>],
) -> Result<Option<Classes>, AllocError>
    requires deterministic { IsDeterministic dfa.now }
    requires columns { AreColumns dfa.now (lists_of columns.now) }
    ensures { IfOk result (λ found. IfSome found (λ made. AreClasses dfa.now made.count
        made.numbers.items)) }
{
    let mut classes = by_finality(alloc, dfa)?;
    for _pass in 0..PASSES {
        let before = classes.count;
        classes = cut_by_all(alloc, classes, columns)?;
        let after = classes.count;
        if after == before {
            return Ok(Some(classes));
        }
    }
    Ok(None)
}

/// The states that are final just where the start is, in one class, and the others, if there are any,
/// in another.
fn by_finality<L: LabelSet>(alloc: Global, dfa: &Dfa<L>) -> Result<Classes, AllocError>
    requires { IsDeterministic dfa.now }
    ensures { IfOk result (λ made. AreCoarse dfa.now made.count made.numbers.items) }
{
    let first = is_final(dfa, dfa.start());
    let mut numbers = Vec::with_capacity(alloc, dfa.states())?;
    let mut count: usize = 1;
    for q in 0..dfa.states() {
        let class = first_class(dfa, q, first);
        count = count.max(class + 1);
        numbers.push(class)?;
    }
    Ok(Classes { numbers, count })
}

/// The class with which the state begins: 0 where it is final just where `first` says so, and else 1.
fn first_class<L: LabelSet>(dfa: &Dfa<L>, q: usize, first: bool) -> usize
    requires { q < states dfa.now }
    ensures same { finality dfa.now q ≡ first → result ≡ 0 }
    ensures other { finality dfa.now q ≢ first → result ≡ 1 }
    ensures small { result < 2 }
{
    if is_final(dfa, q) == first { 0 } else { 1 }
}

/// Whether the state is final.
fn is_final<L: LabelSet>(dfa: &Dfa<L>, q: usize) -> bool
    requires { q < states dfa.now }
    ensures { result ≡ finality dfa.now q }
{
    dfa.is_final(q)
}
