//! What is done to a set of places, for each of many sets. The only error is want of memory.
ghost use Rattle.std.specs.Prelude.{◌≡◌, ℕ, ◌≤◌, IfOk, length};
ghost use Rattle.rela_branches.specs.Places.{AllBelow, AreJoined, AreKept, AreNext, AreReached, Each, EachOfTwo, Leads};
ghost use Rattle.rela_branches.specs.Walks.{singles};

use crate::places::{joined, kept, next, reached};
use rela_names::List;
use std::alloc::{AllocError, Global};

/// For each place below the bound the set of it alone.
pub(crate) fn singles(alloc: Global, bound: usize) -> Result<Vec<List<usize>>, AllocError>
    ensures { IfOk result (λ sets. sets.items ≡ singles bound) }
{
    let mut sets = Vec::with_capacity(alloc, bound)?;
    for place in 0..bound {
        sets.push(List::from_vec(vec![in alloc; place]?))?;
    }
    Ok(sets)
}

/// The same sets.
pub(crate) fn copied_each(
    alloc: Global,
    sets: &[List<usize>],
) -> Result<Vec<List<usize>>, AllocError>
    ensures { IfOk result (λ copies. Each (λ set copy. copy ≡ set) sets.now copies.items) }
{
    let mut copies = Vec::with_capacity(alloc, sets.len())?;
    for set in sets {
        copies.push(List::from_vec(Vec::from_slice(alloc, set.as_slice())?))?;
    }
    Ok(copies)
}

/// The places of both sets, for each set of the one list and that of the other.
pub(crate) fn joined_each(
    alloc: Global,
    bound: usize,
    first: &[List<usize>],
    second: &[List<usize>],
) -> Result<Vec<List<usize>>, AllocError>
    requires length { length second.now ≡ length first.now }
    requires first { AllBelow bound first.now }
    requires second { AllBelow bound second.now }
    ensures { IfOk result (λ all. EachOfTwo (AreJoined bound) first.now second.now all.items) }
{
    let mut all = Vec::with_capacity(alloc, first.len())?;
    for at in 0..first.len() {
        all.push(joined(alloc, bound, first[at].as_slice(), second[at].as_slice())?)?;
    }
    Ok(all)
}

/// The places of a set of the one list that are in that of the other, where `common` is true, and
/// else those that are not.
pub(crate) fn kept_each(
    alloc: Global,
    bound: usize,
    common: bool,
    first: &[List<usize>],
    second: &[List<usize>],
) -> Result<Vec<List<usize>>, AllocError>
    requires length { length second.now ≡ length first.now }
    requires first { AllBelow bound first.now }
    requires second { AllBelow bound second.now }
    ensures { IfOk result (λ all. EachOfTwo (AreKept bound common) first.now second.now all.items) }
{
    let mut all = Vec::with_capacity(alloc, first.len())?;
    for at in 0..first.len() {
        all.push(kept(
            alloc,
            bound,
            common,
            first[at].as_slice(),
            second[at].as_slice(),
        )?)?;
    }
    Ok(all)
}

/// The places that the rows lead to, from each of the sets.
pub(crate) fn next_each(
    alloc: Global,
    rows: &[List<usize>],
    from: &[List<usize>],
) -> Result<Vec<List<usize>>, AllocError>
    requires rows { AllBelow (length rows.now) rows.now }
    requires from { AllBelow (length rows.now) from.now }
    ensures { IfOk result (λ to. Each (AreNext rows.now) from.now to.items) }
{
    let mut to = Vec::with_capacity(alloc, from.len())?;
    for set in from {
        to.push(next(alloc, rows, set.as_slice())?)?;
    }
    Ok(to)
}

/// The places that the rows lead to in any number of steps, from each of the sets. No row leads
/// back.
pub(crate) fn reached_each(
    alloc: Global,
    rows: &[List<usize>],
    from: &[List<usize>],
) -> Result<Vec<List<usize>>, AllocError>
    requires rows { AllBelow (length rows.now) rows.now }
    requires onward { (i j : ℕ) → Leads rows.now i j → i ≤ j }
    requires from { AllBelow (length rows.now) from.now }
    ensures { IfOk result (λ to. Each (AreReached rows.now) from.now to.items) }
{
    let mut to = Vec::with_capacity(alloc, from.len())?;
    for set in from {
        to.push(reached(alloc, rows, set.as_slice())?)?;
    }
    Ok(to)
}
