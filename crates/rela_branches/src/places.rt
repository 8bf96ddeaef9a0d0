//! Sets of places in a word, which are numbers below a bound, and rows of them: a row for each
//! place tells where one leads from there. The only error is want of memory. Time and space of each
//! call are linear in the bound and in the sets and rows that it reads.
ghost use Rattle.std.specs.Prelude.{◌≡◌, ℕ, ◌<◌, ◌≤◌, ◌⊎◌, ◌↔◌, IfOk, length};
ghost use Rattle.rela_branches.specs.Places.{AllBelow, AreBelow, AreJoined, AreKept, AreNext, AreReached, Has, IsMarked, Leads};

use rela_names::List;
use std::alloc::{AllocError, Global};

/// Marks the places.
fn mark_all(marks: &mut [bool], places: &[usize])
    requires { AreBelow (length marks.old) places.now }
    ensures length { length marks.new ≡ length marks.old }
    ensures marks { (i : ℕ) → IsMarked marks.new i ↔ (IsMarked marks.old i ⊎ Has places.now i) }
{
    for place in places {
        marks[*place] = true;
    }
}

/// A mark for each place below the bound that is in the set.
fn marked(alloc: Global, bound: usize, places: &[usize]) -> Result<Vec<bool>, AllocError>
    requires { AreBelow bound places.now }
    ensures length { IfOk result (λ marks. length marks.items ≡ bound) }
    ensures marks { IfOk result (λ marks. (i : ℕ) → IsMarked marks.items i ↔ Has places.now i) }
{
    let mut marks = vec![in alloc; false; bound]?;
    mark_all(marks.as_mut_slice(), places);
    Ok(marks)
}

/// The places that are marked.
fn gathered(alloc: Global, marks: &[bool]) -> Result<List<usize>, AllocError>
    ensures below { IfOk result (λ places. AreBelow (length marks.now) places) }
    ensures marks { IfOk result (λ places. (i : ℕ) → Has places i ↔ IsMarked marks.now i) }
{
    let mut places = Vec::new(alloc);
    for (place, mark) in marks.iter().enumerate() {
        if *mark {
            places.push(place)?;
        }
    }
    Ok(List::from_vec(places))
}

/// The places of both sets.
pub(crate) fn joined(
    alloc: Global,
    bound: usize,
    first: &[usize],
    second: &[usize],
) -> Result<List<usize>, AllocError>
    requires first { AreBelow bound first.now }
    requires second { AreBelow bound second.now }
    ensures { IfOk result (AreJoined bound first.now second.now) }
{
    let mut marks = marked(alloc, bound, first)?;
    mark_all(marks.as_mut_slice(), second);
    gathered(alloc, marks.as_slice())
}

/// The places of the first set that are in the second where `common` is true, and else those that
/// are not.
pub(crate) fn kept(
    alloc: Global,
    bound: usize,
    common: bool,
    first: &[usize],
    second: &[usize],
) -> Result<List<usize>, AllocError>
    requires first { AreBelow bound first.now }
    requires second { AreBelow bound second.now }
    ensures { IfOk result (AreKept bound common first.now second.now) }
{
    let marks = marked(alloc, bound, second)?;
    let mut kept = Vec::new(alloc);
    for place in first {
        if marks[*place] == common {
            kept.push(*place)?;
        }
    }
    Ok(List::from_vec(kept))
}

/// The places that the rows lead to from places of the set.
pub(crate) fn next(
    alloc: Global,
    rows: &[List<usize>],
    from: &[usize],
) -> Result<List<usize>, AllocError>
    requires rows { AllBelow (length rows.now) rows.now }
    requires from { AreBelow (length rows.now) from.now }
    ensures { IfOk result (AreNext rows.now from.now) }
{
    let mut marks = vec![in alloc; false; rows.len()]?;
    for place in from {
        mark_all(marks.as_mut_slice(), rows[*place].as_slice());
    }
    gathered(alloc, marks.as_slice())
}

/// Marks the places that the row of this place has, if the place is marked itself.
fn mark_row(marks: &mut [bool], rows: &[List<usize>], place: usize)
    requires length { length marks.old ≡ length rows.now }
    requires rows { AllBelow (length rows.now) rows.now }
    requires place { place < length rows.now }
    ensures length { length marks.new ≡ length marks.old }
    ensures marks { (j : ℕ) → IsMarked marks.new j
        ↔ (IsMarked marks.old j ⊎ (IsMarked marks.old place × Leads rows.now place j)) }
{
    if marks[place] {
        mark_all(marks, rows[place].as_slice());
    }
}

/// The places that the rows lead to from places of the set in any number of steps. No row leads
/// back.
pub(crate) fn reached(
    alloc: Global,
    rows: &[List<usize>],
    from: &[usize],
) -> Result<List<usize>, AllocError>
    requires rows { AllBelow (length rows.now) rows.now }
    requires onward { (i j : ℕ) → Leads rows.now i j → i ≤ j }
    requires from { AreBelow (length rows.now) from.now }
    ensures { IfOk result (AreReached rows.now from.now) }
{
    let mut marks = marked(alloc, rows.len(), from)?;
    for place in 0..rows.len() {
        mark_row(marks.as_mut_slice(), rows, place);
    }
    gathered(alloc, marks.as_slice())
}
