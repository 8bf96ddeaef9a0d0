//! Lists of numbers, and lists of these.
ghost use Rattle.std.specs.Prelude.{◌≡◌, ℕ, ◌<◌, ◌↔◌, false, [], ◌∷◌, ◌++◌, IsTrue, IfOk, Contains, length, slice_index_or, slice_set};
ghost use Rattle.std.specs.List.{All};
ghost use Rattle.rela_minimise.specs.Refining.{IsSettledIn};
ghost use Rattle.rela_minimise.specs.Stored.{lists_of};

use std::alloc::AllocError;

/// Puts the number at the end of the list at this place.
pub(crate) fn put(lists: &mut Vec<Vec<usize>>, at: usize, number: usize) -> Result<(), AllocError>
    requires { at < length lists.old.items }
    ensures { IfOk result (λ _. lists_of lists.new.items ≡ slice_set (lists_of lists.old.items) at
        (slice_index_or (lists_of lists.old.items) at [] ++ number ∷ [])) }
{
    lists[at].push(number)?;
    Ok(())
}

/// Whether the two lists are the same.
pub(crate) fn same(list: &[usize], other: &[usize]) -> bool
    ensures { IsTrue result ↔ (list.now ≡ other.now) }
{
    list == other
}

/// Whether the list has a state of the class that is not stale. Those at its end that are no such
/// state are taken off it.
pub(crate) fn has_settled(
    list: &mut Vec<usize>,
    classes: &[usize],
    stale: &[bool],
    class: usize,
) -> Result<bool, AllocError>
    requires states { All (λ q. q < length classes.now) list.old.items }
    requires flagged { length stale.now ≡ length classes.now }
    ensures found { IfOk result (λ found. IsTrue found → (q : ℕ)
        × IsSettledIn classes.now stale.now class q) }
    ensures none { IfOk result (λ found. found ≡ false → (q : ℕ) → Contains list.old.items q →
        ¬ IsSettledIn classes.now stale.now class q) }
    ensures kept { IfOk result (λ _. (q : ℕ) → Contains list.old.items q →
        IsSettledIn classes.now stale.now class q → Contains list.new.items q) }
    ensures states { IfOk result (λ _. All (λ q. q < length classes.now) list.new.items) }
{
    while let Some(q) = list.pop() {
        if classes[q] == class && !stale[q] {
            list.push(q)?;
            return Ok(true);
        }
    }
    Ok(false)
}
