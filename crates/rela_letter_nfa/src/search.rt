//! The first set of states that is sought.
ghost use Rattle.std.specs.Prelude.{◌≡◌, ℕ, ◌≤◌, ◌<◌, List, [], true, false, IfOk, IfErr, length, slice_index_or};
ghost use Rattle.rela_letter_nfa.specs.LetterAutomaton.{states};
ghost use Rattle.rela_letter_nfa.specs.Pair.{ArePaired, IsSoughtSet, joined, starts_of};
ghost use Rattle.rela_letter_nfa.specs.Searching.{AreTraced, AreUnwanted, IsFound, IsPastLimit, IsSearched};
ghost use Rattle.rela_letter_nfa.specs.declared.arrival.Arrival.{Arrival};

use crate::arrival::Arrival;
use crate::both::Both;
use crate::closure::close;
use crate::difference::Sought;
use crate::spreading::spread;
use crate::state_sets::{MOST_ROOM, StateSets};
use crate::visited::Visited;
use rela_names::Word;
use rela_pairs::{BuildError, within};
use std::alloc::{AllocError, Global};

/// Puts the sets of states that words reach behind one another, up to the first that is sought, and
/// how each but the first was found behind the arrivals. Whether there is one that is sought.
///
/// # Errors
///
/// - `Limit` where there are more than `limit` sets before a sought one.
/// - `Memory` where there isn't memory for them.
pub(crate) fn search(
    alloc: Global,
    both: &Both,
    sought: Sought,
    sets: &mut StateSets,
    arrivals: &mut Vec<Arrival>,
    limit: usize,
) -> Result<bool, BuildError>
    requires no_sets { sets.old ≡ [] }
    requires no_arrivals { arrivals.old.items ≡ [] }
    ensures found { IfOk result (λ found. found ≡ true → IsFound sought both.now sets.new
        arrivals.new.items) }
    ensures unwanted { IfOk result (λ found. found ≡ false →
        AreUnwanted (IsSoughtSet sought both.now) sets.new) }
    ensures searched { IfOk result (λ found. found ≡ false →
        IsSearched (joined both.now) (starts_of both.now) sets.new arrivals.new.items
        (length sets.new) 0) }
    ensures limit { IfErr result (λ e. e ≡ BuildError.Limit → IsPastLimit sought both.now limit
        sets.new arrivals.new.items) }
{
    let mut visited = Visited::new(alloc, both.states())?;
    search_from_starts(alloc, both, sought, sets, arrivals, limit, &mut visited)
}

/// Begins [`search`] with the set that the empty word reaches, and goes on, with its errors. Nothing
/// was visited before.
fn search_from_starts(
    alloc: Global,
    both: &Both,
    sought: Sought,
    sets: &mut StateSets,
    arrivals: &mut Vec<Arrival>,
    limit: usize,
    visited: &mut Visited,
) -> Result<bool, BuildError>
    requires paired { ArePaired both.now }
    requires no_sets { sets.old ≡ [] }
    requires no_arrivals { arrivals.old.items ≡ [] }
    requires count { visited.old.count ≡ states (joined both.now) }
    requires none { visited.old.states ≡ [] }
    ensures found { IfOk result (λ found. found ≡ true → IsFound sought both.now sets.new
        arrivals.new.items) }
    ensures unwanted { IfOk result (λ found. found ≡ false →
        AreUnwanted (IsSoughtSet sought both.now) sets.new) }
    ensures searched { IfOk result (λ found. found ≡ false →
        IsSearched (joined both.now) (starts_of both.now) sets.new arrivals.new.items
        (length sets.new) 0) }
    ensures limit { IfErr result (λ e. e ≡ BuildError.Limit → IsPastLimit sought both.now limit
        sets.new arrivals.new.items) }
{
    both.insert_starts(visited)?;
    close(both, visited)?;
    visited.sort()?;
    let _ = sets.insert(alloc, visited.states())?;
    if both.is_sought(sought, visited.states()) {
        return Ok(true);
    }
    within(sets.len(), limit)?;
    search_on(alloc, both, sought, sets, arrivals, limit, visited)
}

/// Goes on as [`search`], with its errors, where the first set is there and isn't sought.
fn search_on(
    alloc: Global,
    both: &Both,
    sought: Sought,
    sets: &mut StateSets,
    arrivals: &mut Vec<Arrival>,
    limit: usize,
    visited: &mut Visited,
) -> Result<bool, BuildError>
    requires paired { ArePaired both.now }
    requires few { length sets.old ≤ limit }
    requires searched { IsSearched (joined both.now) (starts_of both.now) sets.old
        arrivals.old.items 0 0 }
    requires unwanted { AreUnwanted (IsSoughtSet sought both.now) sets.old }
    requires count { visited.old.count ≡ states (joined both.now) }
    ensures found { IfOk result (λ found. found ≡ true → IsFound sought both.now sets.new
        arrivals.new.items) }
    ensures unwanted { IfOk result (λ found. found ≡ false →
        AreUnwanted (IsSoughtSet sought both.now) sets.new) }
    ensures searched { IfOk result (λ found. found ≡ false →
        IsSearched (joined both.now) (starts_of both.now) sets.new arrivals.new.items
        (length sets.new) 0) }
    ensures limit { IfErr result (λ e. e ≡ BuildError.Limit → IsPastLimit sought both.now limit
        sets.new arrivals.new.items) }
{
    let mut edges = Vec::with_capacity(alloc, both.states().min(MOST_ROOM))?;
    let mut number = 0;
    while number < sets.len() {
        let found = spread(
            alloc, both, sought, sets, arrivals, number, limit, visited, &mut edges,
        )?;
        if found {
            return Ok(true);
        }
        number += 1;
    }
    Ok(false)
}

/// The word by which the set of this number was found, read back from the last letter to the first.
/// Time: linear in the word.
pub(crate) fn word_of(
    alloc: Global,
    arrivals: &[Arrival],
    number: usize,
) -> Result<Word, AllocError>
    requires number { number ≤ length arrivals.now }
    requires earlier { (i : ℕ) (e : Arrival) → i < length arrivals.now →
        (slice_index_or arrivals.now i e).from ≤ i }
    ensures { IfOk result (λ word. (words : List (List ℕ)) → AreTraced words arrivals.now →
        word ≡ slice_index_or words number []) }
{
    let mut letters = Vec::new(alloc);
    let mut at = number;
    while at > 0 {
        let arrival = arrivals[at - 1];
        letters.push(arrival.letter)?;
        at = arrival.from;
    }
    letters.reverse();
    Ok(Word::from_symbols(letters))
}
