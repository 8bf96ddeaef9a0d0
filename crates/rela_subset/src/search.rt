//! The first word that leads to a set of states with a property.
ghost use Rattle.std.specs.Prelude.{◌≡◌, ℕ, ◌+◌, ◌^◌, ◌<◌, ◌≤◌, Bool, List, [], IfOk, IfErr, IfSome, IfNone, length, slice_index_or};
ghost use Rattle.rela_names.specs.Shortlex.{First, IsBefore};
ghost use Rattle.rela_nfa.specs.Automaton.{IsAutomaton, states};
ghost use Rattle.rela_subset.specs.Deterministic.{IsOver};
ghost use Rattle.rela_subset.specs.Searching.{AreTraced, AreUnwanted, IsFirstAt, IsSearched};
ghost use Rattle.rela_subset.specs.declared.arrival.Arrival.{Arrival};
ghost use Rattle.rela_subset.specs.Subsets.{IsUnwantedWord, IsWantedWord, ReachSetsBefore};

use crate::arrival::Arrival;
use crate::outgoing::Outgoing;
use crate::silent::silent_part;
use crate::spreading::spread;
use crate::state_sets::StateSets;
use crate::wanted::Wanted;
use rela_labels::LabelSet;
use rela_names::{Word, shortlex_is_irreflexive, shortlex_is_transitive};
use rela_nfa::{BuildError, Nfa, StateSet};
use rela_pairs::within;
use std::alloc::{AllocError, Global};

/// The first word over these letters, in shortlex order, for which the set of the states that it
/// reaches is wanted, and `None` where there is no such word. Sets are found as by
/// [`determinise`](crate::determinise), at the same cost for each, and looked at as they are found:
/// the search ends at the first that is wanted.
///
/// # Errors
///
/// - `Limit` only where words over the letters reach more than `limit` sets of states before a
///   wanted one; never for the greatest limit.
/// - `Memory` where there isn't memory for them.
pub fn first_word<L: LabelSet, W: Wanted>(
    alloc: Global,
    a: &Nfa<L>,
    over: &L,
    wanted: &W,
    limit: usize,
) -> Result<Option<Word>, BuildError>
    requires letters { length (L.letters over.now) ≡ a.now.letters }
    requires limit { 1 ≤ limit }
    ensures first { IfOk result (λ found.
        IfSome found (First (IsWantedWord a.now (L.letters over.now) (W.wants wanted.now)))) }
    ensures before { IfOk result (λ found. IfSome found (λ word. (v : List ℕ) →
        IsOver (L.letters over.now) v → IsBefore v word
        → IsUnwantedWord a.now (W.wants wanted.now) v)) }
    ensures none { IfOk result (λ found. IfNone found ((v : List ℕ) →
        IsOver (L.letters over.now) v → IsUnwantedWord a.now (W.wants wanted.now) v)) }
    ensures limit { IfErr result (λ e. e ≡ BuildError.Limit →
        ReachSetsBefore a.now (L.letters over.now) (W.wants wanted.now) (limit + 1)) }
    ensures bounded { IfErr result (λ e. e ≡ BuildError.Limit → limit < 2 ^ 63) }
{
    shortlex_is_irreflexive();
    shortlex_is_transitive();
    let mut sets = StateSets::new(alloc);
    let mut arrivals = Vec::new(alloc);
    let found = search_from_start(alloc, a, over, wanted, &mut sets, &mut arrivals, limit)?;
    match found {
        Some(number) => Ok(Some(word_of(alloc, &arrivals, number)?)),
        None => Ok(None),
    }
}

/// The number of the first wanted set, and `None` where there is none. There are no sets before,
/// and each is put behind the others as it is found, and how it was found behind the arrivals.
/// `Limit` where there are more than `limit` before a wanted one.
fn search_from_start<L: LabelSet, W: Wanted>(
    alloc: Global,
    a: &Nfa<L>,
    over: &L,
    wanted: &W,
    sets: &mut StateSets,
    arrivals: &mut Vec<Arrival>,
    limit: usize,
) -> Result<Option<usize>, BuildError>
    requires letters { length (L.letters over.now) ≡ a.now.letters }
    requires limit { 1 ≤ limit }
    requires no_sets { sets.old ≡ [] }
    requires no_arrivals { arrivals.old.items ≡ [] }
    ensures found { IfOk result (λ found.
        IfSome found (λ number. IsFirstAt (W.wants wanted.now) sets.new number
        × ((left : ℕ) × (rest : List Bool) × IsSearched a.now (L.letters over.now) rest sets.new
        arrivals.new.items left))) }
    ensures none { IfOk result (λ found. IfNone found (AreUnwanted (W.wants wanted.now) sets.new
        × IsSearched a.now (L.letters over.now) [] sets.new arrivals.new.items (length sets.new))) }
    ensures limit { IfErr result (λ e. e ≡ BuildError.Limit →
        ReachSetsBefore a.now (L.letters over.now) (W.wants wanted.now) (limit + 1)) }
    ensures bounded { IfErr result (λ e. e ≡ BuildError.Limit → limit < 2 ^ 63) }
{
    prove!(a.start() < a.states());
    let mut visited = StateSet::new(alloc, a.states())?;
    a.reach_first(&mut visited)?;
    visited.sort();
    let first = visited.states();
    sets.number(alloc, first, limit)?;
    search(alloc, a, over, wanted, sets, arrivals, limit, &mut visited)
}

/// The number of the first wanted set, and `None` where there is none. The sets found on the way
/// are put behind the others, and how they were found behind the arrivals. `Limit` where there are
/// more than `limit` before a wanted one.
fn search<L: LabelSet, W: Wanted>(
    alloc: Global,
    a: &Nfa<L>,
    over: &L,
    wanted: &W,
    sets: &mut StateSets,
    arrivals: &mut Vec<Arrival>,
    limit: usize,
    visited: &mut StateSet,
) -> Result<Option<usize>, BuildError>
    requires automaton { IsAutomaton a.now }
    requires letters { length (L.letters over.now) ≡ a.now.letters }
    requires few { length sets.old ≤ limit }
    requires searched { IsSearched a.now (L.letters over.now) [] sets.old arrivals.old.items 0 }
    requires count { visited.old.count ≡ states a.now }
    ensures found { IfOk result (λ found.
        IfSome found (λ number. IsFirstAt (W.wants wanted.now) sets.new number
        × ((left : ℕ) × (rest : List Bool) × IsSearched a.now (L.letters over.now) rest sets.new
        arrivals.new.items left))) }
    ensures none { IfOk result (λ found. IfNone found (AreUnwanted (W.wants wanted.now) sets.new
        × IsSearched a.now (L.letters over.now) [] sets.new arrivals.new.items (length sets.new))) }
    ensures limit { IfErr result (λ e. e ≡ BuildError.Limit →
        ReachSetsBefore a.now (L.letters over.now) (W.wants wanted.now) (limit + 1)) }
    ensures bounded { IfErr result (λ e. e ≡ BuildError.Limit → limit < 2 ^ 63) }
    ensures count { visited.new.count ≡ visited.old.count }
{
    shortlex_is_irreflexive();
    shortlex_is_transitive();
    if let Some(found) = first_wanted(wanted, sets, 0) {
        return Ok(Some(found));
    }
    let silent = silent_part(alloc, a)?;
    let mut outgoing = Outgoing::new(alloc, a, &silent);
    let mut number = 0;
    while number < sets.len() {
        let known = sets.len();
        spread(
            alloc,
            &mut outgoing,
            over,
            sets,
            arrivals,
            number,
            limit,
            visited,
        )?;
        if let Some(found) = first_wanted(wanted, sets, known) {
            return Ok(Some(found));
        }
        within(sets.len(), limit)?;
        number += 1;
    }
    Ok(None)
}

/// The number of the first wanted set from this number on, and `None` where there is none.
fn first_wanted<W: Wanted>(wanted: &W, sets: &StateSets, from: usize) -> Option<usize>
    requires { from ≤ length sets.now }
    ensures none { IfNone result ((i : ℕ) → from ≤ i → i < length sets.now →
        ¬ W.wants wanted.now (slice_index_or sets.now i [])) }
    ensures within { IfSome result (λ number. number < length sets.now) }
    ensures wanted { IfSome result (λ number.
        W.wants wanted.now (slice_index_or sets.now number [])) }
    ensures before { IfSome result (λ number. (i : ℕ) → from ≤ i → i < number →
        ¬ W.wants wanted.now (slice_index_or sets.now i [])) }
{
    for number in from..sets.len() {
        if wanted.is_wanted(sets.get(number)) {
            return Some(number);
        }
    }
    None
}

/// The word by which the set of this number was found, read back from the last letter to the first.
/// Time: linear in the word.
fn word_of(alloc: Global, arrivals: &[Arrival], number: usize) -> Result<Word, AllocError>
    requires number { number ≤ length arrivals.now }
    requires earlier { (i : ℕ) (e : Arrival) → i < length arrivals.now →
        (slice_index_or arrivals.now i e).from ≤ i }
    ensures { IfOk result (λ word. (words : List (List ℕ)) → AreTraced words arrivals.now →
        word ≡ slice_index_or words number []) }
{
    let mut letters = Vec::new(alloc);
    let mut at = number;
    while at > 0 {
        let arrival = arrivals[at - 1];
        letters.push(arrival.letter)?;
        at = arrival.from;
    }
    letters.reverse();
    Ok(Word::from_symbols(letters))
}
