//! The sets that follow a set of states.
ghost use Rattle.std.specs.Prelude.{◌≡◌, ◌+◌, ◌<◌, ◌≤◌, true, false, IfOk, IfErr, length};
ghost use Rattle.rela_letter_nfa.specs.LetterAutomaton.{states};
ghost use Rattle.rela_letter_nfa.specs.Pair.{ArePaired, IsSoughtSet, joined, starts_of};
ghost use Rattle.rela_letter_nfa.specs.Searching.{AreUnwanted, HasArrived, IsFound, IsLastWanted, IsPast, IsPastLimit, IsSearched};

use crate::arrival::Arrival;
use crate::both::Both;
use crate::difference::Sought;
use crate::edge::LetterEdge;
use crate::outgoing::{edges_out, follow};
use crate::state_sets::StateSets;
use crate::visited::Visited;
use rela_pairs::{BuildError, within};
use std::alloc::Global;

/// Puts the sets that follow the set of this number behind the others, by one letter after the other
/// in ascending order, and how each new one was found behind the arrivals. It ends at the first that
/// is sought, which is the last set then, and tells whether there is one. A set without any state is
/// left out, since no word that leads there is accepted.
///
/// # Errors
///
/// - `Limit` where there are more sets than `limit`, none of them sought.
/// - `Memory` where there isn't memory for them.
pub(crate) fn spread(
    alloc: Global,
    both: &Both,
    sought: Sought,
    sets: &mut StateSets,
    arrivals: &mut Vec<Arrival>,
    number: usize,
    limit: usize,
    visited: &mut Visited,
    edges: &mut Vec<LetterEdge>,
) -> Result<bool, BuildError>
    requires paired { ArePaired both.now }
    requires number { number < length sets.old }
    requires few { length sets.old ≤ limit }
    requires searched { IsSearched (joined both.now) (starts_of both.now) sets.old
        arrivals.old.items number 0 }
    requires unwanted { AreUnwanted (IsSoughtSet sought both.now) sets.old }
    requires count { visited.old.count ≡ states (joined both.now) }
    ensures found { IfOk result (λ found. found ≡ true → IsFound sought both.now sets.new
        arrivals.new.items) }
    ensures unwanted { IfOk result (λ found. found ≡ false →
        AreUnwanted (IsSoughtSet sought both.now) sets.new) }
    ensures searched { IfOk result (λ found. found ≡ false →
        IsSearched (joined both.now) (starts_of both.now) sets.new arrivals.new.items
        (number + 1) 0) }
    ensures few { IfOk result (λ found. found ≡ false → length sets.new ≤ limit) }
    ensures longer { IfOk result (λ _. length sets.old ≤ length sets.new) }
    ensures limit { IfErr result (λ e. e ≡ BuildError.Limit → IsPastLimit sought both.now limit
        sets.new arrivals.new.items) }
    ensures count { IfOk result (λ _. visited.new.count ≡ visited.old.count) }
{
    edges_out(both, sets.get(number), edges)?;
    let mut rest = edges.as_slice();
    while let Some((first, _)) = rest.split_first() {
        let letter = first.letter;
        rest = follow(both, rest, letter, visited)?;
        let arrival = Arrival {
            from: number,
            letter,
        };
        let found = arrive(
            alloc,
            both,
            sought,
            sets,
            arrivals,
            visited.states(),
            arrival,
            limit,
        )?;
        if found {
            return Ok(true);
        }
    }
    Ok(false)
}

/// Puts the set behind the others, unless it is among them, and how it was found behind the
/// arrivals. Whether it is new and sought. `Limit` where it is new and not sought, and there are
/// more sets than `limit` then.
fn arrive(
    alloc: Global,
    both: &Both,
    sought: Sought,
    sets: &mut StateSets,
    arrivals: &mut Vec<Arrival>,
    set: &[u32],
    arrival: Arrival,
    limit: usize,
) -> Result<bool, BuildError>
    requires few { length sets.old ≤ limit }
    requires unwanted { AreUnwanted (IsSoughtSet sought both.now) sets.old }
    ensures arrived { IfOk result (λ _. HasArrived set.now arrival sets.old sets.new
        arrivals.old.items arrivals.new.items) }
    ensures found { IfOk result (λ found. found ≡ true →
        IsLastWanted (IsSoughtSet sought both.now) sets.new) }
    ensures unwanted { IfOk result (λ found. found ≡ false →
        AreUnwanted (IsSoughtSet sought both.now) sets.new) }
    ensures few { IfOk result (λ found. found ≡ false → length sets.new ≤ limit) }
    ensures limit { IfErr result (λ e. e ≡ BuildError.Limit → HasArrived set.now arrival sets.old
        sets.new arrivals.old.items arrivals.new.items) }
    ensures past { IfErr result (λ e. e ≡ BuildError.Limit → IsPast limit sets.new) }
    ensures not_sought { IfErr result (λ e. e ≡ BuildError.Limit →
        AreUnwanted (IsSoughtSet sought both.now) sets.new) }
{
    if !sets.insert(alloc, set)? {
        return Ok(false);
    }
    arrivals.push(arrival)?;
    if both.is_sought(sought, set) {
        return Ok(true);
    }
    within(sets.len(), limit)?;
    Ok(false)
}
