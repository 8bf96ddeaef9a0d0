//! The sets that follow a set of states.
ghost use Rattle.std.specs.Prelude.{◌≡◌, ◌≢◌, ℕ, ◌<◌, ◌++◌, List, [], IfOk, IfErr, length, slice_index_or};
ghost use Rattle.std.specs.List.{All};
ghost use Rattle.rela_nfa.specs.Automaton.{states};
ghost use Rattle.rela_subset.specs.Searching.{HasArrived, IsSpreadUpTo, arrivals_from};

use crate::arrival::Arrival;
use crate::outgoing::Outgoing;
use crate::state_sets::StateSets;
use rela_labels::LabelSet;
use rela_nfa::{BuildError, StateSet};
use std::alloc::Global;

/// Numbers the sets that follow the set by a letter of `over`, and puts how each new one was found
/// behind the arrivals. The letters are split by the labels of the edges out of the states of the
/// set, and taken in blocks, that of the least letter first, until there are more sets than the
/// limit. The edges of the automaton are gathered in `outgoing`. Memory is the only error.
pub(crate) fn spread<L: LabelSet>(
    alloc: Global,
    outgoing: &mut Outgoing<'_, L>,
    over: &L,
    sets: &mut StateSets,
    arrivals: &mut Vec<Arrival>,
    number: usize,
    limit: usize,
    visited: &mut StateSet,
) -> Result<(), BuildError>
    requires number { number < length sets.old }
    requires states { All (λ q. q < states outgoing.old.automaton)
        (slice_index_or sets.old number []) }
    requires letters { length (L.letters over.now) ≡ outgoing.old.automaton.letters }
    requires count { visited.old.count ≡ states outgoing.old.automaton }
    ensures automaton { outgoing.new.automaton ≡ outgoing.old.automaton }
    ensures spread { IfOk result (λ _. (letters : List ℕ)
        × (arrivals.new.items ≡ arrivals.old.items ++ arrivals_from number letters)
        × IsSpreadUpTo limit outgoing.old.automaton (L.letters over.now)
        (slice_index_or sets.old number []) sets.old sets.new letters) }
    ensures count { visited.new.count ≡ visited.old.count }
    ensures memory { IfErr result (λ e. e ≢ BuildError.Limit) }
{
    outgoing.gather(alloc, sets.get(number))?;
    let mut blocks = outgoing.blocks(alloc, over)?;
    while let Some(block) = blocks.next(alloc)? {
        if sets.len() > limit {
            return Ok(());
        }
        outgoing.following(block.letter, visited)?;
        let next = visited.states();
        let arrival = Arrival {
            from: number,
            letter: block.letter,
        };
        arrive(alloc, sets, arrivals, next, arrival)?;
    }
    Ok(())
}

/// Numbers the set, and where it is new puts how it was found behind the arrivals. Memory is the
/// only error.
fn arrive(
    alloc: Global,
    sets: &mut StateSets,
    arrivals: &mut Vec<Arrival>,
    set: &[usize],
    arrival: Arrival,
) -> Result<(), BuildError>
    ensures arrived { IfOk result (λ _. HasArrived set.now arrival sets.old sets.new
        arrivals.old.items arrivals.new.items) }
    ensures memory { IfErr result (λ e. e ≢ BuildError.Limit) }
{
    let known = sets.len();
    let number = sets.number(alloc, set, usize::MAX)?;
    if number == known {
        arrivals.push(arrival)?;
    }
    Ok(())
}
