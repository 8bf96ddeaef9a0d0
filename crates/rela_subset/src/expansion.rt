//! The edges out of a set of states.
ghost use Rattle.std.specs.Prelude.{◌≡◌, ℕ, ◌^◌, ◌<◌, ◌≤◌, ◌++◌, ◌∷◌, List, [], IfOk, IfErr, length, map, slice_index_or};
ghost use Rattle.std.specs.List.{All};
ghost use Rattle.rela_nfa.specs.Automaton.{states};
ghost use Rattle.rela_nfa.specs.Stored.{move_of};
ghost use Rattle.rela_subset.specs.Expansion.{HasGrown, IsExpandedOver};
ghost use Rattle.rela_subset.specs.Sets.{AreDistinct};

use crate::bundle::Bundle;
use crate::outgoing::Outgoing;
use crate::state_sets::StateSets;
use rela_labels::LabelSet;
use rela_nfa::{BuildError, Edge, StateSet};
use std::alloc::Global;

/// The edges out of the set of this number, one for each set that follows it by a letter of `over`.
/// Those sets are numbered: `Limit` where there would be more than `limit`. The letters are split
/// by the labels of the edges out of the states of the set, and taken in blocks, that of the least
/// letter first: a block of more letters costs a set operation for each of these edges that has
/// more than one letter. The edges of the automaton are gathered in `outgoing`. The bundle is
/// empty, and is left so.
pub(crate) fn expand<L: LabelSet>(
    alloc: Global,
    outgoing: &mut Outgoing<'_, L>,
    over: &L,
    sets: &mut StateSets,
    number: usize,
    limit: usize,
    visited: &mut StateSet,
    bundle: &mut Bundle<L>,
) -> Result<Vec<Edge<L>>, BuildError>
    requires number { number < length sets.old }
    requires states { All (λ q. q < states outgoing.old.automaton)
        (slice_index_or sets.old number []) }
    requires letters { length (L.letters over.now) ≡ outgoing.old.automaton.letters }
    requires few { length sets.old ≤ limit }
    requires count { visited.old.count ≡ states outgoing.old.automaton }
    requires none { bundle.old ≡ [] }
    ensures automaton { outgoing.new.automaton ≡ outgoing.old.automaton }
    ensures expanded { IfOk result (λ edges. IsExpandedOver outgoing.old.automaton
        (L.letters over.now) (slice_index_or sets.old number []) sets.old sets.new
        (map (move_of L.letters) edges.items)) }
    ensures few { IfOk result (λ _. length sets.new ≤ limit) }
    ensures count { visited.new.count ≡ visited.old.count }
    ensures none { IfOk result (λ _. bundle.new ≡ []) }
    ensures limit { IfErr result (λ e. e ≡ BuildError.Limit → (length sets.new ≡ limit)
        × ((next letters : List ℕ) × AreDistinct (sets.new ++ next ∷ [])
        × HasGrown outgoing.old.automaton (L.letters over.now) (slice_index_or sets.old number [])
        sets.old (sets.new ++ next ∷ []) letters)) }
    ensures bounded { IfErr result (λ e. e ≡ BuildError.Limit → limit < 2 ^ 63) }
{
    outgoing.gather(alloc, sets.get(number))?;
    let mut blocks = outgoing.blocks(alloc, over)?;
    while let Some(block) = blocks.next(alloc)? {
        outgoing.following(block.letter, visited)?;
        let next = visited.states();
        let to = sets.number(alloc, next, limit)?;
        bundle.put(alloc, block.letters, to)?;
    }
    let edges = bundle.take_edges(alloc)?;
    Ok(edges)
}
