//! The subset construction.
ghost use Rattle.std.specs.Prelude.{◌≡◌, ℕ, ◌+◌, ◌^◌, ◌<◌, ◌≤◌, ◌↔◌, List, [], false, IfOk, IfErr, IsTrue, length, slice_index_or};
ghost use Rattle.std.specs.List.{All};
ghost use Rattle.rela_nfa.specs.Automaton.{IsAutomaton, states as nfa_states};
ghost use Rattle.rela_nfa.specs.Runs.{Accepts};
ghost use Rattle.rela_nfa.specs.Stored.{moves_in};
ghost use Rattle.rela_subset.specs.Deterministic.{IsAccepted, IsByArrival, IsOver, IsReachable, state_after, states};
ghost use Rattle.rela_subset.specs.Expansion.{IsExplored};
ghost use Rattle.rela_subset.specs.Sets.{AreDistinct, HasFinal};
ghost use Rattle.rela_subset.specs.Subsets.{KeepsApart, ReachSame, ReachSets};

use crate::bundle::Bundle;
use crate::dfa::Dfa;
use crate::expansion::expand;
use crate::outgoing::Outgoing;
use crate::silent::silent_part;
use crate::state_sets::StateSets;
use rela_labels::LabelSet;
use rela_names::shortlex_is_transitive;
use rela_nfa::{BuildError, Edge, Nfa, StateSet};
use std::alloc::{AllocError, Global};

/// The automaton over these letters whose states are the sets of states that words over the letters
/// reach, the empty set among them if it is reached: the subset or powerset construction (M. Rabin
/// and D. Scott, *Finite automata and their decision problems*, 1959). It accepts the words over
/// the letters that the given one accepts, and its states are numbered as words first arrive at
/// them, in shortlex order.
///
/// Time: for each set found, the edges out of its states are sorted once, and the letters are split
/// by their labels: a block costs a few set operations, one more for each of these edges that has
/// more than one letter, and a walk through the states that follow. Space: linear in the sets found
/// and the edges between them; a set that was found before takes none. There may be exponentially
/// many sets.
///
/// # Errors
///
/// - `Limit` exactly where there are more than `limit` such sets, so that `usize::MAX` is no limit.
/// - `Memory` where there isn't memory for them.
pub fn determinise<L: LabelSet>(
    alloc: Global,
    a: &Nfa<L>,
    over: &L,
    limit: usize,
) -> Result<Dfa<L>, BuildError>
    requires letters { length (L.letters over.now) ≡ a.now.letters }
    requires limit { 1 ≤ limit }
    ensures over { IfOk result (λ dfa. dfa.over ≡ L.letters over.now) }
    ensures start { IfOk result (λ dfa. dfa.start ≡ 0) }
    ensures language { IfOk result (λ dfa. (word : List ℕ) → IsAccepted dfa word ↔
        (IsOver (L.letters over.now) word × Accepts a.now word)) }
    ensures sets { IfOk result (λ dfa. (v w : List ℕ) → IsOver (L.letters over.now) v →
        IsOver (L.letters over.now) w
        → (state_after dfa v ≡ state_after dfa w) ↔ ReachSame a.now v w) }
    ensures apart { IfOk result (KeepsApart a.now (L.letters over.now)) }
    ensures reachable { IfOk result IsReachable }
    ensures arrival { IfOk result IsByArrival }
    ensures few { IfOk result (λ dfa. states dfa ≤ limit) }
    ensures told_apart { IfOk result (λ _. ¬ ReachSets a.now (L.letters over.now) (limit + 1)) }
    ensures limit { IfErr result (λ e. e ≡ BuildError.Limit →
        ReachSets a.now (L.letters over.now) (limit + 1)) }
    ensures bounded { IfErr result (λ e. e ≡ BuildError.Limit → limit < 2 ^ 63) }
{
    shortlex_is_transitive();
    let mut sets = StateSets::new(alloc);
    let edges = explore_from_start(alloc, a, over, &mut sets, limit)?;
    let finals = finals(alloc, a, &sets)?;
    let over = over.copy(alloc)?;
    let dfa = Dfa::new(over, 0, finals, edges);
    Ok(dfa)
}

/// The edges out of each set of states that words over the letters reach. There are no sets before,
/// and each is put behind the others as it is found. `Limit` where there are more than `limit`.
fn explore_from_start<L: LabelSet>(
    alloc: Global,
    a: &Nfa<L>,
    over: &L,
    sets: &mut StateSets,
    limit: usize,
) -> Result<Vec<Vec<Edge<L>>>, BuildError>
    requires letters { length (L.letters over.now) ≡ a.now.letters }
    requires limit { 1 ≤ limit }
    requires empty { sets.old ≡ [] }
    ensures automaton { IfOk result (λ _. IsAutomaton a.now) }
    ensures explored { IfOk result (λ edges. IsExplored a.now (L.letters over.now) sets.new
        (moves_in L.letters edges.items)) }
    ensures each { IfOk result (λ edges. length (moves_in L.letters edges.items)
        ≡ length sets.new) }
    ensures few { IfOk result (λ _. length sets.new ≤ limit) }
    ensures distinct { IfOk result (λ _. AreDistinct sets.new) }
    ensures limit { IfErr result (λ e. e ≡ BuildError.Limit →
        ReachSets a.now (L.letters over.now) (limit + 1)) }
    ensures bounded { IfErr result (λ e. e ≡ BuildError.Limit → limit < 2 ^ 63) }
{
    prove!(a.start() < a.states());
    let mut visited = StateSet::new(alloc, a.states())?;
    a.reach_first(&mut visited)?;
    visited.sort();
    let first = visited.states();
    sets.number(alloc, first, limit)?;
    explore(alloc, a, over, sets, limit, &mut visited)
}

/// The edges out of each set, those among them that are found on the way, in the order of their
/// numbers. `Limit` where there are more than `limit`.
fn explore<L: LabelSet>(
    alloc: Global,
    a: &Nfa<L>,
    over: &L,
    sets: &mut StateSets,
    limit: usize,
    visited: &mut StateSet,
) -> Result<Vec<Vec<Edge<L>>>, BuildError>
    requires automaton { IsAutomaton a.now }
    requires letters { length (L.letters over.now) ≡ a.now.letters }
    requires few { length sets.old ≤ limit }
    requires explored { IsExplored a.now (L.letters over.now) sets.old [] }
    requires count { visited.old.count ≡ nfa_states a.now }
    ensures explored { IfOk result (λ edges. IsExplored a.now (L.letters over.now) sets.new
        (moves_in L.letters edges.items)) }
    ensures each { IfOk result (λ edges. length (moves_in L.letters edges.items)
        ≡ length sets.new) }
    ensures few { IfOk result (λ _. length sets.new ≤ limit) }
    ensures distinct { IfOk result (λ _. AreDistinct sets.new) }
    ensures limit { IfErr result (λ e. e ≡ BuildError.Limit →
        ReachSets a.now (L.letters over.now) (limit + 1)) }
    ensures bounded { IfErr result (λ e. e ≡ BuildError.Limit → limit < 2 ^ 63) }
{
    let silent = silent_part(alloc, a)?;
    let mut outgoing = Outgoing::new(alloc, a, &silent);
    let mut bundle = Bundle::new(alloc);
    let mut edges = Vec::new(alloc);
    while edges.len() < sets.len() {
        let number = edges.len();
        let out = expand(
            alloc,
            &mut outgoing,
            over,
            sets,
            number,
            limit,
            visited,
            &mut bundle,
        )?;
        edges.push(out)?;
    }
    Ok(edges)
}

/// For each set whether a state of it is final.
fn finals<L: LabelSet>(alloc: Global, a: &Nfa<L>, sets: &StateSets) -> Result<Vec<bool>, AllocError>
    requires { All (All (λ q. q < nfa_states a.now)) sets.now }
    ensures len { IfOk result (λ flags. length flags.items ≡ length sets.now) }
    ensures each { IfOk result (λ flags. (i : ℕ) → i < length sets.now →
        IsTrue (slice_index_or flags.items i false) ↔
        HasFinal a.now (slice_index_or sets.now i [])) }
{
    let mut flags = Vec::with_capacity(alloc, sets.len())?;
    for i in 0..sets.len() {
        flags.push(has_final(a, sets.get(i)))?;
    }
    Ok(flags)
}

/// Whether a state of the set is final.
fn has_final<L: LabelSet>(a: &Nfa<L>, set: &[usize]) -> bool
    requires { All (λ q. q < nfa_states a.now) set.now }
    ensures { IsTrue result ↔ HasFinal a.now set.now }
{
    for q in set {
        if a.is_final(*q) {
            return true;
        }
    }
    false
}
