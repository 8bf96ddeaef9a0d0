//! The minimal automaton of the words over some letters that an automaton accepts.
ghost use Rattle.std.specs.Prelude.{◌≡◌, ℕ, ◌+◌, ◌≤◌, ◌↔◌, IfOk, IfErr, List, length};
ghost use Rattle.rela_minimise.specs.Classes.{IsMinimal};
ghost use Rattle.rela_nfa.specs.Runs.{Accepts};
ghost use Rattle.rela_subset.specs.Deterministic.{IsAccepted, IsByArrival, IsOver, IsReachable, state_after};
ghost use Rattle.rela_subset.specs.Subsets.{KeepsApart, ReachSame, ReachSets};
ghost use Rattle.rela_complement.specs.Least.{IsLeast};
ghost use Rattle.rela_complement.specs.Telling.{TellsWords};

use rela_labels::WideSet;
use rela_minimise::merge_equivalent;
use rela_nfa::{BuildError, Nfa};
use rela_pairs::pass_limit;
use rela_reduce::{past_detours, reduce};
use rela_subset::{Dfa, determinise};
use std::alloc::Global;

/// The minimal automaton of the words over these letters that the automaton accepts, where its states are
/// no more than the limit. Where words reach no more sets of states than there are states, as those of
/// listed words do, the sets are made as they are. Else the automaton is reduced first, so that words reach
/// fewer of them: that costs more than so many sets.
pub fn least_over(
    alloc: Global,
    a: &Nfa<WideSet>,
    over: &WideSet,
    limit: usize,
) -> Result<Dfa<WideSet>, BuildError>
    requires letters { length over.now ≡ a.now.letters }
    requires limit { 1 ≤ limit }
    ensures over { IfOk result (λ dfa. dfa.over ≡ over.now) }
    ensures language { IfOk result (λ dfa. (w : List ℕ) →
        IsAccepted dfa w ↔ (IsOver over.now w × Accepts a.now w)) }
    ensures alike { IfOk result (λ dfa. (v w : List ℕ) → IsOver over.now v → IsOver over.now w →
        ReachSame a.now v w → state_after dfa v ≡ state_after dfa w) }
    ensures told { IfOk result (KeepsApart a.now over.now) }
    ensures start { IfOk result (λ dfa. dfa.start ≡ 0) }
    ensures reached { IfOk result IsReachable }
    ensures minimal { IfOk result IsMinimal }
    ensures arrival { IfOk result IsByArrival }
    ensures within { IfOk result (λ _. ¬ TellsWords a.now over.now (limit + 1)) }
    ensures past { IfErr result (λ e. e ≡ BuildError.Limit → ReachSets a.now over.now (limit + 1)) }
{
    prove!(a.start() < a.states());
    let few = a.states();
    if limit <= few {
        return least_by_fewer_sets(alloc, a, over, limit);
    }
    match least_by_sets(alloc, a, over, few) {
        Ok(least) => Ok(least),
        Err(error) => {
            pass_limit(error)?;
            least_by_fewer_sets(alloc, a, over, limit)
        }
    }
}

/// The minimal automaton of these words, by way of one that reaches fewer and smaller sets of states.
fn least_by_fewer_sets(
    alloc: Global,
    a: &Nfa<WideSet>,
    over: &WideSet,
    limit: usize,
) -> Result<Dfa<WideSet>, BuildError>
    requires letters { length over.now ≡ a.now.letters }
    requires limit { 1 ≤ limit }
    ensures least { IfOk result (IsLeast over.now a.now) }
    ensures start { IfOk result (λ dfa. dfa.start ≡ 0) }
    ensures reached { IfOk result IsReachable }
    ensures minimal { IfOk result IsMinimal }
    ensures arrival { IfOk result IsByArrival }
    ensures within { IfOk result (λ _. ¬ TellsWords a.now over.now (limit + 1)) }
    ensures past { IfErr result (λ e. e ≡ BuildError.Limit → ReachSets a.now over.now (limit + 1)) }
{
    let direct = past_detours(alloc, a)?;
    let small = reduce(alloc, &direct)?;
    least_by_sets(alloc, &small, over, limit)
}

/// The minimal automaton of these words, by way of the one with all sets of states that words reach, which
/// may be far larger, and is let go here.
fn least_by_sets(
    alloc: Global,
    a: &Nfa<WideSet>,
    over: &WideSet,
    limit: usize,
) -> Result<Dfa<WideSet>, BuildError>
    requires letters { length over.now ≡ a.now.letters }
    requires limit { 1 ≤ limit }
    ensures least { IfOk result (IsLeast over.now a.now) }
    ensures start { IfOk result (λ dfa. dfa.start ≡ 0) }
    ensures reached { IfOk result IsReachable }
    ensures minimal { IfOk result IsMinimal }
    ensures arrival { IfOk result IsByArrival }
    ensures within { IfOk result (λ _. ¬ TellsWords a.now over.now (limit + 1)) }
    ensures past { IfErr result (λ e. e ≡ BuildError.Limit → ReachSets a.now over.now (limit + 1)) }
{
    let sets = determinise(alloc, a, over, limit)?;
    let least = merge_equivalent(alloc, &sets)?;
    Ok(least)
}
