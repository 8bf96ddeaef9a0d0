//! The sets of the states that words reach.
ghost use Rattle.std.specs.Prelude.{◌≡◌, ◌≤◌, List, ℕ, [], ◌∷◌, ◌++◌, Contains, IfOk};
ghost use Rattle.rela_nfa.specs.Automaton.{states};
ghost use Rattle.rela_nfa.specs.StateSet.{Lists};
ghost use Rattle.rela_closed.specs.Sets.{AreMet, ReachedBy};

use rela_labels::LabelSet;
use rela_nfa::{Nfa, StateSet};
use std::alloc::{AllocError, Global};

/// The states that the empty word reaches, in ascending order.
pub(crate) fn first_set<L: LabelSet>(
    alloc: Global,
    a: &Nfa<L>,
    visited: &mut StateSet,
) -> Result<Vec<usize>, AllocError>
    requires room { states a.now ≤ visited.old.count }
    ensures first { IfOk result (λ set. Lists (ReachedBy a.now []) set.items) }
    ensures count { visited.new.count ≡ visited.old.count }
{
    a.reach_first(visited)?;
    sorted(alloc, visited)
}

/// The states that a word with the letter behind it reaches, in ascending order, where the word
/// reaches those of the set. Time: a look at each edge out of the set, and at each edge out of the
/// states that follow, and a sort of these.
pub(crate) fn next_set<L: LabelSet>(
    alloc: Global,
    a: &Nfa<L>,
    set: &[usize],
    letter: u32,
    visited: &mut StateSet,
) -> Result<Vec<usize>, AllocError>
    requires met { AreMet (a.now ∷ []) (set.now ∷ []) }
    requires room { states a.now ≤ visited.old.count }
    ensures next { IfOk result (λ next. (word : List ℕ) → Lists (ReachedBy a.now word) set.now →
        Lists (ReachedBy a.now (word ++ letter ∷ [])) next.items) }
    ensures count { visited.new.count ≡ visited.old.count }
{
    prove!(a.start() < a.states());
    a.reach_next(set, letter, visited)?;
    sorted(alloc, visited)
}

/// The states of the set, in ascending order. The set is left in this order. Time: that of a sort.
fn sorted(alloc: Global, set: &mut StateSet) -> Result<Vec<usize>, AllocError>
    ensures sorted { IfOk result (λ states. Lists (Contains set.old.states) states.items) }
    ensures count { set.new.count ≡ set.old.count }
{
    set.sort();
    Vec::from_slice(alloc, set.states())
}
