//! The words that are looked for, told by the states of a union that they reach.
ghost use Rattle.std.specs.Prelude.{◌≡◌, ℕ, ◌+◌, ◌↔◌, IsTrue};
ghost use Rattle.rela_nfa.specs.Automaton.{IsFinal};
ghost use Rattle.rela_compare.specs.Halves.{HasFinalFrom, IsSought};

use rela_labels::LabelSet;
use rela_nfa::Nfa;
use rela_subset::Wanted;

/// Which words are looked for.
#[derive(Clone, Copy)]
pub(crate) enum Sought {
    /// Those that the first of two automata accepts and the second doesn't.
    FirstAlone,
    /// Those that one of two automata accepts and the other doesn't.
    EitherAlone,
}

/// The property of sets of states of the union of two automata that a sought word reaches them.
#[derive(Drop)]
pub(crate) struct SoughtSets<'a, L: LabelSet> {
    /// The first automaton.
    pub(crate) first: &'a Nfa<L>,
    /// The second automaton.
    pub(crate) second: &'a Nfa<L>,
    /// The state of the union with which the copies of the second one's states begin; those of the
    /// first one's begin with state 1.
    pub(crate) split: usize,
    /// Which words are looked for.
    pub(crate) sought: Sought,
}

impl<'a, L: LabelSet> Wanted for SoughtSets<'a, L> {
    ghost wants = { λ sets set. IsSought sets.sought (HasFinalFrom sets.first.now 1 set)
        (HasFinalFrom sets.second.now sets.split set) };

    fn is_wanted(&self, set: &[usize]) -> bool {
        let in_first = has_final(self.first, 1, set);
        let in_second = has_final(self.second, self.split, set);
        is_sought(self.sought, in_first, in_second)
    }
}

/// Whether a word is sought, by whether the first automaton accepts it and whether the second does.
fn is_sought(sought: Sought, in_first: bool, in_second: bool) -> bool
    ensures { IsTrue result ↔ IsSought sought (IsTrue in_first) (IsTrue in_second) }
{
    match sought {
        Sought::FirstAlone => in_first && !in_second,
        Sought::EitherAlone => in_first != in_second,
    }
}

/// Whether a state of the set is the copy of a final one of the automaton, where the copies of its
/// states begin with the number `from`. Time: linear in the set.
fn has_final<L: LabelSet>(a: &Nfa<L>, from: usize, set: &[usize]) -> bool
    ensures { IsTrue result ↔ HasFinalFrom a.now from set.now }
{
    for state in set {
        if is_final_copy(a, from, *state) {
            return true;
        }
    }
    false
}

/// Whether the state is the copy of a final one of the automaton, where the copies of its states
/// begin with the number `from`.
fn is_final_copy<L: LabelSet>(a: &Nfa<L>, from: usize, state: usize) -> bool
    ensures { IsTrue result ↔ ((q : ℕ) × (from + q ≡ state) × IsFinal a.now q) }
{
    state >= from && state - from < a.states() && a.is_final(state - from)
}
