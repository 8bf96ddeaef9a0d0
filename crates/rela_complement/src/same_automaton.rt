//! Whether two automata are the same.
ghost use Rattle.std.specs.Prelude.{◌≡◌, ◌↔◌, IsTrue, map};
ghost use Rattle.std.specs.Option.{option_map};
ghost use Rattle.rela_nfa.specs.Automaton.{states};
ghost use Rattle.rela_nfa.specs.Stored.{move_of};

use rela_labels::LabelSet;
use rela_nfa::{Edge, Nfa};

/// Whether the two automata have the same letters and states, the same start, and at each state the
/// same edges in the same order. Time: linear in the states and the edges of one, with their labels.
pub(crate) fn same_automaton<L: LabelSet>(a: &Nfa<L>, b: &Nfa<L>) -> bool
    ensures { IsTrue result ↔ (a.now ≡ b.now) }
{
    a.letters() == b.letters()
        && a.start() == b.start()
        && a.states() == b.states()
        && same_finals(a, b)
        && same_moves(a, b)
}

/// Whether the same states are final in both, which have as many states.
fn same_finals<L: LabelSet>(a: &Nfa<L>, b: &Nfa<L>) -> bool
    requires { states a.now ≡ states b.now }
    ensures { IsTrue result ↔ (a.now.finals ≡ b.now.finals) }
{
    for q in 0..a.states() {
        if a.is_final(q) != b.is_final(q) {
            return false;
        }
    }
    true
}

/// Whether the same edges leave each state in both, which have as many states.
fn same_moves<L: LabelSet>(a: &Nfa<L>, b: &Nfa<L>) -> bool
    requires { states a.now ≡ states b.now }
    ensures { IsTrue result ↔ (a.now.edges ≡ b.now.edges) }
{
    prove!(b.start() < b.states());
    for q in 0..a.states() {
        if !same_edges(a.edges(q), b.edges(q)) {
            return false;
        }
    }
    true
}

/// Whether the edges are as many as the others, and each is the same as the one in its place.
fn same_edges<L: LabelSet>(edges: &[Edge<L>], others: &[Edge<L>]) -> bool
    ensures { IsTrue result ↔ (map (move_of L.letters) edges.now
        ≡ map (move_of L.letters) others.now) }
{
    if edges.len() != others.len() {
        return false;
    }
    for at in 0..edges.len() {
        if !same_edge(&edges[at], &others[at]) {
            return false;
        }
    }
    true
}

/// Whether the two edges lead to the same state, by the same letters or both silently.
fn same_edge<L: LabelSet>(edge: &Edge<L>, other: &Edge<L>) -> bool
    ensures { IsTrue result ↔ (move_of L.letters edge.now ≡ move_of L.letters other.now) }
{
    edge.to == other.to && same_label(&edge.label, &other.label)
}

/// Whether the two labels have the same letters, or there is none.
fn same_label<L: LabelSet>(label: &Option<L>, other: &Option<L>) -> bool
    ensures { IsTrue result ↔ (option_map L.letters label.now ≡ option_map L.letters other.now) }
{
    match (label, other) {
        (Some(set), Some(other)) => same_letters(set, other),
        (None, None) => true,
        _ => false,
    }
}

/// Whether the two sets are of one size and have the same letters.
pub(crate) fn same_letters<L: LabelSet>(set: &L, other: &L) -> bool
    ensures { IsTrue result ↔ (L.letters set.now ≡ L.letters other.now) }
{
    set.size() == other.size() && set.same(other)
}
