//! The least letter by which a word can go on.
ghost use Rattle.std.specs.Prelude.{◌≡◌, ℕ, ◌<◌, true, Some, length};
ghost use Rattle.std.specs.List.{All};
ghost use Rattle.rela_nfa.specs.Automaton.{states};
ghost use Rattle.rela_nfa.specs.Reading.{takes};
ghost use Rattle.rela_nfa.specs.Stored.{move_of};
ghost use Rattle.rela_witness.specs.Finishing.{Continues, LeadsTo};
ghost use Rattle.rela_witness.specs.Labels.{IsLeast, lesser_of};
ghost use Rattle.rela_witness.specs.Numbered.{number_of};

use rela_labels::LabelSet;
use rela_nfa::{Edge, Nfa};

/// The least letter by which an edge leads from one of the states to one of this distance, and
/// `None` where no letter does. Time: a look at each edge that leaves them.
pub(crate) fn least_letter<L: LabelSet>(
    a: &Nfa<L>,
    distances: &[Option<usize>],
    layer: &[usize],
    distance: usize,
) -> Option<u32>
    requires count { length distances.now ≡ states a.now }
    requires states { All (λ q. q < states a.now) layer.now }
    ensures { IsLeast (Continues a.now distances.now distance layer.now) result }
{
    let mut least = None;
    for q in layer {
        least = lesser(least, least_from(a, distances, *q, distance));
    }
    least
}

/// The least letter by which an edge leads from the state to one of this distance, and `None` where
/// no letter does.
fn least_from<L: LabelSet>(
    a: &Nfa<L>,
    distances: &[Option<usize>],
    p: usize,
    distance: usize,
) -> Option<u32>
    requires count { length distances.now ≡ states a.now }
    requires state { p < states a.now }
    ensures { IsLeast (λ k. (q : ℕ) × LeadsTo a.now distances.now distance (Some k) p q) result }
{
    let mut least = None;
    for edge in a.edges(p) {
        least = lesser(least, least_of(edge, distances, distance));
    }
    least
}

/// The least letter of the edge's label, if the edge leads to a state of this distance, and `None`
/// where it doesn't, or no letter takes it.
fn least_of<L: LabelSet>(
    edge: &Edge<L>,
    distances: &[Option<usize>],
    distance: usize,
) -> Option<u32>
    requires { edge.now.to < length distances.now }
    ensures { IsLeast (λ k. (takes (move_of L.letters edge.now).label (Some k) ≡ true)
        × (number_of distances.now edge.now.to ≡ Some distance)) result }
{
    if distances[edge.to] != Some(distance) {
        return None;
    }
    match &edge.label {
        Some(set) => set.least(),
        None => None,
    }
}

/// The lesser of two letters, or the only one; `None` where there is neither.
fn lesser(first: Option<u32>, second: Option<u32>) -> Option<u32>
    ensures { result ≡ lesser_of first second }
{
    match (first, second) {
        (Some(j), Some(k)) => Some(j.min(k)),
        (Some(j), None) => Some(j),
        (None, other) => other,
    }
}
