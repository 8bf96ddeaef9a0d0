//! The edges that two automata take together.
ghost use Rattle.std.specs.Prelude.{◌≡◌, ◌<◌, [], OnOk, map, length};
ghost use Rattle.std.specs.List.{All};
ghost use Rattle.std.specs.Option.{ForSome};
ghost use Rattle.rela_nfa.specs.Automaton.{states};
ghost use Rattle.rela_nfa.specs.Directing.{extended, shared_label, labels_with};
ghost use Rattle.rela_nfa.specs.Meeting.{joint_moves, numbered};
ghost use Rattle.rela_nfa.specs.Stored.{move_of};

use crate::directing::{add_directed, add_silent};
use crate::edge::Edge;
use crate::nfa::Nfa;
use rela_labels::LabelSet;
use rela_pairs::Pair;
use std::alloc::{AllocError, Global};

/// Adds an edge by the common letters of the two, where there are some.
fn add_shared<L: LabelSet>(
    alloc: Global,
    edges: &mut Vec<Edge<L>>,
    first: &Edge<L>,
    second: &Edge<L>,
    targets: &[usize],
) -> Result<(), AllocError>
    requires { ForSome first.now.label (λ s. ForSome second.now.label (λ t. length (L.letters s)
        ≡ length (L.letters t))) }
    ensures { OnOk result (map (move_of L.letters) edges.new.items
        ≡ extended (map (move_of L.letters) edges.old.items)
        (shared_label (move_of L.letters first.now).label (move_of L.letters second.now).label)
        targets.now) }
{
    if let (Some(s), Some(t)) = (&first.label, &second.label) {
        if !s.is_disjoint(t) {
            add_directed(edges, Some(s.meet(alloc, t)?), targets)?;
        }
    }
    Ok(())
}

/// Adds an edge for each of the others by its common letters with the first, where there are some.
fn add_with<L: LabelSet>(
    alloc: Global,
    edges: &mut Vec<Edge<L>>,
    first: &Edge<L>,
    others: &[Edge<L>],
    targets: &[usize],
) -> Result<(), AllocError>
    requires { ForSome first.now.label (λ s.
        All (λ second. ForSome second.label (λ t. length (L.letters s)
        ≡ length (L.letters t))) others.now) }
    ensures { OnOk result (map (move_of L.letters) edges.new.items
        ≡ extended (map (move_of L.letters) edges.old.items)
        (labels_with (move_of L.letters first.now).label (map (move_of L.letters) others.now))
        targets.now) }
{
    for second in others {
        add_shared(alloc, edges, first, second, targets)?;
    }
    Ok(())
}

/// Adds the edges that two automata over the same letters take together from a pair of their
/// states, to these numbers of the pairs to which they lead, in the order in which the pairs were
/// found to follow. There are none before.
pub(crate) fn add_joint<L: LabelSet>(
    alloc: Global,
    edges: &mut Vec<Edge<L>>,
    first: &Nfa<L>,
    second: &Nfa<L>,
    pair: Pair,
    targets: &[usize],
) -> Result<(), AllocError>
    requires empty { edges.old.items ≡ [] }
    requires letters { first.now.letters ≡ second.now.letters }
    requires left { pair.left < states first.now }
    requires right { pair.right < states second.now }
    ensures { OnOk result (map (move_of L.letters) edges.new.items
        ≡ numbered (joint_moves first.now second.now pair) targets.now) }
{
    let left = first.edges(pair.left);
    let right = second.edges(pair.right);
    add_silent(edges, left, targets)?;
    add_silent(edges, right, targets)?;
    for edge in left {
        add_with(alloc, edges, edge, right, targets)?;
    }
    Ok(())
}
