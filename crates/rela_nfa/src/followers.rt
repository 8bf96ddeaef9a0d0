//! The pairs of states to which two automata go together.
ghost use Rattle.std.specs.Prelude.{◌≡◌, ◌<◌, ◌++◌, OnOk, map, length};
ghost use Rattle.std.specs.List.{All};
ghost use Rattle.std.specs.Option.{ForSome};
ghost use Rattle.rela_nfa.specs.Automaton.{states};
ghost use Rattle.rela_nfa.specs.Meeting.{labelled_both, silent_one, pair_of, left_moves, right_moves, moves_with, next_pairs};
ghost use Rattle.rela_nfa.specs.Stored.{move_of};

use crate::edge::Edge;
use crate::nfa::Nfa;
use rela_labels::LabelSet;
use rela_pairs::{Pair, Shape, Successors};
use std::alloc::{AllocError, Global};

/// Two automata over the same letters, which go on together: pairs of their states follow pairs of
/// their states.
#[derive(Drop)]
pub(crate) struct Meeting<'a, L: LabelSet> {
    /// The automaton of the left states.
    pub(crate) first: &'a Nfa<L>,
    /// The automaton of the right states.
    pub(crate) second: &'a Nfa<L>,
}

impl<'a, L: LabelSet> Successors for Meeting<'a, L> {
    ghost is_pair = { λ meeting pair. (meeting.first.now.letters ≡ meeting.second.now.letters)
        × (pair.left < states meeting.first.now) × (pair.right < states meeting.second.now) };

    ghost next = { λ meeting pair. next_pairs meeting.first.now meeting.second.now pair };

    fn shape(&self) -> Shape {
        Shape {
            lefts: self.first.states(),
            rights: self.second.states(),
        }
    }

    fn add_next(
        &self,
        _alloc: Global,
        pair: Pair,
        followers: &mut Vec<Pair>,
    ) -> Result<(), AllocError> {
        add_followers(followers, self.first, self.second, pair)
    }
}

/// Adds the pairs to which the two automata go together from a pair of their states: first where
/// the first goes silently, then where the second does, and then where both go by a letter.
fn add_followers<L: LabelSet>(
    followers: &mut Vec<Pair>,
    first: &Nfa<L>,
    second: &Nfa<L>,
    pair: Pair,
) -> Result<(), AllocError>
    requires letters { first.now.letters ≡ second.now.letters }
    requires left { pair.left < states first.now }
    requires right { pair.right < states second.now }
    ensures next { OnOk result (followers.new.items ≡ followers.old.items
        ++ next_pairs first.now second.now pair) }
    ensures lead { OnOk result (All (λ x. (x.left < states first.now)
        × (x.right < states second.now)) (next_pairs first.now second.now pair)) }
{
    let left = first.edges(pair.left);
    let right = second.edges(pair.right);
    add_left(followers, left, pair.right)?;
    add_right(followers, right, pair.left)?;
    for edge in left {
        add_with(followers, edge, right)?;
    }
    Ok(())
}

/// Adds the pair where the edge is silent, and so the other automaton stays.
fn add_if_silent<L: LabelSet>(
    followers: &mut Vec<Pair>,
    edge: &Edge<L>,
    to: Pair,
) -> Result<(), AllocError>
    ensures { OnOk result (followers.new.items ≡ followers.old.items
        ++ map (λ j. j.to) (silent_one (move_of L.letters edge.now).label to)) }
{
    if edge.label.is_none() {
        followers.push(to)?;
    }
    Ok(())
}

/// Adds the pairs to which the first automaton goes silently.
fn add_left<L: LabelSet>(
    followers: &mut Vec<Pair>,
    edges: &[Edge<L>],
    right: usize,
) -> Result<(), AllocError>
    ensures { OnOk result (followers.new.items ≡ followers.old.items
        ++ map (λ j. j.to) (left_moves right (map (move_of L.letters) edges.now))) }
{
    for edge in edges {
        let to = Pair {
            left: edge.to,
            right,
        };
        add_if_silent(followers, edge, to)?;
    }
    Ok(())
}

/// Adds the pairs to which the second automaton goes silently.
fn add_right<L: LabelSet>(
    followers: &mut Vec<Pair>,
    edges: &[Edge<L>],
    left: usize,
) -> Result<(), AllocError>
    ensures { OnOk result (followers.new.items ≡ followers.old.items
        ++ map (λ j. j.to) (right_moves left (map (move_of L.letters) edges.now))) }
{
    for edge in edges {
        let to = Pair {
            left,
            right: edge.to,
        };
        add_if_silent(followers, edge, to)?;
    }
    Ok(())
}

/// Adds the pair to which the two edges lead, where they have a letter in common.
fn add_together<L: LabelSet>(
    followers: &mut Vec<Pair>,
    first: &Edge<L>,
    second: &Edge<L>,
) -> Result<(), AllocError>
    requires { ForSome first.now.label (λ s. ForSome second.now.label (λ t. length (L.letters s)
        ≡ length (L.letters t))) }
    ensures { OnOk result (followers.new.items ≡ followers.old.items
        ++ map (λ j. j.to) (labelled_both (move_of L.letters first.now).label
        (move_of L.letters second.now).label (pair_of first.now.to second.now.to))) }
{
    if let (Some(s), Some(t)) = (&first.label, &second.label) {
        if !s.is_disjoint(t) {
            followers.push(Pair {
                left: first.to,
                right: second.to,
            })?;
        }
    }
    Ok(())
}

/// Adds the pairs to which the edge leads together with each of the others.
fn add_with<L: LabelSet>(
    followers: &mut Vec<Pair>,
    first: &Edge<L>,
    others: &[Edge<L>],
) -> Result<(), AllocError>
    requires { ForSome first.now.label (λ s.
        All (λ second. ForSome second.label (λ t. length (L.letters s)
        ≡ length (L.letters t))) others.now) }
    ensures { OnOk result (followers.new.items ≡ followers.old.items
        ++ map (λ j. j.to) (moves_with (move_of L.letters first.now)
        (map (move_of L.letters) others.now))) }
{
    for second in others {
        add_together(followers, first, second)?;
    }
    Ok(())
}
