//! The pairs of states to which an automaton and a transducer that reads its words go together.
ghost use Rattle.std.specs.Prelude.{◌≡◌, ◌<◌, ◌++◌, OnOk, map, length};
ghost use Rattle.std.specs.List.{All};
ghost use Rattle.std.specs.Option.{ForSome, option_map};
ghost use Rattle.rela_nfa.specs.Automaton.{states};
ghost use Rattle.rela_nfa.specs.Meeting.{pair_of};
ghost use Rattle.rela_nfa.specs.Stored.{move_of as edge_of};
ghost use Rattle.rela_trans.specs.Composition.{made, second_moves, next_pairs};
ghost use Rattle.rela_trans.specs.ImageMoves.{source_of, source_alone, source_moves, read_by, read_moves};
ghost use Rattle.rela_trans.specs.Machine.{IsSized, machine_states};
ghost use Rattle.rela_trans.specs.Stored.{kind_of, move_of};

use crate::joint::{after_same, second_alone};
use crate::moves::{Move, MoveKind};
use crate::transducer::Transducer;
use rela_labels::LabelSet;
use rela_nfa::{Edge, Nfa};
use rela_pairs::{Pair, Shape, Successors};
use std::alloc::{AllocError, Global};

/// A transducer that reads the words of an automaton, over the same letters. Pairs of their states
/// follow pairs of their states.
#[derive(Drop)]
pub(crate) struct ReadingSources<'a, L: LabelSet> {
    /// The automaton of the left states, whose words are read.
    pub(crate) source: &'a Nfa<L>,
    /// The transducer of the right states.
    pub(crate) transducer: &'a Transducer<L>,
}

impl<'a, L: LabelSet> Successors for ReadingSources<'a, L> {
    ghost is_pair = { λ reading pair. (reading.source.now.letters ≡ reading.transducer.now.letters)
        × (pair.left < states reading.source.now)
        × (pair.right < machine_states reading.transducer.now) };

    ghost next = { λ reading pair. next_pairs (source_of reading.source.now)
        reading.transducer.now pair };

    fn shape(&self) -> Shape {
        Shape {
            lefts: self.source.states(),
            rights: self.transducer.states(),
        }
    }

    fn add_next(
        &self,
        alloc: Global,
        pair: Pair,
        followers: &mut Vec<Pair>,
    ) -> Result<(), AllocError> {
        add_followers(alloc, followers, self.source, self.transducer, pair)
    }
}

/// Adds the pairs to which the two go together from a pair of their states: first where the
/// automaton goes silently, then where the transducer goes alone, and then where it reads a letter
/// of an edge.
fn add_followers<L: LabelSet>(
    alloc: Global,
    followers: &mut Vec<Pair>,
    source: &Nfa<L>,
    transducer: &Transducer<L>,
    pair: Pair,
) -> Result<(), AllocError>
    requires letters { source.now.letters ≡ transducer.now.letters }
    requires left { pair.left < states source.now }
    requires right { pair.right < machine_states transducer.now }
    ensures next { OnOk result (followers.new.items ≡ followers.old.items
        ++ next_pairs (source_of source.now) transducer.now pair) }
    ensures lead { OnOk result (All (λ x. (x.left < states source.now)
        × (x.right < machine_states transducer.now)) (next_pairs (source_of source.now)
        transducer.now pair)) }
{
    let edges = source.edges(pair.left);
    let moves = transducer.moves(pair.right);
    add_silent(followers, edges, pair.right)?;
    add_alone(alloc, followers, moves, pair.left)?;
    for edge in edges {
        add_read(alloc, followers, edge, moves)?;
    }
    Ok(())
}

/// Adds the pair where the edge is silent, and so the transducer stays.
fn add_if_silent<L: LabelSet>(
    followers: &mut Vec<Pair>,
    edge: &Edge<L>,
    to: Pair,
) -> Result<(), AllocError>
    ensures { OnOk result (followers.new.items ≡ followers.old.items
        ++ map (λ j. j.to) (made (source_alone (edge_of L.letters edge.now).label) to)) }
{
    if edge.label.is_none() {
        followers.push(to)?;
    }
    Ok(())
}

/// Adds the pairs to which the automaton goes silently.
fn add_silent<L: LabelSet>(
    followers: &mut Vec<Pair>,
    edges: &[Edge<L>],
    right: usize,
) -> Result<(), AllocError>
    ensures { OnOk result (followers.new.items ≡ followers.old.items
        ++ map (λ j. j.to) (source_moves right (map (edge_of L.letters) edges.now))) }
{
    for edge in edges {
        let to = Pair {
            left: edge.to,
            right,
        };
        add_if_silent(followers, edge, to)?;
    }
    Ok(())
}

/// Adds the pair where there is a kind of move that leads there.
fn add_made<L: LabelSet>(
    followers: &mut Vec<Pair>,
    kind: &Option<MoveKind<L>>,
    to: Pair,
) -> Result<(), AllocError>
    ensures { OnOk result (followers.new.items ≡ followers.old.items
        ++ map (λ j. j.to) (made (option_map (kind_of L.letters) kind.now) to)) }
{
    if kind.is_some() {
        followers.push(to)?;
    }
    Ok(())
}

/// Adds the pairs to which the transducer goes alone, reading nothing.
fn add_alone<L: LabelSet>(
    alloc: Global,
    followers: &mut Vec<Pair>,
    moves: &[Move<L>],
    left: usize,
) -> Result<(), AllocError>
    ensures { OnOk result (followers.new.items ≡ followers.old.items
        ++ map (λ j. j.to) (second_moves left (map (move_of L.letters) moves.now))) }
{
    for second in moves {
        let alone = second_alone(alloc, &second.kind)?;
        let to = Pair {
            left,
            right: second.to,
        };
        add_made(followers, &alone, to)?;
    }
    Ok(())
}

/// Adds the pair to which the two go by a letter of the edge that the move reads, where there is one.
fn add_if_read<L: LabelSet>(
    alloc: Global,
    followers: &mut Vec<Pair>,
    edge: &Edge<L>,
    second: &Move<L>,
) -> Result<(), AllocError>
    requires { ForSome edge.now.label (λ read.
        IsSized (length (L.letters read)) (kind_of L.letters second.now.kind)) }
    ensures { OnOk result (followers.new.items ≡ followers.old.items
        ++ map (λ j. j.to) (made (read_by (edge_of L.letters edge.now).label
        (kind_of L.letters second.now.kind)) (pair_of edge.now.to second.now.to))) }
{
    if let Some(read) = &edge.label {
        let both = after_same(alloc, read, &second.kind)?;
        let to = Pair {
            left: edge.to,
            right: second.to,
        };
        return add_made(followers, &both, to);
    }
    Ok(())
}

/// Adds the pairs to which the two go by letters of the edge that the moves read.
fn add_read<L: LabelSet>(
    alloc: Global,
    followers: &mut Vec<Pair>,
    edge: &Edge<L>,
    moves: &[Move<L>],
) -> Result<(), AllocError>
    requires { ForSome edge.now.label (λ read.
        All (λ second. IsSized (length (L.letters read)) (kind_of L.letters second.kind))
        moves.now) }
    ensures { OnOk result (followers.new.items ≡ followers.old.items
        ++ map (λ j. j.to) (read_moves (edge_of L.letters edge.now)
        (map (move_of L.letters) moves.now))) }
{
    for second in moves {
        add_if_read(alloc, followers, edge, second)?;
    }
    Ok(())
}
