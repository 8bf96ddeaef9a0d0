//! The pairs of states to which an automaton and a transducer over coarser letters may go together.
ghost use Rattle.std.specs.Prelude.{◌≡◌, ◌<◌, ◌++◌, OnOk, map, length};
ghost use Rattle.std.specs.List.{All};
ghost use Rattle.std.specs.Option.{ForSome};
ghost use Rattle.rela_nfa.specs.Automaton.{states};
ghost use Rattle.rela_nfa.specs.Stored.{move_of as edge_of};
ghost use Rattle.rela_trans.specs.Machine.{machine_states};
ghost use Rattle.rela_trans.specs.Reached.{only_letter, only_parent, may_have, may_read, reads_nothing, pair_if, alone_pairs, letter_pairs, edge_pairs, reading_pairs};
ghost use Rattle.rela_trans.specs.Stored.{kind_of, move_of};

use crate::moves::{Move, MoveKind};
use crate::transducer::Transducer;
use rela_labels::LabelSet;
use rela_nfa::{Edge, Nfa};
use rela_pairs::{Pair, Shape, Successors};
use std::alloc::{AllocError, Global};

/// A transducer that reads the words of an automaton whose letters are finer: `parents` gives for
/// each letter of the automaton that of the transducer in which it lies. Pairs of their states follow
/// pairs of their states. No set is copied, and each is asked for one letter at most.
#[derive(Drop)]
pub(crate) struct ReadingFiner<'a, L: LabelSet, M: LabelSet> {
    /// The automaton of the left states, whose words are read.
    pub(crate) sources: &'a Nfa<M>,
    /// The transducer of the right states.
    pub(crate) transducer: &'a Transducer<L>,
    /// For each letter of the automaton that of the transducer in which it lies.
    pub(crate) parents: &'a [u32],
}

impl<'a, L: LabelSet, M: LabelSet> Successors for ReadingFiner<'a, L, M> {
    ghost is_pair = { λ reading pair. (reading.sources.now.letters ≡ length reading.parents.now)
        × (pair.left < states reading.sources.now)
        × (pair.right < machine_states reading.transducer.now) };

    ghost next = { λ reading pair. reading_pairs reading.parents.now reading.sources.now
        reading.transducer.now pair };

    fn shape(&self) -> Shape {
        Shape {
            lefts: self.sources.states(),
            rights: self.transducer.states(),
        }
    }

    fn add_next(
        &self,
        _alloc: Global,
        pair: Pair,
        followers: &mut Vec<Pair>,
    ) -> Result<(), AllocError> {
        add_followers(followers, self.sources, self.transducer, self.parents, pair)
    }
}

/// Adds the pairs to which the two may go from a pair of their states.
fn add_followers<L: LabelSet, M: LabelSet>(
    followers: &mut Vec<Pair>,
    sources: &Nfa<M>,
    transducer: &Transducer<L>,
    parents: &[u32],
    pair: Pair,
) -> Result<(), AllocError>
    requires letters { sources.now.letters ≡ length parents.now }
    requires left { pair.left < states sources.now }
    requires right { pair.right < machine_states transducer.now }
    ensures next { OnOk result (followers.new.items ≡ followers.old.items
        ++ reading_pairs parents.now sources.now transducer.now pair) }
    ensures lead { OnOk result (All (λ x. (x.left < states sources.now)
        × (x.right < machine_states transducer.now)) (reading_pairs parents.now sources.now
        transducer.now pair)) }
{
    let edges = sources.edges(pair.left);
    let moves = transducer.moves(pair.right);
    add_alone(followers, moves, pair.left)?;
    for edge in edges {
        add_by_edge(followers, edge, moves, parents, pair.right)?;
    }
    Ok(())
}

/// Adds the pair where `is_taken` says so.
fn add_if(followers: &mut Vec<Pair>, is_taken: bool, to: Pair) -> Result<(), AllocError>
    ensures { OnOk result (followers.new.items ≡ followers.old.items ++ pair_if is_taken to) }
{
    if is_taken {
        followers.push(to)?;
    }
    Ok(())
}

/// Whether a move of this kind reads nothing.
fn reads_nothing<L: LabelSet>(kind: &MoveKind<L>) -> bool
    ensures { result ≡ reads_nothing (kind_of L.letters kind.now) }
{
    match kind {
        MoveKind::Silent | MoveKind::Out(_) => true,
        MoveKind::In(_) | MoveKind::Same(_) => false,
    }
}

/// Whether the set has the letter; where it isn't known, `None`, it may.
fn may_have<L: LabelSet>(letter: Option<u32>, set: &L) -> bool
    ensures { result ≡ may_have letter (L.letters set.now) }
{
    match letter {
        Some(letter) => set.contains(letter),
        None => true,
    }
}

/// Whether a move of this kind may read the letter. It may read any where it isn't known, `None`.
fn may_read<L: LabelSet>(letter: Option<u32>, kind: &MoveKind<L>) -> bool
    ensures { result ≡ may_read letter (kind_of L.letters kind.now) }
{
    match kind {
        MoveKind::In(set) | MoveKind::Same(set) => may_have(letter, set),
        MoveKind::Silent | MoveKind::Out(_) => false,
    }
}

/// Adds the pairs to which the transducer goes alone, reading nothing.
fn add_alone<L: LabelSet>(
    followers: &mut Vec<Pair>,
    moves: &[Move<L>],
    left: usize,
) -> Result<(), AllocError>
    ensures { OnOk result (followers.new.items ≡ followers.old.items
        ++ alone_pairs left (map (move_of L.letters) moves.now)) }
{
    for step in moves {
        let to = Pair {
            left,
            right: step.to,
        };
        add_if(followers, reads_nothing(&step.kind), to)?;
    }
    Ok(())
}

/// Adds the pairs to which the transducer may go by the letter, or by any where it isn't known,
/// while the automaton goes to the left state.
fn add_by_letter<L: LabelSet>(
    followers: &mut Vec<Pair>,
    letter: Option<u32>,
    left: usize,
    moves: &[Move<L>],
) -> Result<(), AllocError>
    ensures { OnOk result (followers.new.items ≡ followers.old.items
        ++ letter_pairs letter left (map (move_of L.letters) moves.now)) }
{
    for step in moves {
        let to = Pair {
            left,
            right: step.to,
        };
        add_if(followers, may_read(letter, &step.kind), to)?;
    }
    Ok(())
}

/// Adds the pairs to which the two may go by the edge.
fn add_by_edge<L: LabelSet, M: LabelSet>(
    followers: &mut Vec<Pair>,
    edge: &Edge<M>,
    moves: &[Move<L>],
    parents: &[u32],
    right: usize,
) -> Result<(), AllocError>
    requires { ForSome edge.now.label (λ set. length (M.letters set) ≡ length parents.now) }
    ensures { OnOk result (followers.new.items ≡ followers.old.items ++ edge_pairs parents.now right
        (map (move_of L.letters) moves.now) (edge_of M.letters edge.now)) }
{
    match &edge.label {
        Some(set) => {
            let letter = only_parent(set, parents);
            add_by_letter(followers, letter, edge.to, moves)?;
        }
        None => followers.push(Pair {
            left: edge.to,
            right,
        })?,
    }
    Ok(())
}

/// The letter of a set that has one alone, and `None` for any other set.
fn only_letter<M: LabelSet>(set: &M) -> Option<u32>
    ensures letter { result ≡ only_letter (M.letters set.now) }
    ensures below { ForSome result (λ k. k < length (M.letters set.now)) }
{
    set.only()
}

/// The letter of the transducer in which that of a set lies that has one alone, and `None` for any
/// other set.
fn only_parent<M: LabelSet>(set: &M, parents: &[u32]) -> Option<u32>
    requires { length (M.letters set.now) ≡ length parents.now }
    ensures { result ≡ only_parent parents.now (M.letters set.now) }
{
    let letter = only_letter(set)?;
    Some(parents[letter as usize])
}
