//! The composition of two transducers.
ghost use Rattle.std.specs.Prelude.{◌≡◌, ◌≢◌, ℕ, ◌<◌, ◌≤◌, ◌↔◌, List, IfOk, IfErr, map, length, vec_len};
ghost use Rattle.std.specs.List.{All, range_with_len};
ghost use Rattle.rela_pairs.specs.Exploration.{NumbersNext};
ghost use Rattle.rela_pairs.specs.Reachable.{MoreThan};
ghost use Rattle.rela_pairs.specs.declared.pair.Pair.{Pair};
ghost use Rattle.rela_trans.specs.Composition.{joint_of, joint_moves, next_pairs, numbered, final_both, product_moves_at, IsComposition, AreReachedThrough, Covers};
ghost use Rattle.rela_trans.specs.Machine.{machine_states};
ghost use Rattle.rela_trans.specs.Runs.{Relates};
ghost use Rattle.rela_trans.specs.Stored.{move_of, moves_in};

use crate::joint::{JointMove, add_first, add_second, add_with};
use crate::moves::Move;
use crate::transducer::Transducer;
use rela_labels::LabelSet;
use rela_pairs::{BuildError, Explored, Pair, Shape, Successors, explore};
use std::alloc::{AllocError, Global};

/// The moves that two transducers over the same letters make together from a pair of their states.
fn joint_moves<L: LabelSet>(
    alloc: Global,
    first: &Transducer<L>,
    second: &Transducer<L>,
    pair: Pair,
) -> Result<Vec<JointMove<L>>, AllocError>
    requires letters { first.now.letters ≡ second.now.letters }
    requires left { pair.left < machine_states first.now }
    requires right { pair.right < machine_states second.now }
    ensures moves { IfOk result (λ joint. map (joint_of L.letters) joint.items
        ≡ joint_moves first.now second.now pair) }
    ensures lead { IfOk result (λ _. All (λ x. (x.left < machine_states first.now)
        × (x.right < machine_states second.now)) (next_pairs first.now second.now pair)) }
{
    let left = first.moves(pair.left);
    let right = second.moves(pair.right);
    let mut joint = Vec::new(alloc);
    add_first(alloc, &mut joint, left, pair.right)?;
    add_second(alloc, &mut joint, right, pair.left)?;
    for made in left {
        add_with(alloc, &mut joint, made, right)?;
    }
    Ok(joint)
}

/// The moves with the numbers of the pairs to which they lead, in their order.
fn numbered_moves<L: LabelSet>(
    alloc: Global,
    mut joint: Vec<JointMove<L>>,
    targets: &[usize],
) -> Result<Vec<Move<L>>, AllocError>
    requires { vec_len joint ≡ length targets.now }
    ensures { IfOk result (λ moves. map (move_of L.letters) moves.items
        ≡ numbered (map (joint_of L.letters) joint.items) targets.now) }
{
    let mut moves = Vec::with_capacity(alloc, joint.len())?;
    while let Some(made) = joint.pop() {
        moves.push(Move {
            kind: made.kind,
            to: targets[joint.len()],
        })?;
    }
    moves.reverse();
    Ok(moves)
}

/// Two transducers over the same letters, the second of which reads what the first writes: pairs of
/// their states follow pairs of their states.
#[derive(Drop)]
struct Composing<'a, L: LabelSet> {
    /// The transducer of the left states, which writes the words in the middle.
    first: &'a Transducer<L>,
    /// The transducer of the right states, which reads them.
    second: &'a Transducer<L>,
}

impl<'a, L: LabelSet> Successors for Composing<'a, L> {
    ghost is_pair = { λ composing pair. (composing.first.now.letters ≡ composing.second.now.letters)
        × (pair.left < machine_states composing.first.now)
        × (pair.right < machine_states composing.second.now) };

    ghost next = { λ composing pair. next_pairs composing.first.now composing.second.now pair };

    fn shape(&self) -> Shape {
        Shape {
            lefts: self.first.states(),
            rights: self.second.states(),
        }
    }

    fn add_next(
        &self,
        alloc: Global,
        pair: Pair,
        followers: &mut Vec<Pair>,
    ) -> Result<(), AllocError> {
        let joint = joint_moves(alloc, self.first, self.second, pair)?;
        for made in &joint {
            followers.push(made.to)?;
        }
        Ok(())
    }
}

/// Whether both states of the pair are final.
fn is_final_pair<L: LabelSet>(first: &Transducer<L>, second: &Transducer<L>, pair: Pair) -> bool
    requires left { pair.left < machine_states first.now }
    requires right { pair.right < machine_states second.now }
    ensures { result ≡ final_both first.now second.now pair }
{
    first.is_final(pair.left) && second.is_final(pair.right)
}

/// For each pair whether both states are final.
fn product_finals<L: LabelSet>(
    alloc: Global,
    first: &Transducer<L>,
    second: &Transducer<L>,
    pairs: &[Pair],
) -> Result<Vec<bool>, AllocError>
    requires { All (λ x. (x.left < machine_states first.now)
        × (x.right < machine_states second.now)) pairs.now }
    ensures { IfOk result (λ finals. finals.items
        ≡ map (final_both first.now second.now) pairs.now) }
{
    let mut finals = Vec::with_capacity(alloc, pairs.len())?;
    for pair in pairs {
        finals.push(is_final_pair(first, second, *pair))?;
    }
    Ok(finals)
}

/// For each pair the moves that the two make together, to the numbers of the pairs.
fn product_moves<L: LabelSet>(
    alloc: Global,
    first: &Transducer<L>,
    second: &Transducer<L>,
    explored: &Explored,
) -> Result<Vec<Vec<Move<L>>>, AllocError>
    requires letters { first.now.letters ≡ second.now.letters }
    requires pairs { All (λ x. (x.left < machine_states first.now)
        × (x.right < machine_states second.now)) explored.now.pairs }
    requires one_list_each { length explored.now.targets ≡ length explored.now.pairs }
    requires targets { NumbersNext (next_pairs first.now second.now) explored.now }
    ensures { IfOk result (λ moves. moves_in L.letters moves.items
        ≡ map (product_moves_at first.now second.now explored.now)
        (range_with_len 0 (length explored.now.pairs))) }
{
    let pairs = explored.pairs();
    let mut moves = Vec::with_capacity(alloc, pairs.len())?;
    for number in 0..pairs.len() {
        let joint = joint_moves(alloc, first, second, pairs[number])?;
        moves.push(numbered_moves(alloc, joint, explored.targets(number))?)?;
    }
    Ok(moves)
}

impl<L: LabelSet> Transducer<L> {
    /// The pairs of an input of `self` and an output of `other` that some word in the middle joins:
    /// `self` writes it, and `other` reads it. Each state is a pair of states that some word in the
    /// middle leads to, and is reached by just the pairs of words that have one (J. Berstel,
    /// *Transductions and Context-Free Languages*, 1979). Time: for each such pair the product of
    /// the numbers of moves that leave its two states, each with a meet of two sets; space: linear
    /// in the pairs and the moves of the result.
    ///
    /// # Errors
    ///
    /// - `Limit` exactly where more than `limit` pairs are reached by one word in the middle; never
    ///   for the greatest limit.
    /// - `Memory` where there isn't memory for them.
    pub fn compose(
        &self,
        alloc: Global,
        other: &Transducer<L>,
        limit: usize,
    ) -> Result<Transducer<L>, BuildError>
        requires letters { self.now.letters ≡ other.now.letters }
        requires limit { 1 ≤ limit }
        ensures letters { IfOk result (λ t. t.letters ≡ self.now.letters) }
        ensures few { IfOk result (λ t. machine_states t ≤ limit) }
        ensures pairs { IfOk result (λ t. (pairs : List Pair)
            × IsComposition self.now other.now pairs t) }
        ensures relation { IfOk result (λ t. (read : ℕ → ℕ) → Covers read self.now.letters
            → (u w : List ℕ) → Relates read t u w ↔
            ((middle : List ℕ) × Relates read self.now u middle
            × Relates read other.now middle w)) }

        // The limit, exactly.
        ensures within { IfOk result (λ _.
            ¬ MoreThan limit (AreReachedThrough self.now other.now)) }
        ensures limit { IfErr result (λ e. e ≡ BuildError.Limit →
            MoreThan limit (AreReachedThrough self.now other.now)) }
        ensures greatest { limit ≡ usize.MAX → IfErr result (λ e. e ≢ BuildError.Limit) }
    {
        let composing = Composing {
            first: self,
            second: other,
        };
        let start = Pair {
            left: self.start(),
            right: other.start(),
        };
        let explored = explore(alloc, &composing, start, limit)?;
        let finals = product_finals(alloc, self, other, explored.pairs())?;
        let moves = product_moves(alloc, self, other, &explored)?;
        Ok(Transducer {
            letters: self.letters,
            start: 0,
            finals,
            moves,
        })
    }
}
