//! Pairs of states, reached from a first one.

ghost use Rattle.std.specs.Prelude.{◌≡◌, ◌<◌, ◌∷◌, [], if◌then◌else◌, length};
ghost use Rattle.rela_pairs.specs.Places.{Fits};
ghost use Rattle.rela_pairs.specs.declared.pair.Pair.{Pair};
ghost use Rattle.rela_pairs.specs.declared.shape.Shape.{Shape};

use rela_pairs::{BuildError, Explored, Pair, Shape, Successors, explore};
use std::alloc::{AllocError, Global};

/// Pairs of states of which each is followed by the one with its states exchanged, and by itself.
#[derive(Drop)]
struct Exchange {
    /// The number of states on each side.
    states: usize,
}

impl Successors for Exchange {
    ghost is_pair = { λ by pair. Fits (record { lefts = by.states; rights = by.states }) pair };

    ghost next = { λ _ pair. record { left = pair.right; right = pair.left } ∷ (pair ∷ []) };

    fn shape(&self) -> Shape {
        Shape {
            lefts: self.states,
            rights: self.states,
        }
    }

    fn add_next(
        &self,
        _alloc: Global,
        pair: Pair,
        followers: &mut Vec<Pair>,
    ) -> Result<(), AllocError> {
        let turned = Pair {
            left: pair.right,
            right: pair.left,
        };
        followers.push(turned)?;
        followers.push(pair)?;
        Ok(())
    }
}

/// The pair from which all begins.
const START: Pair = Pair { left: 1, right: 2 };

/// Whether these are the pair and the one with its states exchanged, each of which leads to both.
fn are_two(explored: &Explored) -> bool
    requires { length explored.now.targets ≡ length explored.now.pairs }
{
    let turned = Pair { left: 2, right: 1 };
    explored.pairs() == [START, turned].as_slice() && explored.targets(1) == [0, 1].as_slice()
}

/// Whether the pair leads to two, where there are so many states on each side.
fn finds_two(alloc: Global, states: usize) -> bool
    requires { 2 < states }
{
    match explore(alloc, &Exchange { states }, START, 2) {
        Ok(explored) => are_two(&explored),
        Err(_) => false,
    }
}

/// Whether a limit of one pair is too low, where there are so many states on each side.
fn finds_more_than_one(alloc: Global, states: usize) -> bool
    requires { 2 < states }
{
    match explore(alloc, &Exchange { states }, START, 1) {
        Ok(_) => false,
        Err(error) => error == BuildError::Limit,
    }
}

/// Pairs that are looked up in a table are found, up to the limit.
#[test]
fn pairs_of_few_states(rt: HostRuntime) {
    assert!(rt; finds_two(rt.alloc(), 3));
    assert!(rt; finds_more_than_one(rt.alloc(), 3));
}

/// Pairs that are looked up by their hash are found, up to the limit.
#[test]
fn pairs_of_many_states(rt: HostRuntime) {
    assert!(rt; finds_two(rt.alloc(), 1_000_000));
    assert!(rt; finds_more_than_one(rt.alloc(), 1_000_000));
}
