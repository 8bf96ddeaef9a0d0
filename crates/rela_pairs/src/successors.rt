//! What follows a pair of states.
ghost use Rattle.std.specs.Prelude.{◌≡◌, ◌++◌, List, OnOk};
ghost use Rattle.std.specs.List.{All};
ghost use Rattle.rela_pairs.specs.Places.{Fits};
ghost use Rattle.rela_pairs.specs.declared.pair.Pair.{Pair};

use crate::pair::Pair;
use crate::shape::Shape;
use std::alloc::{AllocError, Global};

/// What follows a pair of states. Contracts see it as `next`, and `is_pair` says of which pairs it
/// can be asked.
pub trait Successors {
    // whether it is a pair of states
    ghost is_pair: { Self → Pair → Type 0 };

    // the pairs that follow, in order
    ghost next: { Self → Pair → List Pair };

    /// How many states there are on each side: each state of a pair is below it.
    fn shape(&self) -> Shape
        ensures fits { (x : Pair) → is_pair self.now x → Fits result x };

    /// Puts the pairs that follow behind those in `followers`, in order; a pair may come more than
    /// once.
    fn add_next(
        &self,
        alloc: Global,
        pair: Pair,
        followers: &mut Vec<Pair>,
    ) -> Result<(), AllocError>
        requires { is_pair self.now pair }
        ensures next { OnOk result (followers.new.items ≡ followers.old.items
            ++ next self.now pair) }
        ensures pairs { OnOk result (All (is_pair self.now) (next self.now pair)) };
}
