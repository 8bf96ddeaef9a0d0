//! What an exploration has found.
ghost use Rattle.std.specs.Prelude.{◌≡◌, ◌<◌, [], length, slice_index_or};

use crate::found::Found;
use crate::lists::Lists;
use crate::pair::Pair;
use std::marker::Model;

/// The pairs that are reachable from a start, numbered in the order in which they were found, and for
/// each the numbers of the pairs that follow it.
#[derive(Drop)]
pub struct Explored {
    /// The pairs, by their numbers.
    pub(crate) found: Found,
    /// For each pair the numbers of those that follow it.
    pub(crate) targets: Lists,
}

impl Model for Explored {
    ghost use Rattle.rela_pairs.specs.Exploration.{Exploration};

    ghost Value = { Exploration };

    ghost use Rattle.rela_pairs.specs.Keeping.{pairs_of};

    ghost view = { λ e. record { pairs = pairs_of e.found; targets = e.targets } };
}

impl Explored {
    /// The pairs, in the order of their numbers.
    pub fn pairs(&self) -> &[Pair]
        ensures { result.now ≡ self.now.pairs }
    {
        self.found.pairs()
    }

    /// How many pairs follow the pairs, one as often as it follows one, to reserve memory by. Time:
    /// constant.
    pub fn follower_count(&self) -> usize {
        self.targets.numbers()
    }

    /// The numbers of the pairs that follow the one of this number, in their order; one may come
    /// more than once.
    pub fn targets(&self, number: usize) -> &[usize]
        requires { number < length self.now.targets }
        ensures { result.now ≡ slice_index_or self.now.targets number [] }
    {
        self.targets.list(number)
    }
}
