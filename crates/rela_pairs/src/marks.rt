//! Marks that are all cleared at once.
ghost use Rattle.std.specs.Prelude.{◌≡◌, ℕ, ◌<◌, true, false, IfOk, length, replicate, slice_index_or, slice_set};

use std::alloc::{AllocError, Global};
use std::marker::Model;

/// For each number below a bound whether it is marked; all marks are cleared at once. Contracts see
/// them as the list of flags, whether each number is marked.
#[derive(Drop)]
pub struct Marks {
    /// For each number the stamp with which it was marked last, or 0 where it never was.
    stamps: Vec<u32>,
    /// The stamp of the marks since the last clearing: those before it had lower ones.
    stamp: u32,
}

impl Model for Marks {
    ghost use Rattle.std.specs.Prelude.{List, Bool, ◌≤◌, map, nat_eq};
    ghost use Rattle.std.specs.List.{All};

    ghost Value = { List Bool };

    ghost view = { λ marks. map (λ given. nat_eq given marks.stamp) marks.stamps.items };

    ghost invariant = { λ marks. All (λ given. given ≤ marks.stamp) marks.stamps.items };
}

impl Marks {
    /// No number below the bound is marked. Time and space: linear in the bound.
    pub fn new(alloc: Global, bound: usize) -> Result<Marks, AllocError>
        ensures { IfOk result (λ marks. marks ≡ replicate bound false) }
    {
        let stamps = vec![in alloc; 0; bound]?;
        Ok(Marks { stamps, stamp: 1 })
    }

    /// Takes all marks away. Time: constant, but for one of 2^32 calls, which goes over all
    /// numbers.
    pub fn clear(&mut self)
        ensures { self.new ≡ replicate (length self.old) false }
    {
        if self.stamp < u32::MAX {
            self.stamp += 1;
            return;
        }
        self.stamps.fill(0);
        self.stamp = 1;
    }

    /// Whether the number is marked.
    pub fn is_marked(&self, number: usize) -> bool
        requires { number < length self.now }
        ensures { result ≡ slice_index_or self.now number false }
    {
        self.stamps[number] == self.stamp
    }

    /// Marks the number.
    pub fn mark(&mut self, number: usize)
        requires { number < length self.old }
        ensures { self.new ≡ slice_set self.old number true }
    {
        self.stamps[number] = self.stamp;
    }
}
