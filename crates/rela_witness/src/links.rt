//! Lists of states, one for each state.
ghost use Rattle.std.specs.Prelude.{◌≡◌, ℕ, ◌<◌, ◌⊎◌, ◌↔◌, [], IfOk, OnOk, length, slice_index_or};
ghost use Rattle.std.specs.List.{All};
ghost use Rattle.rela_witness.specs.Linked.{IsLinked};

use std::alloc::{AllocError, Global};
use std::marker::Model;

/// For each state a list of states. Contracts see it as the list of these lists.
#[derive(Drop)]
pub(crate) struct Links {
    /// The list of each state.
    lists: Vec<Vec<usize>>,
}

impl Model for Links {
    ghost use Rattle.std.specs.Prelude.{List, ℕ};
    ghost use Rattle.rela_witness.specs.Linked.{lists_of, AreLinks};

    ghost Value = { List (List ℕ) };

    ghost view = { λ links. lists_of links.lists.items };

    ghost invariant = { λ links. AreLinks (lists_of links.lists.items) };
}

impl Links {
    /// An empty list for each state below a number.
    pub(crate) fn new(alloc: Global, count: usize) -> Result<Links, AllocError>
        ensures count { IfOk result (λ links. length links ≡ count) }
        ensures none { IfOk result (λ links. (p q : ℕ) → ¬ IsLinked links p q) }
    {
        let mut lists = Vec::with_capacity(alloc, count)?;
        for _ in 0..count {
            lists.push(Vec::new(alloc))?;
        }
        Ok(Links { lists })
    }

    /// Puts `q` on the list of `p`.
    pub(crate) fn add(&mut self, p: usize, q: usize) -> Result<(), AllocError>
        requires from { p < length self.old }
        requires to { q < length self.old }
        ensures count { length self.new ≡ length self.old }
        ensures added { OnOk result ((m n : ℕ) → IsLinked self.new m n ↔
            (IsLinked self.old m n ⊎ ((p ≡ m) × (q ≡ n)))) }
    {
        self.lists[p].push(q)?;
        Ok(())
    }

    /// The list of `p`.
    pub(crate) fn ends(&self, p: usize) -> &[usize]
        requires { p < length self.now }
        ensures ends { result.now ≡ slice_index_or self.now p [] }
        ensures states { All (λ q. q < length self.now) result.now }
    {
        self.lists[p].as_slice()
    }
}
