//! Sets of states, which are found one after the other.
ghost use Rattle.std.specs.Prelude.{◌≡◌, ℕ, ◌<◌, ◌≤◌, [], IfOk, OnOk, Contains, length};
ghost use Rattle.std.specs.List.{All};
ghost use Rattle.rela_nfa.specs.StateSet.{Inserts, Lists};

use rela_pairs::Marks;
use std::alloc::{AllocError, Global};
use std::marker::Model;

/// A set of states, in the order in which they came, none twice. One walk after the other can use
/// it, and keeps its memory. Contracts see the number below which the states lie, and their list.
#[derive(Drop)]
pub struct StateSet {
    /// A mark on each state of the set.
    marks: Marks,
    /// The states of the set, in the order in which they came, unless they have been sorted.
    states: Vec<usize>,
}

impl Model for StateSet {
    ghost use Rattle.std.specs.Prelude.{length};
    ghost use Rattle.rela_nfa.specs.StateSet.{Members, AreMarked};

    ghost Value = { Members };

    ghost view = { λ set. record { count = length set.marks; states = set.states.items } };

    ghost invariant = { λ set. AreMarked set.marks set.states.items };
}

impl StateSet {
    /// The empty set of states below a number. Time and space: linear in the number.
    pub fn new(alloc: Global, count: usize) -> Result<StateSet, AllocError>
        ensures count { IfOk result (λ set. set.count ≡ count) }
        ensures empty { IfOk result (λ set. set.states ≡ []) }
    {
        let marks = Marks::new(alloc, count)?;
        Ok(StateSet {
            marks,
            states: Vec::new(alloc),
        })
    }

    /// Takes all states out. Time: constant, as by [`Marks::clear`].
    pub fn clear(&mut self)
        ensures count { self.new.count ≡ self.old.count }
        ensures empty { self.new.states ≡ [] }
    {
        self.marks.clear();
        self.states.clear();
    }

    /// Puts a state behind the others, unless it is there. Time: constant.
    pub fn insert(&mut self, q: usize) -> Result<(), AllocError>
        requires { q < self.old.count }
        ensures count { self.new.count ≡ self.old.count }
        ensures inserted { OnOk result (Inserts self.old.states self.new.states q) }
    {
        if !self.marks.is_marked(q) {
            self.states.push(q)?;
            self.marks.mark(q);
        }
        Ok(())
    }

    /// The states, in the order in which they came, or in ascending order where they were sorted
    /// since.
    pub fn states(&self) -> &[usize]
        ensures states { result.now ≡ self.now.states }
        ensures below { All (λ q. q < self.now.count) self.now.states }
        ensures few { length self.now.states ≤ self.now.count }
    {
        self.states.as_slice()
    }

    /// Puts the states in ascending order. Time: that of a sort.
    pub fn sort(&mut self)
        ensures count { self.new.count ≡ self.old.count }
        ensures sorted { Lists (Contains self.old.states) self.new.states }
    {
        self.states.sort_unstable();
    }
}
