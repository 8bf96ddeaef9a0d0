//! The states that words reach, and whether an automaton accepts a word.
ghost use Rattle.std.specs.Prelude.{◌≡◌, ℕ, ◌<◌, ◌≤◌, ◌↔◌, List, [], ◌∷◌, ◌++◌, IsTrue, IfOk, OnOk, Contains};
ghost use Rattle.std.specs.List.{All};
ghost use Rattle.rela_nfa.specs.Automaton.{states, IsAutomaton, IsFinal};
ghost use Rattle.rela_nfa.specs.Reading.{takes, AreReached, Closes, SilentlyFrom};
ghost use Rattle.rela_nfa.specs.Runs.{StepIn, HasStep, Accepts};
ghost use Rattle.rela_nfa.specs.StateSet.{Adds};
ghost use Rattle.rela_nfa.specs.Stored.{move_of};

use crate::edge::Edge;
use crate::nfa::Nfa;
use crate::state_set::StateSet;
use rela_labels::LabelSet;
use std::alloc::{AllocError, Global};
use std::mem::swap;

impl<L: LabelSet> Edge<L> {
    /// Whether the edge may be taken by the letter, or is silent where there is none.
    fn takes(&self, letter: Option<u32>) -> bool
        ensures { result ≡ takes (move_of L.letters self.now).label letter }
    {
        match (&self.label, letter) {
            (Some(set), Some(k)) => set.contains(k),
            (None, None) => true,
            _ => false,
        }
    }

    /// Adds the state to which the edge leads, if it may be taken by the letter, or is silent where
    /// there is none. Time: that of a look at the label.
    pub fn follow(&self, letter: Option<u32>, set: &mut StateSet) -> Result<(), AllocError>
        requires { self.now.to < set.old.count }
        ensures count { set.new.count ≡ set.old.count }
        ensures adds { OnOk result (Adds (StepIn (move_of L.letters self.now ∷ []) letter)
            set.old.states set.new.states) }
    {
        if self.takes(letter) {
            set.insert(self.to)?;
        }
        Ok(())
    }
}

impl<L: LabelSet> Nfa<L> {
    /// Whether the word is in the language. Time: a step for each state, and for each letter of the
    /// word a look at each edge out of the states that are reached, once for the letter and once to
    /// follow silent edges; space: linear in the states.
    pub fn accepts(&self, alloc: Global, word: &[u32]) -> Result<bool, AllocError>
        ensures { IfOk result (λ accepted. IsTrue accepted ↔ Accepts self.now word.now) }
    {
        let mut reached = StateSet::new(alloc, self.states())?;
        let mut next = StateSet::new(alloc, self.states())?;
        self.reach_first(&mut reached)?;
        for letter in word {
            self.reach_next(reached.states(), *letter, &mut next)?;
            swap(&mut reached, &mut next);
        }
        Ok(self.any_final(&reached))
    }

    /// Puts the states that the empty word reaches in place of those of the set. Time: a look at
    /// each edge out of them.
    pub fn reach_first(&self, set: &mut StateSet) -> Result<(), AllocError>
        requires { states self.now ≤ set.old.count }
        ensures count { set.new.count ≡ set.old.count }
        ensures reached { OnOk result (AreReached self.now [] set.new.states) }
    {
        set.clear();
        set.insert(self.start())?;
        self.close(set)
    }

    /// Puts the states that a word reaches with the letter behind it in place of those of the set,
    /// where the word reaches just these states. Time: a look at each edge out of these, and at
    /// each out of those put in.
    pub fn reach_next(
        &self,
        from: &[usize],
        letter: u32,
        set: &mut StateSet,
    ) -> Result<(), AllocError>
        requires states { All (λ q. q < states self.now) from.now }
        requires room { states self.now ≤ set.old.count }
        ensures count { set.new.count ≡ set.old.count }
        ensures reached { OnOk result ((w : List ℕ) → AreReached self.now w from.now →
            AreReached self.now (w ++ letter ∷ []) set.new.states) }
    {
        set.clear();
        for q in from {
            self.follow_all(*q, Some(letter), set)?;
        }
        self.close(set)
    }

    /// Adds the states to which edges lead from `q` by the letter, or silently where there is none.
    fn follow_all(
        &self,
        q: usize,
        letter: Option<u32>,
        set: &mut StateSet,
    ) -> Result<(), AllocError>
        requires state { q < states self.now }
        requires room { states self.now ≤ set.old.count }
        ensures automaton { IsAutomaton self.now }
        ensures count { set.new.count ≡ set.old.count }
        ensures adds { OnOk result (Adds (HasStep self.now q letter) set.old.states
            set.new.states) }
    {
        for edge in self.edges(q) {
            edge.follow(letter, set)?;
        }
        Ok(())
    }

    /// Adds the states that silent edges lead to from those of the set: a breadth-first search.
    /// Time: a look at each edge out of the states that the set then has. Space: none, once the set
    /// has room.
    pub fn close(&self, set: &mut StateSet) -> Result<(), AllocError>
        requires states { All (λ q. q < states self.now) set.old.states }
        requires room { states self.now ≤ set.old.count }
        ensures count { set.new.count ≡ set.old.count }
        ensures silently { OnOk result ((q : ℕ) → Contains set.new.states q ↔
            SilentlyFrom self.now set.old.states q) }
        ensures closes { OnOk result (Closes self.now set.old.states set.new.states) }
    {
        // The states stand in a queue: those before `done` have been followed.
        let mut done = 0;
        while done < set.states().len() {
            let q = set.states()[done];
            self.follow_all(q, None, set)?;
            done += 1;
        }
        Ok(())
    }

    /// Whether some state of the set is final.
    fn any_final(&self, set: &StateSet) -> bool
        requires { set.now.count ≡ states self.now }
        ensures { IsTrue result ↔ ((q : ℕ) × Contains set.now.states q × IsFinal self.now q) }
    {
        for q in set.states() {
            if self.is_final(*q) {
                return true;
            }
        }
        false
    }
}
