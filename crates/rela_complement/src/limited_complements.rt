//! Complements under the state limit, made once for parts that are the same.
ghost use Rattle.std.specs.Prelude.{◌≡◌, ◌+◌, ◌^◌, ◌<◌, ◌≤◌, IfOk, IfErr, IfSome, List, Bool, length};
ghost use Rattle.rela_build.specs.Complement.{IsComplement};
ghost use Rattle.rela_nfa.specs.Automaton.{Automaton};
ghost use Rattle.rela_subset.specs.Subsets.{ReachSets};
ghost use Rattle.rela_complement.specs.Merging.{IsMerged};
ghost use Rattle.rela_complement.specs.Telling.{TellsWords};

use crate::complement::complement_of;
use crate::fingerprint::fingerprint;
use crate::kept_complements::KeptComplements;
use crate::merging::{Merged, merge};
use crate::relabelled::relabelled;
use rela_build::{Answer, Complements};
use rela_labels::WideSet;
use rela_nfa::{BuildError, Nfa};
use std::alloc::{AllocError, Global};
use std::cell::RefCell;
use std::marker::Model;

/// Makes the complement of the minimal automaton of its part. A complement is refused only where
/// words over its letters reach more sets of states of the part than the limit, and always where
/// more such words are each told apart from the others by a continuation (the equivalence of Myhill
/// and Nerode). Contracts see it as its limit.
///
/// What was made is kept, and given again for a part that is the same automaton. What is kept has at
/// most 262,144 states, of parts and of complements.
#[derive(Drop)]
pub struct LimitedComplements {
    /// The limit: how many sets of states words may reach.
    states: usize,
    /// Whether letters are merged that a part doesn't tell apart.
    merges: bool,
    /// What was made so far.
    kept: RefCell<KeptComplements>,
}

impl Model for LimitedComplements {
    ghost use Rattle.std.specs.Prelude.{ℕ, ◌≤◌};

    ghost Value = { ℕ };

    ghost view = { λ complements. complements.states };

    ghost invariant = { λ complements. 1 ≤ complements.states };
}

impl LimitedComplements {
    /// Complements under this limit of parts over the same letters, none of which was made yet.
    pub fn new(alloc: Global, states: usize) -> LimitedComplements
        requires { 1 ≤ states }
        ensures { result ≡ states }
    {
        LimitedComplements {
            states,
            merges: false,
            kept: RefCell::new(KeptComplements::new(alloc)),
        }
    }

    /// Complements under this limit of parts whose letters are other blocks of symbols from call to
    /// call, none of which was made yet. Letters that none of a part's labels tells apart are merged
    /// into classes before it is looked up; so parts that have the same sets of symbols for labels have
    /// one complement. It takes a look at each letter for each label of the part and the complement.
    pub fn across_letters(alloc: Global, states: usize) -> LimitedComplements
        requires { 1 ≤ states }
        ensures { result ≡ states }
    {
        LimitedComplements {
            states,
            merges: true,
            kept: RefCell::new(KeptComplements::new(alloc)),
        }
    }

    /// The limit, which is at least one.
    pub fn limit(&self) -> usize
        ensures limit { result ≡ self.now }
        ensures some { 1 ≤ self.now }
    {
        self.states
    }

    /// The part and the letters with letters merged, where that is asked for and saves something. The
    /// only error is want of memory.
    fn merged(
        &self,
        alloc: Global,
        part: &Nfa<WideSet>,
        over: &WideSet,
    ) -> Result<Option<Merged>, AllocError>
        requires { length over.now ≡ part.now.letters }
        ensures letters { IfOk result (λ found. IfSome found (λ merged.
            length merged.over ≡ merged.part.letters)) }
        ensures merged { IfOk result (λ found. IfSome found (λ merged.
            IsMerged part.now over.now merged.classes.items merged.part merged.over)) }
    {
        if self.merges {
            merge(alloc, part, over)
        } else {
            Ok(None)
        }
    }

    /// The complement over these letters of the part, by that of the part with letters merged.
    ///
    /// # Errors
    ///
    /// - `Limit` only where words reach more sets of states of the part than the limit.
    /// - `Memory` where there isn't memory.
    fn by_classes(&self, alloc: Global, merged: &Merged) -> Result<Nfa<WideSet>, BuildError>
        requires letters { length merged.now.over ≡ merged.now.part.letters }
        requires few { length merged.now.classes.items < 2 ^ 32 }
        ensures complement { IfOk result (λ nfa. (a : Automaton) (over : List Bool) →
            IsMerged a over merged.now.classes.items merged.now.part merged.now.over →
            IsComplement a over nfa) }
        ensures within { IfOk result (λ _. (a : Automaton) (over : List Bool) →
            IsMerged a over merged.now.classes.items merged.now.part merged.now.over →
            ¬ TellsWords a over (self.now + 1)) }
        ensures past { IfErr result (λ e. e ≡ BuildError.Limit → (a : Automaton) (over : List Bool)
            → IsMerged a over merged.now.classes.items merged.now.part merged.now.over →
            ReachSets a over (self.now + 1)) }
    {
        let nfa = self.once(alloc, &merged.part, &merged.over)?;
        Ok(relabelled(alloc, &nfa, &merged.classes)?)
    }

    /// The complement over these letters of the part as it is: a copy where it was made before and
    /// kept.
    ///
    /// # Errors
    ///
    /// - `Limit` only where words reach more sets of states of the part than the limit.
    /// - `Memory` where there isn't memory.
    fn once(
        &self,
        alloc: Global,
        part: &Nfa<WideSet>,
        over: &WideSet,
    ) -> Result<Nfa<WideSet>, BuildError>
        requires letters { length over.now ≡ part.now.letters }
        ensures complement { IfOk result (IsComplement part.now over.now) }
        ensures within { IfOk result (λ _. ¬ TellsWords part.now over.now (self.now + 1)) }
        ensures past { IfErr result (λ e. e ≡ BuildError.Limit →
            ReachSets part.now over.now (self.now + 1)) }
    {
        let print = fingerprint(part, over);
        if let Some(nfa) = self.kept_for(alloc, print, part, over)? {
            return Ok(nfa);
        }
        let nfa = complement_of(alloc, part, over, self.limit())?;
        self.keep(alloc, print, part, over, &nfa)?;
        Ok(nfa)
    }

    /// A copy of the complement of the part over these letters, whose fingerprint this is, where it
    /// was made before and kept. The only error is want of memory.
    fn kept_for(
        &self,
        alloc: Global,
        print: u64,
        part: &Nfa<WideSet>,
        over: &WideSet,
    ) -> Result<Option<Nfa<WideSet>>, AllocError>
        ensures complement { IfOk result (λ found. IfSome found
            (IsComplement part.now over.now)) }
        ensures within { IfOk result (λ found. IfSome found (λ _.
            ¬ TellsWords part.now over.now (self.now + 1))) }
    {
        match self.kept.try_borrow() {
            Ok(kept) => kept.copy_of(alloc, print, part, over, self.states),
            Err(_) => Ok(None),
        }
    }

    /// Keeps the complement of the part over these letters, whose fingerprint this is. The only error
    /// is want of memory.
    fn keep(
        &self,
        alloc: Global,
        print: u64,
        part: &Nfa<WideSet>,
        over: &WideSet,
        complement: &Nfa<WideSet>,
    ) -> Result<(), AllocError>
        requires complement { IsComplement part.now over.now complement.now }
        requires within { ¬ TellsWords part.now over.now (self.now + 1) }
    {
        match self.kept.try_borrow_mut() {
            Ok(mut kept) => kept.keep(alloc, print, part, over, complement, self.states),
            Err(_) => Ok(()),
        }
    }
}

impl Complements for LimitedComplements {
    type Note = ();

    ghost tells_all = { ⊥ };

    ghost answers = { λ limit _ a over _. ¬ TellsWords a over (limit + 1) };

    ghost refuses = { λ limit _ a over. ReachSets a over (limit + 1) };

    fn complement(
        &self,
        alloc: Global,
        _number: usize,
        a: &Nfa<WideSet>,
        over: &WideSet,
    ) -> Result<Answer<()>, BuildError> {
        let nfa = match self.merged(alloc, a, over)? {
            Some(merged) => self.by_classes(alloc, &merged)?,
            None => self.once(alloc, a, over)?,
        };
        Ok(Answer { nfa, note: () })
    }
}
