//! Classes of states in the course of their refinement.
ghost use Rattle.std.specs.Prelude.{◌≡◌, ℕ, ◌+◌, ◌<◌, false, [], IfOk, length, slice_index};
ghost use Rattle.std.specs.List.{All};
ghost use Rattle.rela_subset.specs.Deterministic.{IsDeterministic, states};
ghost use Rattle.rela_minimise.specs.Refining.{AreAssigned, AreColumns, AreWaiting, Goes, HasFound, HasSettled, IsAfter, IsAssigned, IsCoarse, IsMap, IsOpened, IsSound, Settles};
ghost use Rattle.rela_minimise.specs.Stored.{lists_of, stage_of};

use crate::lists::{has_settled, put, same};
use crate::signature::signature;
use crate::signatures::Signatures;
use rela_labels::LabelSet;
use rela_subset::Dfa;
use std::alloc::{AllocError, Global};

/// The classes that states are put into so far, and what tells whether they are to be split
/// further.
#[derive(Drop)]
pub(crate) struct Refinement {
    /// The number of each state's class.
    pub(crate) classes: Vec<usize>,
    /// For each class a list of states, in which all of its states that are not stale come, some of
    /// them more than once; others may stand between them.
    pub(crate) members: Vec<Vec<usize>>,
    /// For each class the signature of its states that are not stale.
    pub(crate) signatures: Vec<Vec<usize>>,
    /// For each state whether a letter may now lead to another class than when its signature was
    /// taken.
    pub(crate) stale: Vec<bool>,
}

/// The classes that a refinement ends with.
#[derive(Drop)]
pub(crate) struct Classes {
    /// The number of each state's class.
    pub(crate) numbers: Vec<usize>,
    /// How many classes there are.
    pub(crate) count: usize,
}

impl Refinement {
    /// The classes alone: what only their refinement needed is let go.
    pub(crate) fn into_classes(self) -> Classes
        ensures numbers { result.numbers ≡ self.classes }
        ensures count { result.count ≡ length self.members.items }
    {
        let Refinement {
            classes,
            members,
            signatures: _,
            stale: _,
        } = self;
        Classes {
            numbers: classes,
            count: members.len(),
        }
    }
    /// Makes sure that the class of the state has a state that is not stale: where it has none, the
    /// signature of this one becomes that of the class.
    fn settle<L: LabelSet>(
        &mut self,
        alloc: Global,
        dfa: &Dfa<L>,
        columns: &[Vec<usize>],
        q: usize,
    ) -> Result<(), AllocError>
        requires columns { All (IsMap (states dfa.now)) (lists_of columns.now) }
        requires state { q < states dfa.now }
        requires sound { IsSound dfa.now (lists_of columns.now) (stage_of self.old) }
        ensures settles { IfOk result (λ _.
            Settles dfa.now (lists_of columns.now) (stage_of self.old) (stage_of self.new)) }
        ensures settled { IfOk result (λ _. HasSettled (stage_of self.new) q) }
    {
        let class = self.classes[q];
        if has_settled(&mut self.members[class], &self.classes, &self.stale, class)? {
            return Ok(());
        }
        self.signatures[class] = signature(alloc, dfa, columns, &self.classes, q)?;
        self.stale[q] = false;
        put(&mut self.members, class, q)?;
        Ok(())
    }

    /// Makes sure that the class of each of the states has a state that is not stale.
    fn settle_all<L: LabelSet>(
        &mut self,
        alloc: Global,
        dfa: &Dfa<L>,
        columns: &[Vec<usize>],
        waiting: &[usize],
    ) -> Result<(), AllocError>
        requires columns { All (IsMap (states dfa.now)) (lists_of columns.now) }
        requires states { All (λ q. q < states dfa.now) waiting.now }
        requires sound { IsSound dfa.now (lists_of columns.now) (stage_of self.old) }
        ensures settles { IfOk result (λ _.
            Settles dfa.now (lists_of columns.now) (stage_of self.old) (stage_of self.new)) }
        ensures settled { IfOk result (λ _. All (HasSettled (stage_of self.new)) waiting.now) }
    {
        for q in waiting {
            self.settle(alloc, dfa, columns, *q)?;
        }
        Ok(())
    }

    /// The class to which the state goes by its signature: its own, or a new one, whose number is
    /// behind those of all classes so far. New signatures are put with those that were found.
    fn target<L: LabelSet>(
        &self,
        alloc: Global,
        dfa: &Dfa<L>,
        columns: &[Vec<usize>],
        found: &mut Signatures,
        q: usize,
    ) -> Result<usize, AllocError>
        requires columns { All (IsMap (states dfa.now)) (lists_of columns.now) }
        requires state { q < states dfa.now }
        requires sound { IsSound dfa.now (lists_of columns.now) (stage_of self.now) }
        ensures goes { IfOk result (λ class. Goes dfa.now (lists_of columns.now) (stage_of self.now)
            found.new q class) }
        ensures found { IfOk result (λ class. HasFound (length self.now.members.items) found.old
            found.new class) }
    {
        let signature = signature(alloc, dfa, columns, &self.classes, q)?;
        let class = self.classes[q];
        if same(&signature, &self.signatures[class]) {
            return Ok(class);
        }
        let number = found.number(signature)?;
        Ok(self.members.len() + number)
    }

    /// The class to which each of the states goes by its signature, as by
    /// [`target`](Refinement::target).
    fn targets<L: LabelSet>(
        &self,
        alloc: Global,
        dfa: &Dfa<L>,
        columns: &[Vec<usize>],
        found: &mut Signatures,
        waiting: &[usize],
    ) -> Result<Vec<usize>, AllocError>
        requires columns { All (IsMap (states dfa.now)) (lists_of columns.now) }
        requires states { All (λ q. q < states dfa.now) waiting.now }
        requires sound { IsSound dfa.now (lists_of columns.now) (stage_of self.now) }
        requires none { found.old ≡ [] }
        ensures each { IfOk result (λ targets. length targets.items ≡ length waiting.now) }
        ensures goes { IfOk result (λ targets. (i : ℕ) → i < length waiting.now →
            Goes dfa.now (lists_of columns.now) (stage_of self.now) found.new
            (slice_index waiting.now i) (slice_index targets.items i)) }
        ensures used { IfOk result (λ targets. (j : ℕ) → j < length found.new → (i : ℕ)
            × (i < length waiting.now) × (slice_index targets.items i
            ≡ length self.now.members.items + j)) }
    {
        let mut targets = Vec::with_capacity(alloc, waiting.len())?;
        for q in waiting {
            targets.push(self.target(alloc, dfa, columns, found, *q)?)?;
        }
        Ok(targets)
    }

    /// Puts a class without members for each of the signatures behind the others.
    fn open(&mut self, alloc: Global, found: &Signatures) -> Result<(), AllocError>
        ensures { IfOk result (λ _. IsOpened (stage_of self.old) found.now (stage_of self.new)) }
    {
        for number in 0..found.len() {
            self.signatures
                .push(Vec::from_slice(alloc, found.get(number))?)?;
            self.members.push(Vec::new(alloc))?;
        }
        Ok(())
    }

    /// Puts the state into the class, whose signature it has: it isn't stale any more.
    fn assign(&mut self, q: usize, class: usize) -> Result<(), AllocError>
        requires state { q < length self.old.classes.items }
        requires flagged { length self.old.stale.items ≡ length self.old.classes.items }
        requires class { class < length self.old.members.items }
        ensures { IfOk result (λ _. IsAssigned q class (stage_of self.old) (stage_of self.new)) }
    {
        self.classes[q] = class;
        self.stale[q] = false;
        put(&mut self.members, class, q)?;
        Ok(())
    }

    /// Puts each of the states into its class.
    fn assign_all(&mut self, waiting: &[usize], targets: &[usize]) -> Result<(), AllocError>
        requires states { All (λ q. q < length self.old.classes.items) waiting.now }
        requires flagged { length self.old.stale.items ≡ length self.old.classes.items }
        requires each { length targets.now ≡ length waiting.now }
        requires classes { All (λ class. class < length self.old.members.items) targets.now }
        ensures { IfOk result (λ _. AreAssigned waiting.now targets.now (length waiting.now)
            (stage_of self.old) (stage_of self.new)) }
    {
        for (i, q) in waiting.iter().enumerate() {
            self.assign(*q, targets[i])?;
        }
        Ok(())
    }

    /// Splits each class that has waiting states by their signatures: those that have the signature
    /// of the class stay, and those of each other signature become a new class. A part that is more
    /// than half of what is listed for its class keeps the number. Time: a step for each waiting
    /// state and kind of letters, and a look at the states that are listed for classes whose
    /// numbers are swapped.
    pub(crate) fn split<L: LabelSet>(
        &mut self,
        alloc: Global,
        dfa: &Dfa<L>,
        columns: &[Vec<usize>],
        waiting: &[usize],
    ) -> Result<(), AllocError>
        requires deterministic { IsDeterministic dfa.now }
        requires columns { AreColumns dfa.now (lists_of columns.now) }
        requires waiting { AreWaiting (states dfa.now) self.old.stale.items waiting.now }
        requires sound { IsSound dfa.now (lists_of columns.now) (stage_of self.old) }
        requires coarse { IsCoarse dfa.now (lists_of columns.now) (stage_of self.old) }
        ensures { IfOk result (λ _. IsAfter dfa.now (lists_of columns.now) (stage_of self.old)
            (stage_of self.new)) }
    {
        self.settle_all(alloc, dfa, columns, waiting)?;
        let mut found = Signatures::new(alloc);
        let targets = self.targets(alloc, dfa, columns, &mut found, waiting)?;
        let first = self.members.len();
        let origins = self.origins(alloc, waiting, &targets, found.len())?;
        self.open(alloc, &found)?;
        self.assign_all(waiting, &targets)?;
        self.keep_largest(alloc, first, &origins)?;
        Ok(())
    }
}
