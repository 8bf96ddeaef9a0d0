//! Pairs of classes, and their numbers.
ghost use Rattle.std.specs.Prelude.{◌≡◌, ◌⊎◌, ◌<◌, ◌^◌, [], ◌∷◌, ◌++◌, IfOk, IfSome, length, slice_index_or};
ghost use Rattle.rela_minimise.specs.Cutting.{AreApart, no_pair};

use indexmap::IndexSet;
use std::alloc::{AllocError, Global};
use std::marker::Model;

/// The class of a state, and that of the state to which a column leads from it.
#[derive(Clone, Copy, Debug, PartialEq, Eq, Hash)]
pub(crate) struct ClassPair {
    /// The class of the state.
    pub(crate) class: usize,
    /// The class of the state to which the column leads.
    pub(crate) onto: usize,
}

/// Pairs of classes, each once, numbered as they are found. Contracts see them as their list.
#[derive(Drop)]
pub(crate) struct ClassPairs {
    /// The pairs in the order of their numbers, and a hash table of these.
    found: IndexSet<ClassPair>,
    /// For each class the number of the pair with it that was asked for last; any number where there
    /// was none. Most classes are parted in two, and then it is the next one too.
    latest: Vec<usize>,
}

impl Model for ClassPairs {
    ghost use Rattle.std.specs.Prelude.{List};
    ghost use Rattle.rela_minimise.specs.Cutting.{AreApart};
    ghost use Rattle.rela_minimise.specs.declared.class_pairs.ClassPair.{ClassPair};

    ghost Value = { List ClassPair };

    ghost view = { λ pairs. pairs.found.keys };

    ghost invariant = { λ pairs. AreApart pairs.found.keys };
}

impl ClassPairs {
    /// No pairs.
    pub(crate) fn new(alloc: Global) -> ClassPairs
        ensures { result ≡ [] }
    {
        ClassPairs {
            found: IndexSet::new(alloc),
            latest: Vec::new(alloc),
        }
    }

    /// How many there are.
    pub(crate) fn len(&self) -> usize
        ensures len { result ≡ length self.now }
        ensures small { result < 2 ^ 63 }
        ensures apart { AreApart self.now }
    {
        self.found.len()
    }

    /// The number of the pair, which is put behind the others where it isn't among them. Time: a look
    /// at the latest pair of its class, and where it is another, constant in expectation, with a step
    /// for each class below its own where there was none so high before.
    pub(crate) fn number(&mut self, pair: ClassPair) -> Result<usize, AllocError>
        ensures at { IfOk result (λ number. slice_index_or self.new number no_pair ≡ pair) }
        ensures within { IfOk result (λ number. number < length self.new) }
        ensures small { IfOk result (λ number. number < 2 ^ 63) }
        ensures grown { IfOk result (λ number. (self.new ≡ self.old)
            ⊎ ((self.new ≡ self.old ++ pair ∷ []) × (number ≡ length self.old))) }
    {
        if let Some(number) = known_at(self.found.as_slice(), &self.latest, pair) {
            prove!(number < self.found.len());
            return Ok(number);
        }
        let (number, _) = self.found.insert_full(pair)?;
        prove!(number < self.found.len());
        note(&mut self.latest, pair.class, number)?;
        Ok(number)
    }
}

/// The number of the pair, if it is the latest one that is noted for its class.
fn known_at(found: &[ClassPair], latest: &[usize], pair: ClassPair) -> Option<usize>
    ensures within { IfSome result (λ number. number < length found.now) }
    ensures at { IfSome result (λ number. slice_index_or found.now number no_pair ≡ pair) }
{
    let number = latest.get(pair.class).copied()?;
    let known = found.get(number)?;
    if *known == pair { Some(number) } else { None }
}

/// Notes the number for the class.
fn note(latest: &mut Vec<usize>, class: usize, number: usize) -> Result<(), AllocError> {
    if latest.len() <= class {
        latest.resize(class.saturating_add(1), 0)?;
    }
    if let Some(noted) = latest.get_mut(class) {
        *noted = number;
    }
    Ok(())
}
