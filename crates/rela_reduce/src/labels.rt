//! Numbers for the labels of edges.
ghost use Rattle.std.specs.Prelude.{◌≡◌, ◌<◌, ◌++◌, List, Bool, [], IsTrue, IfOk, length, slice_index_or};
ghost use Rattle.rela_reduce.specs.Simulation.{IsWithin};

use rela_labels::LabelSet;
use std::alloc::{AllocError, Global};
use std::collections::HashMap;
use std::marker::Model;

/// Labels, numbered as they are found. Two numbers may, if rarely, have labels of the same letters.
/// Contracts see them as the list of their letters.
#[derive(Drop)]
pub(crate) struct Labels<'a, L: LabelSet> {
    /// The labels, in the order of their numbers.
    found: Vec<&'a L>,
    /// For each fingerprint the number of the last label that was found with it.
    numbers: HashMap<u64, usize>,
}

impl<'a, L: LabelSet> Model for Labels<'a, L> {
    ghost use Rattle.std.specs.Prelude.{List, Bool, map};

    ghost Value = { List (List Bool) };

    ghost view = { λ labels. map (λ label. L.letters label.now) labels.found.items };
}

impl<'a, L: LabelSet> Labels<'a, L> {
    /// No labels.
    pub(crate) fn new(alloc: Global) -> Labels<'a, L>
        ensures { result ≡ [] }
    {
        Labels {
            found: Vec::new(alloc),
            numbers: HashMap::new(alloc),
        }
    }

    /// How many there are.
    pub(crate) fn len(&self) -> usize
        ensures { result ≡ length self.now }
    {
        self.found.len()
    }

    /// The label of this number.
    pub(crate) fn get(&self, number: usize) -> &'a L
        requires { number < length self.now }
        ensures { L.letters result.now ≡ slice_index_or self.now number [] }
    {
        self.found[number]
    }

    /// The number of the label, which is put behind the others unless one with its letters is
    /// found. Where another label has its fingerprint, it isn't looked for among the rest, and may
    /// get a second number. Time: a look at each letter below the label's size, and constant in
    /// expectation beside.
    pub(crate) fn number(&mut self, label: &'a L) -> Result<usize, AllocError>
        ensures within { IfOk result (λ number. number < length self.new) }
        ensures at { IfOk result (λ number. slice_index_or self.new number []
            ≡ L.letters label.now) }
        ensures grown { IfOk result (λ _. (more : List (List Bool))
            × (self.new ≡ self.old ++ more)) }
    {
        let fingerprint = fingerprint(label);
        if let Some(number) = self.numbers.get(&fingerprint).copied() {
            if self.is(number, label) {
                return Ok(number);
            }
        }
        let number = self.found.len();
        self.found.push(label)?;
        self.numbers.insert(fingerprint, number)?;
        Ok(number)
    }

    /// Whether each letter of the label `k` is in the label `l`. None is where the two are of
    /// different sizes.
    pub(crate) fn is_within(&self, alloc: Global, k: usize, l: usize) -> Result<bool, AllocError>
        requires first { k < length self.now }
        requires second { l < length self.now }
        ensures { IfOk result (λ within. IsTrue within → IsWithin self.now k l) }
    {
        let first = self.get(k);
        let second = self.get(l);
        if first.size() != second.size() {
            return Ok(false);
        }
        let rest = first.minus(alloc, second)?;
        Ok(rest.is_empty())
    }

    /// Whether the label of this number has just these letters.
    fn is(&self, number: usize, label: &L) -> bool
        ensures within { IsTrue result → number < length self.now }
        ensures same { IsTrue result → slice_index_or self.now number [] ≡ L.letters label.now }
    {
        match self.found.get(number) {
            Some(known) => known.size() == label.size() && known.same(label),
            None => false,
        }
    }
}

/// The number from which fingerprints begin (G. Fowler, L. C. Noll and K.-P. Vo's FNV-1a hash of 64
/// bits: its offset basis).
const START: u64 = 0xcbf2_9ce4_8422_2325;

/// The number by which fingerprints are multiplied at each letter (the prime of that hash).
const FACTOR: u64 = 0x0100_0000_01b3;

/// A number that two labels rarely share unless they have the same letters. Time: a look at each
/// letter below the label's size.
fn fingerprint<L: LabelSet>(label: &L) -> u64 {
    let mut hash = START;
    for letter in 0..label.size() {
        if label.contains(letter) {
            hash = (hash ^ u64::from(letter)).wrapping_mul(FACTOR);
        }
    }
    hash
}
