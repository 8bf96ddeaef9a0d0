//! Numbers for the keys of a list, in the order in which the keys first come.
ghost use Rattle.std.specs.Prelude.{◌≡◌, ℕ, ◌^◌, ◌<◌, ◌≤◌, ◌↔◌, ◌++◌, List, [], ◌∷◌, IfOk, All, length, slice_index};
ghost use Rattle.rela_labels.specs.Numbering.{IsNumbering};
ghost use Rattle.rela_labels.specs.Partition.{Together, IsNumbered};

use std::alloc::{AllocError, Global};

/// The numbers below `n`, in order.
pub(crate) fn numbers_below(alloc: Global, n: u32) -> Result<Vec<u32>, AllocError>
    ensures len { IfOk result (λ numbers. length numbers.items ≡ n) }
    ensures each { IfOk result (λ numbers. (k : ℕ) → k < n → slice_index numbers.items k ≡ k) }
{
    let mut numbers = Vec::with_capacity(alloc, n as usize)?;
    for i in 0..n {
        numbers.push(i)?;
    }
    Ok(numbers)
}

/// The number of each key, counting the keys from 0 in the order in which they first come, and the
/// first index of each. Each key is below `bound`. Time and space: linear in the keys and the
/// bound.
pub(crate) fn number_keys(
    alloc: Global,
    keys: &[usize],
    bound: usize,
) -> Result<(Vec<u32>, Vec<u32>), AllocError>
    requires some { 0 < length keys.now }
    requires few { length keys.now < 2 ^ 32 }
    requires below { All (λ key. key < bound) keys.now }
    ensures len { IfOk result (λ r. length r.0.items ≡ length keys.now) }
    ensures numbered { IfOk result (λ r. IsNumbered r.0.items r.1.items) }
    ensures same { IfOk result (λ r. (s t : ℕ) → s < length keys.now → t < length keys.now
        → Together r.0.items s t ↔ (slice_index keys.now s ≡ slice_index keys.now t)) }
{
    let mut numbering = Numbering::new(alloc, bound)?;
    for key in keys {
        numbering.push(*key)?;
    }
    Ok((numbering.blocks, numbering.firsts))
}

/// The numbering of the keys that have come so far.
#[derive(Debug, Drop)]
struct Numbering {
    /// The number of each key below the bound, and `None` until the key comes.
    numbers: Vec<Option<u32>>,
    /// The number of the key at each place.
    blocks: Vec<u32>,
    /// The place where each number's key came first.
    firsts: Vec<u32>,
}

impl Numbering {
    /// No key has come yet. Those that come are below `bound`.
    fn new(alloc: Global, bound: usize) -> Result<Numbering, AllocError>
        ensures bound { IfOk result (λ numbering. length numbering.numbers.items ≡ bound) }
        ensures numbering { IfOk result (λ numbering.
            IsNumbering [] numbering.numbers.items numbering.blocks.items numbering.firsts.items) }
    {
        Ok(Numbering {
            numbers: vec![in alloc; None; bound]?,
            blocks: Vec::new(alloc),
            firsts: Vec::new(alloc),
        })
    }

    /// Numbers the key that comes next: by the number that it has, or by the next free one where it
    /// comes for the first time.
    fn push(&mut self, key: usize) -> Result<(), AllocError>
        requires below { key < length self.old.numbers.items }
        requires few { length self.old.blocks.items < 2 ^ 32 }
        requires short { length self.old.firsts.items ≤ length self.old.blocks.items }
        ensures bound { IfOk result (λ _. length self.new.numbers.items
            ≡ length self.old.numbers.items) }
        ensures numbering { IfOk result (λ _. (keys : List ℕ)
            → IsNumbering keys self.old.numbers.items self.old.blocks.items self.old.firsts.items
            → IsNumbering (keys ++ key ∷ []) self.new.numbers.items self.new.blocks.items
            self.new.firsts.items) }
    {
        if let Some(block) = self.numbers[key] {
            self.blocks.push(block)?;
            return Ok(());
        }
        let block = self.firsts.len() as u32;
        self.numbers[key] = Some(block);
        self.firsts.push(self.blocks.len() as u32)?;
        self.blocks.push(block)?;
        Ok(())
    }
}
