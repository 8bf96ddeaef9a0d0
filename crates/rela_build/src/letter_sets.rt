//! Sets of letters: the blocks in which symbols lie.
ghost use Rattle.std.specs.Prelude.{◌≡◌, ℕ, ◌<◌, ◌≤◌, ◌↔◌, true, IfOk, All, Contains, length};
ghost use Rattle.rela_labels.specs.Letters.{has};
ghost use Rattle.rela_labels.specs.Partition.{block_count, block_of};

use rela_labels::{LabelSet, Partition, WideSet};
use rela_names::Symbol;
use std::alloc::{AllocError, Global};

/// The blocks of the symbols below the end.
pub(crate) fn letters_below(
    alloc: Global,
    blocks: &Partition,
    end: Symbol,
) -> Result<WideSet, AllocError>
    requires { end ≤ length blocks.now }
    ensures size { IfOk result (λ set. length set ≡ block_count blocks.now) }
    ensures letters { IfOk result (λ set. (k : ℕ) → (has set k ≡ true) ↔
        ((s : ℕ) × (s < end) × (block_of blocks.now s ≡ k))) }
{
    let mut set = WideSet::none(alloc, blocks.blocks())?;
    for s in 0..end {
        set.add(alloc, blocks.block_of(s))?;
    }
    Ok(set)
}

/// The blocks of these symbols.
pub(crate) fn letters_of(
    alloc: Global,
    blocks: &Partition,
    symbols: &[Symbol],
) -> Result<WideSet, AllocError>
    requires { All (λ s. s < length blocks.now) symbols.now }
    ensures size { IfOk result (λ set. length set ≡ block_count blocks.now) }
    ensures letters { IfOk result (λ set. (k : ℕ) → (has set k ≡ true) ↔
        ((s : ℕ) × Contains symbols.now s × (block_of blocks.now s ≡ k))) }
{
    let mut set = WideSet::none(alloc, blocks.blocks())?;
    for s in symbols {
        set.add(alloc, blocks.block_of(*s))?;
    }
    Ok(set)
}
