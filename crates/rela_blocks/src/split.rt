//! Blocks of symbols by a class table.
ghost use Rattle.std.specs.Prelude.{◌≡◌, ℕ, ◌<◌, ◌≤◌, ◌↔◌, IfOk, All, length};
ghost use Rattle.rela_build.specs.Lettering.{AreListedAlike};
ghost use Rattle.rela_labels.specs.Partition.{Together};

use rela_labels::{Partition, Splitter};
use rela_rir::SymbolSet;
use std::alloc::{AllocError, Global};

/// This many symbols in blocks: two share one where each class lists both or neither. It takes the
/// time of the symbols and of the members of the classes. The only error is want of memory.
pub fn blocks_of_classes(
    alloc: Global,
    classes: &[SymbolSet],
    symbols: u32,
) -> Result<Partition, AllocError>
    requires some { 1 ≤ symbols }
    requires listed { All (λ set. All (λ s. s < symbols) set.members) classes.now }
    ensures symbols { IfOk result (λ blocks. length blocks ≡ symbols) }
    ensures split { IfOk result (λ blocks. (s t : ℕ) → s < symbols → t < symbols →
        Together blocks s t ↔ AreListedAlike classes.now s t) }
{
    let whole = Partition::new(alloc, symbols)?;
    let mut splitter = Splitter::of(alloc, &whole)?;
    split_by_classes(alloc, &mut splitter, classes)?;
    splitter.into_partition(alloc)
}

/// Refines the blocks by each class of the table.
fn split_by_classes(
    alloc: Global,
    splitter: &mut Splitter,
    classes: &[SymbolSet],
) -> Result<(), AllocError>
    requires { All (λ set. All (λ s. s < length splitter.old) set.members) classes.now }
    ensures symbols { length splitter.new ≡ length splitter.old }
    ensures split { IfOk result (λ _. (s t : ℕ) → s < length splitter.old → t < length splitter.old
        → Together splitter.new s t ↔ (Together splitter.old s t
        × AreListedAlike classes.now s t)) }
{
    for set in classes {
        splitter.split(alloc, set.members.as_slice())?;
    }
    Ok(())
}
