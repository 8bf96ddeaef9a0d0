//! Words of letters as words of symbols.

ghost use Rattle.std.specs.Prelude.{◌<◌, IfOk, All};
ghost use Rattle.rela_labels.specs.Partition.{block_count};
ghost use Rattle.rela_cert.specs.Found.{AreAllBySymbols, AreBySymbols, IsBySymbol};

use rela_certfile::Step;
use rela_closed::Step as LetterStep;
use rela_labels::Partition;
use rela_names::List;
use std::alloc::{AllocError, Global};

/// The steps by the least symbols of the blocks that are their letters. The only error is want of
/// memory.
pub(crate) fn by_symbols(
    alloc: Global,
    blocks: &Partition,
    steps: &[LetterStep],
) -> Result<List<Step>, AllocError>
    requires { All (λ step. step.letter < block_count blocks.now) steps.now }
    ensures { IfOk result (AreBySymbols blocks.now steps.now) }
{
    let mut symbols = Vec::with_capacity(alloc, steps.len())?;
    for step in steps {
        symbols.push(by_symbol(blocks, step))?;
    }
    Ok(List::from_vec(symbols))
}

/// The step by the least symbol of the block that is its letter.
fn by_symbol(blocks: &Partition, step: &LetterStep) -> Step
    requires { step.now.letter < block_count blocks.now }
    ensures { IsBySymbol blocks.now step.now result }
{
    Step {
        parent: step.parent,
        symbol: blocks.representative(step.letter),
    }
}

/// The steps of each list by such symbols. The only error is want of memory.
pub(crate) fn all_by_symbols(
    alloc: Global,
    blocks: &Partition,
    lists: &[List<LetterStep>],
) -> Result<List<List<Step>>, AllocError>
    requires { All (λ steps. All (λ step. step.letter < block_count blocks.now) steps) lists.now }
    ensures { IfOk result (AreAllBySymbols blocks.now lists.now) }
{
    let mut all = Vec::with_capacity(alloc, lists.len())?;
    for steps in lists {
        all.push(by_symbols(alloc, blocks, steps.as_slice())?)?;
    }
    Ok(List::from_vec(all))
}
