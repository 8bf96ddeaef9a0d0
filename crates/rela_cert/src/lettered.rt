//! Words of symbols as words of letters.

ghost use Rattle.std.specs.Prelude.{◌≡◌, ◌<◌, IfOk, All, length, map};
ghost use Rattle.rela_cert.specs.Letters.{letter_step};

use rela_certfile::Step;
use rela_closed::Step as LetterStep;
use rela_labels::Partition;
use std::alloc::{AllocError, Global};

/// The steps by the letters of their symbols. The only error is want of memory.
pub(crate) fn lettered(
    alloc: Global,
    blocks: &Partition,
    steps: &[Step],
) -> Result<Vec<LetterStep>, AllocError>
    requires { All (λ step. step.symbol < length blocks.now) steps.now }
    ensures { IfOk result (λ letters. letters.items ≡ map (letter_step blocks.now) steps.now) }
{
    let mut letters = Vec::with_capacity(alloc, steps.len())?;
    for step in steps {
        letters.push(letter_of(blocks, step))?;
    }
    Ok(letters)
}

/// The step by the letter of its symbol.
fn letter_of(blocks: &Partition, step: &Step) -> LetterStep
    requires { step.now.symbol < length blocks.now }
    ensures { result ≡ letter_step blocks.now step.now }
{
    LetterStep {
        parent: step.parent,
        letter: blocks.block_of(step.symbol),
    }
}
