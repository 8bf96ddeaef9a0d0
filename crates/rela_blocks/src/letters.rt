//! The letters of the automata of a check's terms.
ghost use Rattle.std.specs.Prelude.{◌≡◌, ◌<◌, IfOk, All, length};
ghost use Rattle.rela_build.specs.Lettering.{AreLetterBlocks};
ghost use Rattle.rela_names.specs.Alphabet.{path_symbols};
ghost use Rattle.rela_blocks.specs.Scenes.{lettering_of};

use crate::blocks::markers;
use rela_build::Letters;
use rela_labels::Partition;
use rela_names::Alphabet;
use rela_translate::Check;
use std::alloc::{AllocError, Global};

/// The letters by which the terms of the check are built, where these are blocks of its symbols, for
/// every flow or for one. Time: linear in the symbols and the members of the classes, and the letters
/// for each class. The only error is want of memory.
pub fn check_letters<'a>(
    alloc: Global,
    check: &'a Check,
    alphabet: &Alphabet,
    blocks: &'a Partition,
) -> Result<Letters<'a>, AllocError>
    requires classes { All (λ set. All (λ s. s < path_symbols alphabet.now) set.members)
        check.now.classes }
    requires blocks { AreLetterBlocks
        (lettering_of check.now (length alphabet.now) blocks.now) }
    ensures { IfOk result (λ letters.
        letters ≡ lettering_of check.now (length alphabet.now) blocks.now) }
{
    let count = markers(check);
    Letters::new(alloc, check.classes(), alphabet.len(), count, blocks)
}
