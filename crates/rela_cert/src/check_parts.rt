//! The blocks of a check's symbols and the terms of its relations, made once.

ghost use Rattle.std.specs.Prelude.{◌<◌, IfOk, All, length};
ghost use Rattle.rela_translate.specs.Zones.{path_symbols};
ghost use Rattle.rela_cert.specs.CheckRelations.{AreCheckParts};

use rela_blocks::check_blocks;
use rela_labels::Partition;
use rela_names::Alphabet;
use rela_translate::{Check, Relations, translate};
use std::alloc::{AllocError, Global};

/// What a check's relations are made of, whatever is listed of its rows.
#[derive(Drop)]
pub(crate) struct CheckParts {
    /// The blocks of its symbols.
    pub(crate) blocks: Partition,
    /// The terms of its two relations.
    pub(crate) terms: Relations,
}

/// The blocks of the check's symbols, and the terms of its relations. Time and space: linear in the
/// symbols, the members of the classes, and the nodes of the terms. The only error is want of memory.
pub(crate) fn check_parts(
    alloc: Global,
    check: &Check,
    alphabet: &Alphabet,
) -> Result<CheckParts, AllocError>
    requires { All (λ set. All (λ s. s < path_symbols (length alphabet.now)) set.members)
        check.now.classes }
    ensures { IfOk result (AreCheckParts check.now (length alphabet.now)) }
{
    let blocks = check_blocks(alloc, check, alphabet)?;
    let terms = translate(alloc, check, alphabet)?;
    Ok(CheckParts { blocks, terms })
}
