//! The text of a deterministic automaton over blocks of symbols, by the symbols.
ghost use Rattle.std.specs.Prelude.{◌≡◌, ◌<◌, ◌≤◌, IfOk, length};
ghost use Rattle.rela_build.specs.Reading.{HoldsJust};
ghost use Rattle.rela_names.specs.Alphabet.{path_symbols};
ghost use Rattle.rela_engine.specs.Spelled.{spelled};
ghost use Rattle.rela_engine.specs.AutomatonText.{automaton_text as text_of};

use crate::letter_targets::letter_targets;
use crate::state_lines::{push_line, push_state};
use crate::symbol_targets::symbol_targets;
use rela_labels::{Partition, WideSet};
use rela_names::Alphabet;
use rela_subset::Dfa;
use std::alloc::{AllocError, Global};

/// The text of an automaton whose letters are the blocks of the path symbols: how many states it has,
/// and for each state to which states the path symbols lead. Time: for each state a step for each path
/// symbol, and a sort of the states to which they lead; space: linear in the text.
pub(crate) fn automaton_text(
    alloc: Global,
    dfa: &Dfa<WideSet>,
    blocks: &Partition,
    alphabet: &Alphabet,
) -> Result<Vec<u8>, AllocError>
    requires over { HoldsJust blocks.now (λ s. s < path_symbols alphabet.now) dfa.now.over }
    requires symbols { path_symbols alphabet.now ≤ length blocks.now }
    ensures { IfOk result (λ text. text.items
        ≡ text_of alphabet.now (spelled blocks.now (path_symbols alphabet.now) dfa.now)) }
{
    let mut text = Vec::new(alloc);
    push_line(&mut text, b"states ", dfa.states())?;
    for q in 0..dfa.states() {
        let by_letter = letter_targets(alloc, dfa, q)?;
        let row = symbol_targets(alloc, blocks, alphabet.len(), &by_letter)?;
        push_state(alloc, &mut text, alphabet, q, dfa.is_final(q), &row)?;
    }
    Ok(text)
}
