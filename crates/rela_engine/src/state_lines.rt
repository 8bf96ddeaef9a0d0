//! The lines of a state in the text of an automaton.
ghost use Rattle.std.specs.Prelude.{◌≡◌, ℕ, ◌<◌, ◌++◌, codes, All, OnOk, length};
ghost use Rattle.std.specs.Fmt.{decimal};
ghost use Rattle.std.specs.List.{flat_map};
ghost use Rattle.rela_labels.specs.Apart.{IsAscending};
ghost use Rattle.rela_names.specs.Alphabet.{path_symbols};
ghost use Rattle.rela_names.specs.Symbol.{word_text};
ghost use Rattle.rela_report.specs.Text.{line};
ghost use Rattle.rela_engine.specs.AutomatonText.{number_line, state_line, state_lines, to_line};

use crate::symbol_targets::{symbols_by_target, targets_besides};
use rela_names::{Alphabet, Symbol};
use std::alloc::{AllocError, Global};

/// Appends the lines of a state: its number and whether it accepts; the symbols that lead to each state
/// but the one to which `loop` leads; and that one.
pub(crate) fn push_state(
    alloc: Global,
    text: &mut Vec<u8>,
    alphabet: &Alphabet,
    q: usize,
    accepts: bool,
    row: &[usize],
) -> Result<(), AllocError>
    requires { length row.now ≡ path_symbols alphabet.now }
    ensures { OnOk result ((states : ℕ) → All (λ to. to < states) row.now → text.new.items
        ≡ text.old.items ++ state_lines alphabet.now states q accepts row.now) }
{
    let other = row[alphabet.loop_symbol() as usize];
    let targets = targets_besides(alloc, row, other)?;
    push_state_line(text, q, accepts)?;
    push_targets(alloc, text, alphabet, row, &targets)?;
    push_line(text, b"  else to ", other)
}

/// Appends the first line of a state.
fn push_state_line(text: &mut Vec<u8>, q: usize, accepts: bool) -> Result<(), AllocError>
    ensures { OnOk result (text.new.items ≡ text.old.items ++ state_line q accepts) }
{
    text.extend_from_slice(b"state ")?;
    push_decimal(text, q)?;
    if accepts {
        text.extend_from_slice(b" accept\n")
    } else {
        text.extend_from_slice(b"\n")
    }
}

/// Appends a line for each of the targets, which ascend: the symbols that lead to it.
fn push_targets(
    alloc: Global,
    text: &mut Vec<u8>,
    alphabet: &Alphabet,
    row: &[usize],
    targets: &[usize],
) -> Result<(), AllocError>
    requires row { length row.now ≡ path_symbols alphabet.now }
    requires ascending { IsAscending targets.now }
    ensures { OnOk result (text.new.items ≡ text.old.items
        ++ flat_map (to_line alphabet.now row.now) targets.now) }
{
    prove!(row.len() == alphabet.len() as usize);
    let symbols = symbols_by_target(alloc, row, targets)?;
    for i in 0..targets.len() {
        push_target(alloc, text, alphabet, targets[i], &symbols[i])?;
    }
    Ok(())
}

/// Appends the line of the symbols that lead to a state.
fn push_target(
    alloc: Global,
    text: &mut Vec<u8>,
    alphabet: &Alphabet,
    to: usize,
    symbols: &[Symbol],
) -> Result<(), AllocError>
    requires { All (λ s. s < path_symbols alphabet.now) symbols.now }
    ensures { OnOk result (text.new.items ≡ text.old.items ++ (codes "  to " ++ (decimal to
        ++ (codes " : " ++ line (word_text alphabet.now symbols.now))))) }
{
    let spelled = alphabet.text_of(alloc, symbols)?;
    text.extend_from_slice(b"  to ")?;
    push_decimal(text, to)?;
    text.extend_from_slice(b" : ")?;
    text.extend_from_slice(&spelled)?;
    text.push(b'\n')?;
    Ok(())
}

/// Appends a line of a label and a number.
pub(crate) fn push_line(text: &mut Vec<u8>, label: &[u8], n: usize) -> Result<(), AllocError>
    ensures { OnOk result (text.new.items ≡ text.old.items ++ number_line label.now n) }
{
    text.extend_from_slice(label)?;
    push_decimal(text, n)?;
    text.push(b'\n')?;
    Ok(())
}

/// Appends the number in decimal.
fn push_decimal(text: &mut Vec<u8>, n: usize) -> Result<(), AllocError>
    ensures { OnOk result (text.new.items ≡ text.old.items ++ decimal n) }
{
    let mut digits = itoa::Buffer::new();
    text.extend_from_slice(digits.format(n).as_bytes())
}
