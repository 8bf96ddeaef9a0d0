//! The lines of a row: one, and two more below it where it is violated.

ghost use Rattle.std.specs.Prelude.{◌≡◌, ◌≤◌, ◌++◌, List, ℕ, length, OnOk};
ghost use Rattle.rela_names.specs.Symbol.{word_text};
ghost use Rattle.rela_report.specs.Text.{row_lines, verdict_lines, word_label, source_label, line, HasTexts, VerdictHasTexts, RowHasTexts};

use crate::rows::{ReportRow, Row, Side};
use rela_names::{Alphabet, Name, Symbol};
use std::alloc::{AllocError, Global};

/// Appends the lines of a row.
///
/// # Errors
///
/// Only where memory is wanted.
pub(crate) fn push_row(
    alloc: Global,
    text: &mut Vec<u8>,
    row: &ReportRow,
    alphabet: &Alphabet,
) -> Result<(), AllocError>
    requires { RowHasTexts alphabet.now row.now }
    ensures { OnOk result (text.new.items ≡ text.old.items ++ row_lines alphabet.now row.now) }
{
    match row {
        ReportRow::Unselected { flow } => push_unselected_line(text, flow),
        ReportRow::Selected { flow, check, row } => {
            push_selected_lines(alloc, text, flow, check, row, alphabet)
        }
    }
}

/// Appends the line of a flow that no check selects. Where that fails, a part of it may stand there.
///
/// # Errors
///
/// Only where memory is wanted.
pub(crate) fn push_unselected_line(text: &mut Vec<u8>, flow: &Name) -> Result<(), AllocError>
    ensures line { OnOk result ((names : List (List ℕ)) → text.new.items
        ≡ text.old.items ++ row_lines names (ReportRow.Unselected flow.now)) }
    ensures grown { length text.old.items ≤ length text.new.items }
{
    text.extend_from_slice(b"flow ")?;
    text.extend_from_slice(flow.as_bytes())?;
    text.extend_from_slice(b" unselected\n")?;
    Ok(())
}

/// Appends the lines of a flow under a check with this verdict. Where that fails, a part of them may
/// stand there.
///
/// # Errors
///
/// Only where memory is wanted.
pub(crate) fn push_selected_lines(
    alloc: Global,
    text: &mut Vec<u8>,
    flow: &Name,
    check: &Name,
    row: &Row,
    alphabet: &Alphabet,
) -> Result<(), AllocError>
    requires { VerdictHasTexts alphabet.now row.now }
    ensures lines { OnOk result (text.new.items ≡ text.old.items
        ++ row_lines alphabet.now (ReportRow.Selected flow.now check.now row.now)) }
    ensures grown { length text.old.items ≤ length text.new.items }
{
    text.extend_from_slice(b"flow ")?;
    text.extend_from_slice(flow.as_bytes())?;
    text.extend_from_slice(b" check ")?;
    text.extend_from_slice(check.as_bytes())?;
    push_verdict(alloc, text, row, alphabet)
}

/// Appends the verdict, which ends a row's first line, and the two lines below it where it is a
/// violation.
fn push_verdict(
    alloc: Global,
    text: &mut Vec<u8>,
    row: &Row,
    alphabet: &Alphabet,
) -> Result<(), AllocError>
    requires { VerdictHasTexts alphabet.now row.now }
    ensures lines { OnOk result (text.new.items ≡ text.old.items
        ++ verdict_lines alphabet.now row.now) }
    ensures grown { length text.old.items ≤ length text.new.items }
{
    match row {
        Row::Compliant => text.extend_from_slice(b" compliant\n"),
        Row::Undecided => text.extend_from_slice(b" undecided\n"),
        Row::Violated { word, side, source } => {
            let (word_label, source_label) = labels(*side);
            text.extend_from_slice(b" violated\n")?;
            push_word(alloc, text, word_label, word.as_slice(), alphabet)?;
            push_word(alloc, text, source_label, source.as_slice(), alphabet)
        }
    }
}

/// What stands before the word and what stands before its source, by the side that has the word.
fn labels(side: Side) -> (&'static [u8], &'static [u8])
    ensures word { result.0.now ≡ word_label side }
    ensures source { result.1.now ≡ source_label side }
{
    match side {
        Side::Before => (b"  missing: ", b"  before: "),
        Side::After => (b"  extra: ", b"  after: "),
    }
}

/// Appends a line of a label and the text of a word.
fn push_word(
    alloc: Global,
    text: &mut Vec<u8>,
    label: &[u8],
    word: &[Symbol],
    alphabet: &Alphabet,
) -> Result<(), AllocError>
    requires { HasTexts alphabet.now word.now }
    ensures line { OnOk result (text.new.items ≡ text.old.items
        ++ line (label.now ++ word_text alphabet.now word.now)) }
    ensures grown { length text.old.items ≤ length text.new.items }
{
    let spelled = alphabet.text_of(alloc, word)?;
    text.extend_from_slice(label)?;
    text.extend_from_slice(spelled.as_slice())?;
    text.push(b'\n')?;
    Ok(())
}
