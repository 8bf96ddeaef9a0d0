//! The text of a run over assertions: a line for each row with one for each leaf that doesn't hold,
//! and the total line.

ghost use Rattle.std.specs.Prelude.{◌≡◌, ◌+◌, ◌++◌, All, IfOk, OnOk, codes, count_by, string_bytes};
ghost use Rattle.std.specs.List.{flat_map};
ghost use Rattle.rela_report.specs.Text.{count_text};
ghost use Rattle.rela_assertions.specs.Text.{LeafHasText, RowHasTexts, assertions_text, head_line, is_failing, is_holding, is_open, leaf_line, leaf_lines, row_lines, side_label, total_line, total_text, value_text};

use crate::row::AssertionRow;
use crate::statuses::{is_failing, is_holding, is_open};
use rela_compare::Which;
use rela_engine::Leaf;
use rela_names::Alphabet;
use rela_rir::Value;
use std::alloc::{AllocError, Global};

/// The text of the rows: the lines of each, and then the total line. Words are written by
/// [`Alphabet::text_of`]. Time and space: linear in the text and the leaves.
///
/// # Errors
///
/// Only where memory is wanted.
pub fn text(
    alloc: Global,
    rows: &[AssertionRow],
    alphabet: &Alphabet,
) -> Result<Vec<u8>, AllocError>
    requires { All (RowHasTexts alphabet.now) rows.now }
    ensures { IfOk result (λ text. text.items ≡ assertions_text alphabet.now rows.now) }
{
    let mut text = row_texts(alloc, rows, alphabet)?;
    let last = total(alloc, rows)?;
    text.extend_from_slice(last.as_slice())?;
    Ok(text)
}

/// The lines of each row, in their order.
fn row_texts(
    alloc: Global,
    rows: &[AssertionRow],
    alphabet: &Alphabet,
) -> Result<Vec<u8>, AllocError>
    requires { All (RowHasTexts alphabet.now) rows.now }
    ensures { IfOk result (λ text. text.items ≡ flat_map (row_lines alphabet.now) rows.now) }
{
    let mut text = Vec::new(alloc);
    for row in rows {
        push_row(alloc, &mut text, row, alphabet)?;
    }
    Ok(text)
}

/// Appends the lines of a row.
fn push_row(
    alloc: Global,
    text: &mut Vec<u8>,
    row: &AssertionRow,
    alphabet: &Alphabet,
) -> Result<(), AllocError>
    requires { RowHasTexts alphabet.now row.now }
    ensures { OnOk result (text.new.items ≡ text.old.items ++ row_lines alphabet.now row.now) }
{
    push_head(text, row)?;
    push_leaves(alloc, text, row.leaves.as_slice(), alphabet)
}

/// Appends the first line of a row.
fn push_head(text: &mut Vec<u8>, row: &AssertionRow) -> Result<(), AllocError>
    ensures { OnOk result (text.new.items ≡ text.old.items ++ head_line row.now) }
{
    text.extend_from_slice(b"flow ")?;
    text.extend_from_slice(row.flow.as_bytes())?;
    text.extend_from_slice(b" assert ")?;
    text.extend_from_slice(row.assertion.as_bytes())?;
    text.extend_from_slice(b" ")?;
    text.extend_from_slice(value_text(row.value))?;
    text.extend_from_slice(b"\n")?;
    Ok(())
}

/// The word for what is known.
fn value_text(value: Value) -> &'static [u8]
    ensures { result.now ≡ value_text value }
{
    match value {
        Value::Holds => b"holds",
        Value::Fails => b"fails",
        Value::Undecided => b"undecided",
    }
}

/// Appends the line of each leaf that doesn't hold; they are numbered from 1 on.
fn push_leaves(
    alloc: Global,
    text: &mut Vec<u8>,
    leaves: &[Leaf],
    alphabet: &Alphabet,
) -> Result<(), AllocError>
    requires { All (LeafHasText alphabet.now) leaves.now }
    ensures { OnOk result (text.new.items
        ≡ text.old.items ++ leaf_lines alphabet.now 1 leaves.now) }
{
    for (before, leaf) in leaves.iter().enumerate() {
        push_leaf(alloc, text, before + 1, leaf, alphabet)?;
    }
    Ok(())
}

/// Appends the line of the leaf of this number, if it doesn't hold.
fn push_leaf(
    alloc: Global,
    text: &mut Vec<u8>,
    number: usize,
    leaf: &Leaf,
    alphabet: &Alphabet,
) -> Result<(), AllocError>
    requires { LeafHasText alphabet.now leaf.now }
    ensures { OnOk result (text.new.items
        ≡ text.old.items ++ leaf_line alphabet.now number leaf.now) }
{
    match leaf {
        Leaf::Holds => Ok(()),
        Leaf::Fails { word, side } => {
            let spelled = alphabet.text_of(alloc, word.as_slice())?;
            let head = head_of(alloc, number)?;
            text.extend_from_slice(head.as_slice())?;
            text.extend_from_slice(side_label(*side))?;
            text.extend_from_slice(spelled.as_slice())?;
            text.extend_from_slice(b"\n")
        }
        Leaf::Undecided => {
            let head = head_of(alloc, number)?;
            text.extend_from_slice(head.as_slice())?;
            text.extend_from_slice(b": undecided\n")
        }
    }
}

/// How the line of the leaf of this number begins.
fn head_of(alloc: Global, number: usize) -> Result<Vec<u8>, AllocError>
    ensures { IfOk result (λ head. head.items ≡ count_text (codes "  leaf ") number) }
{
    let mut head = String::new(alloc);
    push_count(&mut head, "  leaf ", number)?;
    Ok(head.into_bytes())
}

/// What stands before the word of a leaf, by the term that has the word.
fn side_label(side: Which) -> &'static [u8]
    ensures { result.now ≡ side_label side }
{
    match side {
        Which::First => b": first: ",
        Which::Second => b": second: ",
    }
}

/// The total line, which tells the number of rows and the number of each value.
fn total(alloc: Global, rows: &[AssertionRow]) -> Result<Vec<u8>, AllocError>
    ensures { IfOk result (λ text. text.items ≡ total_line rows.now) }
{
    total_text(alloc, rows.len(), &Counts::of(rows))
}

/// How many rows there are of each value.
#[derive(Clone, Copy)]
struct Counts {
    /// The rows that hold.
    holding: usize,
    /// The rows that fail.
    failing: usize,
    /// The rows that are left open.
    undecided: usize,
}

impl Counts {
    /// The counts of these rows, in a pass for each value.
    fn of(rows: &[AssertionRow]) -> Counts
        ensures holding { result.holding ≡ count_by is_holding rows.now }
        ensures failing { result.failing ≡ count_by is_failing rows.now }
        ensures undecided { result.undecided ≡ count_by is_open rows.now }
    {
        Counts {
            holding: rows.iter().filter(|row| is_holding(row)).count(),
            failing: rows.iter().filter(|row| is_failing(row)).count(),
            undecided: rows.iter().filter(|row| is_open(row)).count(),
        }
    }
}

/// The total line of so many rows with these counts, with its line feed.
fn total_text(alloc: Global, rows: usize, counts: &Counts) -> Result<Vec<u8>, AllocError>
    ensures { IfOk result (λ text. text.items
        ≡ total_text rows counts.now.holding counts.now.failing counts.now.undecided) }
{
    let mut text = String::new(alloc);
    push_count(&mut text, "total ", rows)?;
    push_count(&mut text, " holds ", counts.holding)?;
    push_count(&mut text, " fails ", counts.failing)?;
    push_count(&mut text, " undecided ", counts.undecided)?;
    text.push_str("\n")?;
    Ok(text.into_bytes())
}

/// Appends a label and a decimal number.
#[tactic(auto, unfolding(rela_report::specs::Text::count_text))]
fn push_count(text: &mut String, label: &str, n: usize) -> Result<(), AllocError>
    ensures { OnOk result (string_bytes text.new ≡ string_bytes text.old
        ++ count_text label.now n) }
{
    write!(text, "{label}{n}")
}
