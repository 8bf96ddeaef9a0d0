//! The text of a report: a line or three for each row, or four where it tells which alternative is
//! to blame, and the total line.

ghost use Rattle.std.specs.Prelude.{◌≡◌, ◌++◌, All, count_by, length, IfOk, OnOk};
ghost use Rattle.rela_report.specs.Status.{is_violated};
ghost use Rattle.rela_report.specs.Blamed.{blamed_lines, blamed_text, zone_line};
ghost use Rattle.rela_report.specs.Text.{report_text, total_line, RowHasTexts};

use crate::counts::{Counts, push_count, total_text};
use crate::lines::push_row;
use crate::rows::ReportRow;
use crate::statuses::is_violated;
use crate::writing::ReportWriter;
use crate::zones::Zone;
use rela_names::Alphabet;
use std::alloc::{AllocError, Global};

/// The text of a report: the lines of each row, and then the total line. Words are written by
/// [`Alphabet::text_of`]. Time and space: linear in the text.
///
/// # Errors
///
/// Only where memory is wanted.
pub fn text(alloc: Global, rows: &[ReportRow], alphabet: &Alphabet) -> Result<Vec<u8>, AllocError>
    requires { All (RowHasTexts alphabet.now) rows.now }
    ensures { IfOk result (λ text. text.items ≡ report_text alphabet.now rows.now) }
{
    let mut writer = ReportWriter::new(alloc);
    for row in rows {
        writer.push(alloc, row, alphabet)?;
    }
    writer.finish(alloc)
}

/// The text of a report that tells of each violated row which alternative of its check's body
/// claimed the source: that of [`text`], with a line for each of the zones below the lines of its
/// row. The zones stand in the order of the violated rows, and there is one for each. Time and
/// space: linear in the text.
///
/// # Errors
///
/// Only where memory is wanted.
pub fn text_blamed(
    alloc: Global,
    rows: &[ReportRow],
    zones: &[Zone],
    alphabet: &Alphabet,
) -> Result<Vec<u8>, AllocError>
    requires texts { All (RowHasTexts alphabet.now) rows.now }
    requires one_each { length zones.now ≡ count_by is_violated rows.now }
    ensures { IfOk result (λ text. text.items ≡ blamed_text alphabet.now rows.now zones.now) }
{
    let mut text = blamed_texts(alloc, rows, zones, alphabet)?;
    let last = total(alloc, rows)?;
    text.extend_from_slice(last.as_slice())?;
    Ok(text)
}

/// The lines of each row, in their order, and below a violated one the line of its zone.
fn blamed_texts(
    alloc: Global,
    rows: &[ReportRow],
    zones: &[Zone],
    alphabet: &Alphabet,
) -> Result<Vec<u8>, AllocError>
    requires { All (RowHasTexts alphabet.now) rows.now }
    ensures { IfOk result (λ text. text.items ≡ blamed_lines alphabet.now rows.now zones.now) }
{
    let mut text = Vec::new(alloc);
    let mut left = zones;
    for row in rows {
        push_row(alloc, &mut text, row, alphabet)?;
        if is_violated(row) {
            if let Some((zone, others)) = left.split_first() {
                push_zone(alloc, &mut text, zone)?;
                left = others;
            }
        }
    }
    Ok(text)
}

/// Appends the line of a zone.
fn push_zone(alloc: Global, text: &mut Vec<u8>, zone: &Zone) -> Result<(), AllocError>
    ensures { OnOk result (text.new.items ≡ text.old.items ++ zone_line zone.now) }
{
    let mut line = String::new(alloc);
    push_count(&mut line, "  zone: ", zone.number as usize)?;
    push_count(&mut line, " at ", zone.at as usize)?;
    line.push_str("\n")?;
    let line = line.into_bytes();
    text.extend_from_slice(line.as_slice())
}

/// The total line alone, which tells the number of rows and the number of each kind. Time: linear
/// in the rows.
///
/// # Errors
///
/// Only where memory is wanted.
pub fn total(alloc: Global, rows: &[ReportRow]) -> Result<Vec<u8>, AllocError>
    ensures { IfOk result (λ text. text.items ≡ total_line rows.now) }
{
    total_text(alloc, rows.len(), &Counts::of(rows))
}
