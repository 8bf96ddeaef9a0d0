//! The text of a report, written row by row.

ghost use Rattle.std.specs.Prelude.{◌≡◌, ◌++◌, ◌∷◌, [], List, ℕ, IfOk, OnOk};
ghost use Rattle.rela_report.specs.declared.rows.ReportRow.{ReportRow};
ghost use Rattle.rela_report.specs.Status.{status_of};
ghost use Rattle.rela_report.specs.Text.{report_text, RowHasTexts, VerdictHasTexts};
ghost use Rattle.rela_report.specs.Written.{written_of};

use crate::counts::{Counts, total_text};
use crate::lines::{push_selected_lines, push_unselected_line};
use crate::rows::{ReportRow, Row};
use crate::statuses::{STATUS_MET, STATUS_UNDECIDED, STATUS_VIOLATED};
use rela_names::{Alphabet, Name};
use std::alloc::{AllocError, Global};
use std::marker::Model;

/// The text of a report as far as it is written: the lines of the rows so far. Of a row no more is
/// kept than its text. Contracts see it as a `Written`: the lines, and how many rows there are of
/// each kind.
#[derive(Drop)]
pub struct ReportWriter {
    /// The lines.
    text: Vec<u8>,
    /// The counts of their rows. There are no more rows than bytes.
    counts: Counts,
}

impl Model for ReportWriter {
    ghost use Rattle.std.specs.Prelude.{◌≤◌, length};
    ghost use Rattle.rela_report.specs.Counted.{counted};
    ghost use Rattle.rela_report.specs.Written.{Written};

    ghost Value = { Written };

    ghost view = { λ writer. record {
      lines = writer.text.items;
      compliant = writer.counts.compliant;
      violated = writer.counts.violated;
      undecided = writer.counts.undecided;
      unselected = writer.counts.unselected;
    } };

    ghost invariant = { λ writer. counted writer.counts ≤ length writer.text.items };
}

impl ReportWriter {
    /// The text of no rows so far.
    pub fn new(alloc: Global) -> ReportWriter
        ensures { (names : List (List ℕ)) → result ≡ written_of names [] }
    {
        ReportWriter {
            text: Vec::new(alloc),
            counts: Counts::none(),
        }
    }

    /// Appends a row. Time and space: linear in its lines.
    ///
    /// # Errors
    ///
    /// Only where memory is wanted. What is written then is of no use.
    pub fn push(
        &mut self,
        alloc: Global,
        row: &ReportRow,
        alphabet: &Alphabet,
    ) -> Result<(), AllocError>
        requires { RowHasTexts alphabet.now row.now }
        ensures { OnOk result ((rows : List ReportRow) → self.old ≡ written_of alphabet.now rows →
            self.new ≡ written_of alphabet.now (rows ++ row.now ∷ [])) }
    {
        match row {
            ReportRow::Unselected { flow } => self.push_unselected(flow),
            ReportRow::Selected { flow, check, row } => {
                self.push_selected(alloc, flow, check, row, alphabet)
            }
        }
    }

    /// Appends the row of a flow that no check selects. Time and space: linear in its line.
    ///
    /// # Errors
    ///
    /// Only where memory is wanted. What is written then is of no use.
    pub fn push_unselected(&mut self, flow: &Name) -> Result<(), AllocError>
        ensures { OnOk result ((names : List (List ℕ)) (rows : List ReportRow) →
            self.old ≡ written_of names rows →
            self.new ≡ written_of names (rows ++ ReportRow.Unselected flow.now ∷ [])) }
    {
        push_unselected_line(&mut self.text, flow)?;
        self.counts.count_unselected();
        Ok(())
    }

    /// Appends the row of a flow under a check with this verdict. Words are written by
    /// [`Alphabet::text_of`]. Time and space: linear in its lines.
    ///
    /// # Errors
    ///
    /// Only where memory is wanted. What is written then is of no use.
    pub fn push_selected(
        &mut self,
        alloc: Global,
        flow: &Name,
        check: &Name,
        row: &Row,
        alphabet: &Alphabet,
    ) -> Result<(), AllocError>
        requires { VerdictHasTexts alphabet.now row.now }
        ensures { OnOk result ((rows : List ReportRow) → self.old ≡ written_of alphabet.now rows →
            self.new ≡ written_of alphabet.now
            (rows ++ ReportRow.Selected flow.now check.now row.now ∷ [])) }
    {
        push_selected_lines(alloc, &mut self.text, flow, check, row, alphabet)?;
        self.counts.count_verdict(row);
        Ok(())
    }

    /// The exit status of the rows so far: [`STATUS_VIOLATED`] where one is violated, else
    /// [`STATUS_UNDECIDED`] where one is undecided, else [`STATUS_MET`]. Time: constant.
    pub fn status(&self) -> u8
        ensures { (names : List (List ℕ)) (rows : List ReportRow) →
            self.now ≡ written_of names rows → result ≡ status_of rows }
    {
        if self.counts.violated > 0 {
            STATUS_VIOLATED
        } else if self.counts.undecided > 0 {
            STATUS_UNDECIDED
        } else {
            STATUS_MET
        }
    }

    /// The whole text: the lines of the rows, and then the total line. Time: that of one copy of the
    /// text at most.
    ///
    /// # Errors
    ///
    /// Only where memory is wanted.
    pub fn finish(self, alloc: Global) -> Result<Vec<u8>, AllocError>
        ensures { IfOk result (λ text. (names : List (List ℕ)) (rows : List ReportRow) →
            self ≡ written_of names rows → text.items ≡ report_text names rows) }
    {
        let ReportWriter { mut text, counts } = self;
        let last = total_text(alloc, counts.all(), &counts)?;
        text.extend_from_slice(last.as_slice())?;
        Ok(text)
    }
}
