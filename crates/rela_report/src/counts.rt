//! How many rows of a report there are of each kind, and the total line, which tells it.

ghost use Rattle.std.specs.Prelude.{◌≡◌, ◌+◌, ◌<◌, ◌≤◌, ◌++◌, List, ℕ, count_by, string_bytes, IfOk, OnOk};
ghost use Rattle.rela_report.specs.Counted.{CountsOneMore, counted};
ghost use Rattle.rela_report.specs.Status.{is_compliant, is_violated, is_undecided, is_unselected};
ghost use Rattle.rela_report.specs.Text.{total_text, count_text};

use crate::rows::{ReportRow, Row};
use crate::statuses::{is_compliant, is_undecided, is_unselected, is_violated};
use std::alloc::{AllocError, Global};

/// How many rows there are of each kind.
#[derive(Clone, Copy)]
pub(crate) struct Counts {
    /// The rows of checks that are met.
    pub(crate) compliant: usize,
    /// The rows of checks that aren't met.
    pub(crate) violated: usize,
    /// The rows of checks whose verdict is left open.
    pub(crate) undecided: usize,
    /// The rows of flows that no check selects.
    pub(crate) unselected: usize,
}

impl Counts {
    /// The counts of no rows.
    pub(crate) fn none() -> Counts
        ensures compliant { result.compliant ≡ 0 }
        ensures violated { result.violated ≡ 0 }
        ensures undecided { result.undecided ≡ 0 }
        ensures unselected { result.unselected ≡ 0 }
    {
        Counts {
            compliant: 0,
            violated: 0,
            undecided: 0,
            unselected: 0,
        }
    }

    /// The counts of these rows, in a pass for each kind.
    pub(crate) fn of(rows: &[ReportRow]) -> Counts
        ensures compliant { result.compliant ≡ count_by is_compliant rows.now }
        ensures violated { result.violated ≡ count_by is_violated rows.now }
        ensures undecided { result.undecided ≡ count_by is_undecided rows.now }
        ensures unselected { result.unselected ≡ count_by is_unselected rows.now }
    {
        Counts {
            compliant: rows.iter().filter(|row| is_compliant(row)).count(),
            violated: rows.iter().filter(|row| is_violated(row)).count(),
            undecided: rows.iter().filter(|row| is_undecided(row)).count(),
            unselected: rows.iter().filter(|row| is_unselected(row)).count(),
        }
    }

    /// How many rows there are, of all kinds together.
    pub(crate) fn all(&self) -> usize
        requires { counted self.now ≤ usize.MAX }
        ensures { result ≡ counted self.now }
    {
        self.compliant + self.violated + self.undecided + self.unselected
    }

    /// Counts one more row, of a check with this verdict.
    pub(crate) fn count_verdict(&mut self, row: &Row)
        requires { counted self.old < usize.MAX }
        ensures kinds { (flow check : List ℕ) →
            CountsOneMore self.old self.new (ReportRow.Selected flow check row.now) }
        ensures all { counted self.new ≡ counted self.old + 1 }
    {
        match row {
            Row::Compliant => self.compliant += 1,
            Row::Violated { .. } => self.violated += 1,
            Row::Undecided => self.undecided += 1,
        }
    }

    /// Counts one more row, of a flow that no check selects.
    pub(crate) fn count_unselected(&mut self)
        requires { counted self.old < usize.MAX }
        ensures kinds { (flow : List ℕ) →
            CountsOneMore self.old self.new (ReportRow.Unselected flow) }
        ensures all { counted self.new ≡ counted self.old + 1 }
    {
        self.unselected += 1;
    }
}

/// The total line of so many rows with these counts, with its line feed.
///
/// # Errors
///
/// Only where memory is wanted.
pub(crate) fn total_text(alloc: Global, rows: usize, counts: &Counts) -> Result<Vec<u8>, AllocError>
    ensures { IfOk result (λ text. text.items
        ≡ total_text rows counts.now.compliant counts.now.violated counts.now.undecided
        counts.now.unselected) }
{
    let mut text = String::new(alloc);
    push_count(&mut text, "total ", rows)?;
    push_count(&mut text, " compliant ", counts.compliant)?;
    push_count(&mut text, " violated ", counts.violated)?;
    push_count(&mut text, " undecided ", counts.undecided)?;
    push_count(&mut text, " unselected ", counts.unselected)?;
    text.push_str("\n")?;
    Ok(text.into_bytes())
}

/// Appends a label and a decimal number.
#[tactic(auto, unfolding(crate::specs::Text::count_text))]
pub(crate) fn push_count(text: &mut String, label: &str, n: usize) -> Result<(), AllocError>
    ensures { OnOk result (string_bytes text.new ≡ string_bytes text.old
        ++ count_text label.now n) }
{
    write!(text, "{label}{n}")
}
