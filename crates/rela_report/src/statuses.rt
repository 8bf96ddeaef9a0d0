//! The exit status that the rows of a report give.

ghost use Rattle.std.specs.Prelude.{◌≡◌};
ghost use Rattle.std.specs.List.{list_any};
ghost use Rattle.rela_report.specs.Status.{status_of, is_compliant, is_violated, is_undecided, is_unselected};

use crate::rows::{ReportRow, Row};

/// The status where no row is violated or undecided.
pub const STATUS_MET: u8 = 0;

/// The status where some row is violated.
pub const STATUS_VIOLATED: u8 = 1;

/// The status where no row is violated, and some row is undecided.
pub const STATUS_UNDECIDED: u8 = 3;

/// The exit status of a report: [`STATUS_VIOLATED`] where a row is violated, else
/// [`STATUS_UNDECIDED`] where one is undecided, else [`STATUS_MET`]. Time: linear in the rows.
pub fn status(rows: &[ReportRow]) -> u8
    ensures { result ≡ status_of rows.now }
{
    if has_violated(rows) {
        STATUS_VIOLATED
    } else if has_undecided(rows) {
        STATUS_UNDECIDED
    } else {
        STATUS_MET
    }
}

/// Whether some row is violated.
fn has_violated(rows: &[ReportRow]) -> bool
    ensures { result ≡ list_any is_violated rows.now }
{
    rows.iter().any(is_violated)
}

/// Whether some row is undecided.
fn has_undecided(rows: &[ReportRow]) -> bool
    ensures { result ≡ list_any is_undecided rows.now }
{
    rows.iter().any(is_undecided)
}

/// Whether the row is that of a check that is met.
pub(crate) fn is_compliant(row: &ReportRow) -> bool
    ensures { result ≡ is_compliant row.now }
{
    matches!(
        row,
        ReportRow::Selected {
            row: Row::Compliant,
            ..
        }
    )
}

/// Whether the row is that of a check that isn't met.
pub(crate) fn is_violated(row: &ReportRow) -> bool
    ensures { result ≡ is_violated row.now }
{
    matches!(
        row,
        ReportRow::Selected {
            row: Row::Violated { .. },
            ..
        }
    )
}

/// Whether the row is that of a check whose verdict is left open.
pub(crate) fn is_undecided(row: &ReportRow) -> bool
    ensures { result ≡ is_undecided row.now }
{
    matches!(
        row,
        ReportRow::Selected {
            row: Row::Undecided,
            ..
        }
    )
}

/// Whether the row is that of a flow that no check selects.
pub(crate) fn is_unselected(row: &ReportRow) -> bool
    ensures { result ≡ is_unselected row.now }
{
    matches!(row, ReportRow::Unselected { .. })
}
