//! The exit status of a run over assertions.

ghost use Rattle.std.specs.Prelude.{◌≡◌};
ghost use Rattle.std.specs.List.{list_any};
ghost use Rattle.rela_assertions.specs.Text.{is_failing, is_holding, is_open, status_of};

use crate::row::AssertionRow;
use rela_rir::Value;

/// The status where each row holds.
const HOLDS: u8 = 0;

/// The status where some row fails.
const FAILS: u8 = 1;

/// The status where no row fails, and some row is left open.
const UNDECIDED: u8 = 3;

/// The exit status of the rows. Time: linear in them.
pub fn status(rows: &[AssertionRow]) -> u8
    ensures { result ≡ status_of rows.now }
{
    if has_failing(rows) {
        FAILS
    } else if has_open(rows) {
        UNDECIDED
    } else {
        HOLDS
    }
}

/// Whether some row fails.
fn has_failing(rows: &[AssertionRow]) -> bool
    ensures { result ≡ list_any is_failing rows.now }
{
    rows.iter().any(is_failing)
}

/// Whether some row is left open.
fn has_open(rows: &[AssertionRow]) -> bool
    ensures { result ≡ list_any is_open rows.now }
{
    rows.iter().any(is_open)
}

/// Whether the row holds.
pub(crate) fn is_holding(row: &AssertionRow) -> bool
    ensures { result ≡ is_holding row.now }
{
    matches!(row.value, Value::Holds)
}

/// Whether the row fails.
pub(crate) fn is_failing(row: &AssertionRow) -> bool
    ensures { result ≡ is_failing row.now }
{
    matches!(row.value, Value::Fails)
}

/// Whether the row is left open.
pub(crate) fn is_open(row: &AssertionRow) -> bool
    ensures { result ≡ is_open row.now }
{
    matches!(row.value, Value::Undecided)
}
