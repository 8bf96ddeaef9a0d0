//! That the calls succeed; what they give is stated by their contracts.

use rela_names::{Alphabet, Name, NameError};
use rela_report::{ReportRow, Row, STATUS_UNDECIDED, status, text, total};
use std::alloc::{AllocError, Global};
use std::test::Fail;

/// Whether that was written.
fn gives(text: Result<Vec<u8>, AllocError>, line: &[u8]) -> bool {
    match text {
        Ok(text) => text.as_slice() == line,
        Err(_) => false,
    }
}

/// Whether the report of no rows is its last line.
fn writes_no_rows(alloc: Global) -> bool {
    let alphabet = Alphabet::new(Vec::new(alloc));
    gives(
        text(alloc, &[], &alphabet),
        b"total 0 compliant 0 violated 0 undecided 0 unselected 0\n",
    )
}

/// Whether of two rows one is undecided and one unselected.
fn counts(alloc: Global, rows: &[ReportRow]) -> bool {
    gives(
        total(alloc, rows),
        b"total 2 compliant 0 violated 0 undecided 1 unselected 1\n",
    ) && status(rows) == STATUS_UNDECIDED
}

/// Whether these are such rows: the first flow, which no check selects, and an undecided check of the second.
fn counts_flows(alloc: Global, first: Name, second: Name, check: Name) -> bool {
    let rows = [
        ReportRow::Unselected { flow: first },
        ReportRow::Selected {
            flow: second,
            check,
            row: Row::Undecided,
        },
    ];
    counts(alloc, &rows)
}

/// The same of the flows f1 and f2, and the check c1.
fn counts_two_rows(alloc: Global) -> Result<bool, NameError> {
    let first = Name::from_bytes(alloc, b"f1")?;
    let second = Name::from_bytes(alloc, b"f2")?;
    let check = Name::from_bytes(alloc, b"c1")?;
    Ok(counts_flows(alloc, first, second, check))
}

#[test]
fn writes_a_report(rt: HostRuntime) -> Result<(), Fail> {
    assert!(rt; writes_no_rows(rt.alloc()));
    assert!(rt; counts_two_rows(rt.alloc())?);
    Ok(())
}
