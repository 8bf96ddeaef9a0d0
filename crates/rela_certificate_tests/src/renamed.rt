//! Rows of flows of one shape, whose blocks may differ in no more than the names of locations.

use crate::answers::{Case, Change, Text, audit, bytes, hold};
use crate::network::{END, F1, F3, FLOWS, NEXT, P2, P3};
use std::alloc::{AllocError, Global};
use std::process::Abort;

/// f1 over r2, and f3 over r3.
const APART: Text = &[FLOWS, F1, P2, NEXT, F3, P3, END];

/// Both stay.
const KEPT: &Change = &Change {
    before: APART,
    after: APART,
    spec: &["level device; check c1 : { .* : preserve };"],
};

/// The row of f1, and the first two lines of that of f3: nine lines.
const ROWS: &str = "rela certificate 1\nrow f1 c1\nimages\n0 0\n0 1\n1 1\n3 3\nrow f3 c1\nimages\n";

/// A certificate, and what an audit of it says.
struct Renamed(Text, &'static str);

impl Case for Renamed {
    fn holds(&self, rt: &impl Abort, alloc: Global, place: usize) -> Result<(), AllocError> {
        let Renamed(certificate, text) = self;
        let audited = audit(alloc, KEPT, bytes(alloc, certificate)?)?;
        assert_eq!(rt; audited.text.as_slice(), text.as_bytes(), "case {place}");
        Ok(())
    }
}

const CASES: &[Renamed] = &[
    // The words of f1, with r3 for r2.
    Renamed(&[ROWS, "0 0\n0 2\n1 2\n3 3\nend\n"], "accepted 2\n"),
    // Words in another order than those of f1.
    Renamed(&[ROWS, "0 0\n0 1\n1 2\n3 3\nend\n"], "accepted 2\n"),
    // The words of f1 as they are.
    Renamed(&[ROWS, "0 0\n0 1\n1 1\n3 3\nend\n"], "rejected at 9\n"),
    // With r3 for r2, but one word, its last symbol or what it continues is another.
    Renamed(&[ROWS, "0 0\n0 2\n1 2\nend\n"], "rejected at 9\n"),
    Renamed(&[ROWS, "0 0\n0 2\n1 2\n3 4\nend\n"], "rejected at 9\n"),
    Renamed(&[ROWS, "0 0\n0 2\n1 2\n2 3\nend\n"], "rejected at 9\n"),
];

#[test]
fn tells_blocks_apart_by_names(rt: HostRuntime) -> Result<(), AllocError> {
    hold(&rt, rt.alloc(), CASES)
}
