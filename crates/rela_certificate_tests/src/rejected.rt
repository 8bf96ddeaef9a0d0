//! Certificates that an audit rejects, and the lines that it says so of.

use crate::answers::{Case, Change, Text, audit, bytes, hold};
use crate::network::{OVER_R2, OVER_R3, THREE_FLOWS};
use rela_top::VIOLATED;
use std::alloc::{AllocError, Global};
use std::process::Abort;

const PRESERVE: Text = &["level device; check c1 : { .* : preserve };"];

/// One row, of a check without complements.
const KEPT: &Change = &Change {
    before: OVER_R2,
    after: OVER_R2,
    spec: PRESERVE,
};

/// One row, whose check is violated.
const MOVED: &Change = &Change {
    before: OVER_R2,
    after: OVER_R3,
    spec: PRESERVE,
};

/// One row, of a check with two complements.
const COMPLEMENTS: &Change = &Change {
    before: OVER_R2,
    after: OVER_R2,
    spec: &["level device; check c1 : { !(r1 r3 r4) : preserve };"],
};

/// One row, of a check with a marker and one complement.
const MARKED: &Change = &Change {
    before: OVER_R2,
    after: OVER_R2,
    spec: &["level device; check c1 : { r1 r2 r4 : any(r1 r2 r4) };"],
};

/// Two rows of f1, one of f2, and none of f3.
const ROWS: &Change = &Change {
    before: THREE_FLOWS,
    after: THREE_FLOWS,
    spec: &[
        "level device;",
        "check one for flow f1 : { .* : preserve };",
        "check two for dst in 10.0.0.0/16 : { .* : preserve };",
    ],
};

/// A change, a text, and the line that an audit of the text names.
struct Rejected(&'static Change, Text, usize);

impl Case for Rejected {
    fn holds(&self, rt: &impl Abort, alloc: Global, place: usize) -> Result<(), AllocError> {
        let Rejected(change, certificate, line) = self;
        let audited = audit(alloc, change, bytes(alloc, certificate)?)?;
        let rejected = format!(in alloc; "rejected at {line}\n")?;
        assert_eq!(rt;
            audited.text.as_slice(),
            rejected.as_bytes(),
            "case {place}"
        );
        assert_eq!(rt; audited.status, VIOLATED, "case {place}");
        Ok(())
    }
}

/// The first line.
const HEADER: &str = "rela certificate 1\n";

/// The first two lines.
const ROW: &str = "rela certificate 1\nrow f1 c1\n";

/// The first three lines of a certificate of a check without complements.
const IMAGES: &str = "rela certificate 1\nrow f1 c1\nimages\n";

/// The words that tell apart what is read of r1 r2 r4: four lines.
const WORDS: &str = "0 0\n0 1\n1 1\n3 3\n";

/// A block of the complement of r1 r3 r4: five lines.
const COMPLEMENT: &str = "complement\n0 0\n0 1\n1 2\n3 3\n";

/// A hundred digits.
const DIGITS: &str =
    "1234567890123456789012345678901234567890123456789012345678901234567890123456789012345678901234567890";

const LINES: &[Rejected] = &[
    Rejected(KEPT, &[], 1),
    Rejected(KEPT, &["\n"], 1),
    Rejected(KEPT, &["end\n"], 1),
    Rejected(KEPT, &["row f1 c1\nimages\n", WORDS, "end\n"], 1),
    Rejected(KEPT, &["rela certificate 2\nend\n"], 1),
    Rejected(KEPT, &["rela certificate 1 \nend\n"], 1),
    Rejected(KEPT, &["rela certificate 1\r\nend\r\n"], 1),
    Rejected(KEPT, &["\u{feff}rela certificate 1\nend\n"], 1),
    Rejected(KEPT, &["rela certificate 1"], 1),
    Rejected(KEPT, &[HEADER], 2),
    Rejected(KEPT, &[HEADER, "end"], 2),
    Rejected(KEPT, &[HEADER, "\nend\n"], 2),
    Rejected(KEPT, &[HEADER, "END\n"], 2),
    Rejected(KEPT, &[HEADER, HEADER, "end\n"], 2),
    Rejected(KEPT, &[HEADER, "end\n\n"], 3),
    Rejected(KEPT, &[HEADER, "end\n "], 3),
    Rejected(KEPT, &[HEADER, "end\nend\n"], 3),
    Rejected(
        KEPT,
        &[HEADER, "end\nrow f1 c1\nimages\n", WORDS, "end\n"],
        3,
    ),
    Rejected(KEPT, &[IMAGES, WORDS], 8),
    Rejected(KEPT, &[IMAGES, WORDS, "end"], 8),
    Rejected(KEPT, &[IMAGES, WORDS, "end\nend\n"], 9),
];

#[test]
fn names_the_line_that_is_no_certificates(rt: HostRuntime) -> Result<(), AllocError> {
    hold(&rt, rt.alloc(), LINES)
}

const STEPS: &[Rejected] = &[
    // The first number of a line is that of a word above it.
    Rejected(KEPT, &[IMAGES, "1 0\nend\n"], 4),
    Rejected(KEPT, &[IMAGES, "0 0\n0 1\n3 1\nend\n"], 6),
    Rejected(KEPT, &[IMAGES, "0 0\n0 1\n4294967295 1\nend\n"], 6),
    Rejected(KEPT, &[IMAGES, "0 0\n0 1\n4294967296 1\nend\n"], 6),
    Rejected(
        KEPT,
        &[IMAGES, "0 0\n0 1\n18446744073709551616 1\nend\n"],
        6,
    ),
    // The symbols of a check without markers end with 5, the number of `loop`.
    Rejected(KEPT, &[IMAGES, "0 6\nend\n"], 4),
    Rejected(KEPT, &[IMAGES, "0 0\n0 5\n0 6\nend\n"], 6),
    Rejected(KEPT, &[IMAGES, "0 4294967296\nend\n"], 4),
    Rejected(KEPT, &[IMAGES, "0 18446744073709551616\nend\n"], 4),
    // A marker stands in an images block alone.
    Rejected(MARKED, &[ROW, "complement\n0 6\n"], 4),
    Rejected(
        MARKED,
        &[ROW, "complement\n", WORDS, "images\n0 6\n0 7\n"],
        10,
    ),
    // A thousand digits.
    Rejected(
        KEPT,
        &[
            IMAGES, "0 ", DIGITS, DIGITS, DIGITS, DIGITS, DIGITS, DIGITS, DIGITS, DIGITS, DIGITS,
            DIGITS, "\nend\n",
        ],
        4,
    ),
    Rejected(
        KEPT,
        &[
            IMAGES,
            DIGITS,
            DIGITS,
            DIGITS,
            DIGITS,
            DIGITS,
            DIGITS,
            DIGITS,
            DIGITS,
            DIGITS,
            DIGITS,
            " 0\nend\n",
        ],
        4,
    ),
    // Numbers are written in one way, with one blank between them.
    Rejected(KEPT, &[IMAGES, "00 0\nend\n"], 4),
    Rejected(KEPT, &[IMAGES, "0 00\nend\n"], 4),
    Rejected(KEPT, &[IMAGES, "0 01\nend\n"], 4),
    Rejected(KEPT, &[IMAGES, "+0 0\nend\n"], 4),
    Rejected(KEPT, &[IMAGES, "0 -0\nend\n"], 4),
    Rejected(KEPT, &[IMAGES, "0 0x0\nend\n"], 4),
    Rejected(KEPT, &[IMAGES, "0  0\nend\n"], 4),
    Rejected(KEPT, &[IMAGES, " 0 0\nend\n"], 4),
    Rejected(KEPT, &[IMAGES, "0 0 \nend\n"], 4),
    Rejected(KEPT, &[IMAGES, "0\t0\nend\n"], 4),
    Rejected(KEPT, &[IMAGES, "0 0\r\nend\n"], 4),
    Rejected(KEPT, &[IMAGES, "0 0 0\nend\n"], 4),
    Rejected(KEPT, &[IMAGES, "0\nend\n"], 4),
    Rejected(KEPT, &[IMAGES, "0 \nend\n"], 4),
    Rejected(KEPT, &[IMAGES, " 0\nend\n"], 4),
    Rejected(KEPT, &[IMAGES, "\nend\n"], 4),
];

#[test]
fn names_the_line_that_is_no_word(rt: HostRuntime) -> Result<(), AllocError> {
    hold(&rt, rt.alloc(), STEPS)
}

/// A certificate of the check one of f1, without its last line: seven lines.
const FIRST: &str = "rela certificate 1\nrow f1 one\nimages\n0 0\n0 1\n1 1\n3 3\n";

const BLOCKS: &[Rejected] = &[
    // No check of that name selects a flow of that name.
    Rejected(KEPT, &[HEADER, "row f9 c1\nimages\n", WORDS, "end\n"], 2),
    Rejected(KEPT, &[HEADER, "row f1 c9\nimages\n", WORDS, "end\n"], 2),
    Rejected(KEPT, &[HEADER, "row c1 f1\nimages\n", WORDS, "end\n"], 2),
    Rejected(KEPT, &[HEADER, "row f1\nimages\n", WORDS, "end\n"], 2),
    Rejected(KEPT, &[HEADER, "row f1 c1 \nimages\n", WORDS, "end\n"], 2),
    Rejected(KEPT, &[HEADER, "row  f1 c1\nimages\n", WORDS, "end\n"], 2),
    Rejected(ROWS, &[FIRST, "row f2 one\nimages\n", WORDS, "end\n"], 8),
    Rejected(ROWS, &[FIRST, "row f3 two\nimages\n", WORDS, "end\n"], 8),
    // A row that is listed twice, and rows out of order.
    Rejected(
        KEPT,
        &[IMAGES, WORDS, "row f1 c1\nimages\n", WORDS, "end\n"],
        8,
    ),
    Rejected(ROWS, &[FIRST, "row f1 one\nimages\n", WORDS, "end\n"], 8),
    Rejected(
        ROWS,
        &[
            HEADER,
            "row f1 two\nimages\n",
            WORDS,
            "row f1 one\nimages\n",
            WORDS,
            "end\n",
        ],
        8,
    ),
    Rejected(
        ROWS,
        &[
            HEADER,
            "row f2 two\nimages\n",
            WORDS,
            "row f1 two\nimages\n",
            WORDS,
            "end\n",
        ],
        8,
    ),
    // A block too few.
    Rejected(KEPT, &[ROW, "end\n"], 3),
    Rejected(KEPT, &[ROW, WORDS, "end\n"], 3),
    Rejected(KEPT, &[ROW, "row f1 c1\nimages\n", WORDS, "end\n"], 3),
    Rejected(COMPLEMENTS, &[ROW, "images\n", WORDS, "end\n"], 3),
    Rejected(
        COMPLEMENTS,
        &[ROW, COMPLEMENT, "images\n", WORDS, "end\n"],
        8,
    ),
    Rejected(COMPLEMENTS, &[ROW, COMPLEMENT, COMPLEMENT, "end\n"], 13),
    // A block too many.
    Rejected(KEPT, &[ROW, COMPLEMENT, "images\n", WORDS, "end\n"], 3),
    Rejected(KEPT, &[IMAGES, WORDS, "images\n", WORDS, "end\n"], 8),
    Rejected(KEPT, &[IMAGES, WORDS, COMPLEMENT, "end\n"], 8),
    Rejected(
        COMPLEMENTS,
        &[
            ROW, COMPLEMENT, COMPLEMENT, COMPLEMENT, "images\n", WORDS, "end\n",
        ],
        13,
    ),
];

#[test]
fn names_the_line_that_is_no_row_or_block(rt: HostRuntime) -> Result<(), AllocError> {
    hold(&rt, rt.alloc(), BLOCKS)
}

const HEADS: &[Rejected] = &[
    // What may follow a word is missing.
    Rejected(KEPT, &[IMAGES, "end\n"], 3),
    Rejected(KEPT, &[IMAGES, "0 0\nend\n"], 3),
    Rejected(KEPT, &[IMAGES, "0 0\n0 1\n1 1\nend\n"], 3),
    Rejected(KEPT, &[IMAGES, "0 0\n1 1\n2 3\nend\n"], 3),
    Rejected(
        COMPLEMENTS,
        &[
            ROW,
            "complement\n0 0\n0 1\n1 2\n",
            COMPLEMENT,
            "images\n",
            WORDS,
            "end\n",
        ],
        3,
    ),
    Rejected(
        COMPLEMENTS,
        &[
            ROW,
            COMPLEMENT,
            "complement\n0 0\n0 1\n1 2\n",
            "images\n",
            WORDS,
            "end\n",
        ],
        8,
    ),
    Rejected(
        COMPLEMENTS,
        &[ROW, COMPLEMENT, COMPLEMENT, "images\n0 0\n0 1\nend\n"],
        13,
    ),
    Rejected(
        MARKED,
        &[
            ROW,
            "complement\n",
            WORDS,
            "images\n0 0\n0 1\n1 1\n3 3\nend\n",
        ],
        8,
    ),
    Rejected(ROWS, &[FIRST, "row f2 two\nimages\n0 0\n0 1\nend\n"], 9),
    // A certificate of other files.
    Rejected(MOVED, &[IMAGES, WORDS, "end\n"], 3),
    // The block is closed, and r1 r2 r4 is a path before the change alone.
    Rejected(MOVED, &[IMAGES, "0 0\n0 1\n1 1\n1 2\n3 3\n4 3\nend\n"], 3),
    // The text is looked at first.
    Rejected(MOVED, &[IMAGES, WORDS, "end\n\n"], 9),
];

#[test]
fn names_the_head_of_a_block(rt: HostRuntime) -> Result<(), AllocError> {
    hold(&rt, rt.alloc(), HEADS)
}
