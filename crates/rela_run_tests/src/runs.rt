//! Words, limits and missing files of whole runs.

use crate::cases::{Case, Run, Text, hold};
use crate::network::{KEEP, LOCATIONS, OVER_R2, OVER_R3};
use rela_top::{BAD_WORDS, MET, READ_FAULT, UNDECIDED, VIOLATED};
use std::alloc::{AllocError, Global};
use std::process::Abort;

/// A flow that stays as it is.
const KEPT: &[(&str, Text)] = &[
    ("before", OVER_R2),
    ("after", OVER_R2),
    ("locations", LOCATIONS),
    ("spec", KEEP),
];

const COMPLIANT: Text = &[
    "flow f1 check c1 compliant\n",
    "total 1 compliant 1 violated 0 undecided 0 unselected 0\n",
];

/// A file that isn't there.
const MISSING: &[Run<'static>] = &[
    Run {
        words: &["check", "before", "nowhere", "locations", "spec"],
        files: KEPT,
        status: READ_FAULT,
        text: &[],
    },
    Run {
        words: &["fmt", "nowhere"],
        files: KEPT,
        status: READ_FAULT,
        text: &[],
    },
    Run {
        words: &["fib", "nowhere", "other", "locations"],
        files: KEPT,
        status: READ_FAULT,
        text: &[],
    },
];

#[test]
fn a_missing_file_writes_nothing(rt: HostRuntime) -> Result<(), AllocError> {
    hold(&rt, rt.alloc(), MISSING)
}

/// The words of a limit.
const LIMITED: &[Run<'static>] = &[
    Run {
        words: &[
            "check",
            "--states",
            "10",
            "before",
            "after",
            "locations",
            "spec",
        ],
        files: KEPT,
        status: MET,
        text: COMPLIANT,
    },
    Run {
        words: &[
            "check",
            "before",
            "after",
            "locations",
            "spec",
            "--states=5",
        ],
        files: KEPT,
        status: MET,
        text: COMPLIANT,
    },
    // The words whose eleventh symbol from the end isn't r1. These tell 2,048 words apart by how they may
    // go on.
    Run {
        words: &[
            "check",
            "before",
            "--states=1000",
            "after",
            "--",
            "locations",
            "spec",
        ],
        files: &[
            ("before", OVER_R2),
            ("after", OVER_R2),
            ("locations", LOCATIONS),
            (
                "spec",
                &["level device; check c1 : { !(.* r1 .{10}) : preserve };"],
            ),
        ],
        status: UNDECIDED,
        text: &[
            "flow f1 check c1 undecided\n",
            "total 1 compliant 0 violated 0 undecided 1 unselected 0\n",
        ],
    },
    // What is violated counts more than what is open.
    Run {
        words: &[
            "check",
            "--states=1000",
            "before",
            "after",
            "locations",
            "spec",
        ],
        files: &[
            ("before", OVER_R2),
            ("after", OVER_R3),
            ("locations", LOCATIONS),
            (
                "spec",
                &[
                    "level device;",
                    "check keep : { .* : preserve };",
                    "check open : { !(.* r1 .{10}) : preserve };",
                ],
            ),
        ],
        status: VIOLATED,
        text: &[
            "flow f1 check keep violated\n  missing: r1 r2 r4\n  before: r1 r2 r4\n",
            "flow f1 check open undecided\n",
            "total 2 compliant 0 violated 1 undecided 1 unselected 0\n",
        ],
    },
];

#[test]
fn keeps_to_the_limit(rt: HostRuntime) -> Result<(), AllocError> {
    hold(&rt, rt.alloc(), LIMITED)
}

/// Words that ask for nothing.
struct Unread(Text);

impl Case for Unread {
    fn holds(&self, rt: &impl Abort, alloc: Global, place: usize) -> Result<(), AllocError> {
        let run = Run {
            words: self.0,
            files: KEPT,
            status: BAD_WORDS,
            text: &["rela: bad command line\n"],
        };
        run.holds(rt, alloc, place)
    }
}

const UNREAD: &[Unread] = &[
    Unread(&["frob"]),
    Unread(&["check", "before", "after", "locations"]),
    Unread(&[
        "check",
        "--states",
        "0",
        "before",
        "after",
        "locations",
        "spec",
    ]),
    Unread(&[
        "check",
        "--states=4000001",
        "before",
        "after",
        "locations",
        "spec",
    ]),
    Unread(&[
        "check",
        "--states=05",
        "before",
        "after",
        "locations",
        "spec",
    ]),
    Unread(&[
        "check",
        "--states=5",
        "before",
        "after",
        "locations",
        "spec",
        "--states=5",
    ]),
    Unread(&["check", "before", "after", "locations", "spec", "--states"]),
    Unread(&["check", "before", "after", "locations", "-spec"]),
    Unread(&[]),
    Unread(&["fmt"]),
    Unread(&["fmt", "spec", "spec"]),
    Unread(&["fmt", "--states=5", "spec"]),
    Unread(&["fib", "tables", "other"]),
    Unread(&["fib", "--states=5", "tables", "other", "locations"]),
];

#[test]
fn refuses_words(rt: HostRuntime) -> Result<(), AllocError> {
    hold(&rt, rt.alloc(), UNREAD)
}

const CANONICAL: &[Run<'static>] = &[Run {
    words: &["fmt", "spec"],
    files: &[(
        "spec",
        &["check atmost c : { (.) : ignore(a) }; # as it is read"],
    )],
    status: MET,
    text: &["level interface;\ncheck atmost c : { . : ignore(a) };\n"],
}];

#[test]
fn writes_the_canonical_text(rt: HostRuntime) -> Result<(), AllocError> {
    hold(&rt, rt.alloc(), CANONICAL)
}
