//! A run of each command.

use crate::cases::{CHECK, DRAW, Run, Text, hold};
use crate::network::{KEEP, LOCATIONS, OVER_R2, OVER_R3};
use rela_top::{MET, VIOLATED};
use std::alloc::AllocError;

const CERTIFICATE: Text = &[
    "rela certificate 1\nrow f1 c1\nimages\n",
    "0 0\n0 1\n1 1\n3 3\n",
    "end\n",
];

const PRESERVE: Text = &["level device; check c1 : { .* : preserve };"];

const KEPT: &[(&str, Text)] = &[
    ("before", OVER_R2),
    ("after", OVER_R2),
    ("locations", LOCATIONS),
    ("spec", PRESERVE),
];

/// Tables by which r1 delivers all.
const DELIVERED: Text = &[
    r#"{"version":1,"starts":["r1:0"],"tables":[{"device":"r1","routes":[{"prefix":"0.0.0.0/0"}]}]}"#,
];

/// Each command, over files that it reads once.
pub(crate) const COMMANDS: &[Run<'static>] = &[
    Run {
        words: CHECK,
        files: KEPT,
        status: MET,
        text: &[
            "flow f1 check c1 compliant\n",
            "total 1 compliant 1 violated 0 undecided 0 unselected 0\n",
        ],
    },
    Run {
        words: &["check", "--blame", "before", "after", "locations", "spec"],
        files: &[
            ("before", OVER_R2),
            ("after", OVER_R3),
            ("locations", LOCATIONS),
            (
                "spec",
                &["level device; check c1 : { r1 r3 r4 : preserve } else { .* : preserve };"],
            ),
        ],
        status: VIOLATED,
        text: &[
            "flow f1 check c1 violated\n",
            "  missing: r1 r2 r4\n  before: r1 r2 r4\n  zone: 2 at 54\n",
            "total 1 compliant 0 violated 1 undecided 0 unselected 0\n",
        ],
    },
    Run {
        words: &["rir", "before", "after", "locations", "assertions"],
        files: &[
            ("before", OVER_R2),
            ("after", OVER_R3),
            ("locations", LOCATIONS),
            (
                "assertions",
                &[
                    "level device; assert same = equal(pre, post); ",
                    "assert some = not(equal(post, none));",
                ],
            ),
        ],
        status: VIOLATED,
        text: &[
            "flow f1 assert same fails\n  leaf 1: first: r1 r2 r4\n",
            "flow f1 assert some holds\n  leaf 1: first: r1 r3 r4\n",
            "total 2 holds 1 fails 1 undecided 0\n",
        ],
    },
    Run {
        words: &["zone", "locations", "spec", "c1"],
        files: &[
            ("locations", LOCATIONS),
            ("spec", &["level device; check c1 : { r1 .* : preserve };"]),
        ],
        status: MET,
        text: &[
            "states 3\nstate 0\n  to 1 : r1\n  else to 2\n",
            "state 1 accept\n  else to 1\nstate 2\n  else to 2\n",
        ],
    },
    Run {
        words: &["fmt", "spec"],
        files: &[("spec", KEEP)],
        status: MET,
        text: &["level interface;\ncheck c1 : { r1:0 r2:0 r4:0 r4:1 : preserve };\n"],
    },
    Run {
        words: DRAW,
        files: &[
            ("tables", DELIVERED),
            ("other", DELIVERED),
            ("locations", LOCATIONS),
        ],
        status: MET,
        text: &[
            r#"{"flows":[{"delivered":[0],"dropped":[],"dst":"0.0.0.0/0","edges":[],"#,
            r#""name":"0.0.0.0/0","nodes":["r1:0"],"starts":[0]}],"version":1}"#,
            "\n",
        ],
    },
    Run {
        words: &["certify", "before", "after", "locations", "spec"],
        files: KEPT,
        status: MET,
        text: CERTIFICATE,
    },
    Run {
        words: &[
            "audit",
            "before",
            "after",
            "locations",
            "spec",
            "certificate",
        ],
        files: &[
            ("before", OVER_R2),
            ("after", OVER_R2),
            ("locations", LOCATIONS),
            ("spec", PRESERVE),
            ("certificate", CERTIFICATE),
        ],
        status: MET,
        text: &["accepted 1\n"],
    },
    Run {
        words: &["demo", "1"],
        files: &[],
        status: VIOLATED,
        text: &[
            "flow f1 check c1 compliant\nflow f2 check c1 compliant\n",
            "flow f3 check c1 compliant\nflow f4 check c1 compliant\n",
            "flow f5 check c1 compliant\nflow f6 check c1 compliant\n",
            "flow f7 check c2 compliant\nflow f8 check c1 violated\n",
            "  missing: a001\n  before: a001\n",
            "total 8 compliant 7 violated 1 undecided 0 unselected 0\n",
        ],
    },
];

#[test]
fn carries_out_each_command(rt: HostRuntime) -> Result<(), AllocError> {
    hold(&rt, rt.alloc(), COMMANDS)
}
