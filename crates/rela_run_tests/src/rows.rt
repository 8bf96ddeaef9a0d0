//! Rows of several flows and checks.

use crate::cases::{CHECK, Run, Text, hold};
use crate::network::{END, F1, F2, F3, FLOWS, LOCATIONS, NEXT, P2, P3, X2, X3};
use rela_top::{MET, VIOLATED};
use std::alloc::AllocError;

// At the groups' level r2 and r3 stand at one location, and r1 and r4 at another.
const ALIKE: &[Run<'static>] = &[Run {
    words: CHECK,
    files: &[
        ("before", &[FLOWS, F1, P2, NEXT, F2, P3, NEXT, F3, P2, END]),
        ("after", &[FLOWS, F1, X2, NEXT, F2, X3, NEXT, F3, P3, END]),
        ("locations", LOCATIONS),
        ("spec", &["level group; check c1 : { .* : preserve };"]),
    ],
    status: VIOLATED,
    text: &[
        "flow f1 check c1 violated\n  missing: edge core edge\n  before: edge core edge\n",
        "flow f2 check c1 violated\n  missing: edge core edge\n  before: edge core edge\n",
        "flow f3 check c1 compliant\n",
        "total 3 compliant 1 violated 2 undecided 0 unselected 0\n",
    ],
}];

#[test]
fn flows_that_look_the_same_share_a_verdict(rt: HostRuntime) -> Result<(), AllocError> {
    hold(&rt, rt.alloc(), ALIKE)
}

const EARLIER: Text = &[FLOWS, F1, P2, NEXT, F3, P2, END];

const LATER: Text = &[FLOWS, F2, P3, NEXT, F1, P2, NEXT, F3, P2, END];

const ORDERED: &[Run<'static>] = &[
    Run {
        words: CHECK,
        files: &[
            ("before", EARLIER),
            ("after", LATER),
            ("locations", LOCATIONS),
            (
                "spec",
                &["level device; check c1 for dst in 10.0.0.0/16 : { .* : preserve };"],
            ),
        ],
        status: VIOLATED,
        text: &[
            "flow f1 check c1 compliant\n",
            "flow f3 unselected\n",
            "flow f2 check c1 violated\n  extra: r1 r3 r4\n  after: r1 r3 r4\n",
            "total 3 compliant 1 violated 1 undecided 0 unselected 1\n",
        ],
    },
    Run {
        words: CHECK,
        files: &[
            ("before", EARLIER),
            ("after", LATER),
            ("locations", LOCATIONS),
            (
                "spec",
                &[
                    "level device;",
                    "check late for flow f1 : { .* : preserve };",
                    "check each : { r1 r2 r4 : preserve };",
                ],
            ),
        ],
        status: MET,
        text: &[
            "flow f1 check late compliant\n",
            "flow f1 check each compliant\n",
            "flow f3 check each compliant\n",
            "flow f2 check each compliant\n",
            "total 4 compliant 4 violated 0 undecided 0 unselected 0\n",
        ],
    },
    Run {
        words: CHECK,
        files: &[
            ("before", EARLIER),
            ("after", LATER),
            ("locations", LOCATIONS),
            ("spec", &["path unused = .;"]),
        ],
        status: MET,
        text: &[
            "flow f1 unselected\n",
            "flow f3 unselected\n",
            "flow f2 unselected\n",
            "total 3 compliant 0 violated 0 undecided 0 unselected 3\n",
        ],
    },
    Run {
        words: CHECK,
        files: &[
            ("before", &[FLOWS, END]),
            ("after", &[FLOWS, END]),
            ("locations", LOCATIONS),
            ("spec", &["check c1 : { .* : preserve };"]),
        ],
        status: MET,
        text: &["total 0 compliant 0 violated 0 undecided 0 unselected 0\n"],
    },
];

#[test]
fn rows_follow_flows_and_checks(rt: HostRuntime) -> Result<(), AllocError> {
    hold(&rt, rt.alloc(), ORDERED)
}

const DRAINED: &[Run<'static>] = &[Run {
    words: CHECK,
    files: &[
        ("before", &[FLOWS, F1, P2, NEXT, F3, P2, END]),
        ("after", &[FLOWS, F1, P3, NEXT, F3, P2, END]),
        ("locations", LOCATIONS),
        (
            "spec",
            &[
                "level device;",
                "spec move = { r1 : preserve } then { r2 : replace(r2, r3) } then { r4 : preserve };",
                "check drain for dst in 10.0.0.0/16 : $move else { .* : preserve };",
                "check rest for not dst in 10.0.0.0/16 : { .* : preserve };",
            ],
        ),
    ],
    status: MET,
    text: &[
        "flow f1 check drain compliant\n",
        "flow f3 check rest compliant\n",
        "total 2 compliant 2 violated 0 undecided 0 unselected 0\n",
    ],
}];

#[test]
fn a_drain_is_met(rt: HostRuntime) -> Result<(), AllocError> {
    hold(&rt, rt.alloc(), DRAINED)
}

// f6 has no paths afterwards.
const TWO_VERSIONS: &[Run<'static>] = &[Run {
    words: CHECK,
    files: &[
        (
            "before",
            &[
                r#"{"version":2,"flows":[{"name":"f6","dst":"2001:db8::/32","#,
                r#""nodes":[{"id":"a","at":"r1:0"},{"id":"b","at":"r2:0"},{"id":"c","at":"r4:0"}],"#,
                r#""edges":[["a","b"],["b","c"]],"starts":["a"],"delivered":["c"]},"#,
                r#"{"name":"f1","dst":"10.0.0.0/24","#,
                r#""nodes":[{"id":"4","at":"r4:0"},{"id":"2","at":"r2:0"},{"id":"1","at":"r1:0"}],"#,
                r#""edges":[["1","2"],["2","4"]],"starts":["1"],"delivered":["4"]}]}"#,
            ],
        ),
        ("after", &[FLOWS, F1, P3, END]),
        ("locations", LOCATIONS),
        (
            "spec",
            &[
                "level device;",
                "check six for dst in 2001::/16 : { .* : preserve };",
                "check other for dst overlaps 2001:db8:1::/48 : { !(r1 .*) : preserve };",
                "check four for dst in 10.0.0.0/8 : { .* : replace(r1 r2 r4, r1 r3 r4) };",
            ],
        ),
    ],
    status: VIOLATED,
    text: &[
        "flow f6 check six violated\n  missing: r1 r2 r4\n  before: r1 r2 r4\n",
        "flow f6 check other compliant\n",
        "flow f1 check four compliant\n",
        "total 3 compliant 2 violated 1 undecided 0 unselected 0\n",
    ],
}];

#[test]
fn snapshots_of_both_versions(rt: HostRuntime) -> Result<(), AllocError> {
    hold(&rt, rt.alloc(), TWO_VERSIONS)
}
