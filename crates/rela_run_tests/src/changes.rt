//! Small changes of one flow, checked by hand.

use crate::cases::{CHECK, Case, Run, Text, hold};
use crate::network::{
    ALONG, AROUND, DROPPED_AT_R1, DROPPED_AT_R2, DROPPED_AT_R3, DROPPED_TOO, KEEP, LOCATIONS,
    OVER_BOTH, OVER_R2, OVER_R3, TURN, TURNS,
};
use rela_top::{MET, VIOLATED};
use std::alloc::{AllocError, Global};
use std::process::Abort;

/// Snapshots of the flow f1, and a specification whose only check is c1.
struct Change {
    /// The text of the specification.
    spec: Text,
    /// That of the snapshot before the change.
    before: Text,
    /// That of the snapshot after it.
    after: Text,
    /// The lines that show how the change is violated, and none where it is compliant.
    shown: Option<&'static str>,
}

impl Case for Change {
    fn holds(&self, rt: &impl Abort, alloc: Global, place: usize) -> Result<(), AllocError> {
        let (status, verdict, total) = match self.shown {
            None => (
                MET,
                "flow f1 check c1 compliant\n",
                "total 1 compliant 1 violated 0 undecided 0 unselected 0\n",
            ),
            Some(_) => (
                VIOLATED,
                "flow f1 check c1 violated\n",
                "total 1 compliant 0 violated 1 undecided 0 unselected 0\n",
            ),
        };
        let files = [
            ("before", self.before),
            ("after", self.after),
            ("locations", LOCATIONS),
            ("spec", self.spec),
        ];
        let text = [verdict, self.shown.unwrap_or(""), total];
        let run = Run {
            words: CHECK,
            files: &files,
            status,
            text: &text,
        };
        run.holds(rt, alloc, place)
    }
}

const CORE: Text = &[
    "level device;\npath core = device(r2);\ncheck c1 : { (r1 $core) r4 : preserve };",
];

const PATHS: &[Change] = &[
    Change {
        spec: KEEP,
        before: OVER_R2,
        after: OVER_R2,
        shown: None,
    },
    Change {
        spec: KEEP,
        before: OVER_R2,
        after: OVER_R3,
        shown: Some("  missing: r1:0 r2:0 r4:0 r4:1\n  before: r1:0 r2:0 r4:0 r4:1\n"),
    },
    Change {
        spec: CORE,
        before: OVER_R2,
        after: OVER_R2,
        shown: None,
    },
    Change {
        spec: CORE,
        before: OVER_R2,
        after: OVER_R3,
        shown: Some("  missing: r1 r2 r4\n  before: r1 r2 r4\n"),
    },
];

#[test]
fn paths_kept_and_lost(rt: HostRuntime) -> Result<(), AllocError> {
    hold(&rt, rt.alloc(), PATHS)
}

const PRESERVE: Text = &["level device; check c1 : { .* : preserve };"];

const PRESERVED: &[Change] = &[
    Change {
        spec: PRESERVE,
        before: OVER_R2,
        after: OVER_R2,
        shown: None,
    },
    Change {
        spec: PRESERVE,
        before: OVER_R2,
        after: OVER_R3,
        shown: Some("  missing: r1 r2 r4\n  before: r1 r2 r4\n"),
    },
    Change {
        spec: PRESERVE,
        before: OVER_R3,
        after: OVER_R2,
        shown: Some("  extra: r1 r2 r4\n  after: r1 r2 r4\n"),
    },
    Change {
        spec: PRESERVE,
        before: OVER_R2,
        after: AROUND,
        shown: Some("  extra: r1 r3 loop\n  after: r1 r3 loop\n"),
    },
    Change {
        spec: PRESERVE,
        before: OVER_R2,
        after: DROPPED_TOO,
        shown: Some("  extra: r1 r2 drop\n  after: r1 r2 drop\n"),
    },
    Change {
        spec: PRESERVE,
        before: TURN,
        after: TURNS,
        shown: None,
    },
    // r2 and r3 are of one group.
    Change {
        spec: &["level group; check c1 : { .* : preserve };"],
        before: ALONG,
        after: OVER_R3,
        shown: None,
    },
];

#[test]
fn preserve_compares_all_paths(rt: HostRuntime) -> Result<(), AllocError> {
    hold(&rt, rt.alloc(), PRESERVED)
}

const ADD: Text = &[
    "level device; check c1 : { r1 r2 r4 : add(r1 r3 r4) } else { .* : preserve };",
];

const REMOVE: Text = &["level device; check c1 : { .* : remove(.* r3 .*) };"];

const IGNORE: Text = &["level device; check c1 : { .* : ignore(.* r3 .*) };"];

const CHANGED: &[Change] = &[
    Change {
        spec: &["level device; check c1 : { .* : replace(r1 r2 r4, r1 r3 r4) };"],
        before: OVER_R2,
        after: OVER_R3,
        shown: None,
    },
    Change {
        spec: &["level device; check c1 : { .* : replace(r1 r3 r4, r1 r2 r4) };"],
        before: OVER_R3,
        after: OVER_R3,
        shown: Some("  missing: r1 r2 r4\n  before: r1 r3 r4\n"),
    },
    Change {
        spec: ADD,
        before: OVER_BOTH,
        after: OVER_BOTH,
        shown: None,
    },
    Change {
        spec: ADD,
        before: OVER_BOTH,
        after: OVER_R2,
        shown: Some("  missing: r1 r3 r4\n  before: r1 r2 r4\n"),
    },
    Change {
        spec: REMOVE,
        before: OVER_BOTH,
        after: OVER_R2,
        shown: None,
    },
    Change {
        spec: &["level device; check c1 : { !(.* r2 .*) : preserve };"],
        before: OVER_R2,
        after: OVER_R3,
        shown: Some("  extra: r1 r3 r4\n  after: r1 r3 r4\n"),
    },
    Change {
        spec: &["level device; check c1 : { tag(border) .* : preserve };"],
        before: OVER_R2,
        after: OVER_R3,
        shown: Some("  missing: r1 r2 r4\n  before: r1 r2 r4\n"),
    },
    Change {
        spec: IGNORE,
        before: OVER_BOTH,
        after: OVER_R2,
        shown: None,
    },
    Change {
        spec: IGNORE,
        before: OVER_BOTH,
        after: OVER_BOTH,
        shown: None,
    },
    Change {
        spec: REMOVE,
        before: OVER_R3,
        after: OVER_R3,
        shown: Some("  extra: r1 r3 r4\n  after: r1 r3 r4\n"),
    },
    Change {
        spec: &["level device; check c1 : { r1 r2 r4 : preserve } else { .* : remove(.* r3 .*) };"],
        before: OVER_BOTH,
        after: OVER_BOTH,
        shown: Some("  extra: r1 r3 r4\n  after: r1 r3 r4\n"),
    },
];

#[test]
fn changes_of_paths(rt: HostRuntime) -> Result<(), AllocError> {
    hold(&rt, rt.alloc(), CHANGED)
}

const ANY: Text = &[
    "level device; check c1 : { r1 : preserve } then { [r2 r3]+ : any([r2 r3]+) } then { r4 : preserve };",
];

const DROP: Text = &["level device; check c1 : { r1 : preserve } then { [r2 r3] r4 : drop };"];

const MARKED: &[Change] = &[
    Change {
        spec: ANY,
        before: OVER_R2,
        after: OVER_R3,
        shown: None,
    },
    Change {
        spec: ANY,
        before: OVER_R2,
        after: DROPPED_AT_R3,
        shown: Some("  missing: r1 #1 r4\n  before: r1 r2 r4\n"),
    },
    Change {
        spec: &[
            "level device; check c1 : { r1 r2 r4 : any(r1 r2 r4) } else { r1 r3 r4 : any(r1 r3 r4) };",
        ],
        before: OVER_R2,
        after: OVER_R3,
        shown: Some("  missing: #1\n  before: r1 r2 r4\n"),
    },
    Change {
        spec: DROP,
        before: OVER_R2,
        after: DROPPED_AT_R1,
        shown: None,
    },
    Change {
        spec: DROP,
        before: OVER_R2,
        after: DROPPED_AT_R2,
        shown: Some("  missing: r1 drop\n  before: r1 r2 r4\n"),
    },
];

#[test]
fn changes_into_markers_and_drops(rt: HostRuntime) -> Result<(), AllocError> {
    hold(&rt, rt.alloc(), MARKED)
}

const AT_MOST: Text = &["level device; check atmost c1 : { .* : preserve };"];

const LET_GO: &[Change] = &[
    Change {
        spec: AT_MOST,
        before: OVER_BOTH,
        after: OVER_R2,
        shown: None,
    },
    Change {
        spec: AT_MOST,
        before: OVER_BOTH,
        after: OVER_BOTH,
        shown: None,
    },
    Change {
        spec: AT_MOST,
        before: OVER_R2,
        after: OVER_BOTH,
        shown: Some("  extra: r1 r3 r4\n  after: r1 r3 r4\n"),
    },
];

#[test]
fn at_most_lets_paths_go(rt: HostRuntime) -> Result<(), AllocError> {
    hold(&rt, rt.alloc(), LET_GO)
}
