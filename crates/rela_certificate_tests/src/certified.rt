//! Certificates that are written, and what an audit of them says.

use crate::answers::{Answer, CERTIFY, Case, Change, Text, audit, bytes, certify, hold};
use crate::network::{
    ALONG, AROUND, DRAINED, DROPPED, EMPTY, NAMED_NODES, ONE_MOVED, OVER_BOTH, OVER_R2, OVER_R3,
    THREE_FLOWS, TURN, TURNS, TWO_FLOWS,
};
use rela_top::MET;
use std::alloc::{AllocError, Global};
use std::process::Abort;

/// The words that ask for a certificate under a limit of 1,000 states.
const LIMITED: Text = &[
    "certify",
    "--states=1000",
    "before",
    "after",
    "locations",
    "spec",
];

/// Asserts that the certificate was written, and is accepted for so many rows.
fn is_accepted(
    rt: &impl Abort,
    alloc: Global,
    change: &Change,
    certificate: Answer,
    rows: usize,
    place: usize,
) -> Result<(), AllocError> {
    assert_eq!(rt; certificate.status, MET, "case {place}");
    let audited = audit(alloc, change, certificate.text)?;
    let accepted = format!(in alloc; "accepted {rows}\n")?;
    assert_eq!(rt;
        audited.text.as_slice(),
        accepted.as_bytes(),
        "case {place}"
    );
    assert_eq!(rt; audited.status, MET, "case {place}");
    Ok(())
}

/// A change, and the text of its certificate under a limit of 1,000 states, which lists so many rows.
struct Certified {
    /// The change.
    change: Change,
    /// The text that `certify` writes of it.
    text: Text,
    /// How many rows that text lists.
    rows: usize,
}

impl Case for Certified {
    fn holds(&self, rt: &impl Abort, alloc: Global, place: usize) -> Result<(), AllocError> {
        let certificate = certify(alloc, LIMITED, &self.change)?;
        let text = bytes(alloc, self.text)?;
        assert_eq!(rt;
            certificate.text.as_slice(),
            text.as_slice(),
            "case {place}"
        );
        is_accepted(rt, alloc, &self.change, certificate, self.rows, place)
    }
}

const HEADER: &str = "rela certificate 1\n";

const LAST: &str = "end\n";

/// The words that tell apart what is read of r1 r2 r4.
const P2_WORDS: &str = "0 0\n0 1\n1 1\n3 3\n";

/// The same of r1 r3 r4.
const P3_WORDS: &str = "0 0\n0 1\n1 2\n3 3\n";

const CERTIFIED: &[Certified] = &[
    Certified {
        change: Change {
            before: OVER_R2,
            after: OVER_R2,
            spec: &["level device; check c1 : { .* : preserve };"],
        },
        text: &[HEADER, "row f1 c1\nimages\n", P2_WORDS, LAST],
        rows: 1,
    },
    // The complement is a part of what is said of paths before, and of paths after.
    Certified {
        change: Change {
            before: OVER_R2,
            after: OVER_R2,
            spec: &["level device; check c1 : { !(r1 r3 r4) : preserve };"],
        },
        text: &[
            HEADER,
            "row f1 c1\ncomplement\n",
            P3_WORDS,
            "complement\n",
            P3_WORDS,
            "images\n",
            P2_WORDS,
            LAST,
        ],
        rows: 1,
    },
    // A marker has the number 6. What is said of paths after has a complement of its own.
    Certified {
        change: Change {
            before: OVER_R2,
            after: OVER_R2,
            spec: &["level device; check c1 : { r1 r2 r4 : any(r1 r2 r4) };"],
        },
        text: &[
            HEADER,
            "row f1 c1\ncomplement\n",
            P2_WORDS,
            "images\n0 0\n0 1\n0 6\n1 1\n4 3\n",
            LAST,
        ],
        rows: 1,
    },
    // One row is compliant, one undecided, one violated and one unselected.
    Certified {
        change: Change {
            before: THREE_FLOWS,
            after: ONE_MOVED,
            spec: &[
                "level device;",
                "check open for flow f1 : { !(.* r1 .{10}) : preserve };",
                "check keep for dst in 10.0.0.0/16 : { .* : preserve };",
            ],
        },
        text: &[HEADER, "row f1 keep\nimages\n", P2_WORDS, LAST],
        rows: 1,
    },
    // No row is met.
    Certified {
        change: Change {
            before: OVER_R2,
            after: OVER_R3,
            spec: &["level device; check c1 : { .* : preserve };"],
        },
        text: &[HEADER, LAST],
        rows: 0,
    },
];

#[test]
fn writes_certificates(rt: HostRuntime) -> Result<(), AllocError> {
    hold(&rt, rt.alloc(), CERTIFIED)
}

/// The snapshots of a change, a specification, and how many rows its certificate lists.
struct Listed(Text, Text, Text, usize);

impl Case for Listed {
    fn holds(&self, rt: &impl Abort, alloc: Global, place: usize) -> Result<(), AllocError> {
        let change = Change {
            before: self.0,
            after: self.1,
            spec: self.2,
        };
        let certificate = certify(alloc, CERTIFY, &change)?;
        is_accepted(rt, alloc, &change, certificate, self.3, place)
    }
}

const PRESERVE: Text = &["level device; check c1 : { .* : preserve };"];

const REPLACE: Text = &["level device; check c1 : { .* : replace(r1 r2 r4, r1 r3 r4) };"];

const ADD: Text = &[
    "level device; check c1 : { r1 r2 r4 : add(r1 r3 r4) } else { .* : preserve };",
];

const REMOVE: Text = &["level device; check c1 : { .* : remove(.* r3 .*) };"];

const IGNORE: Text = &["level device; check c1 : { .* : ignore(.* r3 .*) };"];

const ANY: Text = &[
    "level device; check c1 : { r1 : preserve } then { [r2 r3]+ : any([r2 r3]+) } then { r4 : preserve };",
];

const DROP: Text = &["level device; check c1 : { r1 : preserve } then { [r2 r3] r4 : drop };"];

const AT_MOST: Text = &["level device; check atmost c1 : { .* : preserve };"];

const MODIFIERS: &[Listed] = &[
    Listed(OVER_R2, OVER_R2, PRESERVE, 1),
    Listed(OVER_R2, OVER_R3, REPLACE, 1),
    Listed(OVER_BOTH, OVER_BOTH, ADD, 1),
    Listed(OVER_BOTH, OVER_R2, REMOVE, 1),
    Listed(OVER_BOTH, OVER_R2, IGNORE, 1),
    Listed(OVER_R2, OVER_R3, ANY, 1),
    Listed(OVER_R2, DROPPED, DROP, 1),
    Listed(OVER_BOTH, OVER_R2, AT_MOST, 1),
    Listed(OVER_R2, OVER_R2, REPLACE, 0),
    Listed(OVER_BOTH, OVER_R2, ADD, 0),
    Listed(OVER_BOTH, OVER_BOTH, REMOVE, 0),
    Listed(OVER_R2, OVER_R3, IGNORE, 0),
    Listed(OVER_R2, DROPPED, ANY, 0),
    Listed(OVER_R2, OVER_R2, DROP, 0),
    Listed(OVER_R2, OVER_BOTH, AT_MOST, 0),
];

#[test]
fn audits_each_modifier(rt: HostRuntime) -> Result<(), AllocError> {
    hold(&rt, rt.alloc(), MODIFIERS)
}

/// r2 and r3 are of one group.
const GROUPS: Text = &["level group; check c1 : { .* : preserve };"];

const INTERFACES: Text = &["check c1 : { r1:0 r2:0 r4:0 r4:1 : preserve };"];

const NESTED: Text = &["level device; check c1 : { !(!(r1 .*) & .* r4) : preserve };"];

/// Its complement tells 128 words apart by how they may go on.
const WIDE: Text = &["level device; check c1 : { !(.* r1 .{6}) : preserve };"];

const DRAIN: Text = &[
    "level device;",
    "spec move = { r1 : preserve } then { r2 : replace(r2, r3) } then { r4 : preserve };",
    "check drain for dst in 10.0.0.0/16 : $move else { .* : preserve };",
    "check rest for not dst in 10.0.0.0/16 : { .* : preserve };",
];

const SEVERAL: Text = &[
    "level device;",
    "check one for flow f1 or flow f2 : { .* : preserve };",
    "check two : { r1 r2 r4 : preserve };",
    "check three for dst in 10.9.0.0/16 : { !(.* r3 .*) : preserve };",
];

const UNSELECTED: Text = &["path unused = .;"];

const SHAPES: &[Listed] = &[
    Listed(OVER_R2, OVER_R2, INTERFACES, 1),
    Listed(ALONG, OVER_R3, GROUPS, 1),
    Listed(TURN, TURNS, PRESERVE, 1),
    Listed(AROUND, AROUND, PRESERVE, 1),
    Listed(AROUND, OVER_R2, PRESERVE, 0),
    Listed(NAMED_NODES, NAMED_NODES, PRESERVE, 1),
    // f6 has no paths afterwards, and f1 none before.
    Listed(NAMED_NODES, OVER_R3, PRESERVE, 0),
    Listed(OVER_BOTH, OVER_BOTH, NESTED, 1),
    Listed(OVER_R2, OVER_R2, WIDE, 1),
    Listed(TWO_FLOWS, DRAINED, DRAIN, 2),
    // f2 fails both of its checks.
    Listed(THREE_FLOWS, ONE_MOVED, SEVERAL, 4),
    Listed(THREE_FLOWS, THREE_FLOWS, SEVERAL, 6),
    Listed(TWO_FLOWS, TWO_FLOWS, UNSELECTED, 0),
    Listed(EMPTY, EMPTY, PRESERVE, 0),
];

#[test]
fn audits_what_is_certified(rt: HostRuntime) -> Result<(), AllocError> {
    hold(&rt, rt.alloc(), SHAPES)
}
