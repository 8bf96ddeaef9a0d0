//! Inputs that are refused, and the lines that say so.

use crate::cases::{CHECK, Case, DRAW, Run, Text, hold};
use crate::network::{END, FLOWS, KEEP, LOCATIONS, OVER_R2, P2, TABLES};
use rela_top::REFUSED;
use std::alloc::{AllocError, Global};
use std::process::Abort;

/// A text that a command refuses as each of these files, the others being those of a flow that stays as it is;
/// and the fault.
struct Refused {
    /// The words of the command.
    words: Text,
    /// The names of the files, one after the other, that have the text.
    names: &'static [&'static str],
    /// The text that is refused.
    text: Text,
    /// The line that says why, after the name of the input.
    fault: &'static str,
}

impl Refused {
    /// The same of the file of this name.
    fn holds_at(
        &self,
        rt: &impl Abort,
        alloc: Global,
        name: &'static str,
        place: usize,
    ) -> Result<(), AllocError> {
        // The first of two files of one name counts.
        let files = [
            (name, self.text),
            ("before", OVER_R2),
            ("after", OVER_R2),
            ("locations", LOCATIONS),
            ("spec", KEEP),
            ("tables", TABLES),
            ("other", TABLES),
        ];
        let text = ["refused ", name, " ", self.fault, "\n"];
        let run = Run {
            words: self.words,
            files: &files,
            status: REFUSED,
            text: &text,
        };
        run.holds(rt, alloc, place)
    }
}

impl Case for Refused {
    fn holds(&self, rt: &impl Abort, alloc: Global, place: usize) -> Result<(), AllocError> {
        for name in self.names {
            self.holds_at(rt, alloc, name, place)?;
        }
        Ok(())
    }
}

const FORMAT: Text = &["fmt", "spec"];

const SPECS: &[Refused] = &[
    Refused {
        words: CHECK,
        names: &["spec"],
        text: &["check c1 : { r1:0 r9:0 : preserve };"],
        fault: "17 UnknownLocation at 18",
    },
    Refused {
        words: CHECK,
        names: &["spec"],
        text: &["check c1 % ;"],
        fault: "31 BadToken at 9",
    },
    Refused {
        words: CHECK,
        names: &["spec"],
        text: &["check c1 : { $p : preserve };"],
        fault: "33 UnknownName at 13",
    },
    Refused {
        words: CHECK,
        names: &["spec"],
        text: &["path p = r1:0; path p = r2:0; check c1 : { $p : preserve };"],
        fault: "34 RepeatedName at 20",
    },
    Refused {
        words: CHECK,
        names: &["spec"],
        text: &["level group; check c1 : { device(r1) : preserve };"],
        fault: "38 FinerLevel at 33",
    },
    Refused {
        words: CHECK,
        names: &["spec"],
        text: &["path p = (.{64}){64}; check c1 : { $p $p $p : preserve };"],
        fault: "36 TooLarge at 28",
    },
    Refused {
        words: CHECK,
        names: &["spec"],
        text: &["check c1 : { .* : preserve ;"],
        fault: "32 Syntax at 27",
    },
    Refused {
        words: CHECK,
        names: &["spec"],
        text: &["check c1 : { .{65} : preserve };"],
        fault: "37 BadNumber at 15",
    },
    Refused {
        words: FORMAT,
        names: &["spec"],
        text: &["check c1 % ;"],
        fault: "31 BadToken at 9",
    },
    Refused {
        words: FORMAT,
        names: &["spec"],
        text: &["check c1 : { .* : preserve ;"],
        fault: "32 Syntax at 27",
    },
    Refused {
        words: FORMAT,
        names: &["spec"],
        text: &["check c1 : { .{65} : preserve };"],
        fault: "37 BadNumber at 15",
    },
];

#[test]
fn refuses_specifications(rt: HostRuntime) -> Result<(), AllocError> {
    hold(&rt, rt.alloc(), SPECS)
}

const INPUTS: &[Refused] = &[
    Refused {
        words: CHECK,
        names: &["locations", "before", "after"],
        text: &["{"],
        fault: "11 NotJson",
    },
    Refused {
        words: CHECK,
        names: &["locations"],
        text: &["[]"],
        fault: "12 WrongShape rule 1 row 0",
    },
    Refused {
        words: CHECK,
        names: &["locations", "before", "after"],
        text: &[r#"{"version":3}"#],
        fault: "13 BadVersion",
    },
    Refused {
        words: CHECK,
        names: &["locations"],
        text: &[
            r#"{"version":1,"groups":[{"name":"a","devices":[{"name":"r 1","interfaces":[]}]}]}"#,
        ],
        fault: "14 BadName row 0",
    },
    Refused {
        words: CHECK,
        names: &["locations"],
        text: &[
            r#"{"version":1,"groups":[{"name":"a","devices":[]},{"name":"drop","devices":[]}]}"#,
        ],
        fault: "15 ReservedName row 1",
    },
    Refused {
        words: CHECK,
        names: &["locations"],
        text: &[r#"{"version":1,"groups":[{"name":"a","devices":[]},{"name":"a","devices":[]}]}"#],
        fault: "16 RepeatedEntry row 1",
    },
    Refused {
        words: CHECK,
        names: &["before", "after"],
        text: &["[]"],
        fault: "12 WrongShape rule 21 row 0",
    },
    Refused {
        words: CHECK,
        names: &["before", "after"],
        text: &[r#"{"version":2,"flows":[{"name":7}]}"#],
        fault: "12 WrongShape rule 42 row 0",
    },
    Refused {
        words: CHECK,
        names: &["before", "after"],
        text: &[
            r#"{"version":1,"flows":[{"name":"f 1","dst":"10.0.0.0/8","nodes":[],"edges":[],"starts":[]}]}"#,
        ],
        fault: "14 BadName row 0",
    },
    Refused {
        words: CHECK,
        names: &["before", "after"],
        text: &[
            r#"{"version":1,"flows":[{"name":"f","dst":"10.0.0.0/8","nodes":[],"edges":[],"starts":[]},{"name":"f","dst":"10.0.0.0/8","nodes":[],"edges":[],"starts":[]}]}"#,
        ],
        fault: "16 RepeatedEntry row 1",
    },
    Refused {
        words: CHECK,
        names: &["before", "after"],
        text: &[
            r#"{"version":1,"flows":[{"name":"f","dst":"10.0.0.0/8","nodes":["r9:0"],"edges":[],"starts":[]}]}"#,
        ],
        fault: "17 UnknownLocation row 0",
    },
    Refused {
        words: CHECK,
        names: &["before", "after"],
        text: &[
            r#"{"version":1,"flows":[{"name":"f","dst":"10.0.0.0/8","nodes":["r1:0"],"edges":[[0,1]],"starts":[]}]}"#,
        ],
        fault: "18 BadIndex row 0",
    },
    Refused {
        words: CHECK,
        names: &["before", "after"],
        text: &[
            r#"{"version":1,"flows":[{"name":"f","dst":"2001:db8::/32","nodes":[],"edges":[],"starts":[]}]}"#,
        ],
        fault: "19 BadPrefix row 0",
    },
    Refused {
        words: CHECK,
        names: &["before", "after"],
        text: &[
            r#"{"version":2,"flows":[{"name":"f","dst":"::/0","nodes":[{"id":"a","at":"r1:0"}],"edges":[["a","z"]],"starts":["a"]}]}"#,
        ],
        fault: "22 UnknownNode row 0",
    },
    Refused {
        words: DRAW,
        names: &["locations", "tables", "other"],
        text: &["{"],
        fault: "11 NotJson",
    },
    Refused {
        words: DRAW,
        names: &["tables", "other"],
        text: &["[]"],
        fault: "12 WrongShape rule 61 row 0",
    },
    Refused {
        words: DRAW,
        names: &["locations", "tables", "other"],
        text: &[r#"{"version":2}"#],
        fault: "13 BadVersion",
    },
    Refused {
        words: DRAW,
        names: &["tables", "other"],
        text: &[
            r#"{"version":1,"starts":[],"tables":[{"device":"r1","routes":[]},{"device":"r1","routes":[]}]}"#,
        ],
        fault: "16 RepeatedEntry row 1",
    },
    Refused {
        words: DRAW,
        names: &["tables", "other"],
        text: &[r#"{"version":1,"starts":["r1:0","r9:0"],"tables":[]}"#],
        fault: "17 UnknownLocation row 1",
    },
    Refused {
        words: DRAW,
        names: &["tables", "other"],
        text: &[
            r#"{"version":1,"starts":[],"tables":[{"device":"r1","routes":[{"prefix":"0.0.0.0/0"},{"prefix":"128.0.0.0/33"}]}]}"#,
        ],
        fault: "19 BadPrefix row 1",
    },
];

#[test]
fn refuses_inputs(rt: HostRuntime) -> Result<(), AllocError> {
    hold(&rt, rt.alloc(), INPUTS)
}

const FIRST_FAULTS: &[Run<'static>] = &[
    // The snapshots are read before the specification.
    Run {
        words: CHECK,
        files: &[
            ("before", OVER_R2),
            ("after", &["{"]),
            ("locations", LOCATIONS),
            ("spec", &["check c1 % ;"]),
        ],
        status: REFUSED,
        text: &["refused after 11 NotJson\n"],
    },
    // Each snapshot is well formed, and the flow goes to another destination afterwards.
    Run {
        words: CHECK,
        files: &[
            ("before", OVER_R2),
            (
                "after",
                &[
                    FLOWS,
                    r#"{"name":"f1","dst":"10.0.0.0/8","src":"10.1.2.3/32","class":"gold","#,
                    P2,
                    END,
                ],
            ),
            ("locations", LOCATIONS),
            ("spec", KEEP),
        ],
        status: REFUSED,
        text: &[
            "refused pair 21 FlowDiffers f1",
            " dst 10.0.0.0/24 src 0.0.0.0/0 class default",
            " dst 10.0.0.0/8 src 10.1.2.3/32 class gold\n",
        ],
    },
];

#[test]
fn refuses_the_first_fault(rt: HostRuntime) -> Result<(), AllocError> {
    hold(&rt, rt.alloc(), FIRST_FAULTS)
}
