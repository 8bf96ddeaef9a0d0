//! A small network, and snapshots of flows over it.

use crate::answers::Text;

/// r2 and r3 are the core, and r1 and r4 the edge. At the level of devices r1 to r4 have the symbols 0 to 3,
/// `drop` and `loop` 4 and 5, and the first marker 6.
pub(crate) const LOCATIONS: Text = &[
    r#"{"version":1,"groups":[{"name":"core","devices":[{"name":"r2","interfaces":["r2:0"]},{"name":"r3","interfaces":["r3:0"]}]},{"name":"edge","devices":[{"name":"r1","tags":["border"],"interfaces":["r1:0"]},{"name":"r4","interfaces":["r4:0","r4:1"]}]}]}"#,
];

// A snapshot is a list of pieces: it opens with `FLOWS`, has a flow and a graph and `NEXT` between them, and
// ends with `END`.

pub(crate) const FLOWS: &str = r#"{"version":1,"flows":["#;

pub(crate) const NEXT: &str = ",";

pub(crate) const END: &str = "]}";

pub(crate) const F1: &str = r#"{"name":"f1","dst":"10.0.0.0/24","#;

pub(crate) const F2: &str = r#"{"name":"f2","dst":"10.0.1.0/24","#;

pub(crate) const F3: &str = r#"{"name":"f3","dst":"10.9.0.0/24","#;

/// r1 r2 r4
pub(crate) const P2: &str =
    r#""nodes":["r1:0","r2:0","r4:0","r4:1"],"edges":[[0,1],[1,2],[2,3]],"starts":[0],"delivered":[3]}"#;

/// r1 r3 r4
pub(crate) const P3: &str =
    r#""nodes":["r1:0","r3:0","r4:0","r4:1"],"edges":[[0,1],[1,2],[2,3]],"starts":[0],"delivered":[3]}"#;

/// The flow f1 over r2.
pub(crate) const OVER_R2: Text = &[FLOWS, F1, P2, END];

/// The flow f1 over r3.
pub(crate) const OVER_R3: Text = &[FLOWS, F1, P3, END];

/// f1 over both.
pub(crate) const OVER_BOTH: Text = &[
    FLOWS,
    F1,
    r#""nodes":["r1:0","r2:0","r3:0","r4:0","r4:1"],"edges":[[0,1],[0,2],[1,3],[2,3],[3,4]],"starts":[0],"delivered":[4]}"#,
    END,
];

/// f1 over r2 and then r3.
pub(crate) const ALONG: Text = &[
    FLOWS,
    F1,
    r#""nodes":["r1:0","r2:0","r3:0","r4:0","r4:1"],"edges":[[0,1],[1,2],[2,3],[3,4]],"starts":[0],"delivered":[4]}"#,
    END,
];

/// f1 is dropped at r1.
pub(crate) const DROPPED: Text = &[
    FLOWS,
    F1,
    r#""nodes":["r1:0"],"edges":[],"starts":[0]}"#,
    END,
];

/// f1 over r2, and from r1 to r3 and r2 in turn for ever.
pub(crate) const AROUND: Text = &[
    FLOWS,
    F1,
    r#""nodes":["r1:0","r2:0","r4:0","r4:1","r3:0","r2:0"],"edges":[[0,1],[1,2],[2,3],[0,4],[4,5],[5,4]],"starts":[0],"delivered":[3]}"#,
    END,
];

/// f1 over r2 and r3 in turn as often as one likes, by a loop of two nodes.
pub(crate) const TURN: Text = &[
    FLOWS,
    F1,
    r#""nodes":["r1:0","r2:0","r3:0","r4:0"],"edges":[[0,1],[1,2],[2,1],[2,3]],"starts":[0],"delivered":[3]}"#,
    END,
];

/// The same, with the loop written out twice.
pub(crate) const TURNS: Text = &[
    FLOWS,
    F1,
    r#""nodes":["r1:0","r2:0","r3:0","r2:0","r3:0","r4:0"],"edges":[[0,1],[1,2],[2,3],[3,4],[4,1],[2,5],[4,5]],"starts":[0],"delivered":[5]}"#,
    END,
];

/// An IPv6 flow over r2, and none of version 1.
pub(crate) const NAMED_NODES: Text = &[
    r#"{"version":2,"flows":[{"name":"f6","dst":"2001:db8::/32","#,
    r#""nodes":[{"id":"a","at":"r1:0"},{"id":"b","at":"r2:0"},{"id":"c","at":"r4:0"}],"#,
    r#""edges":[["a","b"],["b","c"]],"starts":["a"],"delivered":["c"]}]}"#,
];

/// No flow.
pub(crate) const EMPTY: Text = &[FLOWS, END];

/// The flows f1 and f3 over r2.
pub(crate) const TWO_FLOWS: Text = &[FLOWS, F1, P2, NEXT, F3, P2, END];

/// f1 over r3, and f3 over r2.
pub(crate) const DRAINED: Text = &[FLOWS, F1, P3, NEXT, F3, P2, END];

/// The flows f1, f2 and f3 over r2.
pub(crate) const THREE_FLOWS: Text = &[FLOWS, F1, P2, NEXT, F2, P2, NEXT, F3, P2, END];

/// f2 over r3, and the others over r2.
pub(crate) const ONE_MOVED: Text = &[FLOWS, F1, P2, NEXT, F2, P3, NEXT, F3, P2, END];
