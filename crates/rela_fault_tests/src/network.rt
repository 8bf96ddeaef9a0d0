//! A small network: its locations, and flows over it.

use crate::cases::Text;

/// r2 and r3 are the core, and r1 and r4 the edge.
pub(crate) const LOCATIONS: Text = &[
    r#"{"version":1,"groups":[{"name":"core","devices":[{"name":"r2","interfaces":["r2:0"]},{"name":"r3","interfaces":["r3:0"]}]},{"name":"edge","devices":[{"name":"r1","tags":["border"],"interfaces":["r1:0"]},{"name":"r4","interfaces":["r4:0","r4:1"]}]}]}"#,
];

// A snapshot is a list of pieces: it opens with `FLOWS`, has a flow and a graph, and ends with `END`.

pub(crate) const FLOWS: &str = r#"{"version":1,"flows":["#;

pub(crate) const END: &str = "]}";

const F1: &str = r#"{"name":"f1","dst":"10.0.0.0/24","#;

/// r1 r2 r4
pub(crate) const P2: &str =
    r#""nodes":["r1:0","r2:0","r4:0","r4:1"],"edges":[[0,1],[1,2],[2,3]],"starts":[0],"delivered":[3]}"#;

/// r1 r3 r4
const P3: &str =
    r#""nodes":["r1:0","r3:0","r4:0","r4:1"],"edges":[[0,1],[1,2],[2,3]],"starts":[0],"delivered":[3]}"#;

/// The flow f1 over r2.
pub(crate) const OVER_R2: Text = &[FLOWS, F1, P2, END];

/// The flow f1 over r3.
pub(crate) const OVER_R3: Text = &[FLOWS, F1, P3, END];

/// A check that f1 stays over r2.
pub(crate) const KEEP: Text = &["check c1 : { r1:0 r2:0 r4:0 r4:1 : preserve };"];
