//! A small network: its locations, and flows and tables over it.

use crate::cases::Text;
use rela_json::LoadError;
use rela_locations::Locations;
use std::alloc::Global;

/// r2 and r3 are the core, and r1 and r4 the edge.
const NETWORK: &str =
    r#"{"version":1,"groups":[{"name":"core","devices":[{"name":"r2","interfaces":["r2:0"]},{"name":"r3","interfaces":["r3:0"]}]},{"name":"edge","devices":[{"name":"r1","tags":["border"],"interfaces":["r1:0"]},{"name":"r4","interfaces":["r4:0","r4:1"]}]}]}"#;

/// The location file.
pub(crate) const LOCATIONS: Text = &[NETWORK];

/// Its locations.
pub(crate) fn network(alloc: Global) -> Result<Locations, LoadError> {
    Locations::decode(alloc, NETWORK.as_bytes())
}

// A snapshot is a list of pieces: it opens with `FLOWS`, has a flow and a graph and `NEXT` between them, and
// ends with `END`.

pub(crate) const FLOWS: &str = r#"{"version":1,"flows":["#;

pub(crate) const NEXT: &str = ",";

pub(crate) const END: &str = "]}";

pub(crate) const F1: &str = r#"{"name":"f1","dst":"10.0.0.0/24","#;

pub(crate) const F2: &str = r#"{"name":"f2","dst":"10.0.1.0/24","#;

pub(crate) const F3: &str = r#"{"name":"f3","dst":"10.9.0.0/24","#;

/// r1 r2 r4
pub(crate) const P2: &str =
    r#""nodes":["r1:0","r2:0","r4:0","r4:1"],"edges":[[0,1],[1,2],[2,3]],"starts":[0],"delivered":[3]}"#;

/// r1 r3 r4
pub(crate) const P3: &str =
    r#""nodes":["r1:0","r3:0","r4:0","r4:1"],"edges":[[0,1],[1,2],[2,3]],"starts":[0],"delivered":[3]}"#;

/// both
pub(crate) const OVER_BOTH: Text = &[
    FLOWS,
    F1,
    r#""nodes":["r1:0","r2:0","r3:0","r4:0","r4:1"],"edges":[[0,1],[0,2],[1,3],[2,3],[3,4]],"starts":[0],"delivered":[4]}"#,
    END,
];

/// r1 drop
pub(crate) const DROPPED_AT_R1: Text = &[
    FLOWS,
    F1,
    r#""nodes":["r1:0"],"edges":[],"starts":[0]}"#,
    END,
];

/// r1 r2 drop
pub(crate) const X2: &str = r#""nodes":["r1:0","r2:0"],"edges":[[0,1]],"starts":[0]}"#;

/// r1 r3 drop
pub(crate) const X3: &str = r#""nodes":["r1:0","r3:0"],"edges":[[0,1]],"starts":[0]}"#;

/// r1 r2 r4, and r1 r2 drop
pub(crate) const DROPPED_TOO: Text = &[
    FLOWS,
    F1,
    r#""nodes":["r1:0","r2:0","r4:0","r4:1"],"edges":[[0,1],[1,2],[2,3]],"starts":[0],"delivered":[3],"dropped":[1]}"#,
    END,
];

/// r1 r2 r4, and r1 r3 and r2 in turn for ever
pub(crate) const AROUND: Text = &[
    FLOWS,
    F1,
    r#""nodes":["r1:0","r2:0","r4:0","r4:1","r3:0","r2:0"],"edges":[[0,1],[1,2],[2,3],[0,4],[4,5],[5,4]],"starts":[0],"delivered":[3]}"#,
    END,
];

/// r1 r2 r3 r4
pub(crate) const ALONG: Text = &[
    FLOWS,
    F1,
    r#""nodes":["r1:0","r2:0","r3:0","r4:0","r4:1"],"edges":[[0,1],[1,2],[2,3],[3,4]],"starts":[0],"delivered":[4]}"#,
    END,
];

/// r1, r2 and r3 in turn as often as one likes, r4; a loop of two nodes
pub(crate) const TURN: Text = &[
    FLOWS,
    F1,
    r#""nodes":["r1:0","r2:0","r3:0","r4:0"],"edges":[[0,1],[1,2],[2,1],[2,3]],"starts":[0],"delivered":[3]}"#,
    END,
];

/// the same, with the loop written out twice
pub(crate) const TURNS: Text = &[
    FLOWS,
    F1,
    r#""nodes":["r1:0","r2:0","r3:0","r2:0","r3:0","r4:0"],"edges":[[0,1],[1,2],[2,3],[3,4],[4,1],[2,5],[4,5]],"starts":[0],"delivered":[5]}"#,
    END,
];

/// The flow f1 over r2.
pub(crate) const OVER_R2: Text = &[FLOWS, F1, P2, END];

/// The flow f1 over r3.
pub(crate) const OVER_R3: Text = &[FLOWS, F1, P3, END];

/// f1 is dropped at r2.
pub(crate) const DROPPED_AT_R2: Text = &[FLOWS, F1, X2, END];

/// f1 is dropped at r3.
pub(crate) const DROPPED_AT_R3: Text = &[FLOWS, F1, X3, END];

/// A check that f1 stays over r2.
pub(crate) const KEEP: Text = &["check c1 : { r1:0 r2:0 r4:0 r4:1 : preserve };"];

/// Tables by which r1 sends one half of the addresses to r2 and the other to r3; both of these send all to r4,
/// which delivers.
pub(crate) const TABLES: Text = &[
    r#"{"version":1,"starts":["r1:0"],"tables":[{"device":"r1","routes":[{"prefix":"0.0.0.0/0","hops":["r2:0"]},{"prefix":"128.0.0.0/1","hops":["r3:0"]}]},{"device":"r2","routes":[{"prefix":"0.0.0.0/0","hops":["r4:0"]}]},{"device":"r3","routes":[{"prefix":"0.0.0.0/0","hops":["r4:0"]}]},{"device":"r4","routes":[{"prefix":"0.0.0.0/0"}]}]}"#,
];
