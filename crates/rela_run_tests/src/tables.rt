//! Snapshots that forwarding tables give.

use crate::cases::{Case, DRAW, Run, Text, hold};
use crate::network::{LOCATIONS, TABLES};
use rela_top::MET;
use std::alloc::{AllocError, Global};
use std::process::Abort;

/// Tables, and the snapshot of them whose flows are cut by the routes of `TABLES` too.
struct Drawn {
    /// The text of the tables.
    tables: Text,
    /// The text of their snapshot.
    text: Text,
}

impl Case for Drawn {
    fn holds(&self, rt: &impl Abort, alloc: Global, place: usize) -> Result<(), AllocError> {
        let files = [
            ("tables", self.tables),
            ("other", TABLES),
            ("locations", LOCATIONS),
        ];
        let run = Run {
            words: DRAW,
            files: &files,
            status: MET,
            text: self.text,
        };
        run.holds(rt, alloc, place)
    }
}

const DRAWN: &[Drawn] = &[
    Drawn {
        tables: TABLES,
        text: &[
            "{\"flows\":[{\"delivered\":[3],\"dropped\":[],\"dst\":\"0.0.0.0/1\",\"edges\":[[0,1],[1,3],[2,3]],\"name\":\"0.0.0.0/1\",\"nodes\":[\"r1:0\",\"r2:0\",\"r3:0\",\"r4:0\"],\"starts\":[0]},{\"delivered\":[3],\"dropped\":[],\"dst\":\"128.0.0.0/1\",\"edges\":[[0,2],[1,3],[2,3]],\"name\":\"128.0.0.0/1\",\"nodes\":[\"r1:0\",\"r2:0\",\"r3:0\",\"r4:0\"],\"starts\":[0]}],\"version\":1}\n",
        ],
    },
    // r1 delivers all.
    Drawn {
        tables: &[
            r#"{"version":1,"starts":["r1:0"],"tables":[{"device":"r1","routes":[{"prefix":"0.0.0.0/0"}]}]}"#,
        ],
        text: &[
            "{\"flows\":[{\"delivered\":[0],\"dropped\":[],\"dst\":\"0.0.0.0/1\",\"edges\":[],\"name\":\"0.0.0.0/1\",\"nodes\":[\"r1:0\"],\"starts\":[0]},{\"delivered\":[0],\"dropped\":[],\"dst\":\"128.0.0.0/1\",\"edges\":[],\"name\":\"128.0.0.0/1\",\"nodes\":[\"r1:0\"],\"starts\":[0]}],\"version\":1}\n",
        ],
    },
    // r1 drops one half of the addresses, and r2 has no table.
    Drawn {
        tables: &[
            r#"{"version":1,"starts":["r1:0"],"tables":[{"device":"r1","routes":[{"prefix":"0.0.0.0/0","hops":[]},{"prefix":"128.0.0.0/1","hops":["r2:0"]}]}]}"#,
        ],
        text: &[
            "{\"flows\":[{\"delivered\":[],\"dropped\":[0,1],\"dst\":\"0.0.0.0/1\",\"edges\":[],\"name\":\"0.0.0.0/1\",\"nodes\":[\"r1:0\",\"r2:0\"],\"starts\":[0]},{\"delivered\":[],\"dropped\":[1],\"dst\":\"128.0.0.0/1\",\"edges\":[[0,1]],\"name\":\"128.0.0.0/1\",\"nodes\":[\"r1:0\",\"r2:0\"],\"starts\":[0]}],\"version\":1}\n",
        ],
    },
];

#[test]
fn draws_the_snapshot_of_tables(rt: HostRuntime) -> Result<(), AllocError> {
    hold(&rt, rt.alloc(), DRAWN)
}
