//! A snapshot: the flows of a network, and how each is forwarded.

ghost use Rattle.std.specs.Prelude.{◌≡◌, ◌≢◌, ◌<◌, ◌≤◌, List, Ok, Err, IfOk, IfErr, Some, option_map, length, slice_get};
ghost use Rattle.rela_names.specs.declared.level.Level.{Level};
ghost use Rattle.rela_locations.specs.Network.{alphabet_of};
ghost use Rattle.rela_snapshot.specs.FlowEntry.{ListedFlow};
ghost use Rattle.rela_snapshot.specs.Flows.{AreFlowsOf};
ghost use Rattle.rela_snapshot.specs.Load.{Load};
ghost use Rattle.rela_snapshot.specs.Located.{AreLocated};
ghost use Rattle.rela_snapshot.specs.SnapshotFlows.{AreSnapshotFlows};
ghost use Rattle.rela_snapshot.specs.Steps.{IsAnswer};

use crate::plain::read_plain;
use crate::walk::read_snapshot;
use rela_flows::FlowClass;
use rela_graph::Graph;
use rela_json::{LoadError, read};
use rela_locations::Locations;
use std::alloc::Global;
use std::marker::Model;

/// The greatest number of flows of one snapshot.
pub const MAX_FLOWS: usize = 10_000;

/// One flow: what is said of it, and the graph on which it is forwarded.
#[derive(Drop)]
pub(crate) struct Flow {
    /// What is said of the flow: its name, its prefixes and its class.
    pub(crate) class: FlowClass,
    /// The graph on which it is forwarded.
    pub(crate) graph: Graph,
}

/// The flows of a network at one time, in the order of their file.
#[derive(Drop)]
pub struct Snapshot {
    /// The flows, each of a name of its own, in the order of their file.
    flows: Vec<Flow>,
}

impl Model for Snapshot {
    ghost use Rattle.std.specs.Prelude.{List};
    ghost use Rattle.rela_snapshot.specs.declared.snapshot.Flow.{Flow};

    ghost Value = { List Flow };

    ghost view = { λ snapshot. snapshot.flows.items };

    ghost use Rattle.rela_snapshot.specs.SnapshotFlows.{AreSnapshotFlows};

    ghost invariant = { λ snapshot. AreSnapshotFlows snapshot.flows.items };
}

impl Snapshot {
    /// The flows that a file in JSON lists, whose nodes stand at interfaces of these locations.
    /// Time: expected O(n log n) in its length; space: linear.
    ///
    /// The file is an object with the members `version`, which is 1 or 2, and `flows`, an array of
    /// at most 10,000 flows. A flow is an object with a `name` of its own, a prefix `dst`, maybe a
    /// prefix `src` of the same family and the name of a `class`, at most 10,000 `nodes`, at most
    /// 100,000 `edges`, each a pair of nodes, and the lists of nodes `starts`, and maybe
    /// `delivered` and `dropped`. In version 1 the prefixes are of IPv4, a node is the name of an
    /// interface, and an edge or list names it by its index. In version 2 a node is an object with
    /// an `id` of its own and the name of an interface `at`, and an edge or list names it by its
    /// id. Other members count for nothing.
    ///
    /// # Errors
    ///
    /// `NotJson`; else the first fault of a walk of the file, which takes the version, and then the
    /// flows in order, and of each its name, its prefixes, its class, its nodes, its edges and its
    /// lists of nodes; `Memory`.
    ///
    /// `WrongShape` has the number of the rule that is broken: 21 the file is an object, 22 its
    /// `version` is a whole number, 23 its `flows` are an array. In version 1: 24 a flow is an
    /// object, 25 its `name` is a string, 26 its `dst` is a string, 27 its `src`, if there, is a
    /// string, 28 its `class`, if there, is a string, 29 its `nodes` are an array, 30 a node is a
    /// string, 31 its `edges` are an array, 32 an edge is an array of two whole numbers, 33 its
    /// `starts` are an array of whole numbers, and so are 34 its `delivered`, if there, and 35 its
    /// `dropped`, if there. In version 2 the rules 41 to 46 stand for 24 to 29; 47 a node is an
    /// object, 48 its `id` is a string, 49 its `at` is a string, 50 the `edges` are an array, 51 an
    /// edge is an array of two strings, 52 the `starts` are an array of strings, and so are 53 the
    /// `delivered`, if there, and 54 the `dropped`, if there.
    ///
    /// The row is the index of the flow for all faults of a flow. `BadVersion` comes after the
    /// shape of the version. `TooMany` comes before the shape of a flow, and after that of its
    /// nodes or edges. `BadName`, `BadPrefix` and `UnknownLocation` come after the shape of what
    /// they are about, and `RepeatedEntry` after `BadName`, for the name of a flow or the id of a
    /// node that an earlier one has. `BadIndex` and `UnknownNode` are for what names no node of the
    /// flow.
    pub fn decode(alloc: Global, bytes: &[u8], locations: &Locations) -> Result<Snapshot, LoadError>
        requires { length bytes.now ≤ 33554432 }
        ensures load { IfOk result (λ snapshot. (listed : List ListedFlow)
            × IsAnswer (Load locations.now bytes.now) (Ok listed) × AreFlowsOf listed snapshot) }
        ensures fault { IfErr result (λ e. e ≢ LoadError.Memory →
            IsAnswer (Load locations.now bytes.now) (Err e)) }
        ensures located { IfOk result (λ snapshot. (level : Level) →
            AreLocated (alphabet_of level locations.now) level snapshot) }
    {
        if let Ok(flows) = read_plain(alloc, locations, bytes) {
            return Ok(Snapshot { flows });
        }
        let root = read(alloc, bytes)?;
        let flows = read_snapshot(alloc, locations, &root)?;
        Ok(Snapshot { flows })
    }

    /// The flows in order, moved out of the snapshot.
    pub(crate) fn into_flows(self) -> Vec<Flow>
        ensures flows { result.items ≡ self }
        ensures held { AreSnapshotFlows result.items }
    {
        let Snapshot { flows } = self;
        flows
    }

    /// How many flows there are.
    pub fn flows(&self) -> usize
        ensures { result ≡ length self.now }
    {
        self.flows.len()
    }

    /// What is said of the flow of this index.
    pub fn class(&self, i: usize) -> &FlowClass
        requires { i < length self.now }
        ensures { option_map (λ flow. flow.class) (slice_get self.now i) ≡ Some result.now }
    {
        &self.flows[i].class
    }

    /// The graph of the flow of this index.
    pub fn graph(&self, i: usize) -> &Graph
        requires { i < length self.now }
        ensures { option_map (λ flow. flow.graph) (slice_get self.now i) ≡ Some result.now }
    {
        &self.flows[i].graph
    }
}
