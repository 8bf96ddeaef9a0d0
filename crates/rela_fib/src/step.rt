//! What a device does with packets.

ghost use Rattle.std.specs.Prelude.{ℕ, List, ◌<◌, ◌^◌, IfOk, None, Some, length};
ghost use Rattle.std.specs.List.Sorted.{IsStrictlyIncreasing};
ghost use Rattle.rela_fib.specs.Steps.{IsStep};

use crate::places::places_of;
use rela_names::{List, Symbol};
use rela_tables::Route;
use std::alloc::{AllocError, Global};

/// What a device does with the packets that one route, or no route, is chosen for.
#[derive(Drop)]
pub(crate) struct Step {
    /// The indexes of the nodes that the packets go to next, ascending.
    pub(crate) next: List<u32>,
    /// Whether the packets are delivered at the device.
    pub(crate) is_delivered: bool,
    /// Whether the device drops the packets.
    pub(crate) is_dropped: bool,
}

impl Step {
    /// What is done where no route is chosen: the packets are dropped.
    pub(crate) fn without_route(alloc: Global) -> Step
        ensures { (nodes : List ℕ) → IsStep nodes None result }
    {
        Step {
            next: List::from_vec(Vec::new(alloc)),
            is_delivered: false,
            is_dropped: true,
        }
    }

    /// What is done by a route: the packets go to its hops, are dropped where its list of hops is
    /// empty, and are delivered where it has none.
    ///
    /// # Errors
    ///
    /// Only where memory is wanted.
    pub(crate) fn by_route(
        alloc: Global,
        nodes: &[Symbol],
        route: &Route,
    ) -> Result<Step, AllocError>
        requires few { length nodes.now < 2 ^ 32 }
        requires ascending { IsStrictlyIncreasing nodes.now }
        ensures { IfOk result (IsStep nodes.now (Some route.now)) }
    {
        let Some(hops) = &route.hops else {
            return Ok(Step {
                next: List::from_vec(Vec::new(alloc)),
                is_delivered: true,
                is_dropped: false,
            });
        };
        let hops = hops.as_slice();
        let next = places_of(alloc, nodes, hops)?;
        Ok(Step {
            next: List::from_vec(next),
            is_delivered: false,
            is_dropped: hops.is_empty(),
        })
    }
}
