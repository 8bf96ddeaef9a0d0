//! A device, and what it does by each of its routes.

ghost use Rattle.std.specs.Prelude.{◌≡◌, ◌<◌, ◌^◌, IfOk, length, map};
ghost use Rattle.std.specs.List.Sorted.{IsStrictlyIncreasing};
ghost use Rattle.rela_prefixes.specs.Longest.{Longest};
ghost use Rattle.rela_fib.specs.Prefixes.{prefixes_of};
ghost use Rattle.rela_fib.specs.Steps.{AreStepsBy, IsDevice, IsStepBy, IsWithin};

use crate::step::Step;
use rela_flows::Ipv4Prefix;
use rela_names::Symbol;
use rela_prefixes::PrefixTable;
use rela_tables::Route;
use std::alloc::{AllocError, Global};

/// A device, with what it does by each of its routes.
#[derive(Drop)]
pub(crate) struct Device {
    /// Finds the longest of the routes' prefixes.
    pub(crate) prefixes: PrefixTable,
    /// What is done by each route, in the order of the table and of the prefixes.
    pub(crate) steps: Vec<Step>,
    /// What is done where no route's prefix holds the address.
    pub(crate) otherwise: Step,
}

impl Device {
    /// The device of these routes, among these nodes. Time: O(n log n) in the number of routes
    /// times the 32 bits of an address, and for the hops of each route a binary search among the
    /// nodes each, and a sort; space: linear in the same.
    ///
    /// # Errors
    ///
    /// Only where memory is wanted.
    pub(crate) fn new(
        alloc: Global,
        nodes: &[Symbol],
        routes: &[Route],
    ) -> Result<Device, AllocError>
        requires few { length nodes.now < 2 ^ 32 }
        requires few_routes { length routes.now < 2 ^ 32 }
        requires ascending { IsStrictlyIncreasing nodes.now }
        ensures { IfOk result (IsDevice nodes.now routes.now) }
    {
        let steps = steps_by(alloc, nodes, routes)?;
        let prefixes = prefixes_of(alloc, routes)?;
        let prefixes = PrefixTable::new(alloc, prefixes)?;
        Ok(Device {
            prefixes,
            steps,
            otherwise: Step::without_route(alloc),
        })
    }

    /// The index of the route with the longest prefix that holds an address, and `None` where no
    /// prefix holds it. Time: logarithmic in the number of routes.
    pub(crate) fn choice(&self, address: u32) -> Option<u32>
        requires { length self.now.prefixes ≡ length self.now.steps.items }
        ensures longest { Longest self.now.prefixes address result }
        ensures within { IsWithin self.now result }
    {
        self.prefixes.longest(address)
    }

    /// What the device does where it makes this choice.
    pub(crate) fn step(&self, choice: Option<u32>) -> &Step
        requires { IsWithin self.now choice }
        ensures { IsStepBy self.now choice result.now }
    {
        match choice {
            Some(place) => &self.steps[place as usize],
            None => &self.otherwise,
        }
    }
}

/// What is done by each of these routes, in their order.
fn steps_by(alloc: Global, nodes: &[Symbol], routes: &[Route]) -> Result<Vec<Step>, AllocError>
    requires few { length nodes.now < 2 ^ 32 }
    requires ascending { IsStrictlyIncreasing nodes.now }
    ensures { IfOk result (λ steps. AreStepsBy nodes.now routes.now steps.items) }
{
    let mut steps = Vec::with_capacity(alloc, routes.len())?;
    for route in routes {
        let step = Step::by_route(alloc, nodes, route)?;
        steps.push(step)?;
    }
    Ok(steps)
}

/// The prefixes of these routes, in their order.
fn prefixes_of(alloc: Global, routes: &[Route]) -> Result<Vec<Ipv4Prefix>, AllocError>
    ensures { IfOk result (λ found. found.items ≡ prefixes_of routes.now) }
{
    routes.iter().map(|route| route.prefix).collect(alloc)
}
