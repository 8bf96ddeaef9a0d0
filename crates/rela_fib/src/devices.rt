//! The devices that the nodes of a graph belong to.

ghost use Rattle.std.specs.Prelude.{◌≡◌, ◌<◌, ◌≤◌, ◌^◌, false, IfOk, length, map, nat_eq};
ghost use Rattle.std.specs.List.{IsDistinct};
ghost use Rattle.std.specs.List.Sorted.{IsStrictlyIncreasing};
ghost use Rattle.rela_tables.specs.Distinct.{AreTables, devices_of};
ghost use Rattle.rela_tables.specs.Forwarding.{routes_of};
ghost use Rattle.rela_tables.specs.Located.{AreInterfaces};
ghost use Rattle.rela_fib.specs.Steps.{AreChoices, AreDevices, AreDevicesAt, AreMatched, ArePlaced, AreStepsWith, AreWithin, IsMatched, IsStepWith};

use crate::device::Device;
use crate::step::Step;
use indexmap::IndexSet;
use rela_locations::Locations;
use rela_names::{Level, Symbol};
use rela_tables::{Route, Table, Tables};
use std::alloc::{AllocError, Global};

/// The devices of some nodes.
#[derive(Drop)]
pub(crate) struct Devices {
    /// Each device once, in the order in which the nodes name them first.
    pub(crate) devices: Vec<Device>,
    /// For each node the index of its device.
    pub(crate) of_nodes: Vec<u32>,
}

impl Devices {
    /// The devices of these nodes, with the tables of a file. Time: expected linear in the nodes
    /// and the tables, O(n log n) in the number of routes times the 32 bits of an address, and for
    /// the hops of each route a binary search among the nodes each, and a sort; space: linear in
    /// the same.
    ///
    /// # Errors
    ///
    /// Only where memory is wanted.
    pub(crate) fn new(
        alloc: Global,
        locations: &Locations,
        tables: &Tables,
        nodes: &[Symbol],
    ) -> Result<Devices, AllocError>
        requires few { length nodes.now < 2 ^ 32 }
        requires ascending { IsStrictlyIncreasing nodes.now }
        requires located { AreInterfaces locations.now nodes.now }
        ensures { IfOk result (AreDevices locations.now tables.now nodes.now) }
    {
        let (names, of_nodes) = place_devices(alloc, locations, nodes)?;
        let devices = devices_at(alloc, tables, names.as_slice(), nodes)?;
        Ok(Devices { devices, of_nodes })
    }

    /// Makes each choice the one that its device makes for an address: the index of a route, and
    /// `None` where it chooses none. Says whether one has changed. Time: logarithmic in the number
    /// of routes of each device.
    pub(crate) fn choose(&self, address: u32, choices: &mut [Option<u32>]) -> bool
        requires matched { AreMatched self.now.devices.items }
        requires within { AreWithin self.now.devices.items choices.old }
        ensures chosen { AreChoices self.now.devices.items address choices.new }
        ensures within { AreWithin self.now.devices.items choices.new }
        ensures kept { result ≡ false → choices.new ≡ choices.old }
    {
        let mut is_changed = false;
        for (place, device) in self.devices.iter().enumerate() {
            let choice = device.choice(address);
            if choices[place] != choice {
                is_changed = true;
            }
            choices[place] = choice;
        }
        is_changed
    }

    /// What the device of each node does, where the devices make these choices. Time: linear in the
    /// nodes.
    ///
    /// # Errors
    ///
    /// Only where memory is wanted.
    pub(crate) fn steps(
        &self,
        alloc: Global,
        choices: &[Option<u32>],
    ) -> Result<Vec<&Step>, AllocError>
        requires matched { IsMatched self.now }
        requires within { AreWithin self.now.devices.items choices.now }
        ensures { IfOk result (λ steps.
            AreStepsWith self.now choices.now (map (λ s. s.now) steps.items)) }
    {
        let devices = self.devices.as_slice();
        let mut steps = Vec::with_capacity(alloc, self.of_nodes.len())?;
        for place in &self.of_nodes {
            steps.push(step_at(devices, choices, *place as usize))?;
        }
        Ok(steps)
    }
}

/// What the device at a place does, by the choice at that place.
fn step_at<'d>(devices: &'d [Device], choices: &[Option<u32>], place: usize) -> &'d Step
    requires within { AreWithin devices.now choices.now }
    requires place { place < length devices.now }
    ensures { IsStepWith devices.now choices.now place result.now }
{
    devices[place].step(choices[place])
}

/// The symbols of the devices of these nodes, each once, and for each node the index of its device
/// among them. Time: expected linear in the nodes.
fn place_devices(
    alloc: Global,
    locations: &Locations,
    nodes: &[Symbol],
) -> Result<(IndexSet<Symbol>, Vec<u32>), AllocError>
    requires few { length nodes.now < 2 ^ 32 }
    requires located { AreInterfaces locations.now nodes.now }
    ensures { IfOk result (λ placed.
        ArePlaced locations.now nodes.now placed.0.keys placed.1.items) }
{
    let mut names = IndexSet::new(alloc);
    let mut of_nodes = Vec::with_capacity(alloc, nodes.len())?;
    for node in nodes {
        let (place, _) = names.insert_full(locations.lift(*node, Level::Device))?;
        of_nodes.push(place as u32)?;
    }
    Ok((names, of_nodes))
}

/// The devices of these symbols, in their order, with the tables of a file. One without a table has
/// no routes.
fn devices_at(
    alloc: Global,
    tables: &Tables,
    names: &[Symbol],
    nodes: &[Symbol],
) -> Result<Vec<Device>, AllocError>
    requires few { length nodes.now < 2 ^ 32 }
    requires ascending { IsStrictlyIncreasing nodes.now }
    ensures devices { IfOk result (λ devices.
        AreDevicesAt tables.now nodes.now names.now devices.items) }
    ensures tables { AreTables tables.now.tables }
{
    let listed = devices_of(alloc, tables.tables())?;
    let mut devices = Vec::with_capacity(alloc, names.len())?;
    for name in names {
        let routes = routes_of(tables, &listed, *name);
        let device = Device::new(alloc, nodes, routes)?;
        devices.push(device)?;
    }
    Ok(devices)
}

/// The routes of a device, none where it has no table.
fn routes_of<'a>(tables: &'a Tables, listed: &IndexSet<Symbol>, device: Symbol) -> &'a [Route]
    requires { listed.now.keys ≡ devices_of tables.now.tables }
    ensures routes { result.now ≡ routes_of tables.now device }
    ensures few { length result.now ≤ 10000 }
{
    match listed.get_index_of(&device) {
        Some(place) => tables.tables()[place].routes.as_slice(),
        None => &[],
    }
}

/// The symbols of the devices of these tables, in their order, so that each has the index of its
/// table.
fn devices_of(alloc: Global, tables: &[Table]) -> Result<IndexSet<Symbol>, AllocError>
    requires { IsDistinct nat_eq (devices_of tables.now) }
    ensures { IfOk result (λ devices. devices.keys ≡ devices_of tables.now) }
{
    let mut devices = IndexSet::with_capacity(alloc, tables.len())?;
    for table in tables {
        devices.insert(table.device)?;
    }
    Ok(devices)
}
