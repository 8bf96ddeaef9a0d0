//! The graph of a flow, drawn anew only where a device chooses another route.

ghost use Rattle.std.specs.Prelude.{◌≡◌, ◌≢◌, ◌<◌, ◌≤◌, ◌^◌, true, Err, IfOk, IfErr, OnOk, length, map};
ghost use Rattle.rela_fib.specs.Steps.{AreChoices, AreStepsWith, AreWithin, IsMatched, graph_of};
ghost use Rattle.rela_fib.specs.Writing.{AreManySteps, IsDrawing};

use crate::devices::Devices;
use crate::error::FibError;
use crate::graph::{GraphText, has_many_edges};
use crate::numerals::{Numeral, numerals_below};
use crate::step::Step;
use std::alloc::{AllocError, Global};

/// What the devices choose, and the text of the graph that they then give. Flows for whose
/// addresses they choose the same have one text.
#[derive(Drop)]
pub(crate) struct Drawing {
    /// The numerals of the indexes of the nodes.
    pub(crate) numerals: Vec<Numeral>,
    /// The index of the route that each device chooses, and `None` where it chooses none.
    pub(crate) choices: Vec<Option<u32>>,
    /// Whether `graph` is that of the choices.
    pub(crate) is_drawn: bool,
    /// The text of a graph.
    pub(crate) graph: GraphText,
}

impl Drawing {
    /// Nothing drawn, and no route chosen. Time and space: linear in the nodes.
    ///
    /// # Errors
    ///
    /// Only where memory is wanted.
    pub(crate) fn new(alloc: Global, devices: &Devices) -> Result<Drawing, AllocError>
        requires { length devices.now.of_nodes.items < 2 ^ 32 }
        ensures { IfOk result (IsDrawing devices.now) }
    {
        let mut choices = Vec::new(alloc);
        choices.resize(devices.devices.len(), None)?;
        let numerals = numerals_below(alloc, devices.of_nodes.len() as u32)?;
        Ok(Drawing {
            numerals,
            choices,
            is_drawn: false,
            graph: GraphText::new(alloc),
        })
    }

    /// Chooses for an address. Time: logarithmic in the number of routes of each device.
    pub(crate) fn choose(&mut self, devices: &Devices, address: u32)
        requires matched { IsMatched devices.now }
        requires drawing { IsDrawing devices.now self.old }
        ensures drawing { IsDrawing devices.now self.new }
        ensures chosen { AreChoices devices.now.devices.items address self.new.choices.items }
    {
        if devices.choose(address, self.choices.as_mut_slice()) {
            self.is_drawn = false;
        }
    }

    /// Draws the graph of the choices, unless it is drawn. Time: linear in the nodes and the text.
    ///
    /// # Errors
    ///
    /// `TooMany` where the graph has more than 100,000 edges; `Memory`. Never `TooLong`.
    pub(crate) fn draw(&mut self, alloc: Global, devices: &Devices) -> Result<(), FibError>
        requires matched { IsMatched devices.now }
        requires few { length devices.now.of_nodes.items < 2 ^ 32 }
        requires drawing { IsDrawing devices.now self.old }
        ensures drawing { OnOk result (IsDrawing devices.now self.new) }
        ensures drawn { OnOk result (self.new.is_drawn ≡ true) }
        ensures choices { OnOk result (self.new.choices.items ≡ self.old.choices.items) }
        ensures too_many { result ≡ Err FibError.TooMany
            → AreManySteps devices.now self.old.choices.items }
        ensures not_long { result ≢ Err FibError.TooLong }
    {
        if !self.is_drawn {
            let steps = few_steps(alloc, devices, self.choices.as_slice())?;
            self.graph
                .write(self.numerals.as_slice(), steps.as_slice())?;
            self.is_drawn = true;
        }
        Ok(())
    }
}

/// What the device of each node does, where the devices make these choices. Time: linear in the
/// nodes; no graph is drawn.
///
/// # Errors
///
/// `TooMany` where the graph has more than 100,000 edges; `Memory`. Never `TooLong`.
pub(crate) fn few_steps<'d>(
    alloc: Global,
    devices: &'d Devices,
    choices: &[Option<u32>],
) -> Result<Vec<&'d Step>, FibError>
    requires matched { IsMatched devices.now }
    requires within { AreWithin devices.now.devices.items choices.now }
    ensures steps { IfOk result (λ steps.
        AreStepsWith devices.now choices.now (map (λ s. s.now) steps.items)) }
    ensures few { IfOk result (λ steps.
        length (graph_of (map (λ s. s.now) steps.items)).edges ≤ 100000) }
    ensures too_many { result ≡ Err FibError.TooMany → AreManySteps devices.now choices.now }
    ensures not_long { result ≢ Err FibError.TooLong }
{
    let steps = devices.steps(alloc, choices)?;
    refuse_many_edges(steps.as_slice())?;
    Ok(steps)
}

/// `TooMany` exactly where the graph of these steps has more than 100,000 edges. It asks for no
/// memory.
fn refuse_many_edges(steps: &[&Step]) -> Result<(), FibError>
    ensures few { OnOk result (length (graph_of (map (λ s. s.now) steps.now)).edges ≤ 100000) }
    ensures many { IfErr result (λ e. (e ≡ FibError.TooMany)
        × (100000 < length (graph_of (map (λ s. s.now) steps.now)).edges)) }
{
    if has_many_edges(steps) {
        return Err(FibError::TooMany);
    }
    Ok(())
}
