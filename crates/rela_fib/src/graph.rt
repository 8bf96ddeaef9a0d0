//! The graph on which the packets to an address are forwarded.

ghost use Rattle.std.specs.Prelude.{◌≡◌, ◌<◌, ◌^◌, ◌++◌, OnOk, length, map, nat_lt};
ghost use Rattle.rela_fib.specs.Graph.{edges_to, number_if};
ghost use Rattle.rela_fib.specs.Steps.{graph_of};
ghost use Rattle.rela_fib.specs.Text.{edge_data, number_data};
ghost use Rattle.rela_fib.specs.Writing.{AreNumerals, IsTextOf, entries_text};

use crate::numerals::{Numeral, push_closing, push_entry, push_opening};
use crate::step::Step;
use std::alloc::{AllocError, Global};

/// The greatest number of edges of a graph.
pub(crate) const MAX_EDGES: usize = 100_000;

/// The text of a graph, whose nodes are named by their indexes in a list: the entries of its
/// arrays, each with a comma before it.
#[derive(Drop)]
pub(crate) struct GraphText {
    /// The edges, in the order of their first nodes and then of their second ones.
    pub(crate) edges: Vec<u8>,
    /// The nodes where packets are delivered, ascending.
    pub(crate) delivered: Vec<u8>,
    /// The nodes where packets are dropped, ascending.
    pub(crate) dropped: Vec<u8>,
}

impl GraphText {
    /// The text of nothing.
    pub(crate) fn new(alloc: Global) -> GraphText {
        GraphText {
            edges: Vec::new(alloc),
            delivered: Vec::new(alloc),
            dropped: Vec::new(alloc),
        }
    }

    /// Writes the graph of the nodes whose devices take these steps, in place of what was written.
    /// Time: linear in the steps and the text.
    ///
    /// # Errors
    ///
    /// Only where memory is wanted.
    pub(crate) fn write(&mut self, numerals: &[Numeral], steps: &[&Step]) -> Result<(), AllocError>
        requires few { length steps.now < 2 ^ 32 }
        requires numerals { AreNumerals numerals.now }
        ensures { OnOk result (IsTextOf (graph_of (map (λ s. s.now) steps.now)) self.new) }
    {
        self.edges.clear();
        self.delivered.clear();
        self.dropped.clear();
        for (place, step) in steps.iter().enumerate() {
            push_edges(
                &mut self.edges,
                numerals,
                place as u32,
                step.next.as_slice(),
            )?;
            push_if(
                &mut self.delivered,
                step.is_delivered,
                numerals,
                place as u32,
            )?;
            push_if(&mut self.dropped, step.is_dropped, numerals, place as u32)?;
        }
        Ok(())
    }
}

/// Whether the graph of the nodes whose devices take these steps has more than 100,000 edges. Time:
/// linear in the nodes; no graph is made.
pub(crate) fn has_many_edges(steps: &[&Step]) -> bool
    ensures { result ≡ nat_lt 100000 (length (graph_of (map (λ s. s.now) steps.now)).edges) }
{
    let mut spare = MAX_EDGES;
    for step in steps {
        let count = step.next.as_slice().len();
        if count > spare {
            return true;
        }
        spare -= count;
    }
    false
}

/// Adds the edges from a node to others, each with a comma before it.
fn push_edges(
    text: &mut Vec<u8>,
    numerals: &[Numeral],
    from: u32,
    to: &[u32],
) -> Result<(), AllocError>
    requires { AreNumerals numerals.now }
    ensures { OnOk result (text.new.items
        ≡ text.old.items ++ entries_text edge_data (edges_to from to.now)) }
{
    for place in to {
        push_opening(text, numerals, from)?;
        push_closing(text, numerals, *place)?;
    }
    Ok(())
}

/// Adds a number with a comma before it, if it passes.
#[inline]
fn push_if(
    text: &mut Vec<u8>,
    passes: bool,
    numerals: &[Numeral],
    number: u32,
) -> Result<(), AllocError>
    requires { AreNumerals numerals.now }
    ensures { OnOk result (text.new.items
        ≡ text.old.items ++ entries_text number_data (number_if passes number)) }
{
    if passes {
        push_entry(text, numerals, number)?;
    }
    Ok(())
}
