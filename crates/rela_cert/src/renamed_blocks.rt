//! Listed blocks but for the names of locations.

ghost use Rattle.std.specs.Prelude.{◌≡◌, ℕ, ◌+◌, ◌<◌, ◌^◌, ◌++◌, List, IfOk, OnOk, All, length, map};
ghost use Rattle.rela_graph.specs.Topology.{symbol_at};
ghost use Rattle.rela_shape.specs.Shape.{places_of};
ghost use Rattle.rela_cert.specs.RenamedBlocks.{AreFirstPlaces, renamed_step};

use rela_certfile::Step;
use rela_graph::Node;
use rela_labels::Partition;
use rela_names::{Level, Symbol};
use rela_snapshot::FlowPair;
use std::alloc::{AllocError, Global};
use std::collections::HashMap;

/// A step of a listed block but for the name of its symbol.
#[derive(Clone, Copy, PartialEq, Eq, Hash)]
pub(crate) struct RenamedStep {
    /// The number of the word that is continued.
    parent: u32,
    /// The block of the symbol that is put behind it.
    block: u32,
    /// The first of the flow's nodes that stand at the symbol, where some do. They are numbered from
    /// 0, those of the graph before the change first.
    node: Option<u32>,
}

/// By each location at which nodes of a flow stand, the number of the first of them.
type FirstNodes = HashMap<Symbol, u32>;

/// The steps but for the names of their symbols: of each is told its block, and which of the flow's
/// nodes stand at it. Flows of one shape have equal such blocks where the blocks differ in no more
/// than the names of locations.
///
/// Time and space: expected linear in the nodes and the steps, with a binary search for each step among
/// the symbols that stand apart in the blocks. The only error is want of memory.
pub(crate) fn renamed_block(
    alloc: Global,
    pair: &FlowPair,
    level: Level,
    blocks: &Partition,
    steps: &[Step],
) -> Result<Vec<RenamedStep>, AllocError>
    requires { All (λ step. step.symbol < length blocks.now) steps.now }
    ensures { IfOk result (λ renamed. renamed.items
        ≡ map (renamed_step blocks.now (places_of level pair.now)) steps.now) }
{
    let first = first_nodes(alloc, pair, level)?;
    let mut renamed = Vec::with_capacity(alloc, steps.len())?;
    for step in steps {
        renamed.push(renamed_step(blocks, &first, step))?;
    }
    Ok(renamed)
}

/// The step but for the name of its symbol.
fn renamed_step(blocks: &Partition, first: &FirstNodes, step: &Step) -> RenamedStep
    requires { step.now.symbol < length blocks.now }
    ensures { (places : List ℕ) → AreFirstPlaces places first.now →
        result ≡ renamed_step blocks.now places step.now }
{
    RenamedStep {
        parent: step.parent,
        block: blocks.block_of(step.symbol),
        node: first.get(&step.symbol).copied(),
    }
}

/// By each location of the flow's nodes at the level, the first node that stands there. Time and space:
/// expected linear. The only error is want of memory.
fn first_nodes(alloc: Global, pair: &FlowPair, level: Level) -> Result<FirstNodes, AllocError>
    ensures { IfOk result (AreFirstPlaces (places_of level pair.now)) }
{
    let before = pair.before.nodes();
    let after = pair.after.nodes();
    let mut first = HashMap::with_capacity(alloc, before.len() + after.len())?;
    note_nodes(&mut first, before, level, 0)?;
    note_nodes(&mut first, after, level, before.len() as u32)?;
    Ok(first)
}

/// Notes those of the nodes at whose locations none was noted; so many have been passed before them.
fn note_nodes(
    first: &mut FirstNodes,
    nodes: &[Node],
    level: Level,
    passed: u32,
) -> Result<(), AllocError>
    requires { passed + length nodes.now < 2 ^ 32 }
    ensures { OnOk result ((places : List ℕ) → length places ≡ passed →
        AreFirstPlaces places first.old →
        AreFirstPlaces (places ++ map (symbol_at level) nodes.now) first.new) }
{
    for (k, node) in nodes.iter().enumerate() {
        let place = node.symbol_at(level);
        if !first.contains_key(&place) {
            first.insert(place, passed + k as u32)?;
        }
    }
    Ok(())
}
