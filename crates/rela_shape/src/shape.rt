//! What a flow is at a level but for the names of its locations.

ghost use Rattle.std.specs.Prelude.{◌≡◌, ◌<◌, ◌^◌, IfOk, All, length, map};
ghost use Rattle.rela_labels.specs.Partition.{block_of};
ghost use Rattle.rela_shape.specs.Shape.{AreNumbered, IsShape, places_of};

use crate::wiring::wiring_of;
use indexmap::IndexSet;
use rela_graph::push_locations;
use rela_labels::Partition;
use rela_names::{Level, Symbol};
use rela_snapshot::FlowPair;
use std::alloc::{AllocError, Global};

/// The shape of a flow at a level: what its two graphs are there but for the names of the
/// locations. It tells which nodes stand at one location, whether of one graph or of both, and the
/// block of each location. Time to compare or to hash shapes: linear in the nodes and the edges.
#[derive(PartialEq, Eq, Hash, Drop)]
pub struct Shape {
    /// For each node of the graph before the change, and then of that after it, the number of its
    /// location. New numbers come in order from 0.
    numbers: Vec<u32>,
    /// For each of these nodes the block of its location.
    blocks: Vec<u32>,
    /// The edges and flags of the graph before the change, as bytes.
    before: Vec<u8>,
    /// Those of the graph after it.
    after: Vec<u8>,
}

impl Shape {
    /// The shape of the flow at the level, where the blocks are those of the symbols. Time and
    /// space: expected linear in the nodes and the edges, with a binary search for each node among
    /// the symbols that stand apart in the blocks.
    ///
    /// # Errors
    ///
    /// Only where memory is wanted.
    pub fn of(
        alloc: Global,
        pair: &FlowPair,
        level: Level,
        blocks: &Partition,
    ) -> Result<Shape, AllocError>
        requires { All (λ s. s < length blocks.now) (places_of level pair.now) }
        ensures { IfOk result (IsShape blocks.now level pair.now) }
    {
        let places = places_of(alloc, pair, level)?;
        let numbers = numbers_of(alloc, &places)?;
        let blocks = blocks_of(alloc, &places, blocks)?;
        let before = wiring_of(alloc, &pair.before)?;
        let after = wiring_of(alloc, &pair.after)?;
        Ok(Shape {
            numbers,
            blocks,
            before,
            after,
        })
    }
}

/// The location of each node at the level, those of the graph before the change first.
fn places_of(alloc: Global, pair: &FlowPair, level: Level) -> Result<Vec<Symbol>, AllocError>
    ensures places { IfOk result (λ places. places.items ≡ places_of level pair.now) }
    ensures few { IfOk result (λ places. length places.items < 2 ^ 32) }
{
    let before = pair.before.nodes();
    let after = pair.after.nodes();
    let mut places = Vec::with_capacity(alloc, before.len() + after.len())?;
    push_locations(&mut places, before, level)?;
    push_locations(&mut places, after, level)?;
    Ok(places)
}

/// One number for each place: two have one number just where they are one location, and new
/// numbers come in order from 0. Time and space: expected linear.
fn numbers_of(alloc: Global, places: &[Symbol]) -> Result<Vec<u32>, AllocError>
    requires { length places.now < 2 ^ 32 }
    ensures { IfOk result (λ numbers. AreNumbered places.now numbers.items) }
{
    let mut seen = IndexSet::with_capacity(alloc, places.len())?;
    let mut numbers = Vec::with_capacity(alloc, places.len())?;
    for place in places {
        let (number, _) = seen.insert_full(*place)?;
        numbers.push(number as u32)?;
    }
    Ok(numbers)
}

/// The block of each place. Time: a binary search for each among the symbols that stand apart.
fn blocks_of(alloc: Global, places: &[Symbol], blocks: &Partition) -> Result<Vec<u32>, AllocError>
    requires { All (λ s. s < length blocks.now) places.now }
    ensures { IfOk result (λ found. found.items ≡ map (block_of blocks.now) places.now) }
{
    let mut found = Vec::with_capacity(alloc, places.len())?;
    for place in places {
        found.push(blocks.block_of(*place))?;
    }
    Ok(found)
}
