//! What is known of leaves for the flows of a block, so that hardly any is asked of a flow twice.

ghost use Rattle.std.specs.Prelude.{◌≡◌, ◌<◌, ◌≤◌, ◌↔◌, All, IfOk, IsTrue, List, None, length, slice_index_or};
ghost use Rattle.rela_flows.specs.Selects.{Selects, depth};
ghost use Rattle.rela_flows.specs.declared.predicate.Predicate.{Predicate};
ghost use Rattle.rela_plan.specs.Selection.{IsAnswer, AreKnown};
ghost use Rattle.rela_snapshot.specs.declared.pairing.FlowPair.{FlowPair};

use crate::flow_bits::{but_not, first_flow, in_both, in_either, with_flow, without_flow};
use crate::leaf::{fingerprint, same_leaf};
use rela_flows::{Predicate, selects};
use rela_snapshot::FlowPair;
use std::alloc::{AllocError, Global};

/// How many places are looked at for a leaf.
const NEAR: usize = 16;

/// A leaf, with what is known of it for the flows of a block.
#[derive(Clone, Copy)]
pub(crate) struct Known<'a> {
    /// The leaf, which is lent.
    pub(crate) leaf: &'a Predicate,
    /// The flows that it was asked of, as the bits of a word.
    pub(crate) asked: u64,
    /// Of these flows, those that it selects.
    pub(crate) flows: u64,
}

/// Where a leaf stands among those that are known, or may be put.
#[derive(Clone, Copy)]
struct Found {
    /// The place.
    place: usize,
    /// The flows that the leaf was asked of: none where it is new.
    asked: u64,
    /// Of these flows, those that it selects.
    flows: u64,
}

/// Room for leaves, none of which is known.
pub(crate) fn nothing_known<'a>(
    alloc: Global,
    room: usize,
) -> Result<Vec<Option<Known<'a>>>, AllocError>
    ensures none { IfOk result (λ known. All (λ slot. slot ≡ None) known.items) }
    ensures room { IfOk result (λ known. length known.items ≡ room) }
{
    vec![in alloc; None; room]
}

/// Of the flows of the block that are asked, those that the leaf selects. It is asked of those
/// alone for which it isn't known yet, and is known for them afterwards.
///
/// Time: expected linear in the flows for which it isn't known.
pub(crate) fn selected_by_leaf<'a>(
    leaf: &'a Predicate,
    asked: u64,
    block: &[FlowPair],
    known: &mut [Option<Known<'a>>],
) -> u64
    requires shallow { depth leaf.now ≤ 1000 }
    requires known { AreKnown block.now known.old }
    ensures answer { IsAnswer block.now asked leaf.now result }
    ensures known { AreKnown block.now known.new }
{
    let found = find(known, leaf);
    let missing = but_not(asked, found.asked);
    let flows = in_either(found.flows, asked_one_by_one(leaf, missing, block));
    known[found.place] = Some(Known {
        leaf,
        asked: in_either(found.asked, missing),
        flows,
    });
    in_both(flows, asked)
}

/// What is known of the leaf, with its place, or the place that it may take. Where none of `NEAR`
/// places is free, it takes that of another, of which nothing is known then: so time is constant,
/// also where many leaves have one fingerprint.
fn find(known: &[Option<Known>], leaf: &Predicate) -> Found
    requires { 0 < length known.now }
    ensures place { result.place < length known.now }
    ensures right { (block : List FlowPair) → AreKnown block known.now →
        IsAnswer block result.asked leaf.now result.flows }
{
    let mut place = fingerprint(leaf) as usize % known.len();
    for _ in 0..NEAR {
        let Some(one) = known[place] else {
            return new_at(place);
        };
        if same_leaf(one.leaf, leaf) {
            return Found {
                place,
                asked: one.asked,
                flows: one.flows,
            };
        }
        place = (place + 1) % known.len();
    }
    new_at(place)
}

/// The place, with no flow that a leaf was asked of.
fn new_at(place: usize) -> Found
    ensures place { result.place ≡ place }
    ensures right { (block : List FlowPair) (leaf : Predicate) →
        IsAnswer block result.asked leaf result.flows }
{
    Found {
        place,
        asked: 0,
        flows: 0,
    }
}

/// Of the flows of the block that are asked, those that the predicate selects.
///
/// Time: linear in the flows that are asked.
fn asked_one_by_one(predicate: &Predicate, asked: u64, block: &[FlowPair]) -> u64
    requires shallow { depth predicate.now ≤ 1000 }
    requires few { length block.now ≤ 64 }
    ensures { IsAnswer block.now asked predicate.now result }
{
    let mut flows = 0;
    let mut left = asked;
    while let Some(place) = first_flow(left) {
        left = without_flow(left, place);
        if selects_at(predicate, block, place) {
            flows = with_flow(flows, place);
        }
    }
    flows
}

/// Whether the predicate selects the flow at the place of the block.
fn selects_at(predicate: &Predicate, block: &[FlowPair], place: u32) -> bool
    requires shallow { depth predicate.now ≤ 1000 }
    ensures { (d : FlowPair) → place < length block.now →
        IsTrue result ↔ Selects predicate.now (slice_index_or block.now place d).class }
{
    match block.get(place as usize) {
        Some(pair) => selects(predicate, &pair.class),
        None => false,
    }
}
