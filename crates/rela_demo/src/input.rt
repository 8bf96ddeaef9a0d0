//! The input of a number of layers.

ghost use Rattle.std.specs.Prelude.{◌≡◌, ◌≤◌, IfOk};
ghost use Rattle.rela_demo.specs.Input.{AreShort, HasSpecification, LoadsAfter, LoadsBefore, LoadsNetwork};

use crate::locations::locations_text;
use crate::snapshot::{cut_text, layered_text, lost_text, nodes_text, snapshot_text};
use crate::specification::specification_text;
use std::alloc::{AllocError, Global};
use std::marker::Model;

/// Four texts: the locations of a network, its snapshots before and after a change, and a
/// specification of the change.
#[derive(Drop)]
pub struct DemoInput {
    /// The snapshot before the change.
    before: Vec<u8>,
    /// The snapshot after the change.
    after: Vec<u8>,
    /// The locations.
    locations: Vec<u8>,
    /// The specification.
    spec: Vec<u8>,
}

impl Model for DemoInput {
    ghost use Rattle.rela_demo.specs.Input.{Texts};

    ghost Value = { Texts };

    ghost view = { λ input. record {
      before = input.before.items;
      after = input.after.items;
      locations = input.locations.items;
      spec = input.spec.items;
    } };
}

impl DemoInput {
    /// The snapshot before the change.
    pub fn before(&self) -> &[u8]
        ensures { result.now ≡ self.now.before }
    {
        self.before.as_slice()
    }

    /// The snapshot after the change.
    pub fn after(&self) -> &[u8]
        ensures { result.now ≡ self.now.after }
    {
        self.after.as_slice()
    }

    /// The locations of the network.
    pub fn locations(&self) -> &[u8]
        ensures { result.now ≡ self.now.locations }
    {
        self.locations.as_slice()
    }

    /// The specification of the change.
    pub fn spec(&self) -> &[u8]
        ensures { result.now ≡ self.now.spec }
    {
        self.spec.as_slice()
    }
}

/// The input of `n` layers.
///
/// Its devices are a001, b001, a002, b002 and so on, each with one interface. Its flows f1 to f8 go
/// from a001 through a layered graph: the nodes of each layer from the second on are a and b of the
/// layer's number, and each layer leads to the next. After the change f7 has no edge into b of the
/// last layer, and drops at the layer before; a of the last layer doesn't deliver f8. The
/// specification asks for the change of f7 and for no other, so f8 alone violates it.
///
/// Time and space: linear in `n`.
///
/// # Errors
///
/// Only where memory is wanted.
pub fn generate(alloc: Global, n: u32) -> Result<DemoInput, AllocError>
    requires from_one { 1 ≤ n }
    requires at_most { n ≤ 200 }
    ensures locations { IfOk result (λ input. LoadsNetwork n input) }
    ensures before { IfOk result (λ input. LoadsBefore n input) }
    ensures after { IfOk result (λ input. LoadsAfter n input) }
    ensures spec { IfOk result (λ input. HasSpecification n input) }
    ensures short { IfOk result (λ input. AreShort input) }
{
    let nodes = nodes_text(alloc, n)?;
    let layered = layered_text(alloc, n)?;
    let cut = cut_text(alloc, n)?;
    let lost = lost_text(alloc, n)?;
    let before = snapshot_text(alloc, nodes.as_slice(), &layered, &layered, &layered)?;
    let after = snapshot_text(alloc, nodes.as_slice(), &layered, &cut, &lost)?;
    let locations = locations_text(alloc, n)?;
    let spec = specification_text(alloc, n)?;
    Ok(DemoInput {
        before,
        after,
        locations,
        spec,
    })
}
