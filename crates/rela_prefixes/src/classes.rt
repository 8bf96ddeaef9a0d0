//! The classes of addresses that some prefixes cut.

ghost use Rattle.std.specs.Prelude.{◌≡◌, ◌<◌, ◌^◌, IfOk, length};
ghost use Rattle.std.specs.List.{All};
ghost use Rattle.rela_prefixes.specs.Classes.{AreClasses};
ghost use Rattle.rela_prefixes.specs.Holding.{HoldsAllOrNone};
ghost use Rattle.rela_prefixes.specs.Leaves.{cells};

use crate::leaf::Leaf;
use crate::table::leaves_of;
use rela_flows::{Ipv4Prefix, prefixes_of_one_length_are_apart};
use std::alloc::{AllocError, Global};

/// The classes of addresses that these prefixes cut, in the order of their addresses.
///
/// A class is a prefix of which no given one is a proper part, and which either is all addresses,
/// or whose parent, one bit shorter, has some given prefix as a proper part. Each address lies in
/// just one class, and each given prefix holds all addresses of a class or none. Time: O(n log n)
/// in the number of prefixes times the 32 bits of an address; space: linear in the same.
///
/// # Errors
///
/// Only where memory is wanted.
pub fn classes_of(alloc: Global, prefixes: &[Ipv4Prefix]) -> Result<Vec<Ipv4Prefix>, AllocError>
    requires { length prefixes.now < 2 ^ 32 }
    ensures classes { IfOk result (λ classes. AreClasses prefixes.now classes.items) }
    ensures whole { IfOk result (λ classes.
        All (λ c. All (λ p. HoldsAllOrNone p c) prefixes.now) classes.items) }
{
    let leaves = leaves_of(alloc, prefixes)?;
    prefixes_of_one_length_are_apart();
    let classes = cells_of(alloc, leaves.as_slice())?;
    Ok(classes)
}

/// The cells of these leaves, in their order.
fn cells_of(alloc: Global, leaves: &[Leaf]) -> Result<Vec<Ipv4Prefix>, AllocError>
    ensures { IfOk result (λ found. found.items ≡ cells leaves.now) }
{
    leaves.iter().map(|leaf| leaf.cell).collect(alloc)
}
