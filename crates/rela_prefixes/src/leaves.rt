//! The leaves of the binary trie of some prefixes, by a walk that halves a cell until no prefix
//! cuts it.

ghost use Rattle.std.specs.Prelude.{◌≡◌, ◌+◌, ◌-◌, ◌^◌, ◌<◌, OnOk};
ghost use Rattle.rela_prefixes.specs.Inside.{middle_of};
ghost use Rattle.rela_prefixes.specs.Leaves.{HasLeaves};
ghost use Rattle.rela_prefixes.specs.Split.{is_uncut};

use crate::leaf::{Halves, Leaf, Numbered};
use crate::split::split;
use rela_flows::Ipv4Prefix;
use std::alloc::{AllocError, Global};

/// How many addresses half a cell of this length has. The length is in bits, at most 31.
fn half(length: u8) -> u32
    requires { length < 32 }
    ensures { result ≡ 2 ^ (31 - length) }
{
    1 << (31 - u32::from(length))
}

/// The lower half of a cell of more than one address: one bit longer, and beginning where the cell
/// does.
fn low_half(cell: &Ipv4Prefix) -> Ipv4Prefix
    requires { cell.now.length < 32 }
    ensures address { result.address ≡ cell.now.address }
    ensures length { result.length ≡ cell.now.length + 1 }
{
    Ipv4Prefix {
        address: cell.address,
        length: cell.length + 1,
    }
}

/// The upper half of a cell of more than one address: one bit longer, and beginning in its middle.
fn high_half(cell: &Ipv4Prefix) -> Ipv4Prefix
    requires { cell.now.length < 32 }
    ensures address { result.address ≡ cell.now.address + 2 ^ (31 - cell.now.length) }
    ensures length { result.length ≡ cell.now.length + 1 }
{
    Ipv4Prefix {
        address: cell.address + half(cell.length),
        length: cell.length + 1,
    }
}

/// The first address of the upper half of a cell, and its only address where it is one.
fn middle_of(cell: &Ipv4Prefix) -> u32
    ensures { result ≡ middle_of cell.now }
{
    if cell.length < 32 {
        cell.address + half(cell.length)
    } else {
        cell.address
    }
}

/// Whether a cell of this length is a leaf: it is one address, or no prefix is longer than the
/// cell.
fn is_uncut(length: u8, parts: &Halves<'_>) -> bool
    ensures { result ≡ is_uncut length parts.now }
{
    length == 32 || (parts.low.is_empty() && parts.high.is_empty())
}

/// Appends the leaves of a cell in the order of their addresses. `inside` are the prefixes that lie
/// inside the cell, in the order of their addresses, and of one address the shorter first; `above`
/// is the index in the list of the longest one that holds the cell and is shorter. Time: linear in
/// the prefixes inside, and for each cell above a leaf a binary search among them.
pub(crate) fn push_leaves(
    alloc: Global,
    cell: Ipv4Prefix,
    inside: &[Numbered],
    above: Option<u32>,
    leaves: &mut Vec<Leaf>,
) -> Result<(), AllocError>
    ensures { OnOk result (HasLeaves cell inside.now above leaves.old.items leaves.new.items) }
{
    let middle = middle_of(&cell);
    let parts = split(inside, cell.length, middle);
    let longest = parts.here.or(above);
    if is_uncut(cell.length, &parts) {
        leaves.push(Leaf { cell, longest })?;
        return Ok(());
    }
    push_leaves(alloc, low_half(&cell), parts.low, longest, leaves)?;
    push_leaves(alloc, high_half(&cell), parts.high, longest, leaves)?;
    Ok(())
}
