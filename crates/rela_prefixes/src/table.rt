//! The longest prefix that holds an address.

ghost use Rattle.std.specs.Prelude.{◌≡◌, ◌<◌, ◌≤◌, ◌^◌, IfOk, length};
ghost use Rattle.std.specs.List.Sorted.{IsNonDecreasingBy, IsPartitionPoint, IsPermutation};
ghost use Rattle.rela_prefixes.specs.Inside.{AreNumbered, rank};
ghost use Rattle.rela_prefixes.specs.Leaves.{AreLeaves};
ghost use Rattle.rela_prefixes.specs.Longest.{Longest};

use crate::leaf::{Leaf, Numbered};
use crate::leaves::push_leaves;
use rela_flows::Ipv4Prefix;
use rela_names::List;
use std::alloc::{AllocError, Global};
use std::marker::Model;

/// Prefixes, and the longest of them for each address (longest prefix match). Contracts see it as
/// the list of the prefixes.
///
/// It has the leaves of the binary trie of the prefixes in the order of their addresses, each with
/// the longest prefix that holds it, which is known as leaf pushing.
#[derive(Drop)]
pub struct PrefixTable {
    /// The prefixes in the order in which they were given. Only contracts look at them.
    prefixes: List<Ipv4Prefix>,
    /// The leaves of their trie in the order of the addresses, which they split among them without
    /// a gap.
    leaves: Vec<Leaf>,
}

impl Model for PrefixTable {
    ghost use Rattle.std.specs.Prelude.{List, ◌^◌};
    ghost use Rattle.rela_flows.specs.declared.prefix.Ipv4Prefix.{Ipv4Prefix};

    ghost Value = { List Ipv4Prefix };

    ghost view = { λ table. table.prefixes };

    ghost use Rattle.rela_prefixes.specs.Leaves.{AreLeaves};

    ghost invariant = { λ table. AreLeaves table.prefixes 0 (2 ^ 32) table.leaves.items };
}

impl PrefixTable {
    /// The table of these prefixes. Of equal prefixes any one may be answered. Time: O(n log n) in
    /// their number times the 32 bits of an address; space: linear in the same.
    ///
    /// # Errors
    ///
    /// Only where memory is wanted.
    pub fn new(alloc: Global, prefixes: Vec<Ipv4Prefix>) -> Result<PrefixTable, AllocError>
        requires { length prefixes.items < 2 ^ 32 }
        ensures { IfOk result (λ table. table ≡ prefixes.items) }
    {
        let leaves = leaves_of(alloc, prefixes.as_slice())?;
        Ok(PrefixTable {
            prefixes: List::from_vec(prefixes),
            leaves,
        })
    }

    /// The index in the list of the longest prefix that holds the address, and `None` where none
    /// does. Time: a binary search, logarithmic in the number of leaves.
    pub fn longest(&self, address: u32) -> Option<u32>
        ensures { Longest self.now address result }
    {
        let leaves = self.leaves.as_slice();
        let after = place_after(leaves, address);
        leaves[after - 1].longest
    }
}

/// How many of the leaves begin at the address or before it. Time: a binary search.
fn place_after(leaves: &[Leaf], address: u32) -> usize
    requires { IsNonDecreasingBy (λ leaf. leaf.cell.address) leaves.now }
    ensures parted { IsPartitionPoint (λ leaf. leaf.cell.address ≤ address) (λ leaf. address
        < leaf.cell.address) leaves.now result }
    ensures within { result ≤ length leaves.now }
{
    leaves.partition_point(|leaf| leaf.cell.address <= address)
}

/// The leaves of the trie of these prefixes, in the order of their addresses.
pub(crate) fn leaves_of(alloc: Global, prefixes: &[Ipv4Prefix]) -> Result<Vec<Leaf>, AllocError>
    requires { length prefixes.now < 2 ^ 32 }
    ensures { IfOk result (λ leaves. AreLeaves prefixes.now 0 (2 ^ 32) leaves.items) }
{
    let mut leaves = Vec::new(alloc);
    let listed = numbered(alloc, prefixes)?;
    let inside = ranked(listed);
    push_leaves(
        alloc,
        Ipv4Prefix::all(),
        inside.as_slice(),
        None,
        &mut leaves,
    )?;
    Ok(leaves)
}

/// These prefixes in the order of their addresses, and of one address the shorter first. Time:
/// O(n log n); no memory is taken.
fn ranked(numbered: Vec<Numbered>) -> Vec<Numbered>
    ensures ranked { IsNonDecreasingBy rank result.items }
    ensures same { IsPermutation numbered.items result.items }
{
    let mut numbered = numbered;
    numbered.sort_unstable_by_key(|one| rank_of(one));
    numbered
}

/// The place of a prefix in that order, as a number.
fn rank_of(numbered: &Numbered) -> u64
    ensures { result ≡ rank numbered.now }
{
    u64::from(numbered.prefix.address) * 64 + u64::from(numbered.prefix.length)
}

/// The prefixes with their indexes in the list.
fn numbered(alloc: Global, prefixes: &[Ipv4Prefix]) -> Result<Vec<Numbered>, AllocError>
    requires { length prefixes.now < 2 ^ 32 }
    ensures { IfOk result (λ ns. AreNumbered prefixes.now ns.items) }
{
    let mut ns = Vec::with_capacity(alloc, prefixes.len())?;
    for (number, prefix) in prefixes.iter().enumerate() {
        ns.push(Numbered {
            prefix: *prefix,
            number: number as u32,
        })?;
    }
    Ok(ns)
}
