//! The prefixes inside a cell of the trie, split by the half of the cell in which they lie.

ghost use Rattle.std.specs.Prelude.{◌≡◌, ◌≢◌, ◌-◌, ◌<◌, ◌≤◌, Some, length as len, nat_lt, option_map, slice_get, take};
ghost use Rattle.std.specs.List.{All};
ghost use Rattle.std.specs.List.Sorted.{IsPartitionPoint, IsPartitionedBy};
ghost use Rattle.rela_flows.specs.declared.prefix.Ipv4Prefix.{Ipv4Prefix};
ghost use Rattle.rela_prefixes.specs.declared.leaf.Numbered.{Numbered};
ghost use Rattle.rela_prefixes.specs.Inside.{IsRun, middle_of};
ghost use Rattle.rela_prefixes.specs.Split.{IsParted};

use crate::leaf::{Halves, Numbered};

/// Splits the prefixes inside a cell of this length whose upper half begins at `middle`, where they
/// come in the order of their addresses, and of one address the shorter first. Time: linear in
/// those that are the cell, and a binary search among the others.
pub(crate) fn split<'a>(inside: &'a [Numbered], length: u8, middle: u32) -> Halves<'a>
    ensures { (cell : Ipv4Prefix) → cell.length ≡ length → middle_of cell ≡ middle →
        IsRun cell inside.now → IsParted cell inside.now result }
{
    let (here, longer) = inside.split_at(count_here(inside, length));
    let (low, high) = longer.split_at(count_below(longer, middle));
    Halves {
        here: last_number(here),
        low,
        high,
    }
}

/// How many prefixes of this length come before the first of another length.
fn count_here(inside: &[Numbered], length: u8) -> usize
    ensures within { result ≤ len inside.now }
    ensures same { All (λ n. n.prefix.length ≡ length) (take result inside.now) }
    ensures stops { (n : Numbered) → slice_get inside.now result ≡ Some n
        → n.prefix.length ≢ length }
{
    let mut count = 0;
    for numbered in inside {
        if numbered.prefix.length != length {
            return count;
        }
        count += 1;
    }
    count
}

/// How many of these prefixes begin below an address, where those come first. Time: a binary
/// search.
fn count_below(longer: &[Numbered], middle: u32) -> usize
    ensures within { result ≤ len longer.now }
    ensures parted { IsPartitionedBy (λ n. nat_lt n.prefix.address middle) longer.now →
        IsPartitionPoint (λ n. n.prefix.address < middle) (λ n. middle
        ≤ n.prefix.address) longer.now result }
{
    longer.partition_point(|numbered| numbered.prefix.address < middle)
}

/// The index in the list of the last of these prefixes, and `None` where there is none.
fn last_number(here: &[Numbered]) -> Option<u32>
    ensures { result ≡ option_map (λ n. n.number) (slice_get here.now (len here.now - 1)) }
{
    match here.last() {
        Some(numbered) => Some(numbered.number),
        None => None,
    }
}
