//! The leaves of predicates: which are the same, and how many there are.

ghost use Rattle.std.specs.Prelude.{◌↔◌, IsTrue};
ghost use Rattle.rela_flows.specs.Address.{Address, HasAddress};
ghost use Rattle.rela_flows.specs.Selects.{Selects};
ghost use Rattle.rela_flows.specs.declared.predicate.FlowClass.{FlowClass};

use rela_flows::{Predicate, Prefix};
use std::hash::{FoldHasher, Hash, Hasher};

/// Whether the two predicates are the same leaf. Two that have parts never are.
pub(crate) fn same_leaf(one: &Predicate, other: &Predicate) -> bool
    ensures { IsTrue result →
        (class : FlowClass) → Selects one.now class ↔ Selects other.now class }
{
    match (one, other) {
        (Predicate::All, Predicate::All) => true,
        (Predicate::DstIn(one), Predicate::DstIn(other)) => same_prefix(one, other),
        (Predicate::DstOverlaps(one), Predicate::DstOverlaps(other)) => same_prefix(one, other),
        (Predicate::SrcIn(one), Predicate::SrcIn(other)) => same_prefix(one, other),
        (Predicate::SrcOverlaps(one), Predicate::SrcOverlaps(other)) => same_prefix(one, other),
        (Predicate::Flow(one), Predicate::Flow(other)) => *one == *other,
        (Predicate::Class(one), Predicate::Class(other)) => *one == *other,
        _ => false,
    }
}

/// Whether the two prefixes are the same.
fn same_prefix(one: &Prefix, other: &Prefix) -> bool
    ensures { IsTrue result →
        (address : Address) → HasAddress one.now address ↔ HasAddress other.now address }
{
    match (one, other) {
        (Prefix::V4(one), Prefix::V4(other)) => {
            one.address == other.address && one.length == other.length
        }
        (Prefix::V6(one), Prefix::V6(other)) => {
            one.address == other.address && one.length == other.length
        }
        _ => false,
    }
}

/// A number that is the same for leaves that are, and hardly ever for others. Nothing rests on it
/// but how fast a leaf is found.
pub(crate) fn fingerprint(leaf: &Predicate) -> u64 {
    let mut hasher = FoldHasher::default();
    match leaf {
        Predicate::DstIn(prefix) => feed_prefix(0, prefix, &mut hasher),
        Predicate::DstOverlaps(prefix) => feed_prefix(1, prefix, &mut hasher),
        Predicate::SrcIn(prefix) => feed_prefix(2, prefix, &mut hasher),
        Predicate::SrcOverlaps(prefix) => feed_prefix(3, prefix, &mut hasher),
        Predicate::Flow(name) => name.as_bytes().hash(&mut hasher),
        Predicate::Class(name) => name.as_bytes().hash(&mut hasher),
        _ => {}
    }
    hasher.finish()
}

/// Feeds the prefix to the hasher, behind the number of the form of leaf that has it.
fn feed_prefix(form: u8, prefix: &Prefix, hasher: &mut FoldHasher) {
    hasher.write_u8(form);
    match prefix {
        Prefix::V4(prefix) => {
            hasher.write_u64((prefix.address as u64) << 8 | prefix.length as u64);
        }
        Prefix::V6(prefix) => {
            hasher.write_u128(prefix.address);
            hasher.write_u8(prefix.length);
        }
    }
}

/// How many leaves the predicate has, with those that stand in it more than once. It goes as deep
/// into the stack as the predicate is deep. Time: linear in the nodes of the predicate.
#[cycle(leaf_count)]
pub(crate) fn leaf_count(predicate: &Predicate) -> usize {
    match predicate {
        Predicate::Not(part) => leaf_count(part.get()),
        Predicate::And(parts) => leaf_count_of(parts.as_slice()),
        Predicate::Or(parts) => leaf_count_of(parts.as_slice()),
        _ => 1,
    }
}

/// How many leaves the predicates have.
#[cycle(leaf_count)]
fn leaf_count_of(parts: &[Predicate]) -> usize {
    let mut count = 0usize;
    for part in parts {
        count = count.saturating_add(leaf_count(part));
    }
    count
}
