//! Whether two automata accept the same words.

use crate::far_letters::one_before;
use crate::three_letters::{Question, Table, is_past_limit, is_so_of_classes};
use rela_compare::{BuildError, Verdict, Which, equal, included};
use std::alloc::Global;

/// Whether the comparison tells that this word, of this side, is the first that tells the two apart.
fn is_difference(found: Result<Verdict, BuildError>, first: &[u32], on: Which) -> bool {
    match found {
        Ok(Verdict::Differ { word, side }) => word.as_slice() == first && side == on,
        _ => false,
    }
}

/// Whether the comparison tells that no word tells the two apart.
fn is_same(found: Result<Verdict, BuildError>) -> bool {
    matches!(found, Ok(Verdict::Same))
}

/// That the second words have letter 1 besides the first ones, which is the first difference.
struct OneMore;

impl Question for OneMore {
    fn is_so(&self, alloc: Global, few: &Table, many: &Table) -> bool {
        is_difference(equal(alloc, few, many, 100), &[1], Which::Second)
            && is_same(equal(alloc, many, many, 100))
            && is_same(included(alloc, few, many, 100))
            && is_difference(included(alloc, many, few, 100), &[1], Which::First)
    }
}

/// That letter 0 is one of the first words, and none of the second, by two pairs of sets of states.
struct Apart;

impl Question for Apart {
    fn is_so(&self, alloc: Global, zero: &Table, one: &Table) -> bool {
        is_difference(equal(alloc, zero, one, 2), &[0], Which::First)
    }
}

/// Words of one letter are told apart by the first letter that is in one of the two classes alone,
/// and included where the class is.
#[test]
fn a_class_and_two(rt: HostRuntime) {
    assert!(rt; is_so_of_classes(rt.alloc(), &[0], &[0, 1], &OneMore));
    assert!(rt; is_so_of_classes(rt.alloc(), &[0], &[1], &Apart));
}

/// That the words with a letter at 20 places before the last reach more than 100 sets of states.
struct ManySets;

impl Question for ManySets {
    fn is_so(&self, alloc: Global, any: &Table, one: &Table) -> bool {
        match one_before(alloc, any, one, 20) {
            Ok(many) => is_past_limit(equal(alloc, &many, &many, 100)),
            Err(_) => false,
        }
    }
}

/// A comparison ends at its limit where words reach more pairs of sets of states.
#[test]
fn many_sets_of_states(rt: HostRuntime) {
    assert!(rt; is_so_of_classes(rt.alloc(), &[0, 1, 2], &[0], &ManySets));
}

/// That these words differ from that of letter 0 at the first letter, long before there are many sets.
struct EarlyDifference;

impl Question for EarlyDifference {
    fn is_so(&self, alloc: Global, any: &Table, one: &Table) -> bool {
        match one_before(alloc, any, one, 20) {
            Ok(many) => is_difference(equal(alloc, &many, one, 100), &[0], Which::Second),
            Err(_) => false,
        }
    }
}

/// A comparison ends at the first difference, however many sets of states words reach behind it.
#[test]
fn a_difference_before_many_sets(rt: HostRuntime) {
    assert!(rt; is_so_of_classes(rt.alloc(), &[0, 1, 2], &[0], &EarlyDifference));
}
