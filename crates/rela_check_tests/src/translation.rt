//! Checks translated to terms.

use crate::expansion::{Question, is_so};
use crate::terms::is_class;
use rela_flows::Predicate;
use rela_names::{Alphabet, Level};
use rela_rir::{PathTerm, RelTerm};
use rela_translate::{Check, Core, translate, zone_term};
use std::alloc::Global;

/// A check that asks for any path of one symbol in place of r1.
const ANY_OF_ALL: &[u8] = b"level device; check c1 : { r1 : any(.) };";

/// Whether the term has the words that it speaks of: r1, and any one symbol.
fn is_zone(term: &PathTerm) -> bool {
    match term {
        PathTerm::Union(first, any) => is_class(first.get(), 0) && is_class(any.get(), 1),
        _ => false,
    }
}

/// Whether the term is the marker, which comes behind `drop` and `loop`.
fn is_marker(term: &PathTerm) -> bool {
    matches!(term, PathTerm::One(2))
}

/// Whether the relation is that before the change: each word of the zone stands for the marker.
fn is_before(term: &RelTerm) -> bool {
    match term {
        RelTerm::Product(zone, marker) => is_zone(zone.get()) && is_marker(marker.get()),
        _ => false,
    }
}

/// Whether the term has the words that aren't asked for.
fn is_others(term: &PathTerm) -> bool {
    match term {
        PathTerm::Complement(part) => is_class(part.get(), 1),
        _ => false,
    }
}

/// Whether the term has those of r1 among them.
fn is_unasked(term: &PathTerm) -> bool {
    match term {
        PathTerm::Meet(first, others) => is_class(first.get(), 0) && is_others(others.get()),
        _ => false,
    }
}

/// Whether the relation keeps those as they are.
fn is_kept(term: &RelTerm) -> bool {
    match term {
        RelTerm::Identity(paths) => is_unasked(paths.get()),
        _ => false,
    }
}

/// Whether what is asked for stands for the marker.
fn is_marked(term: &RelTerm) -> bool {
    match term {
        RelTerm::Product(any, marker) => is_class(any.get(), 1) && is_marker(marker.get()),
        _ => false,
    }
}

/// Whether the relation is that after the change, which has both.
fn is_after(term: &RelTerm) -> bool {
    match term {
        RelTerm::Union(marked, kept) => is_marked(marked.get()) && is_kept(kept.get()),
        _ => false,
    }
}

/// Whether the check has that zone.
fn has_zone(alloc: Global, check: &Check, alphabet: &Alphabet) -> bool {
    match zone_term(alloc, check, alphabet) {
        Ok(zone) => is_zone(&zone),
        Err(_) => false,
    }
}

/// Whether the check has those relations.
fn has_relations(alloc: Global, check: &Check, alphabet: &Alphabet) -> bool {
    match translate(alloc, check, alphabet) {
        Ok(relations) => is_before(&relations.before) && is_after(&relations.after),
        Err(_) => false,
    }
}

/// Whether the check is translated so under an alphabet without locations.
struct Translated;

impl Question for Translated {
    fn is_so(&self, alloc: Global, check: &Check) -> bool {
        let alphabet = Alphabet::new(Vec::new(alloc));
        has_zone(alloc, check, &alphabet) && has_relations(alloc, check, &alphabet)
    }
}

/// A check that asks for any of some paths is translated to its zone and its two relations.
#[test]
fn translates(rt: HostRuntime) {
    assert!(rt; is_so(rt.alloc(), ANY_OF_ALL, &Translated));
}

/// Whether the check has the parts that its text writes.
struct Parts;

impl Question for Parts {
    fn is_so(&self, _alloc: Global, check: &Check) -> bool {
        check.name().as_bytes() == b"c1".as_slice()
            && check.level() == Level::Device
            && matches!(check.when(), Predicate::All)
            && !check.at_most()
            && check.classes().len() == 2
            && matches!(check.body(), Core::Unit { .. })
    }
}

/// A check tells its parts.
#[test]
fn tells_its_parts(rt: HostRuntime) {
    assert!(rt; is_so(rt.alloc(), ANY_OF_ALL, &Parts));
}
