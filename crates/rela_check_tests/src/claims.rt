//! Texts of assertion files, resolved to claims over a small network.

use crate::network::network;
use crate::terms::is_class;
use rela_claims::{Claim, Tree, resolve};
use rela_lex::{MAX_TEXT_LEN, SpecError, tokens};
use rela_locations::Locations;
use rela_rir::{Assertion, PathTerm, RelTerm, SymbolSet};
use rela_rirfile::{AssertFile, parse};
use std::alloc::Global;

/// The tree of a text that isn't too long. Errors are those of [`tokens`] and [`parse`], and `Memory`
/// for a longer text.
fn file_of(alloc: Global, text: &[u8]) -> Result<AssertFile, SpecError> {
    if text.len() > MAX_TEXT_LEN {
        return Err(SpecError::Memory);
    }
    let tokens = tokens(alloc, text)?;
    parse(alloc, tokens.as_slice(), text.len() as u32)
}

/// The claims of a text over these locations. Errors are those of [`file_of`] and [`resolve`].
fn claims_of(alloc: Global, text: &[u8], locations: &Locations) -> Result<Vec<Claim>, SpecError> {
    let file = file_of(alloc, text)?;
    resolve(alloc, &file, locations)
}

/// The claims of a text over a small network. No other function owns its locations.
fn claims(alloc: Global, text: &[u8]) -> Result<Vec<Claim>, SpecError> {
    match network(alloc) {
        Ok(locations) => claims_of(alloc, text, &locations),
        Err(_) => Err(SpecError::Memory),
    }
}

/// Whether the text is refused with this fault.
fn is_refused(alloc: Global, text: &[u8], fault: SpecError) -> bool {
    match claims(alloc, text) {
        Ok(_) => false,
        Err(error) => error == fault,
    }
}

/// Names that are repeated, are finer than the level or are no location are refused where they
/// stand, the first of them alone.
#[test]
fn refuses_names(rt: HostRuntime) {
    let alloc = rt.alloc();
    let text = b"assert a = equal(pre, post); assert a = equal(pre, post);";
    assert!(rt; is_refused(alloc, text, SpecError::RepeatedName { at: 36 }));
    let text = b"level group; assert a = equal(device(r1), r9);";
    assert!(rt; is_refused(alloc, text, SpecError::FinerLevel { at: 37 }));
    let text = b"assert a = equal(r1:0, r9);";
    assert!(rt; is_refused(alloc, text, SpecError::UnknownLocation { at: 23 }));
}

/// Whether the relation is the product of the first two classes.
fn is_product(related: &RelTerm) -> bool {
    match related {
        RelTerm::Product(first, second) => is_class(first.get(), 0) && is_class(second.get(), 1),
        _ => false,
    }
}

/// Whether the set is the image of the paths before the change under that product.
fn is_image(set: &PathTerm) -> bool {
    match set {
        PathTerm::Image(paths, related) => {
            matches!(paths.get(), PathTerm::Pre) && is_product(related.get())
        }
        _ => false,
    }
}

/// Whether the set has words of the first class, one after another.
fn is_any_of_first(set: &PathTerm) -> bool {
    match set {
        PathTerm::Star(part) => is_class(part.get(), 0),
        _ => false,
    }
}

/// Whether the set has those words, each with one of the third class behind it.
fn is_last_of_third(set: &PathTerm) -> bool {
    match set {
        PathTerm::Concat(any, last) => is_any_of_first(any.get()) && is_class(last.get(), 2),
        _ => false,
    }
}

/// Whether it is asserted that the image and those words are the same.
fn is_asserted(leaf: &Assertion) -> bool {
    match leaf {
        Assertion::Equal(first, second) => is_image(first) && is_last_of_third(second),
        Assertion::Included(_, _) => false,
    }
}

/// Whether the set is this.
fn is_set(set: &SymbolSet, negated: bool, members: &[u32]) -> bool {
    set.negated == negated && set.members.as_slice() == members
}

/// Whether the table has all path symbols, the device r1, and the devices of the group `edge`.
fn has_classes(classes: &[SymbolSet]) -> bool {
    match classes {
        [all, one, edge] => {
            is_set(all, true, &[]) && is_set(one, false, &[0]) && is_set(edge, false, &[0, 3])
        }
        _ => false,
    }
}

/// Whether the claim is that assertion, under its name.
fn is_equal(claim: &Claim) -> bool {
    match &claim.tree {
        Tree::Leaf(leaf) => {
            claim.name.as_bytes() == b"a1".as_slice()
                && has_classes(claim.classes.as_slice())
                && is_asserted(leaf)
        }
        Tree::And(_, _) | Tree::Or(_, _) | Tree::Not(_) => false,
    }
}

/// Whether the text has that claim alone.
fn has_equal(alloc: Global, text: &[u8]) -> bool {
    match claims(alloc, text) {
        Ok(claims) => match claims.as_slice() {
            [claim] => is_equal(claim),
            _ => false,
        },
        Err(_) => false,
    }
}

/// Classes are numbered in the order of their first mentions, each once.
#[test]
fn numbers_classes(rt: HostRuntime) {
    let text =
        b"level device; assert a1 = equal(image(pre, product(all, r1)), concat(star(all), group(edge)));";
    assert!(rt; has_equal(rt.alloc(), text));
}
