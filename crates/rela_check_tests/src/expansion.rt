//! Texts of specifications, expanded to checks over a small network.

use crate::network::network;
use rela_expand::expand;
use rela_lex::{MAX_TEXT_LEN, SpecError, Token, tokens};
use rela_locations::Locations;
use rela_names::Level;
use rela_spec::parse;
use rela_translate::{Change, Check, Core, Expr};
use std::alloc::{AllocError, Global};

/// The checks of what the tokens spell, in a text of `end` bytes. Errors are those of [`parse`] and
/// [`expand`].
fn checks_of_tokens(
    alloc: Global,
    tokens: &[Token],
    end: u32,
    locations: &Locations,
) -> Result<Vec<Check>, SpecError> {
    let file = parse(alloc, tokens, end)?;
    expand(alloc, &file, locations)
}

/// The checks of a text that isn't too long. Errors are those of [`tokens`] and
/// [`checks_of_tokens`], and `Memory` for a longer text.
fn checks_of(alloc: Global, text: &[u8], locations: &Locations) -> Result<Vec<Check>, SpecError> {
    if text.len() > MAX_TEXT_LEN {
        return Err(SpecError::Memory);
    }
    let tokens = tokens(alloc, text)?;
    checks_of_tokens(alloc, tokens.as_slice(), text.len() as u32, locations)
}

/// The checks of a text over a small network. No other function owns its locations, and none does more
/// with them than to lend them: the proof of one that did would be long.
fn checks(alloc: Global, text: &[u8]) -> Result<Vec<Check>, SpecError> {
    match network(alloc) {
        Ok(locations) => checks_of(alloc, text, &locations),
        Err(_) => Err(SpecError::Memory),
    }
}

/// Whether the text is refused with this fault.
fn is_refused(alloc: Global, text: &[u8], fault: SpecError) -> bool {
    match checks(alloc, text) {
        Ok(_) => false,
        Err(error) => error == fault,
    }
}

/// A question about a check.
pub(crate) trait Question {
    /// Whether the answer is yes for this check.
    fn is_so(&self, alloc: Global, check: &Check) -> bool;
}

/// Whether the text has one check alone, for which the answer is yes.
pub(crate) fn is_so(alloc: Global, text: &[u8], question: &impl Question) -> bool {
    match checks(alloc, text) {
        Ok(checks) => is_so_of(alloc, checks.as_slice(), question),
        Err(_) => false,
    }
}

/// Whether these are one check alone, for which the answer is yes.
fn is_so_of(alloc: Global, checks: &[Check], question: &impl Question) -> bool {
    match checks {
        [check] => question.is_so(alloc, check),
        _ => false,
    }
}

/// Names that stand for nothing, are repeated, are finer than the level or are no location are
/// refused where they stand.
#[test]
fn refuses_names(rt: HostRuntime) {
    let alloc = rt.alloc();
    let text = b"check c1 : { $x : preserve };";
    assert!(rt; is_refused(alloc, text, SpecError::UnknownName { at: 13 }));
    let text = b"path p = .; path p = .;";
    assert!(rt; is_refused(alloc, text, SpecError::RepeatedName { at: 17 }));
    let text = b"level group; check c1 : { device(r1) : preserve };";
    assert!(rt; is_refused(alloc, text, SpecError::FinerLevel { at: 33 }));
    let text = b"check c1 : { r9 : preserve };";
    assert!(rt; is_refused(alloc, text, SpecError::UnknownLocation { at: 13 }));
}

/// A text of forty paths, each of which is twice the one before it, and a check of the last.
fn doubling(alloc: Global) -> Result<String, AllocError> {
    let mut text = String::from_str(alloc, "path a0 = .;")?;
    for last in 0..40 {
        let next = last + 1;
        write!(text, " path a{next} = $a{last} $a{last};")?;
    }
    text.push_str(" check c1 : { $a40 : preserve };")?;
    Ok(text)
}

/// Whether that text is refused as too large at the name of its check.
fn doubling_is_too_large(alloc: Global) -> bool {
    match doubling(alloc) {
        Ok(text) => is_refused(alloc, text.as_bytes(), SpecError::TooLarge { at: 870 }),
        Err(_) => false,
    }
}

/// A short text may write terms of far more nodes than a check may have.
#[test]
fn refuses_what_is_too_large(rt: HostRuntime) {
    assert!(rt; doubling_is_too_large(rt.alloc()));
}

/// Whether the path is one symbol of the first two classes.
fn is_either_class(path: &Expr) -> bool {
    match path {
        Expr::Alt(first, second) => {
            matches!(first.get(), Expr::Class(0)) && matches!(second.get(), Expr::Class(1))
        }
        _ => false,
    }
}

/// Whether the body is the unit that asks for any of the first class, of words of the first two.
fn is_any_of_the_first(body: &Core) -> bool {
    match body {
        Core::Unit {
            zone: Expr::Star(part),
            modifier: Change::AnyOf {
                path: Expr::Class(0),
                marker: 1,
            },
        } => is_either_class(part.get()),
        _ => false,
    }
}

/// Whether a check at the level of devices asks for that unit at most, and has two classes.
struct AnyOfTheFirst;

impl Question for AnyOfTheFirst {
    fn is_so(&self, _alloc: Global, check: &Check) -> bool {
        check.classes().len() == 2
            && check.level() == Level::Device
            && check.at_most()
            && is_any_of_the_first(check.body())
    }
}

/// Classes are numbered from 0 and markers from 1 on, and a class that is written twice has one
/// number.
#[test]
fn numbers_classes_and_markers(rt: HostRuntime) {
    let text = b"level device; path e = r1; check atmost c1 : { ($e | .)* : any(r1) };";
    assert!(rt; is_so(rt.alloc(), text, &AnyOfTheFirst));
}

/// Texts that have a part inside brackets, each pair inside the one before it.
struct Nested {
    /// What stands before the first bracket.
    front: &'static str,
    /// What opens each pair of brackets.
    opening: &'static str,
    /// The part inside all of them.
    inside: &'static str,
    /// What closes each pair.
    closing: &'static str,
    /// What stands behind the last bracket.
    back: &'static str,
}

impl Nested {
    /// The text with this many pairs of brackets.
    fn text(&self, alloc: Global, count: usize) -> Result<String, AllocError> {
        let opening = self.opening.repeat(alloc, count)?;
        self.text_behind(alloc, opening.as_str(), count)
    }

    /// The text where these are opened and `count` are to be closed.
    fn text_behind(
        &self,
        alloc: Global,
        opening: &str,
        count: usize,
    ) -> Result<String, AllocError> {
        let closing = self.closing.repeat(alloc, count)?;
        self.text_between(alloc, opening, closing.as_str())
    }

    /// The text where these are opened and closed.
    fn text_between(
        &self,
        alloc: Global,
        opening: &str,
        closing: &str,
    ) -> Result<String, AllocError> {
        let front = self.front;
        let inside = self.inside;
        let back = self.back;
        format!(in alloc; "{front}{opening}{inside}{closing}{back}")
    }
}

/// Whether the text with this many pairs of brackets has one check alone.
fn has_a_check(alloc: Global, count: usize, nested: &Nested) -> bool {
    match nested.text(alloc, count) {
        Ok(text) => is_so(alloc, text.as_bytes(), &AnyCheck),
        Err(_) => false,
    }
}

/// Whether there is a check, whatever it is.
struct AnyCheck;

impl Question for AnyCheck {
    fn is_so(&self, _alloc: Global, _check: &Check) -> bool {
        true
    }
}

// Each text has 100 brackets open at once, those of the unit and of what stands inside counted.

/// Path expressions in brackets.
const PATHS: &Nested = &Nested {
    front: "check c1 : { ",
    opening: "(",
    inside: ".*",
    closing: ")",
    back: " : preserve };",
};

/// Path expressions may be nested as deep as brackets may be open.
#[test]
fn expands_nested_paths(rt: HostRuntime) {
    assert!(rt; has_a_check(rt.alloc(), 99, PATHS));
}

/// Complements, each repeated inside the next.
const COMPLEMENTS: &Nested = &Nested {
    front: "check c1 : { ",
    opening: "!(",
    inside: "[interface(r1:0)]",
    closing: ")*",
    back: " : preserve };",
};

/// Complements may be nested as deep as brackets may be open.
#[test]
fn expands_nested_complements(rt: HostRuntime) {
    assert!(rt; has_a_check(rt.alloc(), 97, COMPLEMENTS));
}

/// Alternatives, each a part of the next, of paths that are added.
const ADDED_PATHS: &Nested = &Nested {
    front: "check c1 : { .* : add(",
    opening: "(",
    inside: ".{2}",
    closing: "| r1:0)",
    back: ") };",
};

/// The paths of a modifier may be nested as deep as brackets may be open.
#[test]
fn expands_nested_paths_that_are_added(rt: HostRuntime) {
    assert!(rt; has_a_check(rt.alloc(), 97, ADDED_PATHS));
}

/// Specifications in brackets.
const BODIES: &Nested = &Nested {
    front: "check c1 : ",
    opening: "(",
    inside: "{ .* : preserve }",
    closing: ")",
    back: ";",
};

/// Specifications may be nested as deep as brackets may be open.
#[test]
fn expands_nested_bodies(rt: HostRuntime) {
    assert!(rt; has_a_check(rt.alloc(), 99, BODIES));
}

/// Specifications that are joined by `else`, each the second part of the one around it.
const ALTERNATIVES: &Nested = &Nested {
    front: "check c1 : ",
    opening: "({ r1:0 : drop } else ",
    inside: "{ .* : preserve }",
    closing: ")",
    back: ";",
};

/// Specifications that are joined may be nested as deep as brackets may be open.
#[test]
fn expands_nested_alternatives(rt: HostRuntime) {
    assert!(rt; has_a_check(rt.alloc(), 99, ALTERNATIVES));
}

/// Predicates, each the negation of the next.
const PREDICATES: &Nested = &Nested {
    front: "check c1 for ",
    opening: "not (",
    inside: "all",
    closing: ")",
    back: " : { .* : preserve };",
};

/// Predicates may be nested as deep as brackets may be open.
#[test]
fn expands_nested_predicates(rt: HostRuntime) {
    assert!(rt; has_a_check(rt.alloc(), 100, PREDICATES));
}
