//! A number that is the same for checks that ask for the same.

use rela_names::Level;
use rela_rir::SymbolSet;
use rela_translate::{Change, Check, Core, Expr};
use std::hash::{FoldHasher, Hash, Hasher};

/// The fingerprint of what the check asks for. Checks that ask for the same have one fingerprint, and
/// others hardly ever do. Time: linear in the body and the class table.
pub(crate) fn fingerprint(check: &Check) -> u64 {
    let mut hasher = FoldHasher::default();
    hasher.write_u8(level_number(check.level()));
    check.at_most().hash(&mut hasher);
    feed_classes(check.classes(), &mut hasher);
    feed_body(check.body(), &mut hasher);
    hasher.finish()
}

/// A number for each level.
fn level_number(level: Level) -> u8 {
    match level {
        Level::Interface => 0,
        Level::Device => 1,
        Level::Group => 2,
    }
}

/// Feeds the class table to the hasher.
fn feed_classes(classes: &[SymbolSet], hasher: &mut FoldHasher) {
    for set in classes {
        set.negated.hash(hasher);
        set.members.as_slice().hash(hasher);
    }
}

/// Feeds the body to the hasher. It goes as deep into the stack as the body.
fn feed_body(body: &Core, hasher: &mut FoldHasher) {
    match body {
        Core::Unit { zone, modifier } => {
            hasher.write_u8(0);
            feed_path(zone, hasher);
            feed_change(modifier, hasher);
        }
        Core::Then(a, b) => {
            hasher.write_u8(1);
            feed_body(a.get(), hasher);
            feed_body(b.get(), hasher);
        }
        Core::Else(a, b) => {
            hasher.write_u8(2);
            feed_body(a.get(), hasher);
            feed_body(b.get(), hasher);
        }
    }
}

/// Feeds the modifier to the hasher.
fn feed_change(change: &Change, hasher: &mut FoldHasher) {
    match change {
        Change::Preserve => hasher.write_u8(0),
        Change::Add(path) => {
            hasher.write_u8(1);
            feed_path(path, hasher);
        }
        Change::Remove(path) => {
            hasher.write_u8(2);
            feed_path(path, hasher);
        }
        Change::Replace(old, new) => {
            hasher.write_u8(3);
            feed_path(old, hasher);
            feed_path(new, hasher);
        }
        Change::Drop => hasher.write_u8(4),
        Change::AnyOf { path, marker } => {
            hasher.write_u8(5);
            hasher.write_u32(*marker);
            feed_path(path, hasher);
        }
        Change::Ignore(path) => {
            hasher.write_u8(6);
            feed_path(path, hasher);
        }
    }
}

/// Feeds the path expression to the hasher. It goes as deep into the stack as the expression.
fn feed_path(path: &Expr, hasher: &mut FoldHasher) {
    match path {
        Expr::Empty => hasher.write_u8(0),
        Expr::Class(entry) => {
            hasher.write_u8(1);
            hasher.write_u32(*entry);
        }
        Expr::Seq(a, b) => {
            hasher.write_u8(2);
            feed_path(a.get(), hasher);
            feed_path(b.get(), hasher);
        }
        Expr::Alt(a, b) => {
            hasher.write_u8(3);
            feed_path(a.get(), hasher);
            feed_path(b.get(), hasher);
        }
        Expr::Meet(a, b) => {
            hasher.write_u8(4);
            feed_path(a.get(), hasher);
            feed_path(b.get(), hasher);
        }
        Expr::Not(part) => {
            hasher.write_u8(5);
            feed_path(part.get(), hasher);
        }
        Expr::Star(part) => {
            hasher.write_u8(6);
            feed_path(part.get(), hasher);
        }
    }
}
