//! Whether two bodies are the same.
ghost use Rattle.std.specs.Prelude.{◌≡◌, ◌↔◌, IsTrue};

use rela_translate::{Change, Core, Expr};

/// Whether the bodies are the same. It goes as deep into the stack as they do. Time: linear in the
/// smaller one.
pub(crate) fn same_body(one: &Core, other: &Core) -> bool
    ensures { IsTrue result ↔ one.now ≡ other.now }
{
    match (one, other) {
        (
            Core::Unit { zone, modifier },
            Core::Unit {
                zone: other_zone,
                modifier: other_modifier,
            },
        ) => same_path(zone, other_zone) && same_change(modifier, other_modifier),
        (Core::Then(a, b), Core::Then(c, d)) => {
            same_body(a.get(), c.get()) && same_body(b.get(), d.get())
        }
        (Core::Else(a, b), Core::Else(c, d)) => {
            same_body(a.get(), c.get()) && same_body(b.get(), d.get())
        }
        _ => false,
    }
}

/// Whether the modifiers are the same.
fn same_change(one: &Change, other: &Change) -> bool
    ensures { IsTrue result ↔ one.now ≡ other.now }
{
    match (one, other) {
        (Change::Preserve, Change::Preserve) | (Change::Drop, Change::Drop) => true,
        (Change::Add(a), Change::Add(b)) => same_path(a, b),
        (Change::Remove(a), Change::Remove(b)) => same_path(a, b),
        (Change::Ignore(a), Change::Ignore(b)) => same_path(a, b),
        (Change::Replace(a, b), Change::Replace(c, d)) => same_path(a, c) && same_path(b, d),
        (
            Change::AnyOf { path, marker },
            Change::AnyOf {
                path: other_path,
                marker: other_marker,
            },
        ) => marker == other_marker && same_path(path, other_path),
        _ => false,
    }
}

/// Whether the path expressions are the same. It goes as deep into the stack as they do.
fn same_path(one: &Expr, other: &Expr) -> bool
    ensures { IsTrue result ↔ one.now ≡ other.now }
{
    match (one, other) {
        (Expr::Empty, Expr::Empty) => true,
        (Expr::Class(k), Expr::Class(n)) => k == n,
        (Expr::Seq(a, b), Expr::Seq(c, d)) => {
            same_path(a.get(), c.get()) && same_path(b.get(), d.get())
        }
        (Expr::Alt(a, b), Expr::Alt(c, d)) => {
            same_path(a.get(), c.get()) && same_path(b.get(), d.get())
        }
        (Expr::Meet(a, b), Expr::Meet(c, d)) => {
            same_path(a.get(), c.get()) && same_path(b.get(), d.get())
        }
        (Expr::Not(a), Expr::Not(b)) => same_path(a.get(), b.get()),
        (Expr::Star(a), Expr::Star(b)) => same_path(a.get(), b.get()),
        _ => false,
    }
}
