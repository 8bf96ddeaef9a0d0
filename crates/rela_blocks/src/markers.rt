//! How many markers a body has.
ghost use Rattle.std.specs.Prelude.{◌≡◌, ◌≤◌, length};
ghost use Rattle.rela_translate.specs.Checked.{change_markers, markers_of};

use rela_translate::{Change, Core};

/// The number of the body's markers. It goes as deep into the stack as the body.
pub(crate) fn count_markers(body: &Core) -> u32
    requires { length (markers_of body.now) ≤ 20000 }
    ensures { result ≡ length (markers_of body.now) }
{
    match body {
        Core::Unit { zone: _, modifier } => markers_of_change(modifier),
        Core::Then(a, b) => count_markers(a.get()) + count_markers(b.get()),
        Core::Else(a, b) => count_markers(a.get()) + count_markers(b.get()),
    }
}

/// The number of the change's markers.
fn markers_of_change(change: &Change) -> u32
    ensures { result ≡ length (change_markers change.now) }
{
    match change {
        Change::AnyOf { .. } => 1,
        Change::Preserve
        | Change::Add(_)
        | Change::Remove(_)
        | Change::Replace(_, _)
        | Change::Drop
        | Change::Ignore(_) => 0,
    }
}
