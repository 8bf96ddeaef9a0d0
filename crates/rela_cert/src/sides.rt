//! Whether a body treats both sides of a change alike.

ghost use Rattle.std.specs.Prelude.{◌≡◌, ℕ, IsTrue};
ghost use Rattle.rela_rir.specs.declared.term.PathTerm.{PathTerm};
ghost use Rattle.rela_translate.specs.Terms.{after_of, before_of, unit_terms};

use rela_translate::{Change, Core};

/// Whether no unit of the body asks for a change, so that its two relations have one term. It goes as
/// deep into the stack as the body.
pub(crate) fn treats_sides_alike(body: &Core) -> bool
    ensures { IsTrue result → (locations : ℕ) →
        before_of locations body.now ≡ after_of locations body.now }
{
    match body {
        Core::Unit { zone: _, modifier } => asks_no_change(modifier),
        Core::Then(a, b) => treats_sides_alike(a.get()) && treats_sides_alike(b.get()),
        Core::Else(a, b) => treats_sides_alike(a.get()) && treats_sides_alike(b.get()),
    }
}

/// Whether the paths of a zone with this modifier stay, all of them or but for some of which nothing
/// is said.
fn asks_no_change(change: &Change) -> bool
    ensures { IsTrue result → (locations : ℕ) (zone : PathTerm) →
        (unit_terms locations zone change.now).before
        ≡ (unit_terms locations zone change.now).after }
{
    match change {
        Change::Preserve | Change::Ignore(_) => true,
        Change::Add(_)
        | Change::Remove(_)
        | Change::Replace(_, _)
        | Change::Drop
        | Change::AnyOf { .. } => false,
    }
}
