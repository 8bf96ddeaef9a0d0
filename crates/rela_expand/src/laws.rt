//! What expanding rests on: it is shaping what names stand for, and then numbering what a check comes
//! to. Each function does nothing; its contract is the law.

ghost use Rattle.std.specs.Prelude.{◌≡◌, ℕ, ◌<◌, ◌≤◌, length};
ghost use Rattle.std.specs.List.{All, range_with_len};
ghost use Rattle.rela_locations.specs.Network.{Network};
ghost use Rattle.rela_spec.specs.declared.tree.SpecExpr.{SpecExpr};
ghost use Rattle.rela_spec.specs.declared.tree.SpecFile.{SpecFile};
ghost use Rattle.rela_translate.specs.Checked.{entries_of, markers_of};
ghost use Rattle.rela_expand.specs.Expand.{expanded};
ghost use Rattle.rela_expand.specs.Expansions.{spec_expansion};
ghost use Rattle.rela_expand.specs.Measures.{body_measures, of_terms};
ghost use Rattle.rela_expand.specs.Numbered.{expands, expansions_of, numbered_body};
ghost use Rattle.rela_expand.specs.Numbering.{Numbering, nothing_numbered};
ghost use Rattle.rela_expand.specs.Places.{Place};
ghost use Rattle.rela_expand.specs.Shapes.{BodyShape, Shapes, body_shape_of};
ghost use Rattle.rela_translate.specs.Terms.{terms_of};
ghost use Rattle.rela_expand.specs.Walk.{shaped};

use rela_rir::{sizes_of_path_terms, sizes_of_rel_terms};

/// Expanding a specification, where names stand for what their shapes expand to, is shaping it and
/// then numbering the classes and markers of its shape.
#[tactic(auto, using(crate::proofs::Expanding::spec_goes_by))]
fn expansions_go_by_shapes()
    ensures { (place : Place) (shapes : Shapes) (p : SpecExpr) (n : Numbering) →
        spec_expansion place (expansions_of place shapes) p n
        ≡ expands (numbered_body place) (body_shape_of place shapes p) n }
{}

/// The terms of a numbered body are as large as its shape tells before it is numbered.
pub(crate) fn bodies_are_as_large_as_their_shapes()
    ensures { (place : Place) (locations : ℕ) (s : BodyShape) (n : Numbering) →
        of_terms (terms_of locations (numbered_body place s n).value) ≡ body_measures s }
{
    sizes_of_path_terms();
    sizes_of_rel_terms();
}

/// The checks of a specification, or its first refusal, are those that its shapes give.
#[tactic(auto, using(crate::proofs::ShapedChecks::checks_by_shapes))]
fn checks_go_by_shapes()
    ensures { (network : Network) (file : SpecFile) → expanded network file ≡ shaped network file }
{}

/// The classes that a numbered body names are entries of the table that its numbering ends with.
#[tactic(auto, using(crate::proofs::Entries::body_inside))]
fn classes_of_bodies_are_in_their_tables()
    ensures { (place : Place) (s : BodyShape) (n : Numbering) (bound : ℕ) →
        length (numbered_body place s n).after.classes ≤ bound →
        All (λ k. k < bound) (entries_of (numbered_body place s n).value) }
{}

/// The markers of a body whose numbering begins with nothing are 1, 2 and so on, from left to
/// right.
#[tactic(auto, using(crate::proofs::Marks::markers_counted))]
fn markers_of_bodies_are_counted()
    ensures { (place : Place) (s : BodyShape) →
        markers_of (numbered_body place s nothing_numbered).value
        ≡ range_with_len 1 (length (markers_of (numbered_body place s nothing_numbered).value)) }
{}
