//! What the laws of terms say of the scenes of rows. Each law is a function that only calls other
//! laws, and its contract is the law.

ghost use Rattle.std.specs.Prelude.{ℕ, ◌+◌, List, Contains};
ghost use Rattle.rela_blocks.specs.FlowName.{paths_at};
ghost use Rattle.rela_blocks.specs.Scenes.{after_image, before_image, lettering_of, scene};
ghost use Rattle.rela_build.specs.Made.{IsMade};
ghost use Rattle.rela_build.specs.PathSets.{no_paths};
ghost use Rattle.rela_nfa.specs.Automaton.{Automaton};
ghost use Rattle.rela_pairs.specs.Reachable.{MoreThan};
ghost use Rattle.rela_rir.specs.Limit.{ReachedInside, ReachedInsideR};
ghost use Rattle.rela_rir.specs.Places.{Agree, At};
ghost use Rattle.rela_trans.specs.Images.{AreReachedFrom};
ghost use Rattle.rela_trans.specs.Machine.{Machine};
ghost use Rattle.rela_translate.specs.Terms.{after_of, before_of};
ghost use Rattle.rela_cert.specs.CheckRelations.{IsReadBy, IsWrittenBy};
ghost use Rattle.rela_cert.specs.RowNames.{RowName, row_machines, row_paths, row_scenes, row_settings};
ghost use Rattle.rela_cert.specs.Rows.{parts_of};

use rela_build::{NamedPaths, images_are_placed};
use rela_rir::{
    Machinery, PathTerm, Reading, RelTerm, Staging, complements_of_fixed_terms,
    licences_carry_over, path_terms_mean, reached_inside_path_terms, scenes_alike,
    tables_carry_over,
};
use rela_trans::{letters_give_symbols, symbols_give_letters};
use rela_translate::terms_name_no_paths;

/// The scenes of rows, and the machines over their blocks, which only contracts name.
pub(crate) struct Rows;

impl Staging for Rows {
    ghost scene = { row_scenes };
}

impl Reading for Rows {
    ghost setting = { row_settings };
}

impl Machinery for Rows {
    ghost machines = { row_machines };
}

impl NamedPaths for Rows {
    ghost paths = { row_paths };
}

/// Where a relation of a check has a counted term with k reached places, the image by it has one
/// for the paths of each flow: the relation names no path set.
pub(crate) fn relations_pass_on()
    ensures before { (at : RowName) (k : ℕ) →
        ReachedInsideR (scene at.check at.locations no_paths) k
        (before_of at.locations at.check.body) →
        ReachedInside (row_scenes.of at) k (before_image at.check at.locations) }
    ensures after { (at : RowName) (k : ℕ) →
        ReachedInsideR (scene at.check at.locations no_paths) k
        (after_of at.locations at.check.body) →
        ReachedInside (row_scenes.of at) k (after_image at.check at.locations) }
{
    terms_name_no_paths();
    licences_carry_over::<Rows>();
    reached_inside_path_terms::<Rows>();
}

/// Words that reach the same places of a complemented part for the paths of some flow do so where
/// there are no paths.
pub(crate) fn parts_agree()
    ensures { (at : RowName) (part : PathTerm) → Contains (parts_of at.check at.locations) part →
        (v w : List ℕ) → Agree (At (row_scenes.of at) part) v w →
        Agree (At (scene at.check at.locations no_paths) part) v w }
{
    terms_name_no_paths();
    complements_of_fixed_terms();
    scenes_alike::<Rows>();
}

/// What a relation over finer blocks writes for words is the automaton of the image by its term; and
/// where more pairs of states are reached than a limit, the term of the image passes the limit.
pub(crate) fn written_images_are_made()
    ensures made { (at : RowName) (coarse fine : List ℕ) (x : PathTerm) (r : RelTerm)
        (words : Automaton) (t u : Machine) (image : Automaton) →
        IsReadBy at coarse fine x r words t u → IsWrittenBy u words image →
        IsMade (Unit {0}) (lettering_of at.check at.locations fine) (paths_at at.flow)
        (PathTerm.Image x r) image }
    ensures passes { (at : RowName) (coarse fine : List ℕ) (x : PathTerm) (r : RelTerm)
        (words : Automaton) (t u : Machine) (limit : ℕ) →
        IsReadBy at coarse fine x r words t u → MoreThan limit (AreReachedFrom words u) →
        ReachedInside (row_scenes.of at) (limit + 1) (PathTerm.Image x r) }
{
    symbols_give_letters();
    letters_give_symbols();
    scenes_alike::<Rows>();
    tables_carry_over::<Rows>();
    images_are_placed::<Rows>();
    path_terms_mean::<Rows>();
    reached_inside_path_terms::<Rows>();
}
