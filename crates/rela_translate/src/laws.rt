//! What the terms of a body mean. Each law is a function that does nothing, and its contract is the law.
ghost use Rattle.std.specs.Prelude.{◌≡◌, ℕ, ◌↔◌, List};
ghost use Rattle.rela_rir.specs.Fixed.{IsFixed, IsFixedR};
ghost use Rattle.rela_rir.specs.Words.{ImageOf};
ghost use Rattle.rela_rir.specs.Meaning.{In, InR};
ghost use Rattle.rela_rir.specs.declared.set.SymbolSet.{SymbolSet};
ghost use Rattle.rela_translate.specs.Zones.{path_symbols, Zone, Before, After};
ghost use Rattle.rela_translate.specs.Terms.{zone_of, before_of, after_of};
ghost use Rattle.rela_translate.specs.Verdict.{Meets, Offending};
ghost use Rattle.rela_translate.specs.Checked.{Checked};

use crate::body::Core;
use rela_names::WordSet;
use rela_rir::{PathTerm, Reading, fixed_terms_by_form};

/// Whatever the paths before and after the change are, the terms of a body have the words of its zone
/// and the pairs of its two relations.
pub fn terms_mean_the_body<M: Reading>()
    ensures zone { (at : M.setting.Name) (locations : ℕ) (body : Core) →
        (M.setting.of at).path_symbols ≡ path_symbols locations → (w : List ℕ) →
        In (M.setting.of at) (zone_of locations body) w
        ↔ Zone (M.setting.of at).classes locations body w }
    ensures before { (at : M.setting.Name) (locations : ℕ) (body : Core) →
        (M.setting.of at).path_symbols ≡ path_symbols locations → (u v : List ℕ) →
        InR (M.setting.of at) (before_of locations body) u v
        ↔ Before (M.setting.of at).classes locations body u v }
    ensures after { (at : M.setting.Name) (locations : ℕ) (body : Core) →
        (M.setting.of at).path_symbols ≡ path_symbols locations → (u v : List ℕ) →
        InR (M.setting.of at) (after_of locations body) u v
        ↔ After (M.setting.of at).classes locations body u v }
{}

/// The terms of a body name neither of the two path sets.
pub fn terms_name_no_paths()
    ensures zone { (locations : ℕ) (body : Core) → IsFixed (zone_of locations body) }
    ensures before { (locations : ℕ) (body : Core) → IsFixedR (before_of locations body) }
    ensures after { (locations : ℕ) (body : Core) → IsFixedR (after_of locations body) }
{
    fixed_terms_by_form();
}

/// A body changes only what it speaks of: the first word of a pair of either relation is in its zone.
pub fn changed_paths_are_in_the_zone()
    ensures before { (classes : List SymbolSet) (locations : ℕ) (body : Core) (u v : List ℕ) →
        Before classes locations body u v → Zone classes locations body u }
    ensures after { (classes : List SymbolSet) (locations : ℕ) (body : Core) (u v : List ℕ) →
        After classes locations body u v → Zone classes locations body u }
{}

/// The images of a body's two relations are those that their terms give of the paths before and after
/// the change.
pub fn images_mean_the_body<M: Reading>()
    ensures before { (at : M.setting.Name) (locations : ℕ) (body : Core) →
        (M.setting.of at).path_symbols ≡ path_symbols locations → (v : List ℕ) →
        In (M.setting.of at) (PathTerm.Image PathTerm.Pre (before_of locations body)) v
        ↔ ImageOf (M.setting.of at).pre (Before (M.setting.of at).classes locations body) v }
    ensures after { (at : M.setting.Name) (locations : ℕ) (body : Core) →
        (M.setting.of at).path_symbols ≡ path_symbols locations → (v : List ℕ) →
        In (M.setting.of at) (PathTerm.Image PathTerm.Post (after_of locations body)) v
        ↔ ImageOf (M.setting.of at).post (After (M.setting.of at).classes locations body) v }
{}

/// Where a check is met, no word offends against it.
pub fn no_word_offends_where_met<X: WordSet, Y: WordSet>()
    ensures { (check : Checked) (locations : ℕ) → Meets check locations X.contains Y.contains →
        (w : List ℕ) → ¬ Offending check locations X.contains Y.contains w }
{}
