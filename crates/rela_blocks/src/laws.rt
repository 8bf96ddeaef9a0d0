//! Which symbols the terms of a body name. The law is a function that only calls other laws, and its
//! contract is the law.
ghost use Rattle.std.specs.Prelude.{ℕ, List};
ghost use Rattle.rela_build.specs.Lettering.{IsAlone};
ghost use Rattle.rela_build.specs.Named.{Names, NamesR};
ghost use Rattle.rela_translate.specs.Terms.{zone_of, before_of, after_of};
ghost use Rattle.rela_blocks.specs.Alone.{AreOthersAlone};

use rela_build::named_symbols_by_form;
use rela_rir::{PathTerm, RelTerm};
use rela_translate::Core;

/// The terms of a body name `drop` and the body's markers alone. So where these are blocks of their
/// own, so is each symbol that the terms name; and an image of one of the two path sets names what
/// its relation does.
pub fn named_symbols_are_alone()
    ensures zone { (blocks : List ℕ) (locations : ℕ) (body : Core) →
        AreOthersAlone blocks locations body → Names (IsAlone blocks) (zone_of locations body) }
    ensures before { (blocks : List ℕ) (locations : ℕ) (body : Core) →
        AreOthersAlone blocks locations body → NamesR (IsAlone blocks) (before_of locations body) }
    ensures after { (blocks : List ℕ) (locations : ℕ) (body : Core) →
        AreOthersAlone blocks locations body → NamesR (IsAlone blocks) (after_of locations body) }
    ensures before_image { (blocks : List ℕ) (r : RelTerm) → NamesR (IsAlone blocks) r →
        Names (IsAlone blocks) (PathTerm.Image PathTerm.Pre r) }
    ensures after_image { (blocks : List ℕ) (r : RelTerm) → NamesR (IsAlone blocks) r →
        Names (IsAlone blocks) (PathTerm.Image PathTerm.Post r) }
{
    named_symbols_by_form();
}
