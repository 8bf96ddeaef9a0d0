//! There is just one text of a check's zone.
ghost use Rattle.std.specs.Prelude.{◌≡◌, ℕ, List};
ghost use Rattle.rela_translate.specs.Checked.{Checked};
ghost use Rattle.rela_engine.specs.Zone.{IsZoneText};

/// Two texts of one check's zone, under the same names, are equal: the minimal automaton of a set of
/// words is unique, with the numbers of its states. The call does nothing, and its contract is this law.
pub fn zone_texts_are_one()
    ensures one { (check : Checked) (names : List (List ℕ)) (text other : List ℕ) →
        IsZoneText check names text → IsZoneText check names other → text ≡ other }
{}
