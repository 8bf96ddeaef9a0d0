//! The bodies of checks say what is written. The law is a function that does nothing, and its contract
//! is the law.
ghost use Rattle.std.specs.Prelude.{◌≡◌, List, Ok, map};
ghost use Rattle.std.specs.List.{AllZip};
ghost use Rattle.rela_locations.specs.Network.{Network};
ghost use Rattle.rela_spec.specs.Full.{IsFull};
ghost use Rattle.rela_spec.specs.declared.tree.SpecFile.{SpecFile};
ghost use Rattle.rela_translate.specs.Checked.{Checked};
ghost use Rattle.rela_expand.specs.Expand.{expanded, outcome_of};
ghost use Rattle.rela_expand.specs.Faithful.{IsFaithful};
ghost use Rattle.rela_expand.specs.ZonesW.{bodies_of};

/// The checks of a specification, in their order, speak of the words that their written bodies speak
/// of, and their units are those of the written bodies, from left to right, where references are
/// followed: each with the same words in its zone, the same kind of modifier, and the same words in
/// the modifier's paths.
pub fn checks_are_faithful()
    ensures { (network : Network) (file : SpecFile) (checks : List Checked) → IsFull file →
        expanded network file ≡ Ok (map outcome_of checks) →
        AllZip (IsFaithful (record { network = network; level = file.level }) file.items)
        (bodies_of file.items) checks }
{}
