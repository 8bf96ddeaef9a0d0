//! What holds of the alternatives of a check as it is written and as it is expanded. The law is a
//! function that does nothing, and its contract is the law.

ghost use Rattle.std.specs.Prelude.{◌≡◌, List, Ok, length};
ghost use Rattle.std.specs.List.{All};
ghost use Rattle.rela_branches.specs.Alternatives.{alternatives_of};
ghost use Rattle.rela_expand.specs.Expand.{Expanded, expanded};
ghost use Rattle.rela_lex.specs.declared.token.Token.{Token};
ghost use Rattle.rela_locations.specs.Network.{Network};
ghost use Rattle.rela_spec.specs.Full.{IsFull};
ghost use Rattle.rela_spec.specs.Grammar.{Spells};
ghost use Rattle.rela_spec.specs.declared.tree.SpecFile.{SpecFile};
ghost use Rattle.rela_blame.specs.Alternatives.{check_leads};

/// A check's expanded body has as many alternatives as its written one, so that each of those has a
/// place in the text.
pub fn alternatives_stay_as_many()
    ensures { (network : Network) (file : SpecFile) (tokens : List Token)
        (checks : List Expanded) → Spells tokens file → IsFull file →
        expanded network file ≡ Ok checks →
        All (λ check. length (check_leads file tokens check.name)
        ≡ length (alternatives_of check.body)) checks }
{}
