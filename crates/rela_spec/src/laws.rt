//! What holds of the grammar.

ghost use Rattle.std.specs.Prelude.{◌≡◌, List};
ghost use Rattle.rela_lex.specs.declared.token.Token.{Token};
ghost use Rattle.rela_spec.specs.Grammar.{Spells};
ghost use Rattle.rela_spec.specs.declared.tree.SpecFile.{SpecFile};

use rela_flows::prefixes_are_read_exactly;

/// Tokens spell one tree at most.
pub fn grammar_is_unambiguous()
    ensures { (tokens : List Token) (a b : SpecFile) → Spells tokens a → Spells tokens b → a ≡ b }
{
    prefixes_are_read_exactly();
}
