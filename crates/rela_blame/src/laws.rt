//! What holds of the units of a text. The law is a function that does nothing, and its contract is
//! the law.

ghost use Rattle.std.specs.Prelude.{◌≡◌, List, length};
ghost use Rattle.rela_lex.specs.declared.token.Token.{Token};
ghost use Rattle.rela_spec.specs.Grammar.{Spells};
ghost use Rattle.rela_spec.specs.declared.tree.SpecFile.{SpecFile};
ghost use Rattle.rela_blame.specs.Units.{unit_offsets};
ghost use Rattle.rela_blame.specs.Written.{units_in_items};

/// Where tokens spell a tree, as many units open in them as are written in it.
pub fn units_stand_in_their_order()
    ensures { (tokens : List Token) (tree : SpecFile) → Spells tokens tree →
        length (unit_offsets tokens) ≡ units_in_items tree.items }
{}
