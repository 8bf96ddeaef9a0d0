//! What holds of canonical texts.

ghost use Rattle.rela_print.specs.Print.{print_of};
ghost use Rattle.rela_print.specs.ReadBack.{IsOfText, ReadsBack};
ghost use Rattle.rela_spec.specs.declared.tree.SpecFile.{SpecFile};

use rela_flows::canonical_texts_write_their_prefixes;
use rela_spec::grammar_is_unambiguous;

/// The canonical text of a tree that some text spells is read as the same tree, and as no other.
pub fn canonical_texts_are_read()
    ensures { (file : SpecFile) → IsOfText file → ReadsBack (print_of file) file }
{
    canonical_texts_write_their_prefixes();
    grammar_is_unambiguous();
}
