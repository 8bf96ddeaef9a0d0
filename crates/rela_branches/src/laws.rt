//! What the alternatives of a body have to do with its zone. The law is a function that does
//! nothing, and its contract is the law.
ghost use Rattle.std.specs.Prelude.{ℕ, ◌↔◌, List};
ghost use Rattle.rela_rir.specs.declared.set.SymbolSet.{SymbolSet};
ghost use Rattle.rela_translate.specs.Zones.{Zone};
ghost use Rattle.rela_branches.specs.Alternatives.{Claims};

use rela_translate::Core;

/// A word is in the zone of a body just where it is in that of one of its alternatives.
pub fn alternatives_share_the_zone()
    ensures { (classes : List SymbolSet) (locations : ℕ) (body : Core) (word : List ℕ) →
        Zone classes locations body word
        ↔ ((before : ℕ) × Claims classes locations body word before) }
{}
