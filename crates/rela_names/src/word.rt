//! Symbols and words of them.

ghost use Rattle.std.specs.Prelude.{◌≡◌};

use std::marker::Model;

/// The number of a symbol: a location, `drop`, `loop` or a marker, as an [`Alphabet`](crate::Alphabet)
/// numbers them.
pub type Symbol = u32;

/// A word of symbols: a path, or what a relation makes of one.
#[derive(Debug, Drop)]
pub struct Word {
    /// The symbols, in their order.
    symbols: Vec<Symbol>,
}

impl Model for Word {
    ghost use Rattle.std.specs.Prelude.{List, ℕ};

    ghost Value = { List ℕ };

    ghost view = { λ word. word.symbols.items };
}

impl Word {
    /// The word of just these symbols, in their order. It takes no memory.
    pub fn from_symbols(symbols: Vec<Symbol>) -> Word
        ensures { result ≡ symbols.items }
    {
        Word { symbols }
    }

    /// The symbols, lent in their order.
    pub fn as_slice(&self) -> &[Symbol]
        ensures { result.now ≡ self.now }
    {
        self.symbols.as_slice()
    }
}

impl PartialEq for Word {
    ghost use Rattle.std.specs.Prelude.{nat_eq};
    ghost use Rattle.std.specs.Cmp.{partial_equiv_from_equiv};
    ghost use Rattle.std.specs.Cmp.Lexicographic.{pointwise};
    ghost use Rattle.std.proofs.lemmas.Cmp.{nat_list_eq_equiv};

    ghost eq = { pointwise nat_eq };

    ghost laws = { partial_equiv_from_equiv nat_list_eq_equiv };

    fn eq(&self, other: &Word) -> bool {
        self.as_slice() == other.as_slice()
    }
}

impl Eq for Word {
    ghost use Rattle.std.proofs.lemmas.Cmp.{nat_list_eq_equiv};

    ghost laws = { nat_list_eq_equiv };
}
