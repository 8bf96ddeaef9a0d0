//! What holds of the cuts of every text.

ghost use Rattle.std.specs.Prelude.{◌≡◌, ◌⊎◌, ℕ, ◌+◌, List, ◌++◌, length};
ghost use Rattle.std.specs.List.{flat_map};
ghost use Rattle.rela_lex.specs.declared.token.Token.{Token};
ghost use Rattle.rela_lex.specs.Spells.{Piece, spelling, IsCut, tokens_from, Spells, IsBadToken};

/// Each text has one reading: it is cut whole, and all its cuts have the same tokens, or it has one
/// fault.
pub fn one_reading()
    ensures some { (text : List ℕ)
        → ((ts : List Token) × Spells text ts) ⊎ ((at : ℕ) × IsBadToken text at) }
    ensures apart { (text : List ℕ) (ts : List Token) (at : ℕ)
        → Spells text ts → ¬ IsBadToken text at }
    ensures tokens { (text : List ℕ) (ts us : List Token) → Spells text ts →
        Spells text us → ts ≡ us }
    ensures fault { (text : List ℕ) (a b : ℕ) → IsBadToken text a → IsBadToken text b → a ≡ b }
{}

/// The cut of a text and the cut of its rest are one cut, and the tokens of both are its tokens.
pub fn cuts_join()
    ensures cut { (text rest after : List ℕ) (ps qs : List Piece)
        → IsCut text ps rest → IsCut rest qs after → IsCut text (ps ++ qs) after }
    ensures tokens { (at : ℕ) (ps qs : List Piece)
        → tokens_from at (ps ++ qs)
        ≡ tokens_from at ps ++ tokens_from (at + length (flat_map spelling ps)) qs }
{}
