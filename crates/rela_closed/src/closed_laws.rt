//! What closed lists of words tell of words of any length. Each law is a function that does nothing,
//! and its contract is the law.
ghost use Rattle.std.specs.Prelude.{◌≡◌, ℕ, ◌↔◌, true, Bool, List, [], ◌∷◌, Contains};
ghost use Rattle.rela_nfa.specs.Automaton.{Automaton};
ghost use Rattle.rela_nfa.specs.Runs.{Accepts};
ghost use Rattle.rela_build.specs.Complement.{IsOver};
ghost use Rattle.std.specs.List.{All};
ghost use Rattle.rela_labels.specs.Letters.{has};
ghost use Rattle.rela_closed.specs.Words.{words_of};
ghost use Rattle.rela_closed.specs.declared.step.Step.{Step};
ghost use Rattle.rela_closed.specs.Closed.{AreEqualOn, AreIncludedOn, IsClosed, IsListed};

/// What holds of each word of a list that has the empty word and is closed holds of each word over
/// the letters: it reaches the same states as some listed word; so it is accepted by both automata or
/// by neither where each listed word is, and by the first where the second accepts it and this holds
/// of each listed word.
pub fn closed_lists_decide()
    ensures listed { (over : List Bool) (automata : List Automaton) (words : List (List ℕ)) →
        IsClosed over automata words → Contains words [] → (word : List ℕ) → IsOver over word →
        IsListed automata words word }
    ensures equal { (over : List Bool) (a b : Automaton) (words : List (List ℕ)) →
        IsClosed over (a ∷ b ∷ []) words → Contains words [] → AreEqualOn words a b →
        (word : List ℕ) → IsOver over word → Accepts a word ↔ Accepts b word }
    ensures included { (over : List Bool) (a b : Automaton) (words : List (List ℕ)) →
        IsClosed over (a ∷ b ∷ []) words → Contains words [] → AreIncludedOn words b a →
        (word : List ℕ) → IsOver over word → Accepts b word → Accepts a word }
{}

/// A list that is given by steps has the empty word, and where the letters of the steps are in a set,
/// its words are over that set.
pub fn listed_words_are_over()
    ensures empty { (steps : List Step) → Contains (words_of steps) [] }
    ensures over { (over : List Bool) (steps : List Step) →
        All (λ step. has over step.letter ≡ true) steps → All (IsOver over) (words_of steps) }
{}
