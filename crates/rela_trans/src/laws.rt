//! The laws by which symbols and their letters are related alike, and which letters are related. Each
//! is a function that does nothing, and its contract is the law.

ghost use Rattle.std.specs.Prelude.{◌≡◌, ℕ, ◌<◌, List, map};
ghost use Rattle.std.specs.List.{All};
ghost use Rattle.rela_trans.specs.Composition.{Covers};
ghost use Rattle.rela_trans.specs.Machine.{Machine, IsMachine};
ghost use Rattle.rela_trans.specs.Runs.{ReachR, Relates};

/// Where words of symbols are related, so are the words of their letters.
pub fn symbols_give_letters()
    ensures reached { (read : ℕ → ℕ) (t : Machine) (q : ℕ) (u v : List ℕ)
        → ReachR read t q u v → ReachR (λ k. k) t q (map read u) (map read v) }
    ensures relation { (read : ℕ → ℕ) (t : Machine) (u v : List ℕ)
        → Relates read t u v → Relates (λ k. k) t (map read u) (map read v) }
{}

/// Where words of letters are related, each word of symbols with the letters written is written for
/// some word of symbols with the letters read, as long as each letter has a symbol. So words that are
/// written with the same letters are written for the same words of letters.
pub fn letters_give_symbols()
    ensures reached { (read : ℕ → ℕ) (t : Machine) → IsMachine t → Covers read t.letters →
        (q : ℕ) (letters v : List ℕ)
        → ReachR (λ k. k) t q letters (map read v) → ((u : List ℕ) × (map read u ≡ letters)
        × ReachR read t q u v) }
    ensures relation { (read : ℕ → ℕ) (t : Machine) → IsMachine t → Covers read t.letters →
        (letters v : List ℕ)
        → Relates (λ k. k) t letters (map read v) → ((u : List ℕ) × (map read u ≡ letters)
        × Relates read t u v) }
{}

/// Words of letters that are related have letters of the transducer alone.
pub fn related_words_have_letters()
    ensures read { (t : Machine) → IsMachine t → (u v : List ℕ) → Relates (λ k. k) t u v →
        All (λ k. k < t.letters) u }
    ensures written { (t : Machine) → IsMachine t → (u v : List ℕ) → Relates (λ k. k) t u v →
        All (λ k. k < t.letters) v }
{}
