//! The laws of the shortlex order, which compares words by length first and then symbol by symbol.
//! Each is a function that does nothing, and its contract is the law.

ghost use Rattle.std.specs.Prelude.{◌≡◌, ◌≢◌, ◌⊎◌, ℕ, List};
ghost use Rattle.rela_names.specs.Shortlex.{IsBefore, First};

use std::marker::Brand;

/// No word is before itself.
pub fn shortlex_is_irreflexive()
    ensures { (u : List ℕ) → ¬ IsBefore u u }
{}

/// What is before a word that is before a third is before that third.
pub fn shortlex_is_transitive()
    ensures { (u v w : List ℕ) → IsBefore u v → IsBefore v w → IsBefore u w }
{}

/// Of two different words one is before the other.
pub fn shortlex_is_total()
    ensures { (u v : List ℕ) → u ≢ v → IsBefore u v ⊎ IsBefore v u }
{}

/// A set of words, which only contracts name.
pub trait WordSet {
    ghost contains: { List ℕ → Type 0 };
}

// The set that a caller's proof picks stands in the place of this one.
impl WordSet for Brand {
    ghost contains = { λ _. Unit {0} };
}

/// A set of words has at most one first word.
pub fn first_is_unique<X: WordSet>()
    ensures { (v w : List ℕ) → First X.contains v → First X.contains w → v ≡ w }
{}
