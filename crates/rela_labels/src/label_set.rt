//! What a set of letters is, whatever holds it.
ghost use Rattle.std.specs.Prelude.{◌≡◌, ◌≢◌, ℕ, ◌<◌, ◌↔◌, ◌==◌, ◌&&◌, ◌||◌, Bool, true, false, not, IsTrue, List, length, IfOk, IfErr, OnOk, IfNone, IfSome, IsOk};
ghost use Rattle.rela_labels.specs.Letters.{has};

use std::alloc::{AllocError, Global};

/// A set of letters below a size, which is fixed when the set is made: the label of an automaton's
/// edge. Contracts see it as `letters`, a list with one boolean for each letter below the size,
/// whether it is in the set. `has` reads it, and is false from the size on.
///
/// Memory is the only error. What calls cost is said by the types that implement it: at most a step
/// for each 64 letters of the size.
pub trait LabelSet: Drop {
    // for each letter below the size, whether it is in the set
    ghost letters: { Self → List Bool };

    // the sizes that the type can hold
    ghost fits: { ℕ → Type 0 };

    // whether a call may take memory; where none does, no call fails
    ghost takes_memory: { Bool };

    /// The empty set of this size.
    fn none(alloc: Global, size: u32) -> Result<Self, AllocError>
        requires { fits size }
        ensures size { IfOk result (λ set. length (letters set) ≡ size) }
        ensures empty { IfOk result (λ set. (k : ℕ) → has (letters set) k ≡ false) }
        ensures memory { takes_memory ≡ false → IsOk result };

    /// The size: each letter of the set is below it. The type can hold it.
    fn size(&self) -> u32
        ensures size { result ≡ length (letters self.now) }
        ensures fits { fits (length (letters self.now)) };

    /// Puts a letter into the set. An error leaves the set as it was.
    fn add(&mut self, alloc: Global, letter: u32) -> Result<(), AllocError>
        requires { letter < length (letters self.old) }
        ensures size { OnOk result (length (letters self.new) ≡ length (letters self.old)) }
        ensures added { OnOk result (has (letters self.new) letter ≡ true) }
        ensures others { OnOk result ((k : ℕ) → k ≢ letter → has (letters self.new) k
            ≡ has (letters self.old) k) }
        ensures unchanged { IfErr result (λ _. letters self.new ≡ letters self.old) }
        ensures memory { takes_memory ≡ false → IsOk result };

    /// Whether the letter is in the set; no letter from the size on is.
    fn contains(&self, letter: u32) -> bool
        ensures has { result ≡ has (letters self.now) letter }
        ensures below { IsTrue result → letter < length (letters self.now) };

    /// The letters that are in both sets.
    fn meet(&self, alloc: Global, other: &Self) -> Result<Self, AllocError>
        requires { length (letters self.now) ≡ length (letters other.now) }
        ensures size { IfOk result (λ set. length (letters set) ≡ length (letters self.now)) }
        ensures both { IfOk result (λ set. (k : ℕ) → has (letters set) k
            ≡ (has (letters self.now) k && has (letters other.now) k)) }
        ensures memory { takes_memory ≡ false → IsOk result };

    /// The letters that are in one set or the other.
    fn join(&self, alloc: Global, other: &Self) -> Result<Self, AllocError>
        requires { length (letters self.now) ≡ length (letters other.now) }
        ensures size { IfOk result (λ set. length (letters set) ≡ length (letters self.now)) }
        ensures either { IfOk result (λ set. (k : ℕ) → has (letters set) k
            ≡ (has (letters self.now) k || has (letters other.now) k)) }
        ensures memory { takes_memory ≡ false → IsOk result };

    /// The letters that are in this set and not in the other.
    fn minus(&self, alloc: Global, other: &Self) -> Result<Self, AllocError>
        requires { length (letters self.now) ≡ length (letters other.now) }
        ensures size { IfOk result (λ set. length (letters set) ≡ length (letters self.now)) }
        ensures first_only { IfOk result (λ set. (k : ℕ) → has (letters set) k
            ≡ (has (letters self.now) k && not (has (letters other.now) k))) }
        ensures memory { takes_memory ≡ false → IsOk result };

    /// Whether no letter is in the set.
    fn is_empty(&self) -> bool
        ensures { IsTrue result ↔ ((k : ℕ) → has (letters self.now) k ≡ false) };

    /// Whether no letter is in both sets. It takes no memory.
    fn is_disjoint(&self, other: &Self) -> bool
        requires { length (letters self.now) ≡ length (letters other.now) }
        ensures { IsTrue result ↔ ((k : ℕ) →
            (has (letters self.now) k && has (letters other.now) k) ≡ false) };

    /// The least letter of the set, and `None` where it has none.
    fn least(&self) -> Option<u32>
        ensures none { IfNone result ((k : ℕ) → has (letters self.now) k ≡ false) }
        ensures member { IfSome result (λ least. has (letters self.now) least ≡ true) }
        ensures below { IfSome result (λ least. least < length (letters self.now)) }
        ensures least { IfSome result (λ least. (k : ℕ) → k < least →
            has (letters self.now) k ≡ false) };

    /// The letter of the set, if it has just one, and else `None`. It takes no memory.
    fn only(&self) -> Option<u32>
        ensures only { IfSome result (λ only. (k : ℕ) → has (letters self.now) k ≡ (only == k)) }
        ensures below { IfSome result (λ only. only < length (letters self.now)) }
        ensures other { IfNone result ((only : ℕ) →
            ¬ ((k : ℕ) → has (letters self.now) k ≡ (only == k))) };

    /// Whether the two sets have the same letters.
    fn same(&self, other: &Self) -> bool
        requires { length (letters self.now) ≡ length (letters other.now) }
        ensures { IsTrue result ↔ (letters self.now ≡ letters other.now) };

    /// The same set.
    fn copy(&self, alloc: Global) -> Result<Self, AllocError>
        ensures same { IfOk result (λ set. letters set ≡ letters self.now) }
        ensures memory { takes_memory ≡ false → IsOk result };
}
