//! How classes are numbered. The law is a function that does nothing, and its contract is the law.

ghost use Rattle.std.specs.Prelude.{◌≡◌, ℕ, List, Some, Contains, slice_get};
ghost use Rattle.rela_claims.specs.Classes.{Class, each_once, number_in};

/// Each class that is mentioned stands in the table at its number, and what stands in the table is
/// mentioned and stands at its own number.
pub fn classes_have_their_numbers()
    ensures stands { (classes : List Class) (class : Class) → Contains classes class →
        slice_get (each_once classes) (number_in (each_once classes) class) ≡ Some class }
    ensures mentioned { (classes : List Class) (k : ℕ) (class : Class) →
        slice_get (each_once classes) k ≡ Some class → Contains classes class }
    ensures own { (classes : List Class) (k : ℕ) (class : Class) →
        slice_get (each_once classes) k ≡ Some class → number_in (each_once classes) class ≡ k }
{}
