//! What is inside a term, by its form: the counted terms, and the complements in the order in
//! which they are numbered. Each law is a function that does nothing, and its contract is the law.
ghost use Rattle.std.specs.Prelude.{◌≡◌, ℕ, ◌⊎◌, ◌↔◌, [], ◌∷◌, ◌++◌, Contains};
ghost use Rattle.rela_rir.specs.Complements.{complemented_parts, complemented_parts_r};
ghost use Rattle.rela_rir.specs.Fixed.{IsFixed, IsFixedR};
ghost use Rattle.rela_rir.specs.Limit.{Reached, ReachedR, ReachedInside, ReachedInsideR, AreTold, ForcedInside, ForcedInsideR};

use crate::limit_laws::Staging;
use crate::term::{PathTerm, RelTerm};

/// A counted term with k reached places is in a path term where the term is one itself, or one is
/// in a part of it.
pub fn reached_inside_path_terms<M: Staging>()
    ensures none { (at : M.scene.Name) (k : ℕ) → ¬ ReachedInside (M.scene.of at) k PathTerm.None }
    ensures empty { (at : M.scene.Name) (k : ℕ) → ¬ ReachedInside (M.scene.of at) k PathTerm.Empty }
    ensures class { (at : M.scene.Name) (k entry : ℕ) →
        ¬ ReachedInside (M.scene.of at) k (PathTerm.Class entry) }
    ensures one { (at : M.scene.Name) (k s : ℕ) →
        ¬ ReachedInside (M.scene.of at) k (PathTerm.One s) }
    ensures union { (at : M.scene.Name) (k : ℕ) (x y : PathTerm) →
        ReachedInside (M.scene.of at) k (PathTerm.Union x y)
        ↔ (ReachedInside (M.scene.of at) k x ⊎ ReachedInside (M.scene.of at) k y) }
    ensures concat { (at : M.scene.Name) (k : ℕ) (x y : PathTerm) →
        ReachedInside (M.scene.of at) k (PathTerm.Concat x y)
        ↔ (ReachedInside (M.scene.of at) k x ⊎ ReachedInside (M.scene.of at) k y) }
    ensures star { (at : M.scene.Name) (k : ℕ) (x : PathTerm) →
        ReachedInside (M.scene.of at) k (PathTerm.Star x) ↔ ReachedInside (M.scene.of at) k x }
    ensures meet { (at : M.scene.Name) (k : ℕ) (x y : PathTerm) →
        ReachedInside (M.scene.of at) k (PathTerm.Meet x y)
        ↔ (Reached (M.scene.of at) (PathTerm.Meet x y) k
        ⊎ (ReachedInside (M.scene.of at) k x ⊎ ReachedInside (M.scene.of at) k y)) }
    ensures complement { (at : M.scene.Name) (k : ℕ) (x : PathTerm) →
        ReachedInside (M.scene.of at) k (PathTerm.Complement x)
        ↔ (Reached (M.scene.of at) (PathTerm.Complement x) k ⊎ ReachedInside (M.scene.of at) k x) }
    ensures before { (at : M.scene.Name) (k : ℕ) → ¬ ReachedInside (M.scene.of at) k PathTerm.Pre }
    ensures after { (at : M.scene.Name) (k : ℕ) → ¬ ReachedInside (M.scene.of at) k PathTerm.Post }
    ensures image { (at : M.scene.Name) (k : ℕ) (x : PathTerm) (r : RelTerm) →
        ReachedInside (M.scene.of at) k (PathTerm.Image x r)
        ↔ (Reached (M.scene.of at) (PathTerm.Image x r) k
        ⊎ (ReachedInside (M.scene.of at) k x ⊎ ReachedInsideR (M.scene.of at) k r)) }
{}

/// Likewise of relation terms.
pub fn reached_inside_rel_terms<M: Staging>()
    ensures identity { (at : M.scene.Name) (k : ℕ) (x : PathTerm) →
        ReachedInsideR (M.scene.of at) k (RelTerm.Identity x) ↔ ReachedInside (M.scene.of at) k x }
    ensures product { (at : M.scene.Name) (k : ℕ) (x y : PathTerm) →
        ReachedInsideR (M.scene.of at) k (RelTerm.Product x y)
        ↔ (ReachedInside (M.scene.of at) k x ⊎ ReachedInside (M.scene.of at) k y) }
    ensures union { (at : M.scene.Name) (k : ℕ) (r s : RelTerm) →
        ReachedInsideR (M.scene.of at) k (RelTerm.Union r s)
        ↔ (ReachedInsideR (M.scene.of at) k r ⊎ ReachedInsideR (M.scene.of at) k s) }
    ensures concat { (at : M.scene.Name) (k : ℕ) (r s : RelTerm) →
        ReachedInsideR (M.scene.of at) k (RelTerm.Concat r s)
        ↔ (ReachedInsideR (M.scene.of at) k r ⊎ ReachedInsideR (M.scene.of at) k s) }
    ensures star { (at : M.scene.Name) (k : ℕ) (r : RelTerm) →
        ReachedInsideR (M.scene.of at) k (RelTerm.Star r) ↔ ReachedInsideR (M.scene.of at) k r }
    ensures compose { (at : M.scene.Name) (k : ℕ) (r s : RelTerm) →
        ReachedInsideR (M.scene.of at) k (RelTerm.Compose r s)
        ↔ (ReachedR (M.scene.of at) (RelTerm.Compose r s) k
        ⊎ (ReachedInsideR (M.scene.of at) k r ⊎ ReachedInsideR (M.scene.of at) k s)) }
{}

/// The complemented parts of a path term are those of its parts, in order, and after them, of a
/// complement, its own part.
pub fn complemented_parts_of_path_terms()
    ensures none { complemented_parts PathTerm.None ≡ [] }
    ensures empty { complemented_parts PathTerm.Empty ≡ [] }
    ensures class { (entry : ℕ) → complemented_parts (PathTerm.Class entry) ≡ [] }
    ensures one { (s : ℕ) → complemented_parts (PathTerm.One s) ≡ [] }
    ensures union { (x y : PathTerm) →
        complemented_parts (PathTerm.Union x y) ≡ complemented_parts x ++ complemented_parts y }
    ensures concat { (x y : PathTerm) →
        complemented_parts (PathTerm.Concat x y) ≡ complemented_parts x ++ complemented_parts y }
    ensures star { (x : PathTerm) → complemented_parts (PathTerm.Star x) ≡ complemented_parts x }
    ensures meet { (x y : PathTerm) →
        complemented_parts (PathTerm.Meet x y) ≡ complemented_parts x ++ complemented_parts y }
    ensures complement { (x : PathTerm) →
        complemented_parts (PathTerm.Complement x) ≡ complemented_parts x ++ x ∷ [] }
    ensures before { complemented_parts PathTerm.Pre ≡ [] }
    ensures after { complemented_parts PathTerm.Post ≡ [] }
    ensures image { (x : PathTerm) (r : RelTerm) →
        complemented_parts (PathTerm.Image x r) ≡ complemented_parts x ++ complemented_parts_r r }
{}

/// Those of a relation term are those of its parts, in order.
pub fn complemented_parts_of_rel_terms()
    ensures identity { (x : PathTerm) →
        complemented_parts_r (RelTerm.Identity x) ≡ complemented_parts x }
    ensures product { (x y : PathTerm) →
        complemented_parts_r (RelTerm.Product x y) ≡ complemented_parts x ++ complemented_parts y }
    ensures union { (r s : RelTerm) →
        complemented_parts_r (RelTerm.Union r s) ≡ complemented_parts_r r
        ++ complemented_parts_r s }
    ensures concat { (r s : RelTerm) →
        complemented_parts_r (RelTerm.Concat r s) ≡ complemented_parts_r r
        ++ complemented_parts_r s }
    ensures star { (r : RelTerm) → complemented_parts_r (RelTerm.Star r) ≡ complemented_parts_r r }
    ensures compose { (r s : RelTerm) →
        complemented_parts_r (RelTerm.Compose r s) ≡ complemented_parts_r r
        ++ complemented_parts_r s }
{}

/// An answer is forced where one of the complemented parts tells k words; and a complement of one
/// of them with k reached places is a counted term that is inside.
pub fn complements_inside<M: Staging>()
    ensures forced { (at : M.scene.Name) (k : ℕ) (x : PathTerm) →
        ForcedInside (M.scene.of at) k x
        ↔ ((part : PathTerm) × Contains (complemented_parts x) part
        × AreTold (M.scene.of at) part k) }
    ensures forced_pairs { (at : M.scene.Name) (k : ℕ) (r : RelTerm) →
        ForcedInsideR (M.scene.of at) k r
        ↔ ((part : PathTerm) × Contains (complemented_parts_r r) part
        × AreTold (M.scene.of at) part k) }
    ensures reached { (at : M.scene.Name) (k : ℕ) (x part : PathTerm) →
        Contains (complemented_parts x) part →
        Reached (M.scene.of at) (PathTerm.Complement part) k → ReachedInside (M.scene.of at) k x }
    ensures reached_pairs { (at : M.scene.Name) (k : ℕ) (r : RelTerm) (part : PathTerm) →
        Contains (complemented_parts_r r) part →
        Reached (M.scene.of at) (PathTerm.Complement part) k → ReachedInsideR (M.scene.of at) k r }
{}

/// The parts that are complemented in a term that names neither path set name neither.
pub fn complements_of_fixed_terms()
    ensures paths { (x part : PathTerm) → IsFixed x → Contains (complemented_parts x) part →
        IsFixed part }
    ensures relations { (r : RelTerm) (part : PathTerm) → IsFixedR r →
        Contains (complemented_parts_r r) part → IsFixed part }
{}
