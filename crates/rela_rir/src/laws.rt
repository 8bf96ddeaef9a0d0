//! What terms mean and how large they are, form by form. Each is a function that does nothing, and
//! its contract is the law.
ghost use Rattle.std.specs.Prelude.{◌≡◌, ℕ, ◌+◌, ◌≤◌, ◌⊎◌, ◌↔◌, max, List, [], ◌∷◌};
ghost use Rattle.rela_rir.specs.Words.{Concatenation, Star, ImageOf, PairConcatenation, PairStar, Composition};
ghost use Rattle.rela_rir.specs.Machines.{Settings};
ghost use Rattle.rela_rir.specs.Meaning.{In, InR, IsInClass, IsPathWord};
ghost use Rattle.rela_rir.specs.Fixed.{Alike, FixedForms, IsFixed, IsFixedR};
ghost use Rattle.rela_rir.specs.Size.{nodes_of_path, nodes_of_rel, depth_of_path, depth_of_rel};

use crate::term::{PathTerm, RelTerm};
use rela_names::WordSet;

/// Which settings a law speaks of, which only contracts name.
pub trait Reading {
    ghost setting: { Settings };
}

/// The words of a path term, by its form and what its parts mean.
pub fn path_terms_mean<M: Reading>()
    ensures none { (at : M.setting.Name) (w : List ℕ) → ¬ In (M.setting.of at) PathTerm.None w }
    ensures empty { (at : M.setting.Name) (w : List ℕ) → In (M.setting.of at) PathTerm.Empty w
        ↔ (w ≡ []) }
    ensures class { (at : M.setting.Name) (k : ℕ) (w : List ℕ) →
        In (M.setting.of at) (PathTerm.Class k) w
        ↔ ((s : ℕ) × (w ≡ s ∷ []) × IsInClass (M.setting.of at) k s) }
    ensures one { (at : M.setting.Name) (s : ℕ) (w : List ℕ) →
        In (M.setting.of at) (PathTerm.One s) w ↔ (w ≡ s ∷ []) }
    ensures union { (at : M.setting.Name) (x y : PathTerm) (w : List ℕ) →
        In (M.setting.of at) (PathTerm.Union x y) w
        ↔ (In (M.setting.of at) x w ⊎ In (M.setting.of at) y w) }
    ensures concat { (at : M.setting.Name) (x y : PathTerm) (w : List ℕ) →
        In (M.setting.of at) (PathTerm.Concat x y) w
        ↔ Concatenation (In (M.setting.of at) x) (In (M.setting.of at) y) w }
    ensures star { (at : M.setting.Name) (x : PathTerm) (w : List ℕ) →
        In (M.setting.of at) (PathTerm.Star x) w ↔ Star (In (M.setting.of at) x) w }
    ensures meet { (at : M.setting.Name) (x y : PathTerm) (w : List ℕ) →
        In (M.setting.of at) (PathTerm.Meet x y) w
        ↔ (In (M.setting.of at) x w × In (M.setting.of at) y w) }
    ensures complement { (at : M.setting.Name) (x : PathTerm) (w : List ℕ) →
        In (M.setting.of at) (PathTerm.Complement x) w
        ↔ (IsPathWord (M.setting.of at).path_symbols w
        × (¬ In (M.setting.of at) x w)) }
    ensures before { (at : M.setting.Name) (w : List ℕ) → In (M.setting.of at) PathTerm.Pre w
        ↔ (M.setting.of at).pre w }
    ensures after { (at : M.setting.Name) (w : List ℕ) → In (M.setting.of at) PathTerm.Post w
        ↔ (M.setting.of at).post w }
    ensures image { (at : M.setting.Name) (x : PathTerm) (r : RelTerm) (v : List ℕ) →
        In (M.setting.of at) (PathTerm.Image x r) v
        ↔ ImageOf (In (M.setting.of at) x) (InR (M.setting.of at) r) v }
{}

/// The pairs of words of a relation term, by its form and what its parts mean.
pub fn rel_terms_mean<M: Reading>()
    ensures identity { (at : M.setting.Name) (x : PathTerm) (u v : List ℕ) →
        InR (M.setting.of at) (RelTerm.Identity x) u v ↔ ((u ≡ v) × In (M.setting.of at) x u) }
    ensures product { (at : M.setting.Name) (x y : PathTerm) (u v : List ℕ) →
        InR (M.setting.of at) (RelTerm.Product x y) u v
        ↔ (In (M.setting.of at) x u × In (M.setting.of at) y v) }
    ensures union { (at : M.setting.Name) (r s : RelTerm) (u v : List ℕ) →
        InR (M.setting.of at) (RelTerm.Union r s) u v
        ↔ (InR (M.setting.of at) r u v ⊎ InR (M.setting.of at) s u v) }
    ensures concat { (at : M.setting.Name) (r s : RelTerm) (u v : List ℕ) →
        InR (M.setting.of at) (RelTerm.Concat r s) u v ↔
        PairConcatenation (InR (M.setting.of at) r) (InR (M.setting.of at) s) u v }
    ensures star { (at : M.setting.Name) (r : RelTerm) (u v : List ℕ) →
        InR (M.setting.of at) (RelTerm.Star r) u v ↔ PairStar (InR (M.setting.of at) r) u v }
    ensures compose { (at : M.setting.Name) (r s : RelTerm) (u v : List ℕ) →
        InR (M.setting.of at) (RelTerm.Compose r s) u v ↔
        Composition (InR (M.setting.of at) r) (InR (M.setting.of at) s) u v }
{}

/// A word is some words of a set one after another where it is empty, or one of them and then some more.
pub fn star_unfolds<X: WordSet>()
    ensures { (w : List ℕ) →
        Star X.contains w ↔ ((w ≡ []) ⊎ Concatenation X.contains (Star X.contains) w) }
{}

/// Whether a term names neither path set, by its form.
pub fn fixed_terms_by_form()
    ensures { FixedForms }
{}

/// A term that names neither path set means the same whatever they are.
pub fn fixed_terms_mean_the_same<M: Reading>()
    ensures paths { (at other : M.setting.Name) → Alike (M.setting.of at) (M.setting.of other) →
        (x : PathTerm) → IsFixed x →
        (w : List ℕ) → In (M.setting.of at) x w ↔ In (M.setting.of other) x w }
    ensures relations { (at other : M.setting.Name) →
        Alike (M.setting.of at) (M.setting.of other) → (r : RelTerm) → IsFixedR r →
        (u v : List ℕ) → InR (M.setting.of at) r u v ↔ InR (M.setting.of other) r u v }
{}

/// The nodes and the depth of a path term, by its form and those of its parts.
#[tactic(auto, using(crate::proofs::SizeForms::size_forms))]
pub fn sizes_of_path_terms()
    ensures nodes_of_none { nodes_of_path PathTerm.None ≡ 1 }
    ensures depth_of_none { depth_of_path PathTerm.None ≡ 1 }
    ensures nodes_of_empty { nodes_of_path PathTerm.Empty ≡ 1 }
    ensures depth_of_empty { depth_of_path PathTerm.Empty ≡ 1 }
    ensures nodes_of_class { (k : ℕ) → nodes_of_path (PathTerm.Class k) ≡ 1 }
    ensures depth_of_class { (k : ℕ) → depth_of_path (PathTerm.Class k) ≡ 1 }
    ensures nodes_of_one { (s : ℕ) → nodes_of_path (PathTerm.One s) ≡ 1 }
    ensures depth_of_one { (s : ℕ) → depth_of_path (PathTerm.One s) ≡ 1 }
    ensures nodes_of_union { (x y : PathTerm) →
        nodes_of_path (PathTerm.Union x y) ≡ nodes_of_path x + nodes_of_path y + 1 }
    ensures depth_of_union { (x y : PathTerm) →
        depth_of_path (PathTerm.Union x y) ≡ max (depth_of_path x) (depth_of_path y) + 1 }
    ensures nodes_of_concat { (x y : PathTerm) →
        nodes_of_path (PathTerm.Concat x y) ≡ nodes_of_path x + nodes_of_path y + 1 }
    ensures depth_of_concat { (x y : PathTerm) →
        depth_of_path (PathTerm.Concat x y) ≡ max (depth_of_path x) (depth_of_path y) + 1 }
    ensures nodes_of_star { (x : PathTerm) → nodes_of_path (PathTerm.Star x) ≡ nodes_of_path x + 1 }
    ensures depth_of_star { (x : PathTerm) → depth_of_path (PathTerm.Star x) ≡ depth_of_path x + 1 }
    ensures nodes_of_meet { (x y : PathTerm) →
        nodes_of_path (PathTerm.Meet x y) ≡ nodes_of_path x + nodes_of_path y + 1 }
    ensures depth_of_meet { (x y : PathTerm) →
        depth_of_path (PathTerm.Meet x y) ≡ max (depth_of_path x) (depth_of_path y) + 1 }
    ensures nodes_of_complement { (x : PathTerm) →
        nodes_of_path (PathTerm.Complement x) ≡ nodes_of_path x + 1 }
    ensures depth_of_complement { (x : PathTerm) →
        depth_of_path (PathTerm.Complement x) ≡ depth_of_path x + 1 }
    ensures nodes_of_pre { nodes_of_path PathTerm.Pre ≡ 1 }
    ensures depth_of_pre { depth_of_path PathTerm.Pre ≡ 1 }
    ensures nodes_of_post { nodes_of_path PathTerm.Post ≡ 1 }
    ensures depth_of_post { depth_of_path PathTerm.Post ≡ 1 }
    ensures nodes_of_image { (x : PathTerm) (r : RelTerm) →
        nodes_of_path (PathTerm.Image x r) ≡ nodes_of_path x + nodes_of_rel r + 1 }
    ensures depth_of_image { (x : PathTerm) (r : RelTerm) →
        depth_of_path (PathTerm.Image x r) ≡ max (depth_of_path x) (depth_of_rel r) + 1 }
{}

/// The nodes and the depth of a relation term, by its form and those of its parts.
#[tactic(auto, using(crate::proofs::SizeForms::size_forms))]
pub fn sizes_of_rel_terms()
    ensures nodes_of_identity { (x : PathTerm) →
        nodes_of_rel (RelTerm.Identity x) ≡ nodes_of_path x + 1 }
    ensures depth_of_identity { (x : PathTerm) →
        depth_of_rel (RelTerm.Identity x) ≡ depth_of_path x + 1 }
    ensures nodes_of_product { (x y : PathTerm) →
        nodes_of_rel (RelTerm.Product x y) ≡ nodes_of_path x + nodes_of_path y + 1 }
    ensures depth_of_product { (x y : PathTerm) →
        depth_of_rel (RelTerm.Product x y) ≡ max (depth_of_path x) (depth_of_path y) + 1 }
    ensures nodes_of_union { (r s : RelTerm) →
        nodes_of_rel (RelTerm.Union r s) ≡ nodes_of_rel r + nodes_of_rel s + 1 }
    ensures depth_of_union { (r s : RelTerm) →
        depth_of_rel (RelTerm.Union r s) ≡ max (depth_of_rel r) (depth_of_rel s) + 1 }
    ensures nodes_of_concat { (r s : RelTerm) →
        nodes_of_rel (RelTerm.Concat r s) ≡ nodes_of_rel r + nodes_of_rel s + 1 }
    ensures depth_of_concat { (r s : RelTerm) →
        depth_of_rel (RelTerm.Concat r s) ≡ max (depth_of_rel r) (depth_of_rel s) + 1 }
    ensures nodes_of_star { (r : RelTerm) → nodes_of_rel (RelTerm.Star r) ≡ nodes_of_rel r + 1 }
    ensures depth_of_star { (r : RelTerm) → depth_of_rel (RelTerm.Star r) ≡ depth_of_rel r + 1 }
    ensures nodes_of_compose { (r s : RelTerm) →
        nodes_of_rel (RelTerm.Compose r s) ≡ nodes_of_rel r + nodes_of_rel s + 1 }
    ensures depth_of_compose { (r s : RelTerm) →
        depth_of_rel (RelTerm.Compose r s) ≡ max (depth_of_rel r) (depth_of_rel s) + 1 }
{}

/// A term has at least as many nodes as it is deep.
pub fn terms_are_no_deeper_than_large()
    ensures paths { (x : PathTerm) → depth_of_path x ≤ nodes_of_path x }
    ensures relations { (r : RelTerm) → depth_of_rel r ≤ nodes_of_rel r }
{}
