//! The places of a term and which of them are apart, by its form. Each law is a function that does
//! nothing, and its contract is the law.
ghost use Rattle.std.specs.Prelude.{◌≡◌, ℕ, ◌↔◌, List};
ghost use Rattle.rela_rir.specs.Meaning.{In, InR, IsInClass};
ghost use Rattle.rela_rir.specs.Places.{Place, At, AtR, Apart, ApartR, EmptyPlaces, LetterPlaces, UnionPlaces, ConcatPlaces, StarPlaces, MeetPlaces, ComplementPlaces, PathSetPlaces, ImagePlaces, IdentityPlaces, ProductPlaces, PairUnionPlaces, PairConcatPlaces, PairStarPlaces, ComposePlaces, PartsApart, SeenApart, NoParts};

use crate::limit_laws::Staging;
use crate::term::{PathTerm, RelTerm};

/// The words that reach the places of a path term, by its form and those of its parts.
pub fn places_of_path_terms<M: Staging>()
    ensures none { (at : M.scene.Name) (p : Place) (w : List ℕ) →
        At (M.scene.of at) PathTerm.None p w ↔ EmptyPlaces p w }
    ensures empty { (at : M.scene.Name) (p : Place) (w : List ℕ) →
        At (M.scene.of at) PathTerm.Empty p w ↔ EmptyPlaces p w }
    ensures class { (at : M.scene.Name) (entry : ℕ) (p : Place) (w : List ℕ) →
        At (M.scene.of at) (PathTerm.Class entry) p w
        ↔ LetterPlaces (IsInClass (M.scene.of at).setting entry) p w }
    ensures one { (at : M.scene.Name) (s : ℕ) (p : Place) (w : List ℕ) →
        At (M.scene.of at) (PathTerm.One s) p w ↔ LetterPlaces (λ t. t ≡ s) p w }
    ensures union { (at : M.scene.Name) (x y : PathTerm) (p : Place) (w : List ℕ) →
        At (M.scene.of at) (PathTerm.Union x y) p w
        ↔ UnionPlaces (At (M.scene.of at) x) (At (M.scene.of at) y) p w }
    ensures concat { (at : M.scene.Name) (x y : PathTerm) (p : Place) (w : List ℕ) →
        At (M.scene.of at) (PathTerm.Concat x y) p w
        ↔ ConcatPlaces (In (M.scene.of at).setting x)
        (At (M.scene.of at) x) (At (M.scene.of at) y) p w }
    ensures star { (at : M.scene.Name) (x : PathTerm) (p : Place) (w : List ℕ) →
        At (M.scene.of at) (PathTerm.Star x) p w
        ↔ StarPlaces (In (M.scene.of at).setting x) (At (M.scene.of at) x) p w }
    ensures meet { (at : M.scene.Name) (x y : PathTerm) (p : Place) (w : List ℕ) →
        At (M.scene.of at) (PathTerm.Meet x y) p w
        ↔ MeetPlaces (At (M.scene.of at) x) (At (M.scene.of at) y) p w }
    ensures complement { (at : M.scene.Name) (x : PathTerm) (p : Place) (w : List ℕ) →
        At (M.scene.of at) (PathTerm.Complement x) p w
        ↔ ComplementPlaces (M.scene.of at).setting.path_symbols (At (M.scene.of at) x) p w }
    ensures before { (at : M.scene.Name) (p : Place) (w : List ℕ) →
        At (M.scene.of at) PathTerm.Pre p w ↔ PathSetPlaces (M.scene.of at).pre p w }
    ensures after { (at : M.scene.Name) (p : Place) (w : List ℕ) →
        At (M.scene.of at) PathTerm.Post p w ↔ PathSetPlaces (M.scene.of at).post p w }
    ensures image { (at : M.scene.Name) (x : PathTerm) (r : RelTerm) (p : Place) (w : List ℕ) →
        At (M.scene.of at) (PathTerm.Image x r) p w
        ↔ ImagePlaces (At (M.scene.of at) x) (AtR (M.scene.of at) r) p w }
{}

/// The pairs of words that reach the places of a relation term, by its form and those of its
/// parts.
pub fn places_of_rel_terms<M: Staging>()
    ensures identity { (at : M.scene.Name) (x : PathTerm) (p : Place) (u v : List ℕ) →
        AtR (M.scene.of at) (RelTerm.Identity x) p u v
        ↔ IdentityPlaces (At (M.scene.of at) x) p u v }
    ensures product { (at : M.scene.Name) (x y : PathTerm) (p : Place) (u v : List ℕ) →
        AtR (M.scene.of at) (RelTerm.Product x y) p u v
        ↔ ProductPlaces (In (M.scene.of at).setting x)
        (At (M.scene.of at) x) (At (M.scene.of at) y) p u v }
    ensures union { (at : M.scene.Name) (r s : RelTerm) (p : Place) (u v : List ℕ) →
        AtR (M.scene.of at) (RelTerm.Union r s) p u v
        ↔ PairUnionPlaces (AtR (M.scene.of at) r) (AtR (M.scene.of at) s) p u v }
    ensures concat { (at : M.scene.Name) (r s : RelTerm) (p : Place) (u v : List ℕ) →
        AtR (M.scene.of at) (RelTerm.Concat r s) p u v
        ↔ PairConcatPlaces (InR (M.scene.of at).setting r)
        (AtR (M.scene.of at) r) (AtR (M.scene.of at) s) p u v }
    ensures star { (at : M.scene.Name) (r : RelTerm) (p : Place) (u v : List ℕ) →
        AtR (M.scene.of at) (RelTerm.Star r) p u v
        ↔ PairStarPlaces (InR (M.scene.of at).setting r) (AtR (M.scene.of at) r) p u v }
    ensures compose { (at : M.scene.Name) (r s : RelTerm) (p : Place) (u v : List ℕ) →
        AtR (M.scene.of at) (RelTerm.Compose r s) p u v
        ↔ ComposePlaces (AtR (M.scene.of at) r) (AtR (M.scene.of at) s) p u v }
{}

/// Which places of a path term are apart, by its form and what is in its parts.
pub fn places_apart_in_path_terms<M: Staging>()
    ensures none { (at : M.scene.Name) (p q : Place) →
        Apart (M.scene.of at) PathTerm.None p q ↔ PartsApart NoParts NoParts p q }
    ensures empty { (at : M.scene.Name) (p q : Place) →
        Apart (M.scene.of at) PathTerm.Empty p q ↔ PartsApart NoParts NoParts p q }
    ensures class { (at : M.scene.Name) (entry : ℕ) (p q : Place) →
        Apart (M.scene.of at) (PathTerm.Class entry) p q ↔ PartsApart NoParts NoParts p q }
    ensures one { (at : M.scene.Name) (s : ℕ) (p q : Place) →
        Apart (M.scene.of at) (PathTerm.One s) p q ↔ PartsApart NoParts NoParts p q }
    ensures union { (at : M.scene.Name) (x y : PathTerm) (p q : Place) →
        Apart (M.scene.of at) (PathTerm.Union x y) p q
        ↔ PartsApart (Apart (M.scene.of at) x) (Apart (M.scene.of at) y) p q }
    ensures concat { (at : M.scene.Name) (x y : PathTerm) (p q : Place) →
        Apart (M.scene.of at) (PathTerm.Concat x y) p q
        ↔ PartsApart (Apart (M.scene.of at) x) (Apart (M.scene.of at) y) p q }
    ensures star { (at : M.scene.Name) (x : PathTerm) (p q : Place) →
        Apart (M.scene.of at) (PathTerm.Star x) p q
        ↔ PartsApart (Apart (M.scene.of at) x) NoParts p q }
    ensures meet { (at : M.scene.Name) (x y : PathTerm) (p q : Place) →
        Apart (M.scene.of at) (PathTerm.Meet x y) p q
        ↔ PartsApart (Apart (M.scene.of at) x) (Apart (M.scene.of at) y) p q }
    ensures complement { (at : M.scene.Name) (x : PathTerm) (p q : Place) →
        Apart (M.scene.of at) (PathTerm.Complement x) p q ↔ SeenApart (At (M.scene.of at) x) p q }
    ensures before { (at : M.scene.Name) (p q : Place) →
        Apart (M.scene.of at) PathTerm.Pre p q ↔ PartsApart NoParts NoParts p q }
    ensures after { (at : M.scene.Name) (p q : Place) →
        Apart (M.scene.of at) PathTerm.Post p q ↔ PartsApart NoParts NoParts p q }
    ensures image { (at : M.scene.Name) (x : PathTerm) (r : RelTerm) (p q : Place) →
        Apart (M.scene.of at) (PathTerm.Image x r) p q
        ↔ PartsApart (Apart (M.scene.of at) x) (ApartR (M.scene.of at) r) p q }
{}

/// Which places of a relation term are apart, by its form and what is in its parts.
pub fn places_apart_in_rel_terms<M: Staging>()
    ensures identity { (at : M.scene.Name) (x : PathTerm) (p q : Place) →
        ApartR (M.scene.of at) (RelTerm.Identity x) p q ↔ Apart (M.scene.of at) x p q }
    ensures product { (at : M.scene.Name) (x y : PathTerm) (p q : Place) →
        ApartR (M.scene.of at) (RelTerm.Product x y) p q
        ↔ PartsApart (Apart (M.scene.of at) x) (Apart (M.scene.of at) y) p q }
    ensures union { (at : M.scene.Name) (r s : RelTerm) (p q : Place) →
        ApartR (M.scene.of at) (RelTerm.Union r s) p q
        ↔ PartsApart (ApartR (M.scene.of at) r) (ApartR (M.scene.of at) s) p q }
    ensures concat { (at : M.scene.Name) (r s : RelTerm) (p q : Place) →
        ApartR (M.scene.of at) (RelTerm.Concat r s) p q
        ↔ PartsApart (ApartR (M.scene.of at) r) (ApartR (M.scene.of at) s) p q }
    ensures star { (at : M.scene.Name) (r : RelTerm) (p q : Place) →
        ApartR (M.scene.of at) (RelTerm.Star r) p q
        ↔ PartsApart (ApartR (M.scene.of at) r) NoParts p q }
    ensures compose { (at : M.scene.Name) (r s : RelTerm) (p q : Place) →
        ApartR (M.scene.of at) (RelTerm.Compose r s) p q
        ↔ PartsApart (ApartR (M.scene.of at) r) (ApartR (M.scene.of at) s) p q }
{}
