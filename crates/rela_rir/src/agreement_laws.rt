//! What carries over between two scenes that agree on what a term names. Each law is a function
//! that does nothing, and its contract is the law.
ghost use Rattle.std.specs.Prelude.{ℕ, ◌↔◌, Option, List};
ghost use Rattle.rela_rir.specs.Meaning.{In, InR};
ghost use Rattle.rela_rir.specs.Places.{Place, At, AtR, Apart, ApartR};
ghost use Rattle.rela_rir.specs.Agreement.{AgreeOn, AgreeOnR};
ghost use Rattle.rela_rir.specs.Limit.{ReachedInside, ReachedInsideR, ForcedInside, ForcedInsideR, Licensed, Forced};

use crate::limit_laws::Staging;
use crate::term::{PathTerm, RelTerm};

/// A term has the same words in two scenes that agree on what it names, its places are reached by
/// the same words, and the same places are apart.
pub fn scenes_alike<M: Staging>()
    ensures words { (at other : M.scene.Name) (x : PathTerm) →
        AgreeOn (M.scene.of at) (M.scene.of other) x →
        (w : List ℕ) → In (M.scene.of at).setting x w ↔ In (M.scene.of other).setting x w }
    ensures places { (at other : M.scene.Name) (x : PathTerm) →
        AgreeOn (M.scene.of at) (M.scene.of other) x →
        (p : Place) (w : List ℕ) → At (M.scene.of at) x p w ↔ At (M.scene.of other) x p w }
    ensures apart { (at other : M.scene.Name) (x : PathTerm) →
        AgreeOn (M.scene.of at) (M.scene.of other) x →
        (p q : Place) → Apart (M.scene.of at) x p q ↔ Apart (M.scene.of other) x p q }
    ensures pairs { (at other : M.scene.Name) (r : RelTerm) →
        AgreeOnR (M.scene.of at) (M.scene.of other) r →
        (u v : List ℕ) → InR (M.scene.of at).setting r u v ↔ InR (M.scene.of other).setting r u v }
    ensures pair_places { (at other : M.scene.Name) (r : RelTerm) →
        AgreeOnR (M.scene.of at) (M.scene.of other) r →
        (p : Place) (u v : List ℕ) → AtR (M.scene.of at) r p u v ↔ AtR (M.scene.of other) r p u v }
    ensures pair_apart { (at other : M.scene.Name) (r : RelTerm) →
        AgreeOnR (M.scene.of at) (M.scene.of other) r →
        (p q : Place) → ApartR (M.scene.of at) r p q ↔ ApartR (M.scene.of other) r p q }
{}

/// What licenses an open answer in one scene, or forces it, does so in each scene that agrees with
/// it on what the terms name.
pub fn licences_carry_over<M: Staging>()
    ensures reached { (at other : M.scene.Name) (x : PathTerm) →
        AgreeOn (M.scene.of at) (M.scene.of other) x →
        (k : ℕ) → ReachedInside (M.scene.of at) k x ↔ ReachedInside (M.scene.of other) k x }
    ensures reached_pairs { (at other : M.scene.Name) (r : RelTerm) →
        AgreeOnR (M.scene.of at) (M.scene.of other) r →
        (k : ℕ) → ReachedInsideR (M.scene.of at) k r ↔ ReachedInsideR (M.scene.of other) k r }
    ensures forced_inside { (at other : M.scene.Name) (x : PathTerm) →
        AgreeOn (M.scene.of at) (M.scene.of other) x →
        (k : ℕ) → ForcedInside (M.scene.of at) k x ↔ ForcedInside (M.scene.of other) k x }
    ensures forced_pairs { (at other : M.scene.Name) (r : RelTerm) →
        AgreeOnR (M.scene.of at) (M.scene.of other) r →
        (k : ℕ) → ForcedInsideR (M.scene.of at) k r ↔ ForcedInsideR (M.scene.of other) k r }
    ensures licensed { (at other : M.scene.Name) (before after : PathTerm) →
        AgreeOn (M.scene.of at) (M.scene.of other) before →
        AgreeOn (M.scene.of at) (M.scene.of other) after →
        (last : Option (List ℕ)) (limit : ℕ) →
        Licensed (M.scene.of at) last before after limit
        ↔ Licensed (M.scene.of other) last before after limit }
    ensures forced { (at other : M.scene.Name) (before after : PathTerm) →
        AgreeOn (M.scene.of at) (M.scene.of other) before →
        AgreeOn (M.scene.of at) (M.scene.of other) after → (limit : ℕ) →
        Forced (M.scene.of at) before after limit ↔ Forced (M.scene.of other) before after limit }
{}
