//! What the places of terms are good for. Each law is a function that does nothing, and its contract
//! is the law.
ghost use Rattle.std.specs.Prelude.{ℕ, Option, List};
ghost use Rattle.rela_rir.specs.Meaning.{In};
ghost use Rattle.rela_rir.specs.Places.{At};
ghost use Rattle.rela_rir.specs.Machines.{Scenes};
ghost use Rattle.rela_rir.specs.Following.{Follows, PathsFollow};
ghost use Rattle.rela_rir.specs.Limit.{Licensed, Forced};

use crate::term::PathTerm;

/// Which scenes a law speaks of, which only contracts name.
pub trait Staging {
    ghost scene: { Scenes };
}

/// Wherever a word of a path term is split, its front reaches a place at which each word that reaches
/// it may go on by the rest of that word, if this is so for the two path sets.
pub fn places_tell_what_follows<M: Staging>()
    ensures { (at : M.scene.Name) → PathsFollow (M.scene.of at) → (x : PathTerm) →
        Follows (In (M.scene.of at).setting x) (At (M.scene.of at) x) }
{}

/// Where an answer has to be left open it also may be, if the places of the two path sets tell what
/// follows.
pub fn forced_is_licensed<M: Staging>()
    ensures { (at : M.scene.Name) → PathsFollow (M.scene.of at) →
        (last : Option (List ℕ)) (before after : PathTerm) (limit : ℕ) →
        Forced (M.scene.of at) before after limit →
        Licensed (M.scene.of at) last before after limit }
{}
