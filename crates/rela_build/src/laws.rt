//! What terms name, and what is made of path sets and of images. Each law is a function that does
//! nothing, and its contract is the law.
ghost use Rattle.std.specs.Prelude.{ℕ, ◌+◌, List, length};
ghost use Rattle.rela_nfa.specs.Automaton.{Automaton};
ghost use Rattle.rela_pairs.specs.Reachable.{MoreThan};
ghost use Rattle.rela_pairs.specs.declared.pair.Pair.{Pair};
ghost use Rattle.rela_rir.specs.BuiltTerms.{Stand, StandR};
ghost use Rattle.rela_rir.specs.Limit.{Reached};
ghost use Rattle.rela_rir.specs.Places.{NoParts, PartsApart, PathSetPlaces};
ghost use Rattle.rela_rir.specs.ReachedTerms.{StandFor, StandForR};
ghost use Rattle.rela_rir.specs.Tables.{IsStateReached, ReachFromSource};
ghost use Rattle.rela_trans.specs.Images.{AreReachedFrom};
ghost use Rattle.rela_trans.specs.Machine.{Machine};
ghost use Rattle.rela_build.specs.Lettering.{IsAlone, Lettering};
ghost use Rattle.rela_build.specs.Made.{IsBuilt, IsMade};
ghost use Rattle.rela_build.specs.Named.{NamedForms};
ghost use Rattle.rela_build.specs.Numbered.{AreNumbered, two_of};
ghost use Rattle.rela_build.specs.PathSets.{PathFamily};

use rela_rir::{Machinery, PathTerm, RelTerm, built_terms_are_placed, reached_states_are_places};

/// Which path sets a law speaks of, which only contracts name.
pub trait NamedPaths {
    ghost paths: { PathFamily };
}

/// Whether each symbol that a term names by itself is a block of its own, by the term's form.
pub fn named_symbols_by_form()
    ensures { (blocks : List ℕ) → NamedForms (IsAlone blocks) }
{}

/// An automaton of a path set is that of the term of the path set.
pub fn path_sets_are_made<F: NamedPaths>()
    ensures before { (at : F.paths.Name) (l : Lettering) (a : Automaton) →
        IsBuilt (Unit {0}) l.blocks (F.paths.of at).pre
        (PathSetPlaces (F.paths.of at).at_pre) (PartsApart NoParts NoParts) a →
        IsMade (Unit {0}) l (F.paths.of at) PathTerm.Pre a }
    ensures after { (at : F.paths.Name) (l : Lettering) (a : Automaton) →
        IsBuilt (Unit {0}) l.blocks (F.paths.of at).post
        (PathSetPlaces (F.paths.of at).at_post) (PartsApart NoParts NoParts) a →
        IsMade (Unit {0}) l (F.paths.of at) PathTerm.Post a }
{}

/// The states of an image, which are numbered pairs of states of its parts, stand for the places of
/// its term. A construction of the image that passes a limit of pairs is one of a term with more
/// reached places.
pub fn images_are_placed<M: Machinery>()
    ensures placed { (at : M.machines.scene.Name) (x : PathTerm) (r : RelTerm) (n k : ℕ)
        (a : M.machines.Automaton) (t : M.machines.Transducer) (u : M.machines.Automaton)
        (pairs : List Pair) → Stand M.machines at x n a → StandR M.machines at r k t →
        AreNumbered pairs (ReachFromSource (M.machines.reach a) (M.machines.reach_pair t))
        (M.machines.reach u) →
        Stand M.machines at (PathTerm.Image x r) (length pairs) u }
    ensures passes { (at : M.machines.scene.Name) (x : PathTerm) (r : RelTerm)
        (a : M.machines.Automaton) (t : M.machines.Transducer)
        (words : Automaton) (relation : Machine) (limit : ℕ) →
        StandFor M.machines at x a → StandForR M.machines at r t →
        ((z : Pair) → AreReachedFrom words relation z → IsStateReached (M.machines.scene.of at)
        (ReachFromSource (M.machines.reach a) (M.machines.reach_pair t)) (two_of z)) →
        MoreThan limit (AreReachedFrom words relation) →
        Reached (M.machines.scene.of at) (PathTerm.Image x r) (limit + 1) }
{
    built_terms_are_placed::<M>();
    reached_states_are_places::<M>();
}
