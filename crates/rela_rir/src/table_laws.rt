//! How the states of automata and transducers stand for places of terms. Each law is a function
//! that does nothing, and its contract is the law.
ghost use Rattle.std.specs.Prelude.{ℕ, ◌↔◌, List};
ghost use Rattle.rela_rir.specs.Places.{At, Agree};
ghost use Rattle.rela_rir.specs.Machines.{Machines};
ghost use Rattle.rela_rir.specs.ReachedTerms.{CarriedTables, ReachedTerms};
ghost use Rattle.rela_rir.specs.Tables.{IsPlaced, IsPlacedWhere};

use crate::term::PathTerm;

/// Which scenes, automata and transducers a law speaks of, which only contracts name.
pub trait Machinery {
    ghost machines: { Machines };
}

/// States stand for places of a term in both of two scenes that agree on what the term names, by the
/// same tables, or in neither; and so do states that are reached by the same words, or pairs of words.
pub fn tables_carry_over<M: Machinery>()
    ensures { CarriedTables M.machines }
{}

/// Where states stand for places of a term, the term has as many reached places as there are
/// reached states, and what is built of terms has as many as there are of what is built of states.
pub fn reached_states_are_places<M: Machinery>()
    ensures { (at : M.machines.scene.Name) → ReachedTerms M.machines at }
{}

/// Words that reach the same places reach the same states that stand for them, and the other way
/// round where the table is exact.
pub fn words_that_agree<M: Machinery>()
    ensures states { (at : M.machines.scene.Name) (x : PathTerm) (a : M.machines.Automaton) →
        IsPlaced (M.machines.scene.of at) x (M.machines.reach a) → (v w : List ℕ) →
        Agree (At (M.machines.scene.of at) x) v w →
        (q : ℕ) → M.machines.reach a q v ↔ M.machines.reach a q w }
    ensures places { M.machines.exactly →
        (at : M.machines.scene.Name) (x : PathTerm) (n : ℕ) (a : M.machines.Automaton) →
        IsPlacedWhere M.machines.exactly n (M.machines.scene.of at) x (M.machines.reach a) →
        (v w : List ℕ) → ((q : ℕ) → M.machines.reach a q v ↔ M.machines.reach a q w) →
        Agree (At (M.machines.scene.of at) x) v w }
{}
