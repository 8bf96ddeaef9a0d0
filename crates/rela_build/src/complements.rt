//! Ways to make complements, and what is noted of each.

ghost use Rattle.std.specs.Prelude.{◌≡◌, ℕ, Bool, List, IfOk, IfErr, length};
ghost use Rattle.rela_nfa.specs.Automaton.{Automaton};
ghost use Rattle.rela_build.specs.Complement.{IsComplement, TellsAll};

use rela_labels::WideSet;
use rela_nfa::{BuildError, Nfa};
use std::alloc::Global;

/// A complement that was made.
#[derive(Drop)]
pub struct Answer<N: Drop> {
    /// The automaton of the words that the part doesn't have.
    pub nfa: Nfa<WideSet>,
    /// What is noted of it.
    pub note: N,
}

/// A way to make complements.
pub trait Complements {
    /// What is noted of each complement.
    type Note: Drop;

    // words that lead to one state of a complement reach the same states of its part
    ghost tells_all: { Type 0 };

    // what a note says of the complement with a number, of an automaton over some letters
    ghost answers: { Self → ℕ → Automaton → List Bool → Self.Note → Type 0 };

    // what it means that the complement with a number is refused, of an automaton over some letters
    ghost refuses: { Self → ℕ → Automaton → List Bool → Type 0 };

    /// The words over these letters that the automaton doesn't accept. The complements of a term are
    /// numbered from 0, parts before wholes and left before right.
    ///
    /// # Errors
    ///
    /// - `Limit` where the complement is refused.
    /// - `Memory` where there isn't memory for it.
    fn complement(
        &self,
        alloc: Global,
        number: usize,
        a: &Nfa<WideSet>,
        over: &WideSet,
    ) -> Result<Answer<Self::Note>, BuildError>
        requires { length over.now ≡ a.now.letters }
        ensures complement { IfOk result (λ answer. IsComplement a.now over.now answer.nfa) }
        ensures told { IfOk result (λ answer. tells_all → TellsAll a.now answer.nfa) }
        ensures answered { IfOk result (λ answer.
            answers self.now number a.now over.now answer.note) }
        ensures refused { IfErr result (λ e. e ≡ BuildError.Limit →
            refuses self.now number a.now over.now) };
}
