//! The pairs of words that one transducer relates and another may not.
ghost use Rattle.std.specs.Prelude.{◌≡◌, ℕ, ◌<◌, ◌≤◌, ◌^◌, ◌⊎◌, List, IsTrue, IfOk};
ghost use Rattle.std.specs.List.{All};
ghost use Rattle.rela_nfa.specs.Runs.{Accepts};
ghost use Rattle.rela_trans.specs.Runs.{Relates};
ghost use Rattle.rela_restriction.specs.Automata.{act_automaton, act_count};
ghost use Rattle.rela_restriction.specs.Excess.{Covers, IsInExcess, IsReadAs};

use crate::acting::act_automaton;
use crate::acts::acts_on;
use crate::emptiness::accepts_none;
use crate::letters::letters_between;
use rela_labels::LabelSet;
use rela_minimise::merge_equivalent;
use rela_nfa::{BuildError, Nfa};
use rela_subset::determinise;
use rela_trans::Transducer;
use std::alloc::{AllocError, Global};
use std::marker::Model;

/// The pairs of words that one transducer relates and another may not, as an automaton of what the
/// first does for them. Contracts see it as an `Excess`, the number of letters and that automaton.
#[derive(Drop)]
pub struct Excess<L: LabelSet> {
    /// The number of letters of the transducers.
    letters: u32,
    /// The automaton, whose letters are acts: a letter is read, or written, or both.
    acts: Nfa<L>,
}

impl<L: LabelSet> Model for Excess<L> {
    ghost use Rattle.std.specs.Prelude.{◌≡◌, ◌<◌, ◌^◌};
    ghost use Rattle.rela_restriction.specs.Automata.{act_count};
    ghost use Rattle.rela_restriction.specs.Excess as kept;

    ghost Value = { kept.Excess };

    ghost view = { λ x. record { letters = x.letters; acts = x.acts } };

    ghost invariant = { λ x. L.fits (act_count x.letters) × (act_count x.letters < 2 ^ 32)
        × (x.acts.letters ≡ act_count x.letters) };
}

impl<L: LabelSet> Excess<L> {
    /// The pairs that the first transducer relates and the second may not: those for which the
    /// first does what the second can't do. A pair that both relate by different acts, such as one
    /// letter read before another is written or behind it, may be among them. Time and space: those
    /// of the subset construction for the acts of the second, of the product with the acts of the
    /// first, and of making that minimal.
    ///
    /// # Errors
    ///
    /// - `Limit` where one of these has more than `limit` states.
    /// - `Memory` where there isn't memory for them.
    pub fn of(
        alloc: Global,
        first: &Transducer<L>,
        second: &Transducer<L>,
        limit: usize,
    ) -> Result<Excess<L>, BuildError>
        requires letters { first.now.letters ≡ second.now.letters }
        requires fits { L.fits (act_count first.now.letters) }
        requires few { act_count first.now.letters < 2 ^ 32 }
        requires limit { 1 ≤ limit }
        ensures letters { IfOk result (λ x. x.letters ≡ first.now.letters) }
        ensures covers { IfOk result (λ x. (read : ℕ → ℕ) →
            Covers read (Relates read first.now) (Relates read second.now) x) }
    {
        prove!(first.start() < first.states());
        prove!(second.start() < second.states());
        let letters = first.letters();
        let beyond = acts_beyond(alloc, first, second, limit)?;
        let acts = minimal(alloc, &beyond, limit)?;
        Ok(Excess { letters, acts })
    }

    /// The number of letters of the transducers.
    pub fn letters(&self) -> u32
        ensures { result ≡ self.now.letters }
    {
        self.letters
    }

    /// Whether no pair is among these whose first word has letters of `inputs` alone. Where it is so,
    /// the second transducer relates each such pair that the first does. Where it isn't, nothing is
    /// told: both may relate such a pair by other acts. Time: linear in the number of letters, the
    /// inputs and the states, with a set operation for each edge out of the states that acts on these
    /// lead to.
    pub fn is_empty_on(&self, alloc: Global, inputs: &[u32]) -> Result<bool, AllocError>
        requires { All (λ k. k < self.now.letters) inputs.now }
        ensures { IfOk result (λ empty. IsTrue empty → (read : ℕ → ℕ) (u v : List ℕ) →
            IsReadAs read inputs.now u → ¬ IsInExcess read self.now u v) }
    {
        let over: L = acts_on(alloc, self.letters, inputs)?;
        accepts_none(alloc, &self.acts, &over)
    }
}

/// The automaton of the words of acts that the first transducer can do for a pair that it relates, and
/// the second can't. `Limit` where it, or that of what the second can't do, has more than `limit` states.
fn acts_beyond<L: LabelSet>(
    alloc: Global,
    first: &Transducer<L>,
    second: &Transducer<L>,
    limit: usize,
) -> Result<Nfa<L>, BuildError>
    requires letters { first.now.letters ≡ second.now.letters }
    requires fits { L.fits (act_count first.now.letters) }
    requires few { act_count first.now.letters < 2 ^ 32 }
    requires limit { 1 ≤ limit }
    ensures letters { IfOk result (λ nfa. nfa.letters ≡ act_count first.now.letters) }
    ensures beyond { IfOk result (λ nfa. (w : List ℕ) →
        All (λ k. k < act_count second.now.letters) w → Accepts (act_automaton first.now) w
        → Accepts (act_automaton second.now) w ⊎ Accepts nfa w) }
{
    let acts = act_automaton(alloc, first)?;
    let others = other_acts(alloc, second, limit)?;
    acts.meet(alloc, &others, limit)
}

/// The automaton of the words of acts that the transducer can't do for any pair that it relates.
/// `Limit` where it has more than `limit` states.
fn other_acts<L: LabelSet>(
    alloc: Global,
    transducer: &Transducer<L>,
    limit: usize,
) -> Result<Nfa<L>, BuildError>
    requires fits { L.fits (act_count transducer.now.letters) }
    requires few { act_count transducer.now.letters < 2 ^ 32 }
    requires limit { 1 ≤ limit }
    ensures letters { IfOk result (λ nfa. nfa.letters ≡ act_count transducer.now.letters) }
    ensures others { IfOk result (λ nfa. (w : List ℕ) →
        All (λ k. k < act_count transducer.now.letters) w
        → Accepts (act_automaton transducer.now) w ⊎ Accepts nfa w) }
{
    let acts = act_automaton(alloc, transducer)?;
    let size = acts.letters();
    let over: L = letters_between(alloc, size, 0, size)?;
    let dfa = determinise(alloc, &acts, &over, limit)?;
    let others = dfa.into_complement(alloc)?;
    let nfa = others.into_nfa(alloc)?;
    Ok(nfa)
}

/// The minimal automaton of the same words. `Limit` where the subset construction has more than
/// `limit` states.
fn minimal<L: LabelSet>(alloc: Global, nfa: &Nfa<L>, limit: usize) -> Result<Nfa<L>, BuildError>
    requires limit { 1 ≤ limit }
    ensures letters { IfOk result (λ made. made.letters ≡ nfa.now.letters) }
    ensures language { IfOk result (λ made. (w : List ℕ) → All (λ k. k < nfa.now.letters) w →
        Accepts nfa.now w → Accepts made w) }
{
    let size = nfa.letters();
    let over: L = letters_between(alloc, size, 0, size)?;
    let dfa = determinise(alloc, nfa, &over, limit)?;
    let least = merge_equivalent(alloc, &dfa)?;
    let made = least.into_nfa(alloc)?;
    Ok(made)
}
