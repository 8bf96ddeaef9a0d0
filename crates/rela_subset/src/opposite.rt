//! Complements.
ghost use Rattle.std.specs.Prelude.{◌≡◌, ℕ, ◌↔◌, IfOk, List, map, not};
ghost use Rattle.rela_subset.specs.Deterministic.{IsAccepted, IsOver, state_after};

use crate::dfa::Dfa;
use rela_labels::LabelSet;
use std::alloc::{AllocError, Global};

impl<L: LabelSet> Dfa<L> {
    /// The automaton with the same states and edges that accepts the words over the same letters
    /// which this one doesn't accept. Its edges are moved. Time and space: linear in the states.
    pub fn into_complement(self, alloc: Global) -> Result<Dfa<L>, AllocError>
        ensures over { IfOk result (λ other. other.over ≡ self.over) }
        ensures start { IfOk result (λ other. other.start ≡ self.start) }
        ensures edges { IfOk result (λ other. other.edges ≡ self.edges) }
        ensures finals { IfOk result (λ other. other.finals ≡ map not self.finals) }
        ensures states { IfOk result (λ other. (word : List ℕ) → state_after other word
            ≡ state_after self word) }
        ensures language { IfOk result (λ other. (word : List ℕ) → IsAccepted other word ↔
            (IsOver self.over word × ¬ IsAccepted self word)) }
    {
        let Dfa {
            over,
            start,
            finals,
            edges,
        } = self;
        let finals = others(alloc, &finals)?;
        Ok(Dfa::new(over, start, finals, edges))
    }
}

/// The opposite of each flag.
fn others(alloc: Global, flags: &[bool]) -> Result<Vec<bool>, AllocError>
    ensures { IfOk result (λ others. others.items ≡ map not flags.now) }
{
    flags.iter().map(|flag| !*flag).collect(alloc)
}
