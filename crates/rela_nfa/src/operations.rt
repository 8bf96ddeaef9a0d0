//! Unions, concatenations and iterations, after K. Thompson.
ghost use Rattle.std.specs.Prelude.{◌≡◌, ℕ, ◌+◌, ◌^◌, ◌<◌, ◌↔◌, ◌⊎◌, List, [], IfOk};
ghost use Rattle.rela_nfa.specs.Automaton.{states};
ghost use Rattle.rela_nfa.specs.Construction.{united};
ghost use Rattle.rela_nfa.specs.Languages.{Joins, Repeats};
ghost use Rattle.rela_nfa.specs.Runs.{Reach, Accepts};

use crate::copying::entry_edges;
use crate::edge_lists::EdgeLists;
use crate::nfa::Nfa;
use rela_labels::LabelSet;
use std::alloc::{AllocError, Global};

impl<L: LabelSet> Nfa<L> {
    /// The words of one language or the other. State 0 is a start of its own; the states of `self`
    /// come after it, and then those of `other`. As for [`concat`](Nfa::concat) and
    /// [`star`](Nfa::star), silent edges join the parts (K. Thompson, *Regular expression search
    /// algorithm*, 1968). Time and space: linear in the states and the edges of both, whose labels
    /// are copied.
    pub fn union(&self, alloc: Global, other: &Nfa<L>) -> Result<Nfa<L>, AllocError>
        requires letters { self.now.letters ≡ other.now.letters }
        ensures letters { IfOk result (λ nfa. nfa.letters ≡ self.now.letters) }
        ensures states { IfOk result (λ nfa. states nfa ≡ 1 + states self.now + states other.now) }
        ensures start { IfOk result (λ nfa. (w : List ℕ) → Reach nfa 0 w ↔ (w ≡ [])) }
        ensures first { IfOk result (λ nfa. (q : ℕ) (w : List ℕ) → q < states self.now →
            Reach nfa (1 + q) w ↔ Reach self.now q w) }
        ensures second { IfOk result (λ nfa. (q : ℕ) (w : List ℕ) →
            Reach nfa (1 + states self.now + q) w ↔ Reach other.now q w) }
        ensures language { IfOk result (λ nfa. (w : List ℕ) → Accepts nfa w ↔
            (Accepts self.now w ⊎ Accepts other.now w)) }
    {
        let mut finals = Vec::new(alloc);
        finals.push(false)?;
        finals.extend_from_slice(&self.finals)?;
        finals.extend_from_slice(&other.finals)?;
        let edges = self.united_edges(alloc, other)?;
        Ok(Nfa {
            letters: self.letters,
            start: 0,
            finals,
            edges,
        })
    }

    /// The edges of the union: those to the two starts, then those of `self`, and then those of `other`.
    fn united_edges(&self, alloc: Global, other: &Nfa<L>) -> Result<EdgeLists<L>, AllocError>
        requires room { 1 + states self.now + states other.now < 2 ^ 63 }
        ensures { IfOk result (λ edges. edges ≡ united self.now other.now) }
    {
        let count = self.states();
        let mut edges = entry_edges(alloc, &[1 + self.start(), 1 + count + other.start()])?;
        self.copy_onto(alloc, &mut edges, 1, None)?;
        other.copy_onto(alloc, &mut edges, 1 + count, None)?;
        Ok(edges)
    }

    /// A word of `self` followed by one of `other`. The states of `self` come first, and then those
    /// of `other`. Time and space: linear in the states and the edges of both, whose labels are
    /// copied.
    pub fn concat(&self, alloc: Global, other: &Nfa<L>) -> Result<Nfa<L>, AllocError>
        requires letters { self.now.letters ≡ other.now.letters }
        ensures letters { IfOk result (λ nfa. nfa.letters ≡ self.now.letters) }
        ensures states { IfOk result (λ nfa. states nfa ≡ states self.now + states other.now) }
        ensures first { IfOk result (λ nfa. (q : ℕ) (w : List ℕ) → q < states self.now →
            Reach nfa q w ↔ Reach self.now q w) }
        ensures second { IfOk result (λ nfa. (q : ℕ) (w : List ℕ) →
            Reach nfa (states self.now + q) w ↔ Joins (Accepts self.now) (Reach other.now q) w) }
        ensures language { IfOk result (λ nfa. (w : List ℕ) → Accepts nfa w ↔
            Joins (Accepts self.now) (Accepts other.now) w) }
    {
        let count = self.states();
        let mut finals = vec![in alloc; false; count]?;
        finals.extend_from_slice(&other.finals)?;
        let mut edges = EdgeLists::with_capacity(alloc, finals.len(), 0)?;
        self.copy_onto(alloc, &mut edges, 0, Some(count + other.start()))?;
        other.copy_onto(alloc, &mut edges, count, None)?;
        Ok(Nfa {
            letters: self.letters,
            start: self.start(),
            finals,
            edges,
        })
    }

    /// Any number of words of `self`, one after the other (the Kleene star). State 0 is a start of
    /// its own, to which no edge leads; the states of `self` come after it. Time and space: linear
    /// in the states and the edges, whose labels are copied.
    pub fn star(&self, alloc: Global) -> Result<Nfa<L>, AllocError>
        ensures letters { IfOk result (λ nfa. nfa.letters ≡ self.now.letters) }
        ensures states { IfOk result (λ nfa. states nfa ≡ 1 + states self.now) }
        ensures start { IfOk result (λ nfa. (w : List ℕ) → Reach nfa 0 w ↔ (w ≡ [])) }
        ensures copies { IfOk result (λ nfa. (q : ℕ) (w : List ℕ) → Reach nfa (1 + q) w ↔
            Joins (Repeats (Accepts self.now)) (Reach self.now q) w) }
        ensures language { IfOk result (λ nfa. (w : List ℕ) → Accepts nfa w ↔
            Repeats (Accepts self.now) w) }
    {
        let mut finals = Vec::new(alloc);
        finals.push(true)?;
        finals.extend_from_slice(&self.finals)?;
        let entry = 1 + self.start();
        let mut edges = entry_edges(alloc, &[entry])?;
        self.copy_onto(alloc, &mut edges, 1, Some(entry))?;
        Ok(Nfa {
            letters: self.letters,
            start: 0,
            finals,
            edges,
        })
    }
}
