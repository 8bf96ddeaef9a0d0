//! Complements that were made, kept for further parts that are the same automaton.
ghost use Rattle.std.specs.Prelude.{◌≡◌, ◌+◌, ◌↔◌, IfOk, IfSome, IsTrue};
ghost use Rattle.rela_build.specs.Complement.{IsComplement};
ghost use Rattle.rela_complement.specs.Telling.{TellsWords};

use crate::copied::copied;
use crate::same_automaton::{same_automaton, same_letters};
use rela_labels::{LabelSet, WideSet};
use rela_nfa::Nfa;
use std::alloc::{AllocError, Global};
use std::collections::HashMap;
use std::marker::Model;

/// How many states may be kept, of parts and of complements. Each takes some hundred bytes, so what
/// is kept takes some tens of megabytes at most.
const MOST_KEPT: usize = 262_144;

/// A complement that was made under a limit of states, beside its part. Contracts see it as a `Kept`.
#[derive(Drop)]
struct KeptComplement {
    /// The part.
    part: Nfa<WideSet>,
    /// The letters of the words of the complement.
    over: WideSet,
    /// The automaton of the words over these letters that the part doesn't accept.
    complement: Nfa<WideSet>,
    /// The limit: how many words, told apart by continuations, the part may have.
    limit: usize,
}

impl Model for KeptComplement {
    ghost use Rattle.rela_complement.specs.Kept.{Kept, IsKept};

    ghost Value = { Kept };

    ghost view = { λ kept. record {
      part = kept.part;
      over = kept.over;
      complement = kept.complement;
      limit = kept.limit;
    } };

    ghost invariant = { λ kept. IsKept (record {
      part = kept.part;
      over = kept.over;
      complement = kept.complement;
      limit = kept.limit;
    }) };
}

impl KeptComplement {
    /// The complement, its part and the letters, of which copies are kept. Time and space: linear in
    /// both automata. The only error is want of memory.
    fn new(
        alloc: Global,
        part: &Nfa<WideSet>,
        over: &WideSet,
        complement: &Nfa<WideSet>,
        limit: usize,
    ) -> Result<KeptComplement, AllocError>
        requires complement { IsComplement part.now over.now complement.now }
        requires within { ¬ TellsWords part.now over.now (limit + 1) }
        ensures { IfOk result (λ kept. kept ≡ record {
          part = part.now;
          over = over.now;
          complement = complement.now;
          limit = limit;
        }) }
    {
        let part = copied(alloc, part)?;
        let over = over.copy(alloc)?;
        let complement = copied(alloc, complement)?;
        Ok(KeptComplement {
            part,
            over,
            complement,
            limit,
        })
    }

    /// Whether its part is this automaton, and it is over these letters and was made under this limit.
    /// Time: linear in the part.
    fn is_of(&self, part: &Nfa<WideSet>, over: &WideSet, limit: usize) -> bool
        ensures same { IsTrue result ↔ (self.now ≡ record {
          part = part.now;
          over = over.now;
          complement = self.now.complement;
          limit = limit;
        }) }
        ensures complement { IsTrue result → IsComplement part.now over.now self.now.complement }
        ensures within { IsTrue result → ¬ TellsWords part.now over.now (limit + 1) }
    {
        self.limit == limit && same_letters(&self.over, over) && same_automaton(&self.part, part)
    }
}

/// Complements that were made, the last one of those whose parts and letters have one fingerprint.
#[derive(Drop)]
pub(crate) struct KeptComplements {
    /// Each by the fingerprint of its part and its letters.
    by_fingerprint: HashMap<u64, KeptComplement>,
    /// How many more states may be kept.
    room: usize,
}

impl KeptComplements {
    /// None yet.
    pub(crate) fn new(alloc: Global) -> KeptComplements {
        KeptComplements {
            by_fingerprint: HashMap::new(alloc),
            room: MOST_KEPT,
        }
    }

    /// A copy of the complement of the part over these letters, whose fingerprint this is, where it is
    /// kept and was made under this limit. Time: constant in expectation where none has that
    /// fingerprint, and else linear in the part and the complement. The only error is want of memory.
    pub(crate) fn copy_of(
        &self,
        alloc: Global,
        print: u64,
        part: &Nfa<WideSet>,
        over: &WideSet,
        limit: usize,
    ) -> Result<Option<Nfa<WideSet>>, AllocError>
        ensures complement { IfOk result (λ found. IfSome found
            (IsComplement part.now over.now)) }
        ensures within { IfOk result (λ found. IfSome found (λ _.
            ¬ TellsWords part.now over.now (limit + 1))) }
    {
        match self.by_fingerprint.get(&print) {
            Some(kept) if kept.is_of(part, over, limit) => {
                let copy = copied(alloc, &kept.complement)?;
                Ok(Some(copy))
            }
            _ => Ok(None),
        }
    }

    /// Keeps the complement of the part over these letters, whose fingerprint this is, made under this
    /// limit, where there is room for it. Time and space: linear in both automata. The only error is
    /// want of memory.
    pub(crate) fn keep(
        &mut self,
        alloc: Global,
        print: u64,
        part: &Nfa<WideSet>,
        over: &WideSet,
        complement: &Nfa<WideSet>,
        limit: usize,
    ) -> Result<(), AllocError>
        requires complement { IsComplement part.now over.now complement.now }
        requires within { ¬ TellsWords part.now over.now (limit + 1) }
    {
        let states = part.states().saturating_add(complement.states());
        if states <= self.room {
            let kept = KeptComplement::new(alloc, part, over, complement, limit)?;
            self.by_fingerprint.insert(print, kept)?;
            self.room -= states;
        }
        Ok(())
    }
}
