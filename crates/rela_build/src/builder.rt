//! The automaton of a path term and the transducer of a relation term. Only complements are
//! determinised. The functions go as deep into the stack as the terms.
ghost use Rattle.std.specs.Prelude.{◌≡◌, ◌≤◌, IfOk, IfErr, OnOk, length};
ghost use Rattle.rela_labels.specs.Partition.{block_count};
ghost use Rattle.rela_build.specs.Combined.{FromOne};
ghost use Rattle.rela_build.specs.Lettering.{IsAlone, IsInEntry};
ghost use Rattle.rela_build.specs.Made.{IsLetterAutomaton, IsMade, IsMadeR};
ghost use Rattle.rela_build.specs.Named.{Names, NamesR};
ghost use Rattle.rela_build.specs.Notes.{Explains, Noted, NotedR, NotedTwo, NotedTwoR, NotesOne, RefusesOne, Stopped, StoppedR, StoppedTwo, StoppedTwoR};
ghost use Rattle.rela_rir.specs.declared.term.PathTerm.TheVariants as sets;

use crate::combined::{TermMachines, Two};
use crate::complements::Complements;
use crate::letters::Letters;
use crate::path_sets::PathSets;
use crate::stop::{Stop, refusal_of};
use crate::well_formed::as_automaton;
use rela_labels::WideSet;
use rela_names::Symbol;
use rela_nfa::Nfa;
use rela_rir::{PathTerm, RelTerm, built_terms_are_placed};
use rela_trans::Transducer;
use std::alloc::{AllocError, Global};

/// What terms are built with: letters, path sets, a way to make complements, and a limit.
#[derive(Drop)]
pub struct Builder<'a, C: Complements, P: PathSets> {
    /// The letters of all that is built.
    pub letters: &'a Letters<'a>,
    /// The two path sets.
    pub paths: &'a P,
    /// How complements are made.
    pub complements: &'a C,
    /// How many states a meet, an image or a composition may have.
    pub limit: usize,
}

impl<'a, C: Complements, P: PathSets> Builder<'a, C, P> {
    /// The automaton of the term. A note of each of its complements is pushed to `notes`.
    ///
    /// Time and space: each meet, image and composition makes at most `limit` states, a complement
    /// takes what `complements` does, and the other forms take time linear in the machines of their
    /// parts.
    ///
    /// # Errors
    ///
    /// - `Limit` only where some meet, complement, image or composition in the term has more places than
    ///   the limit.
    /// - `Refused` where a complement was refused.
    /// - `Memory` where there isn't memory.
    #[cycle(terms)]
    pub fn automaton(
        &self,
        alloc: Global,
        term: &PathTerm,
        notes: &mut Vec<C::Note>,
    ) -> Result<Nfa<WideSet>, Stop>
        requires limit { 1 ≤ self.now.limit }
        requires alone { Names (IsAlone self.now.letters.now.blocks) term.now }
        requires paths { P.readable self.now.paths.now self.now.letters.now.blocks }
        ensures made { IfOk result (IsMade C.tells_all self.now.letters.now
            (P.paths self.now.paths.now) term.now) }
        ensures noted { OnOk result (Noted (C.answers self.now.complements.now) C.tells_all
            self.now.letters.now (P.paths self.now.paths.now) term.now notes.old.items
            notes.new.items) }
        ensures stopped { IfErr result (Stopped (C.refuses self.now.complements.now) C.tells_all
            self.now.letters.now (P.paths self.now.paths.now) self.now.limit
            (length notes.old.items) term.now) }
    {
        match term {
            PathTerm::None => Ok(self.none(alloc)?),
            PathTerm::Empty => Ok(self.empty(alloc)?),
            PathTerm::Class(entry) => Ok(class_automaton(alloc, *entry, self.letters)?),
            PathTerm::One(symbol) => Ok(symbol_automaton(alloc, *symbol, self.letters)?),
            PathTerm::Union(a, b) => {
                let parts = self.two(alloc, a.get(), b.get(), notes)?;
                Ok(self.union(alloc, parts)?)
            }
            PathTerm::Concat(a, b) => {
                let parts = self.two(alloc, a.get(), b.get(), notes)?;
                Ok(self.concat(alloc, parts)?)
            }
            PathTerm::Star(part) => {
                let words = self.automaton(alloc, part.get(), notes)?;
                Ok(self.star(alloc, words)?)
            }
            PathTerm::Meet(a, b) => {
                let parts = self.two(alloc, a.get(), b.get(), notes)?;
                Ok(self.meet(alloc, parts)?)
            }
            PathTerm::Complement(part) => {
                let words = self.automaton(alloc, part.get(), notes)?;
                self.complement(alloc, &words, notes)
            }
            PathTerm::Pre => Ok(self.paths.before(alloc, self.letters.partition())?),
            PathTerm::Post => Ok(self.paths.after(alloc, self.letters.partition())?),
            PathTerm::Image(set, relation) => {
                let words = self.automaton(alloc, set.get(), notes)?;
                let pairs = self.transducer(alloc, relation.get(), notes)?;
                Ok(self.image(alloc, words, pairs)?)
            }
        }
    }

    /// The transducer of the term. Notes, errors and the cost are those of [`Builder::automaton`].
    #[cycle(terms)]
    pub fn transducer(
        &self,
        alloc: Global,
        term: &RelTerm,
        notes: &mut Vec<C::Note>,
    ) -> Result<Transducer<WideSet>, Stop>
        requires limit { 1 ≤ self.now.limit }
        requires alone { NamesR (IsAlone self.now.letters.now.blocks) term.now }
        requires paths { P.readable self.now.paths.now self.now.letters.now.blocks }
        ensures made { IfOk result (IsMadeR C.tells_all self.now.letters.now
            (P.paths self.now.paths.now) term.now) }
        ensures noted { OnOk result (NotedR (C.answers self.now.complements.now) C.tells_all
            self.now.letters.now (P.paths self.now.paths.now) term.now notes.old.items
            notes.new.items) }
        ensures stopped { IfErr result (StoppedR (C.refuses self.now.complements.now) C.tells_all
            self.now.letters.now (P.paths self.now.paths.now) self.now.limit
            (length notes.old.items) term.now) }
    {
        match term {
            RelTerm::Identity(set) => {
                let words = self.automaton(alloc, set.get(), notes)?;
                Ok(self.identity(alloc, words)?)
            }
            RelTerm::Product(a, b) => {
                let parts = self.two(alloc, a.get(), b.get(), notes)?;
                Ok(self.product(alloc, parts)?)
            }
            RelTerm::Union(a, b) => {
                let parts = self.two_transducers(alloc, a.get(), b.get(), notes)?;
                Ok(self.relation_union(alloc, parts)?)
            }
            RelTerm::Concat(a, b) => {
                let parts = self.two_transducers(alloc, a.get(), b.get(), notes)?;
                Ok(self.relation_concat(alloc, parts)?)
            }
            RelTerm::Star(part) => {
                let pairs = self.transducer(alloc, part.get(), notes)?;
                Ok(self.relation_star(alloc, pairs)?)
            }
            RelTerm::Compose(a, b) => {
                let parts = self.two_transducers(alloc, a.get(), b.get(), notes)?;
                Ok(self.compose(alloc, parts)?)
            }
        }
    }

    /// The automata of two terms, of which the first is built first.
    #[cycle(terms)]
    fn two(
        &self,
        alloc: Global,
        a: &PathTerm,
        b: &PathTerm,
        notes: &mut Vec<C::Note>,
    ) -> Result<Two<Nfa<WideSet>>, Stop>
        requires limit { 1 ≤ self.now.limit }
        requires a_alone { Names (IsAlone self.now.letters.now.blocks) a.now }
        requires b_alone { Names (IsAlone self.now.letters.now.blocks) b.now }
        requires paths { P.readable self.now.paths.now self.now.letters.now.blocks }
        ensures first { IfOk result (λ parts. IsMade C.tells_all self.now.letters.now
            (P.paths self.now.paths.now) a.now parts.first) }
        ensures second { IfOk result (λ parts. IsMade C.tells_all self.now.letters.now
            (P.paths self.now.paths.now) b.now parts.second) }
        ensures noted { OnOk result (NotedTwo (C.answers self.now.complements.now) C.tells_all
            self.now.letters.now (P.paths self.now.paths.now) a.now b.now notes.old.items
            notes.new.items) }
        ensures stopped { IfErr result (StoppedTwo (C.refuses self.now.complements.now) C.tells_all
            self.now.letters.now (P.paths self.now.paths.now) self.now.limit
            (length notes.old.items) a.now b.now) }
    {
        let first = self.automaton(alloc, a, notes)?;
        let second = self.automaton(alloc, b, notes)?;
        Ok(Two { first, second })
    }

    /// The transducers of two terms, of which the first is built first.
    #[cycle(terms)]
    fn two_transducers(
        &self,
        alloc: Global,
        a: &RelTerm,
        b: &RelTerm,
        notes: &mut Vec<C::Note>,
    ) -> Result<Two<Transducer<WideSet>>, Stop>
        requires limit { 1 ≤ self.now.limit }
        requires a_alone { NamesR (IsAlone self.now.letters.now.blocks) a.now }
        requires b_alone { NamesR (IsAlone self.now.letters.now.blocks) b.now }
        requires paths { P.readable self.now.paths.now self.now.letters.now.blocks }
        ensures first { IfOk result (λ parts. IsMadeR C.tells_all self.now.letters.now
            (P.paths self.now.paths.now) a.now parts.first) }
        ensures second { IfOk result (λ parts. IsMadeR C.tells_all self.now.letters.now
            (P.paths self.now.paths.now) b.now parts.second) }
        ensures noted { OnOk result (NotedTwoR (C.answers self.now.complements.now) C.tells_all
            self.now.letters.now (P.paths self.now.paths.now) a.now b.now notes.old.items
            notes.new.items) }
        ensures stopped { IfErr result (StoppedTwoR (C.refuses self.now.complements.now) C.tells_all
            self.now.letters.now (P.paths self.now.paths.now) self.now.limit
            (length notes.old.items) a.now b.now) }
    {
        let first = self.transducer(alloc, a, notes)?;
        let second = self.transducer(alloc, b, notes)?;
        Ok(Two { first, second })
    }

    /// No word.
    fn none(&self, alloc: Global) -> Result<Nfa<WideSet>, AllocError>
        ensures { IfOk result (IsMade C.tells_all self.now.letters.now
            (P.paths self.now.paths.now) sets.None) }
    {
        built_terms_are_placed::<TermMachines<C, P>>();
        let none = Nfa::none(alloc, self.letters.count())?;
        Ok(as_automaton(none))
    }

    /// The empty word alone.
    fn empty(&self, alloc: Global) -> Result<Nfa<WideSet>, AllocError>
        ensures { IfOk result (IsMade C.tells_all self.now.letters.now
            (P.paths self.now.paths.now) sets.Empty) }
    {
        built_terms_are_placed::<TermMachines<C, P>>();
        let empty = Nfa::empty_word(alloc, self.letters.count())?;
        Ok(as_automaton(empty))
    }

    /// The complement of a part over the path symbols, of which the note is pushed to `notes`. Its
    /// number is the number of notes before it.
    ///
    /// # Errors
    ///
    /// - `Refused` with that number where the complement is refused.
    /// - `Memory` where there isn't memory.
    fn complement(
        &self,
        alloc: Global,
        part: &Nfa<WideSet>,
        notes: &mut Vec<C::Note>,
    ) -> Result<Nfa<WideSet>, Stop>
        requires { part.now.letters ≡ block_count self.now.letters.now.blocks }
        ensures made { IfOk result (FromOne C.tells_all self.now.letters.now
            (P.paths self.now.paths.now) sets.Complement part.now) }
        ensures noted { OnOk result (NotesOne (C.answers self.now.complements.now)
            self.now.letters.now part.now notes.old.items notes.new.items) }
        ensures stopped { IfErr result (Explains ⊥ (RefusesOne (C.refuses self.now.complements.now)
            self.now.letters.now part.now (length notes.old.items))) }
    {
        built_terms_are_placed::<TermMachines<C, P>>();
        let number = notes.len();
        match self
            .complements
            .complement(alloc, number, part, self.letters.path())
        {
            Ok(answer) => {
                notes.push(answer.note)?;
                Ok(answer.nfa)
            }
            Err(error) => Err(refusal_of(number, error)),
        }
    }
}

/// The words of one symbol of the class: none where the table has no such entry.
fn class_automaton(
    alloc: Global,
    entry: u32,
    letters: &Letters<'_>,
) -> Result<Nfa<WideSet>, AllocError>
    ensures { IfOk result (IsLetterAutomaton letters.now.blocks (IsInEntry letters.now entry)) }
{
    match letters.class(entry) {
        Some(set) => {
            let class = Nfa::class(alloc, letters.count(), set)?;
            Ok(as_automaton(class))
        }
        None => {
            let none = Nfa::none(alloc, letters.count())?;
            Ok(as_automaton(none))
        }
    }
}

/// The word of the symbol alone, which is a block of its own.
fn symbol_automaton(
    alloc: Global,
    symbol: Symbol,
    letters: &Letters<'_>,
) -> Result<Nfa<WideSet>, AllocError>
    requires { IsAlone letters.now.blocks symbol }
    ensures { IfOk result (IsLetterAutomaton letters.now.blocks (λ s. s ≡ symbol)) }
{
    let word = Nfa::word(alloc, letters.count(), &[letters.own(symbol)])?;
    Ok(as_automaton(word))
}
