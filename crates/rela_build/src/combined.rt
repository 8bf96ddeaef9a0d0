//! The operations on what the parts of a term were made into. Each lets its parts go, so that the
//! builder's functions hold none of them while a call can fail.
ghost use Rattle.std.specs.Prelude.{◌≡◌, ◌≤◌, IfOk, IfErr};
ghost use Rattle.rela_build.specs.Combined.{FromBoth, FromOne, FromOneR, FromSides, FromTwo, FromTwoR, FromWords, PassesBoth, PassesTwo, PassesTwoR};
ghost use Rattle.rela_build.specs.TermMachines.{term_machines};
ghost use Rattle.rela_rir.specs.declared.term.PathTerm.TheVariants as sets;
ghost use Rattle.rela_rir.specs.declared.term.RelTerm.TheVariants as relations;

use crate::builder::Builder;
use crate::complements::Complements;
use crate::path_sets::PathSets;
use crate::well_formed::{as_automaton, as_transducer};
use rela_labels::WideSet;
use rela_nfa::{BuildError, Nfa};
use rela_rir::{Machinery, built_terms_are_placed, reached_states_are_places};
use rela_trans::{Transducer, image};
use std::alloc::{AllocError, Global};
use std::marker::PhantomData;

/// What terms are built into, over any letters and with any of these path sets. Only contracts name
/// it.
pub(crate) struct TermMachines<C: Complements, P: PathSets> {
    /// How complements are made.
    complements: PhantomData<C>,
    /// The path sets.
    paths: PhantomData<P>,
}

impl<C: Complements, P: PathSets> Machinery for TermMachines<C, P> {
    ghost machines = { term_machines C.tells_all P P.paths };
}

/// The automata of two path terms, or the transducers of two relation terms.
#[derive(Drop)]
pub(crate) struct Two<T: Drop> {
    /// That of the left term.
    pub(crate) first: T,
    /// That of the right term.
    pub(crate) second: T,
}

impl<'a, C: Complements, P: PathSets> Builder<'a, C, P> {
    /// The words of either.
    pub(crate) fn union(
        &self,
        alloc: Global,
        parts: Two<Nfa<WideSet>>,
    ) -> Result<Nfa<WideSet>, AllocError>
        requires { parts.first.letters ≡ parts.second.letters }
        ensures { IfOk result (FromTwo C.tells_all self.now.letters.now (P.paths self.now.paths.now)
            sets.Union parts.first parts.second) }
    {
        built_terms_are_placed::<TermMachines<C, P>>();
        let union = parts.first.union(alloc, &parts.second)?;
        Ok(as_automaton(union))
    }

    /// A word of the first followed by one of the second.
    pub(crate) fn concat(
        &self,
        alloc: Global,
        parts: Two<Nfa<WideSet>>,
    ) -> Result<Nfa<WideSet>, AllocError>
        requires { parts.first.letters ≡ parts.second.letters }
        ensures { IfOk result (FromTwo C.tells_all self.now.letters.now (P.paths self.now.paths.now)
            sets.Concat parts.first parts.second) }
    {
        built_terms_are_placed::<TermMachines<C, P>>();
        let concat = parts.first.concat(alloc, &parts.second)?;
        Ok(as_automaton(concat))
    }

    /// Any number of the words, one after the other.
    pub(crate) fn star(
        &self,
        alloc: Global,
        words: Nfa<WideSet>,
    ) -> Result<Nfa<WideSet>, AllocError>
        ensures { IfOk result (FromOne C.tells_all self.now.letters.now (P.paths self.now.paths.now)
            sets.Star words) }
    {
        built_terms_are_placed::<TermMachines<C, P>>();
        let star = words.star(alloc)?;
        Ok(as_automaton(star))
    }

    /// The words of both.
    pub(crate) fn meet(
        &self,
        alloc: Global,
        parts: Two<Nfa<WideSet>>,
    ) -> Result<Nfa<WideSet>, BuildError>
        requires limit { 1 ≤ self.now.limit }
        requires letters { parts.first.letters ≡ parts.second.letters }
        ensures made { IfOk result (FromTwo C.tells_all self.now.letters.now
            (P.paths self.now.paths.now)
            sets.Meet parts.first parts.second) }
        ensures limit { IfErr result (PassesTwo C.tells_all self.now.letters.now
            (P.paths self.now.paths.now) sets.Meet self.now.limit parts.first parts.second) }
    {
        self.letters.are_covered();
        built_terms_are_placed::<TermMachines<C, P>>();
        reached_states_are_places::<TermMachines<C, P>>();
        let meet = parts.first.meet(alloc, &parts.second, self.limit)?;
        Ok(as_automaton(meet))
    }

    /// What the transducer writes for the words.
    pub(crate) fn image(
        &self,
        alloc: Global,
        words: Nfa<WideSet>,
        pairs: Transducer<WideSet>,
    ) -> Result<Nfa<WideSet>, BuildError>
        requires limit { 1 ≤ self.now.limit }
        requires letters { words.letters ≡ pairs.letters }
        ensures made { IfOk result (FromBoth C.tells_all self.now.letters.now
            (P.paths self.now.paths.now)
            sets.Image words pairs) }
        ensures limit { IfErr result (PassesBoth C.tells_all self.now.letters.now
            (P.paths self.now.paths.now) sets.Image self.now.limit words pairs) }
    {
        self.letters.are_covered();
        built_terms_are_placed::<TermMachines<C, P>>();
        reached_states_are_places::<TermMachines<C, P>>();
        let image = image(alloc, &words, &pairs, self.limit)?;
        Ok(as_automaton(image))
    }

    /// Each word with itself.
    pub(crate) fn identity(
        &self,
        alloc: Global,
        words: Nfa<WideSet>,
    ) -> Result<Transducer<WideSet>, AllocError>
        ensures { IfOk result (FromWords C.tells_all self.now.letters.now
            (P.paths self.now.paths.now)
            relations.Identity words) }
    {
        built_terms_are_placed::<TermMachines<C, P>>();
        let identity = Transducer::identity(alloc, &words)?;
        Ok(as_transducer(identity))
    }

    /// Each word of the first with each of the second.
    pub(crate) fn product(
        &self,
        alloc: Global,
        parts: Two<Nfa<WideSet>>,
    ) -> Result<Transducer<WideSet>, AllocError>
        requires { parts.first.letters ≡ parts.second.letters }
        ensures { IfOk result (FromSides C.tells_all self.now.letters.now
            (P.paths self.now.paths.now)
            relations.Product parts.first parts.second) }
    {
        built_terms_are_placed::<TermMachines<C, P>>();
        let product = Transducer::product(alloc, &parts.first, &parts.second)?;
        Ok(as_transducer(product))
    }

    /// The pairs of either.
    pub(crate) fn relation_union(
        &self,
        alloc: Global,
        parts: Two<Transducer<WideSet>>,
    ) -> Result<Transducer<WideSet>, AllocError>
        requires { parts.first.letters ≡ parts.second.letters }
        ensures { IfOk result (FromTwoR C.tells_all self.now.letters.now
            (P.paths self.now.paths.now)
            relations.Union parts.first parts.second) }
    {
        built_terms_are_placed::<TermMachines<C, P>>();
        let Two { first, second } = parts;
        let union = first.into_union(alloc, second)?;
        Ok(as_transducer(union))
    }

    /// A pair of the first followed by one of the second.
    pub(crate) fn relation_concat(
        &self,
        alloc: Global,
        parts: Two<Transducer<WideSet>>,
    ) -> Result<Transducer<WideSet>, AllocError>
        requires { parts.first.letters ≡ parts.second.letters }
        ensures { IfOk result (FromTwoR C.tells_all self.now.letters.now
            (P.paths self.now.paths.now)
            relations.Concat parts.first parts.second) }
    {
        built_terms_are_placed::<TermMachines<C, P>>();
        let Two { first, second } = parts;
        let concat = first.into_concat(alloc, second)?;
        Ok(as_transducer(concat))
    }

    /// Any number of the pairs, one after the other.
    pub(crate) fn relation_star(
        &self,
        alloc: Global,
        pairs: Transducer<WideSet>,
    ) -> Result<Transducer<WideSet>, AllocError>
        ensures { IfOk result (FromOneR C.tells_all self.now.letters.now
            (P.paths self.now.paths.now)
            relations.Star pairs) }
    {
        built_terms_are_placed::<TermMachines<C, P>>();
        let star = pairs.into_star(alloc)?;
        Ok(as_transducer(star))
    }

    /// The first relation and then the second.
    pub(crate) fn compose(
        &self,
        alloc: Global,
        parts: Two<Transducer<WideSet>>,
    ) -> Result<Transducer<WideSet>, BuildError>
        requires limit { 1 ≤ self.now.limit }
        requires letters { parts.first.letters ≡ parts.second.letters }
        ensures made { IfOk result (FromTwoR C.tells_all self.now.letters.now
            (P.paths self.now.paths.now)
            relations.Compose parts.first parts.second) }
        ensures limit { IfErr result (PassesTwoR C.tells_all self.now.letters.now
            (P.paths self.now.paths.now) relations.Compose self.now.limit
            parts.first parts.second) }
    {
        self.letters.are_covered();
        built_terms_are_placed::<TermMachines<C, P>>();
        reached_states_are_places::<TermMachines<C, P>>();
        let composition = parts.first.compose(alloc, &parts.second, self.limit)?;
        Ok(as_transducer(composition))
    }
}
