//! What the two path sets are that terms may name.

ghost use Rattle.std.specs.Prelude.{ℕ, List, IfOk};
ghost use Rattle.rela_rir.specs.Places.{NoParts, PartsApart, PathSetPlaces};
ghost use Rattle.rela_build.specs.Made.{IsBuilt};
ghost use Rattle.rela_build.specs.PathSets.{Paths, no_paths};

use crate::well_formed::as_automaton;
use rela_labels::{Partition, WideSet};
use rela_nfa::Nfa;
use std::alloc::{AllocError, Global};

/// The two path sets that terms may name.
pub trait PathSets {
    // the words of the two sets, and what reaches their places
    ghost paths: { Self → Paths };

    // by the blocks of which partitions the words can be read
    ghost readable: { Self → List ℕ → Type 0 };

    /// The paths before the change, read by these blocks.
    fn before(&self, alloc: Global, blocks: &Partition) -> Result<Nfa<WideSet>, AllocError>
        requires { readable self.now blocks.now }
        ensures { IfOk result (IsBuilt (Unit {0}) blocks.now (paths self.now).pre
            (PathSetPlaces (paths self.now).at_pre) (PartsApart NoParts NoParts)) };

    /// The paths after the change, read by these blocks.
    fn after(&self, alloc: Global, blocks: &Partition) -> Result<Nfa<WideSet>, AllocError>
        requires { readable self.now blocks.now }
        ensures { IfOk result (IsBuilt (Unit {0}) blocks.now (paths self.now).post
            (PathSetPlaces (paths self.now).at_post) (PartsApart NoParts NoParts)) };
}

/// No paths at all, for terms that name neither set, or of which nothing is known yet.
#[derive(Clone, Copy, Debug)]
pub struct NoPaths;

impl PathSets for NoPaths {
    ghost paths = { λ _. no_paths };

    ghost readable = { λ _ _. Unit {0} };

    fn before(&self, alloc: Global, blocks: &Partition) -> Result<Nfa<WideSet>, AllocError> {
        no_words(alloc, blocks)
    }

    fn after(&self, alloc: Global, blocks: &Partition) -> Result<Nfa<WideSet>, AllocError> {
        no_words(alloc, blocks)
    }
}

/// The automaton that accepts no word, whose letters are these blocks.
fn no_words(alloc: Global, blocks: &Partition) -> Result<Nfa<WideSet>, AllocError>
    ensures { IfOk result (IsBuilt (Unit {0}) blocks.now no_paths.pre
        (PathSetPlaces no_paths.at_pre) (PartsApart NoParts NoParts)) }
{
    let letters = blocks.blocks();
    let none = Nfa::none(alloc, letters)?;
    Ok(as_automaton(none))
}
