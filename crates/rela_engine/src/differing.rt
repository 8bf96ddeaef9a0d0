//! Where the two relations of a check differ.
ghost use Rattle.std.specs.Prelude.{◌≡◌, ◌<◌, ◌≤◌, IsTrue, IfOk};
ghost use Rattle.std.specs.List.{All};
ghost use Rattle.std.specs.Option.{ForSome};
ghost use Rattle.rela_build.specs.Reading.{read_by};
ghost use Rattle.rela_labels.specs.Partition.{block_count};
ghost use Rattle.rela_trans.specs.Runs.{Relates};
ghost use Rattle.rela_engine.specs.Differing.{AreDifferences, HaveNoneOn};

use rela_labels::{Partition, WideSet};
use rela_nfa::BuildError;
use rela_pairs::pass_limit;
use rela_restriction::Excess;
use rela_trans::Transducer;
use std::alloc::{AllocError, Global};
use std::marker::Model;

/// Where two relations may differ: what the first has beyond the second, and the second beyond the
/// first. Contracts see it as `Differences`, with both of them.
#[derive(Drop)]
pub(crate) struct Differing {
    /// What the first may have beyond the second.
    lost: Excess<WideSet>,
    /// What the second may have beyond the first.
    added: Excess<WideSet>,
}

impl Model for Differing {
    ghost use Rattle.rela_engine.specs.Differing as kept;

    ghost Value = { kept.Differences };

    ghost view = { λ d. record { lost = d.lost; added = d.added } };
}

/// Relations are compared where neither has more states than this, and
const MOST_STATES: usize = 256;

/// where they have at most so many letters: to compare them costs a few times what they cost to be
/// made.
const MOST_LETTERS: u32 = 256;

/// The most states of an automaton that is made to compare them.
const MOST_COMPARED: usize = 1_024;

/// Where two relations whose letters are these blocks differ; `None` where they are too large to be
/// compared. The only error is want of memory.
pub(crate) fn compare_relations(
    alloc: Global,
    first: &Transducer<WideSet>,
    second: &Transducer<WideSet>,
    blocks: &Partition,
) -> Result<Option<Differing>, AllocError>
    requires first { first.now.letters ≡ block_count blocks.now }
    requires second { second.now.letters ≡ block_count blocks.now }
    ensures { IfOk result (λ found. ForSome found (AreDifferences blocks.now
        (Relates (read_by blocks.now) first.now) (Relates (read_by blocks.now) second.now))) }
{
    let states = first.states().max(second.states());
    if states > MOST_STATES || first.letters() > MOST_LETTERS {
        return Ok(None);
    }
    match compared(alloc, first, second, blocks) {
        Ok(found) => Ok(Some(found)),
        Err(error) => {
            pass_limit(error)?;
            Ok(None)
        }
    }
}

/// Where two relations of few states and letters differ. `Limit` where an automaton that is made for
/// that has too many states.
fn compared(
    alloc: Global,
    first: &Transducer<WideSet>,
    second: &Transducer<WideSet>,
    blocks: &Partition,
) -> Result<Differing, BuildError>
    requires first { first.now.letters ≡ block_count blocks.now }
    requires second { second.now.letters ≡ block_count blocks.now }
    requires few { first.now.letters ≤ MOST_LETTERS }
    ensures { IfOk result (AreDifferences blocks.now (Relates (read_by blocks.now) first.now)
        (Relates (read_by blocks.now) second.now)) }
{
    let lost = Excess::of(alloc, first, second, MOST_COMPARED)?;
    let added = Excess::of(alloc, second, first, MOST_COMPARED)?;
    Ok(Differing { lost, added })
}

impl Differing {
    /// Whether the relations have the same pairs among those whose first word has letters of
    /// `inputs` alone. Where it is false nothing is told. Time: that of two searches through what
    /// is beyond.
    pub(crate) fn none_on(&self, alloc: Global, inputs: &[u32]) -> Result<bool, AllocError>
        requires lost { All (λ k. k < self.now.lost.letters) inputs.now }
        requires added { All (λ k. k < self.now.added.letters) inputs.now }
        ensures { IfOk result (λ none. IsTrue none → HaveNoneOn inputs.now self.now) }
    {
        if !self.lost.is_empty_on(alloc, inputs)? {
            return Ok(false);
        }
        self.added.is_empty_on(alloc, inputs)
    }
}
