//! The transducers of a check's relation.
ghost use Rattle.std.specs.Option.{unwrap_or};
ghost use Rattle.std.specs.Prelude.{◌≡◌, ◌≢◌, ◌+◌, ◌≤◌, IfOk, IfErr};
ghost use Rattle.rela_build.specs.Lettering.{IsAlone};
ghost use Rattle.rela_build.specs.Made.{IsMadeR};
ghost use Rattle.rela_build.specs.Named.{NamesR};
ghost use Rattle.rela_build.specs.PathSets.{no_paths, scene_of};
ghost use Rattle.rela_build.specs.Reading.{read_by};
ghost use Rattle.rela_labels.specs.Partition.{block_count};
ghost use Rattle.rela_rir.specs.Limit.{ForcedInsideR, ReachedInsideR};
ghost use Rattle.rela_rir.specs.Meaning.{InR};
ghost use Rattle.rela_trans.specs.Runs.{Relates};
ghost use Rattle.rela_engine.specs.Reading.{Realises};

use crate::laws::Flows;
use crate::relations::Twofold;
use rela_build::{Builder, Letters, NoPaths, Stop};
use rela_complement::LimitedComplements;
use rela_labels::{Partition, WideSet};
use rela_rir::{RelTerm, complements_inside, reached_states_are_places};
use rela_trans::Transducer;
use std::alloc::{AllocError, Global};

/// The transducers of the term over these letters: as it is built, with these complements, and made
/// small.
///
/// # Errors
///
/// - `Limit` and `Refused` only where some counted term in the term has more reached places than the
///   limit, and always where a complement in it has a part that tells more words.
/// - `Memory` where there isn't memory.
pub(crate) fn relation_of(
    alloc: Global,
    term: &RelTerm,
    letters: &Letters<'_>,
    complements: &LimitedComplements,
    limit: usize,
) -> Result<Twofold, Stop>
    requires limit { 1 ≤ limit }
    requires same { complements.now ≡ limit }
    requires alone { NamesR (IsAlone letters.now.blocks) term.now }
    ensures plain { IfOk result (λ r. IsMadeR ⊥ letters.now no_paths term.now r.plain) }
    ensures small { IfOk result (λ r. Realises letters.now.blocks
        (InR (scene_of letters.now no_paths).setting term.now) r.small) }
    ensures within { IfOk result (λ _.
        ¬ ForcedInsideR (scene_of letters.now no_paths) (limit + 1) term.now) }
    ensures past { IfErr result (λ e. e ≢ Stop.Memory →
        ReachedInsideR (scene_of letters.now no_paths) (limit + 1) term.now) }
{
    let plain = plain_relation(alloc, term, letters, complements, limit)?;
    let small = small_relation(alloc, &plain, letters.partition())?;
    let relation = Twofold::new(alloc, plain, small)?;
    Ok(relation)
}

/// The transducer of the term as it is built, with these complements under the limit. Errors are those
/// of [`relation_of`].
fn plain_relation(
    alloc: Global,
    term: &RelTerm,
    letters: &Letters<'_>,
    complements: &LimitedComplements,
    limit: usize,
) -> Result<Transducer<WideSet>, Stop>
    requires limit { 1 ≤ limit }
    requires same { complements.now ≡ limit }
    requires alone { NamesR (IsAlone letters.now.blocks) term.now }
    ensures made { IfOk result (IsMadeR ⊥ letters.now no_paths term.now) }
    ensures within { IfOk result (λ _.
        ¬ ForcedInsideR (scene_of letters.now no_paths) (limit + 1) term.now) }
    ensures past { IfErr result (λ e. e ≢ Stop.Memory →
        ReachedInsideR (scene_of letters.now no_paths) (limit + 1) term.now) }
{
    letters.are_covered();
    complements_inside::<Flows>();
    reached_states_are_places::<Flows>();
    let builder = Builder {
        letters,
        paths: &NoPaths,
        complements,
        limit,
    };
    let mut notes = Vec::new(alloc);
    builder.transducer(alloc, term, &mut notes)
}

/// A relation of more states than this is one transducer. Its states are nearly all those of complements, of
/// which few are met beside the paths of a flow, and each state of a transducer takes some hundred bytes.
const MOST_TWICE: usize = 2_048;

/// The same pairs by a smaller transducer; `None` where this one has many states, and is to serve as it is.
fn small_relation(
    alloc: Global,
    plain: &Transducer<WideSet>,
    blocks: &Partition,
) -> Result<Option<Transducer<WideSet>>, AllocError>
    requires { plain.now.letters ≡ block_count blocks.now }
    ensures { IfOk result (λ small. Realises blocks.now (Relates (read_by blocks.now) plain.now)
        (unwrap_or small plain.now)) }
{
    if plain.states() > MOST_TWICE {
        return Ok(None);
    }
    let small = shortened(alloc, plain, blocks)?;
    Ok(Some(small))
}

/// The same pairs by a transducer that is made once and walked beside the paths of each flow, so the
/// moves that lead to no final state are left out, and the silent detours too. It costs a step for each
/// state and each move.
fn shortened(
    alloc: Global,
    plain: &Transducer<WideSet>,
    blocks: &Partition,
) -> Result<Transducer<WideSet>, AllocError>
    requires { plain.now.letters ≡ block_count blocks.now }
    ensures { IfOk result (Realises blocks.now (Relates (read_by blocks.now) plain.now)) }
{
    let copy = copied(alloc, plain, blocks)?;
    // A state that loses a move may become a detour.
    let pruned = copy.pruned(alloc)?;
    let shortened = pruned.shortened(alloc)?;
    Ok(shortened)
}

/// A transducer with the same pairs, relabelled by the same blocks. The only error is want of
/// memory.
fn copied(
    alloc: Global,
    plain: &Transducer<WideSet>,
    blocks: &Partition,
) -> Result<Transducer<WideSet>, AllocError>
    requires { plain.now.letters ≡ block_count blocks.now }
    ensures { IfOk result (Realises blocks.now (Relates (read_by blocks.now) plain.now)) }
{
    let copy = plain.relabel(alloc, blocks, blocks)?;
    prove!(plain.start() < plain.states());
    prove!(copy.start() < copy.states());
    Ok(copy)
}
