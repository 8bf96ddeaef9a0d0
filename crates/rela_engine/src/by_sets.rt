//! The row of a check for a flow, by automata whose edges are labelled by sets of letters.
ghost use Rattle.std.specs.Prelude.{◌≡◌, ◌+◌, IfOk, IfErr};
ghost use Rattle.rela_compare.specs.Comparison.{ReachPairsBefore};
ghost use Rattle.rela_labels.specs.Partition.{block_count};
ghost use Rattle.rela_nfa.specs.Runs.{Accepts};
ghost use Rattle.rela_translate.specs.Verdict.{Offends};
ghost use Rattle.rela_engine.specs.Case.{IsCase, IsRight, MayStayOpen};
ghost use Rattle.rela_engine.specs.RowOf.{words_of};
ghost use Rattle.rela_engine.specs.ToldSides.{HasSources, TellsOfSides, TellsOnSide};

use crate::case::Case;
use crate::compiled::Compiled;
use crate::laws::{
    plain_images_tell_of_open_rows, plain_relations_realise, relations_tell_of_open_rows,
};
use crate::offence::{Offence, first_offence};
use crate::seen::{Form, Seen, see};
use crate::witnesses::violated_row;
use rela_labels::{LabelSet, Partition};
use rela_nfa::BuildError;
use rela_pairs::pass_limit;
use rela_report::{Row, Side};
use std::alloc::{AllocError, Global};

/// The row of the case, by automata whose edges are labelled by sets of its blocks. Only where small
/// ones pass the limit plain ones are made, and a row is left open only where these pass it too. The
/// only error is want of memory.
pub(crate) fn row_by_sets<L: LabelSet>(
    alloc: Global,
    case: &Case<'_, '_>,
) -> Result<Row, AllocError>
    requires case { IsCase case.now }
    requires fits { L.fits (block_count case.now.blocks.now) }
    ensures { IfOk result (IsRight case.now) }
{
    match row_by::<L>(alloc, case, Form::Small) {
        Ok(row) => Ok(row),
        Err(error) => {
            pass_limit(error)?;
            plain_row::<L>(alloc, case)
        }
    }
}

/// The row by plain automata, left open where they pass the limit. The only error is want of memory.
fn plain_row<L: LabelSet>(alloc: Global, case: &Case<'_, '_>) -> Result<Row, AllocError>
    requires case { IsCase case.now }
    requires fits { L.fits (block_count case.now.blocks.now) }
    ensures { IfOk result (IsRight case.now) }
{
    match row_by::<L>(alloc, case, Form::Plain) {
        Ok(row) => Ok(row),
        Err(error) => {
            pass_limit(error)?;
            Ok(Row::Undecided)
        }
    }
}

/// The row by automata of this form.
///
/// # Errors
///
/// - `Limit` where an image, or the comparison of the two, passes the check's limit. The row of plain
///   automata may then be left open.
/// - `Memory` where there isn't memory.
fn row_by<L: LabelSet>(alloc: Global, case: &Case<'_, '_>, form: Form) -> Result<Row, BuildError>
    requires case { IsCase case.now }
    requires fits { L.fits (block_count case.now.blocks.now) }
    ensures row { IfOk result (IsRight case.now) }
    ensures limit { IfErr result (λ e. e ≡ BuildError.Limit → form ≡ Form.Plain →
        MayStayOpen case.now) }
{
    relations_tell_of_open_rows();
    plain_relations_realise();
    plain_images_tell_of_open_rows();
    // By what each compiled check keeps, its blocks are of its symbols.
    let _ = case.compiled.blocks();
    let before = see::<L>(
        alloc,
        case.compiled,
        case.relations.before(),
        &case.pair.before,
        case.alphabet,
        case.blocks,
        form,
    )?;
    let after = see::<L>(
        alloc,
        case.compiled,
        case.relations.after(),
        &case.pair.after,
        case.alphabet,
        case.blocks,
        form,
    )?;
    row_of_sides(alloc, case.compiled, &before, &after, case.blocks)
}

/// The row, where both sides are seen so: compliant, or that of the first word that offends.
///
/// # Errors
///
/// - `Limit` where the comparison of the two images passes the check's limit.
/// - `Memory` where there isn't memory.
fn row_of_sides<L: LabelSet>(
    alloc: Global,
    compiled: &Compiled<'_>,
    before: &Seen<L>,
    after: &Seen<L>,
    blocks: &Partition,
) -> Result<Row, BuildError>
    requires before { HasSources blocks.now before.now.paths before.now.relation before.now.image }
    requires after { HasSources blocks.now after.now.paths after.now.relation after.now.image }
    ensures row { IfOk result (TellsOfSides compiled.now.check.at_most blocks.now
        before.now.paths before.now.relation before.now.image
        after.now.paths after.now.relation after.now.image) }
    ensures limit { IfErr result (λ e. e ≡ BuildError.Limit →
        ReachPairsBefore before.now.image after.now.image
        (Offends compiled.now.check.at_most (Accepts before.now.image) (Accepts after.now.image))
        (compiled.now.states + 1)) }
{
    let at_most = compiled.at_most();
    let states = compiled.states();
    match first_offence(alloc, at_most, &before.image, &after.image, states)? {
        None => Ok(Row::Compliant),
        Some(offence) => Ok(row_of_offence(alloc, &offence, before, after, blocks)?),
    }
}

/// The row of an offence, by what is seen of its side. The only error is want of memory.
fn row_of_offence<L: LabelSet>(
    alloc: Global,
    offence: &Offence,
    before: &Seen<L>,
    after: &Seen<L>,
    blocks: &Partition,
) -> Result<Row, AllocError>
    requires before { HasSources blocks.now before.now.paths before.now.relation before.now.image }
    requires after { HasSources blocks.now after.now.paths after.now.relation after.now.image }
    requires offends { words_of offence.now.side (Accepts before.now.image)
        (Accepts after.now.image) offence.now.letters }
    ensures { IfOk result (TellsOnSide offence.now.side blocks.now before.now.paths
        before.now.relation after.now.paths after.now.relation offence.now.letters) }
{
    match offence.side {
        Side::Before => violated_row(alloc, offence, before, blocks),
        Side::After => violated_row(alloc, offence, after, blocks),
    }
}
