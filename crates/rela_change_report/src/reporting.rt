//! The report on a loaded change.

ghost use Rattle.std.specs.Prelude.{◌≤◌, Ok, IfOk};
ghost use Rattle.rela_change_report.specs.Reports.{Reports};
ghost use Rattle.rela_inputs.specs.Answer.{answer_by, IsOutcomeStatus};
ghost use Rattle.rela_inputs.specs.Loaded.{loaded_by, names_of};
ghost use Rattle.rela_rows.specs.Rows.{AreChecksAt};

use rela_inputs::{Answer, Loaded};
use rela_rows::write_rows;
use std::alloc::{AllocError, Global};

/// The report on a loaded change, made whole. `states` is the state limit of each verdict. Rows are
/// written as they are decided, so of a row only its lines are kept.
///
/// # Errors
///
/// Only where memory is wanted.
pub fn report_on(alloc: Global, loaded: &Loaded, states: usize) -> Result<Answer, AllocError>
    requires some { 1 ≤ states }
    requires checks { AreChecksAt (names_of (loaded_by loaded.now)) loaded.now.pairs.items
        loaded.now.asked.checks.items }
    ensures reports { IfOk result (λ answer.
        Reports states (loaded_by loaded.now) (Ok (answer_by answer))) }
    ensures status { IfOk result (λ answer. IsOutcomeStatus answer.status) }
{
    let names = loaded.locations.alphabet(loaded.asked.level);
    let writer = write_rows(alloc, &loaded.pairs, &loaded.asked.checks, names, states)?;
    let status = writer.status();
    let text = writer.finish(alloc)?;
    Ok(Answer { text, status })
}
