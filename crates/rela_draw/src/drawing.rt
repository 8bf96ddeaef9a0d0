//! From two table files and the locations to a snapshot.

ghost use Rattle.std.specs.Prelude.{◌≢◌, Err, IsTrue, IfOk, is_some};
ghost use Rattle.rela_io.specs.Held.{HoldsName};
ghost use Rattle.rela_tables.specs.Located.{IsForwardingIn};
ghost use Rattle.rela_inputs.specs.Answer.{answer_by, IsOutcomeStatus};
ghost use Rattle.rela_draw.specs.Draws.{Draws, DrawsOver, IsDrawing, SameDrawings};
ghost use Rattle.rela_inputs.specs.Given.{IsGiven, IsRead, seen};
ghost use Rattle.rela_inputs.specs.Reading.{Ends};

use rela_fib::snapshot_text;
use rela_inputs::{
    Answer, Halt, Input, MET, calls_inside_end, fib_halt, load_locations, load_tables, steps_chain,
};
use rela_io::Files;
use rela_locations::Locations;
use rela_tables::Tables;
use std::alloc::Global;
use std::marker::Brand;

/// Reads the locations, the tables and the other tables in the files of these names, in this order,
/// and makes the snapshot of the tables. Time and space: those of decoding the files and of
/// [`snapshot_text`].
///
/// # Errors
///
/// The first refusal, read fault or want of memory ends it.
pub fn draw<F: Files>(
    alloc: Global,
    files: &mut F,
    tables: &str,
    other: &str,
    locations: &str,
) -> Result<Answer, Halt>
    ensures given { IsGiven (is_some (F.holds files.old)) (F.steady files.old) SameDrawings
        (Draws (F.holds files.old) tables.now other.now locations.now) (seen answer_by result) }
    ensures status { IfOk result (λ answer. IsOutcomeStatus answer.status) }
    ensures ends { Ends (F.faults files.old) (F.faults files.new) (F.given files.new) result }
    ensures steady_is_no_fault { IsTrue (F.steady files.old) →
        HoldsName (F.holds files.old) tables.now →
        HoldsName (F.holds files.old) other.now →
        HoldsName (F.holds files.old) locations.now →
        result ≢ Err Halt.ReadFault }
{
    steps_chain::<Brand>();
    let locations = load_locations(alloc, files, locations)?;
    draw_over(alloc, files, tables, other, &locations)
}

/// Reads the tables and the other tables in the files of these names, in this order, over the
/// locations, and makes the snapshot of the tables.
///
/// # Errors
///
/// The first refusal, read fault or want of memory ends it.
fn draw_over<F: Files>(
    alloc: Global,
    files: &mut F,
    tables: &str,
    other: &str,
    locations: &Locations,
) -> Result<Answer, Halt>
    ensures given { IsGiven (is_some (F.holds files.old)) (F.steady files.old) SameDrawings
        (DrawsOver (F.holds files.old) tables.now other.now locations.now)
        (seen answer_by result) }
    ensures status { IfOk result (λ answer. IsOutcomeStatus answer.status) }
    ensures ends { Ends (F.faults files.old) (F.faults files.new) (F.given files.new) result }
    ensures steady_is_no_fault { IsTrue (F.steady files.old) →
        HoldsName (F.holds files.old) tables.now →
        HoldsName (F.holds files.old) other.now →
        result ≢ Err Halt.ReadFault }
{
    steps_chain::<Brand>();
    calls_inside_end::<Answer>();
    let tables = load_tables(alloc, files, Input::Tables, tables, locations)?;
    let other = load_tables(alloc, files, Input::Other, other, locations)?;
    draw_tables(alloc, &tables, &other, locations)
}

/// The snapshot of the tables, cut by the routes of both.
///
/// # Errors
///
/// `Refused` where there is too much of it; `Memory`.
fn draw_tables(
    alloc: Global,
    tables: &Tables,
    other: &Tables,
    locations: &Locations,
) -> Result<Answer, Halt>
    requires { IsForwardingIn locations.now tables.now }
    ensures drawing { IsRead SameDrawings (IsDrawing locations.now tables.now other.now)
        (seen answer_by result) }
    ensures status { IfOk result (λ answer. IsOutcomeStatus answer.status) }
{
    match snapshot_text(alloc, tables, other, locations) {
        Ok(text) => Ok(Answer { text, status: MET }),
        Err(error) => Err(fib_halt(error)),
    }
}
