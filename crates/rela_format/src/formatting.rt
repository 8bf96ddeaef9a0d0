//! The canonical text of a specification.

ghost use Rattle.std.specs.Prelude.{◌≢◌, Err, IsTrue, IfOk, is_some};
ghost use Rattle.rela_io.specs.Held.{HoldsName};
ghost use Rattle.rela_inputs.specs.Answer.{answer_by, IsOutcomeStatus};
ghost use Rattle.rela_format.specs.Formats.{Formats};
ghost use Rattle.rela_inputs.specs.Given.{Equals, IsGiven, seen};
ghost use Rattle.rela_inputs.specs.Reading.{Ends};

use rela_inputs::{Answer, Halt, MET, load_tree, steps_chain};
use rela_io::Files;
use rela_print::print;
use std::alloc::Global;
use std::marker::Brand;

/// Reads the specification in the file of this name, and makes its canonical text. Time and space:
/// linear in the file and the text.
///
/// # Errors
///
/// The first refusal, read fault or want of memory ends it.
pub fn format<F: Files>(alloc: Global, files: &mut F, spec: &str) -> Result<Answer, Halt>
    ensures given { IsGiven (is_some (F.holds files.old)) (F.steady files.old) Equals
        (Formats (F.holds files.old) spec.now) (seen answer_by result) }
    ensures status { IfOk result (λ answer. IsOutcomeStatus answer.status) }
    ensures ends { Ends (F.faults files.old) (F.faults files.new) (F.given files.new) result }
    ensures steady_is_no_fault { IsTrue (F.steady files.old) →
        HoldsName (F.holds files.old) spec.now →
        result ≢ Err Halt.ReadFault }
{
    steps_chain::<Brand>();
    let file = load_tree(alloc, files, spec)?;
    Ok(Answer {
        text: print(alloc, &file)?,
        status: MET,
    })
}
