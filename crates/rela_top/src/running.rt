//! The one call that the program makes.

ghost use Rattle.std.specs.Prelude.{◌≡◌, ◌≢◌, ◌<◌, ◌⊎◌, Err, IsTrue, IfOk, OnOk, [], is_some, map, string_bytes};
ghost use Rattle.rela_io.specs.Count.{Rose};
ghost use Rattle.rela_words.specs.Words.{AskNothing, BeginByName, HasNumbers};
ghost use Rattle.rela_top.specs.Operands.{AskForNoFile, HoldsAsked, HoldsFiles, given_to, operands_of};
ghost use Rattle.rela_inputs.specs.Answer.{answer_by, IsOutcomeStatus};
ghost use Rattle.rela_inputs.specs.Given.{IsGiven, seen};
ghost use Rattle.rela_top.specs.Outcome.{Answers, AnswersAll, CompletesAll, GivenBy, GivesNothing, Outcome, SameAnswer};
ghost use Rattle.rela_inputs.specs.Reading.{Ends};
ghost use Rattle.rela_words.specs.Commands.{command_of};

use crate::delivering::deliver;
use rela_assert::report_assertions;
use rela_audit::{audit_files, certify_files};
use rela_check::report_asked;
use rela_demonstrate::demonstrate;
use rela_draw::draw;
use rela_format::format;
use rela_inputs::{
    Answer, BAD_WORDS, Halt, NO_MEMORY, READ_FAULT, REFUSED, WRITE_FAULT, refusal_line, steps_chain,
};
use rela_io::{Files, Sink};
use rela_words::{Command, WordsError, read_words};
use rela_zone::show_zone;
use std::alloc::Global;
use std::marker::Brand;

/// Does what the words ask for, those after the program's name: reads `files`, writes the whole
/// answer to `out`, and gives the exit status. The answer is made before any of it is written.
pub fn run<F: Files, K: Sink>(alloc: Global, words: &[String], files: &mut F, out: &mut K) -> u8
    // An answer that fits the words and what the files gave was written, to its end or up to a failed
    // write.
    ensures answers { result ≢ READ_FAULT → result ≢ NO_MEMORY →
        Answers (map string_bytes words.now) (F.holds files.old) (F.given files.new)
        (K.taken out.old) (K.taken out.new) result }
    ensures bad_words { result ≡ BAD_WORDS → AskNothing (map string_bytes words.now) }
    ensures unread_words { AskNothing (map string_bytes words.now) → result ≢ NO_MEMORY →
        (result ≡ BAD_WORDS) ⊎ (result ≡ WRITE_FAULT) }
    ensures unread_words_open_nothing { AskNothing (map string_bytes words.now) →
        files.new ≡ files.old }
    ensures memory { result ≡ NO_MEMORY → BeginByName (map string_bytes words.now) }
    ensures no_file_asked_opens_nothing { AskForNoFile (map string_bytes words.now) →
        files.new ≡ files.old }

    // A read fault, exactly where one was counted.
    ensures read_fault_counted { result ≡ READ_FAULT →
        Rose (F.faults files.old) (F.faults files.new) }
    ensures counted_is_read_fault { F.faults files.old < F.faults files.new → result ≡ READ_FAULT }
    ensures steady_is_no_fault { IsTrue (F.steady files.old) →
        HoldsAsked (F.holds files.old) (map string_bytes words.now) →
        (result ≢ READ_FAULT) × (F.faults files.new ≡ F.faults files.old) }

    // Over steady files what they give is the answer, unless memory runs out: so the first refusal is,
    // whatever stands in the files after it.
    ensures complete { IsTrue (F.steady files.old) →
        CompletesAll (map string_bytes words.now) (F.holds files.old)
        (K.taken out.old) (K.taken out.new) result }

    // A write fault, exactly where one was counted.
    ensures write_fault_counted { result ≡ WRITE_FAULT →
        Rose (K.faults out.old) (K.faults out.new) }
    ensures counted_is_write_fault { K.faults out.old < K.faults out.new → result ≡ WRITE_FAULT }

    ensures read_fault_writes_nothing { result ≡ READ_FAULT → out.new ≡ out.old }
    ensures no_memory_writes_nothing { result ≡ NO_MEMORY → out.new ≡ out.old }
{
    let command = match read_words(alloc, words) {
        Ok(command) => command,
        Err(WordsError::Bad) => return deliver(out, b"rela: bad command line\n", BAD_WORDS),
        Err(WordsError::Memory) => return NO_MEMORY,
    };
    match answer(alloc, files, &command) {
        Ok(answer) => deliver(out, answer.text.as_slice(), answer.status),
        Err(Stop::ReadFault) => READ_FAULT,
        Err(Stop::Memory) => NO_MEMORY,
    }
}

/// Why a run writes nothing.
#[derive(Clone, Copy)]
enum Stop {
    /// A file can't be read.
    ReadFault,
    /// Memory ran out.
    Memory,
}

/// What is answered to the command: what it makes, or the line that an input is refused with.
///
/// # Errors
///
/// `ReadFault` where a file can't be read; `Memory` where memory runs out.
fn answer<F: Files>(alloc: Global, files: &mut F, command: &Command) -> Result<Answer, Stop>
    requires { HasNumbers (command_of command.now) }
    ensures fits { IfOk result (λ answer.
        GivenBy (F.holds files.old) (command_of command.now) (F.given files.new)
        (answer_by answer)) }
    ensures status { IfOk result (λ answer. IsOutcomeStatus answer.status) }
    ensures ok_keeps_count { OnOk result (F.faults files.new ≡ F.faults files.old) }
    ensures fault_counted { result ≡ Err Stop.ReadFault →
        Rose (F.faults files.old) (F.faults files.new) }
    ensures memory_keeps_count { result ≡ Err Stop.Memory →
        F.faults files.new ≡ F.faults files.old }
    ensures steady_is_no_fault { IsTrue (F.steady files.old) →
        HoldsFiles (F.holds files.old) (command_of command.now) →
        (result ≢ Err Stop.ReadFault) × (F.faults files.new ≡ F.faults files.old) }
    ensures complete { IsTrue (F.steady files.old) → IfOk result (λ answer.
        AnswersAll (F.holds files.old) (command_of command.now) (answer_by answer)) }
    ensures fault_gives_nothing { IsTrue (F.steady files.old) → result ≡ Err Stop.ReadFault →
        GivesNothing (F.holds files.old) (command_of command.now) }
    ensures opens_nothing { operands_of (command_of command.now) ≡ [] → files.new ≡ files.old }
{
    match carry_out(alloc, files, command) {
        Ok(answer) => Ok(answer),
        Err(Halt::Refused(refusal)) => match refusal_line(alloc, &refusal) {
            Ok(text) => Ok(Answer {
                text,
                status: REFUSED,
            }),
            Err(_) => Err(Stop::Memory),
        },
        Err(Halt::ReadFault) => Err(Stop::ReadFault),
        Err(Halt::Memory) => Err(Stop::Memory),
    }
}

/// What the command makes.
///
/// # Errors
///
/// The first refusal, read fault or want of memory ends it.
fn carry_out<F: Files>(alloc: Global, files: &mut F, command: &Command) -> Result<Answer, Halt>
    requires { HasNumbers (command_of command.now) }
    ensures given { IsGiven (is_some (F.holds files.old)) (F.steady files.old)
        (SameAnswer (command_of command.now))
        (Outcome (F.holds files.old) (command_of command.now)) (seen answer_by result) }
    ensures status { IfOk result (λ answer. IsOutcomeStatus answer.status) }
    ensures ends { Ends (F.faults files.old) (F.faults files.new)
        (given_to (command_of command.now) (F.given files.new)) result }
    ensures opens_nothing { operands_of (command_of command.now) ≡ [] → files.new ≡ files.old }
    ensures steady_is_no_fault { IsTrue (F.steady files.old) →
        HoldsFiles (F.holds files.old) (command_of command.now) →
        result ≢ Err Halt.ReadFault }
{
    steps_chain::<Brand>();
    match command {
        Command::Check(check) => report_asked(alloc, files, check),
        Command::Fmt(fmt) => format(alloc, files, fmt.spec.as_str()),
        Command::Fib(fib) => draw(
            alloc,
            files,
            fib.tables.as_str(),
            fib.other.as_str(),
            fib.locations.as_str(),
        ),
        Command::Zone(zone) => show_zone(
            alloc,
            files,
            zone.locations.as_str(),
            zone.spec.as_str(),
            zone.name.as_str(),
            zone.states,
        ),
        Command::Rir(rir) => report_assertions(
            alloc,
            files,
            rir.before.as_str(),
            rir.after.as_str(),
            rir.locations.as_str(),
            rir.assertions.as_str(),
            rir.states,
        ),
        Command::Certify(certify) => certify_files(
            alloc,
            files,
            certify.before.as_str(),
            certify.after.as_str(),
            certify.locations.as_str(),
            certify.spec.as_str(),
            certify.states,
        ),
        Command::Audit(audit) => audit_files(
            alloc,
            files,
            audit.before.as_str(),
            audit.after.as_str(),
            audit.locations.as_str(),
            audit.spec.as_str(),
            audit.certificate.as_str(),
        ),
        Command::Demo(demo) => demonstrate(alloc, demo.layers as u32),
    }
}
