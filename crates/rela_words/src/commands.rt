//! Each command, read from the parts of its words.

ghost use Rattle.std.specs.Prelude.{◌≡◌, IfOk, IfErr, codes, string_bytes};
ghost use Rattle.rela_words.specs.Commands.{command_of};
ghost use Rattle.rela_words.specs.Parts.{FitJust, FitNothing, parts_of};

use crate::command::{Audit, Certify, Check, Command, Demo, Fib, Fmt, MAX_LAYERS, Rir, Zone};
use crate::errors::WordsError;
use crate::number::number_of;
use crate::parts::Parts;
use std::alloc::{AllocError, Global};

/// `check`: four operands, a state limit and the flag.
///
/// # Errors
///
/// `Bad` where the parts aren't those of such a command.
pub(crate) fn read_check(alloc: Global, parts: &Parts<'_>) -> Result<Command, WordsError>
    ensures fits { IfOk result (λ c. FitJust (codes "check") (parts_of parts.now) (command_of c)) }
    ensures bad { IfErr result (λ e. e ≡ WordsError.Bad
        → FitNothing (codes "check") (parts_of parts.now)) }
{
    let states = parts.states().ok_or(WordsError::Bad)?;
    let Some([before, after, locations, spec]) = parts.operands() else {
        return Err(WordsError::Bad);
    };
    let spec = String::from_str(alloc, spec)?;
    let (before, after, locations) = copies(alloc, before, after, locations)?;
    Ok(Command::Check(Check {
        before,
        after,
        locations,
        spec,
        states,
        blame: parts.blame,
    }))
}

/// `fmt`: one operand.
///
/// # Errors
///
/// `Bad` where the parts aren't those of such a command.
pub(crate) fn read_fmt(alloc: Global, parts: &Parts<'_>) -> Result<Command, WordsError>
    ensures fits { IfOk result (λ c. FitJust (codes "fmt") (parts_of parts.now) (command_of c)) }
    ensures bad { IfErr result (λ e. e ≡ WordsError.Bad
        → FitNothing (codes "fmt") (parts_of parts.now)) }
{
    if !parts.have_no_options() {
        return Err(WordsError::Bad);
    }
    let Some([spec]) = parts.operands() else {
        return Err(WordsError::Bad);
    };
    Ok(Command::Fmt(Fmt {
        spec: String::from_str(alloc, spec)?,
    }))
}

/// `fib`: three operands.
///
/// # Errors
///
/// `Bad` where the parts aren't those of such a command.
pub(crate) fn read_fib(alloc: Global, parts: &Parts<'_>) -> Result<Command, WordsError>
    ensures fits { IfOk result (λ c. FitJust (codes "fib") (parts_of parts.now) (command_of c)) }
    ensures bad { IfErr result (λ e. e ≡ WordsError.Bad
        → FitNothing (codes "fib") (parts_of parts.now)) }
{
    if !parts.have_no_options() {
        return Err(WordsError::Bad);
    }
    let Some([tables, other, locations]) = parts.operands() else {
        return Err(WordsError::Bad);
    };
    let (tables, other, locations) = copies(alloc, tables, other, locations)?;
    Ok(Command::Fib(Fib {
        tables,
        other,
        locations,
    }))
}

/// `zone`: three operands and a state limit.
///
/// # Errors
///
/// `Bad` where the parts aren't those of such a command.
pub(crate) fn read_zone(alloc: Global, parts: &Parts<'_>) -> Result<Command, WordsError>
    ensures fits { IfOk result (λ c. FitJust (codes "zone") (parts_of parts.now) (command_of c)) }
    ensures bad { IfErr result (λ e. e ≡ WordsError.Bad
        → FitNothing (codes "zone") (parts_of parts.now)) }
{
    let states = parts.states_without_flag().ok_or(WordsError::Bad)?;
    let Some([locations, spec, name]) = parts.operands() else {
        return Err(WordsError::Bad);
    };
    let (locations, spec, name) = copies(alloc, locations, spec, name)?;
    Ok(Command::Zone(Zone {
        locations,
        spec,
        name,
        states,
    }))
}

/// `rir`: four operands and a state limit.
///
/// # Errors
///
/// `Bad` where the parts aren't those of such a command.
pub(crate) fn read_rir(alloc: Global, parts: &Parts<'_>) -> Result<Command, WordsError>
    ensures fits { IfOk result (λ c. FitJust (codes "rir") (parts_of parts.now) (command_of c)) }
    ensures bad { IfErr result (λ e. e ≡ WordsError.Bad
        → FitNothing (codes "rir") (parts_of parts.now)) }
{
    let states = parts.states_without_flag().ok_or(WordsError::Bad)?;
    let Some([before, after, locations, assertions]) = parts.operands() else {
        return Err(WordsError::Bad);
    };
    let assertions = String::from_str(alloc, assertions)?;
    let (before, after, locations) = copies(alloc, before, after, locations)?;
    Ok(Command::Rir(Rir {
        before,
        after,
        locations,
        assertions,
        states,
    }))
}

/// `certify`: four operands and a state limit.
///
/// # Errors
///
/// `Bad` where the parts aren't those of such a command.
pub(crate) fn read_certify(alloc: Global, parts: &Parts<'_>) -> Result<Command, WordsError>
    ensures fits { IfOk result (λ c. FitJust (codes "certify") (parts_of parts.now)
        (command_of c)) }
    ensures bad { IfErr result (λ e. e ≡ WordsError.Bad
        → FitNothing (codes "certify") (parts_of parts.now)) }
{
    let states = parts.states_without_flag().ok_or(WordsError::Bad)?;
    let Some([before, after, locations, spec]) = parts.operands() else {
        return Err(WordsError::Bad);
    };
    let spec = String::from_str(alloc, spec)?;
    let (before, after, locations) = copies(alloc, before, after, locations)?;
    Ok(Command::Certify(Certify {
        before,
        after,
        locations,
        spec,
        states,
    }))
}

/// `audit`: five operands.
///
/// # Errors
///
/// `Bad` where the parts aren't those of such a command.
pub(crate) fn read_audit(alloc: Global, parts: &Parts<'_>) -> Result<Command, WordsError>
    ensures fits { IfOk result (λ c. FitJust (codes "audit") (parts_of parts.now) (command_of c)) }
    ensures bad { IfErr result (λ e. e ≡ WordsError.Bad
        → FitNothing (codes "audit") (parts_of parts.now)) }
{
    if !parts.have_no_options() {
        return Err(WordsError::Bad);
    }
    let Some([before, after, locations, spec, certificate]) = parts.operands() else {
        return Err(WordsError::Bad);
    };
    let spec = String::from_str(alloc, spec)?;
    let certificate = String::from_str(alloc, certificate)?;
    let (before, after, locations) = copies(alloc, before, after, locations)?;
    Ok(Command::Audit(Audit {
        before,
        after,
        locations,
        spec,
        certificate,
    }))
}

/// `demo`: one operand, a number.
///
/// # Errors
///
/// `Bad` where the parts aren't those of such a command.
pub(crate) fn read_demo(parts: &Parts<'_>) -> Result<Command, WordsError>
    ensures fits { IfOk result (λ c. FitJust (codes "demo") (parts_of parts.now) (command_of c)) }
    ensures bad { IfErr result (λ e. e ≡ WordsError.Bad
        → FitNothing (codes "demo") (parts_of parts.now)) }
    ensures fault { IfErr result (λ e. e ≡ WordsError.Bad) }
{
    if !parts.have_no_options() {
        return Err(WordsError::Bad);
    }
    let Some([layers]) = parts.operands() else {
        return Err(WordsError::Bad);
    };
    let layers = number_of(layers, MAX_LAYERS).ok_or(WordsError::Bad)?;
    Ok(Command::Demo(Demo { layers }))
}

/// Copies of three operands. The only error is want of memory.
fn copies(
    alloc: Global,
    first: &str,
    second: &str,
    third: &str,
) -> Result<(String, String, String), AllocError>
    ensures first { IfOk result (λ made. string_bytes made.0 ≡ first.now) }
    ensures second { IfOk result (λ made. string_bytes made.1 ≡ second.now) }
    ensures third { IfOk result (λ made. string_bytes made.2 ≡ third.now) }
{
    Ok((
        String::from_str(alloc, first)?,
        String::from_str(alloc, second)?,
        String::from_str(alloc, third)?,
    ))
}
