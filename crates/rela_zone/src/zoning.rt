//! From the locations and the specification to the zone of a check.

ghost use Rattle.std.specs.Prelude.{◌≡◌, ◌≢◌, ◌≤◌, Err, All, IsTrue, IfOk, is_some, option_copied};
ghost use Rattle.std.specs.Str.{bytes_eq};
ghost use Rattle.rela_expand.specs.Listed.{ListsPathSymbols};
ghost use Rattle.rela_io.specs.Held.{HoldsName};
ghost use Rattle.rela_locations.specs.Network.{alphabet_of};
ghost use Rattle.rela_snapshot.specs.Steps.{Is};
ghost use Rattle.rela_inputs.specs.Answer.{answer_by, IsOutcomeStatus};
ghost use Rattle.rela_inputs.specs.Given.{Equals, IsGiven, IsRead, seen};
ghost use Rattle.rela_inputs.specs.Reading.{Ends};
ghost use Rattle.rela_inputs.specs.Specified.{specified_by};
ghost use Rattle.rela_zone.specs.Zones.{IsZoneAnswer, SameZones, ShowsZone, Zones, check_named, or_unknown};

use rela_engine::{zone_text, zone_texts_are_one};
use rela_inputs::{
    Answer, Asked, Halt, Input, MET, Reason, UNDECIDED, calls_inside_end, load_locations,
    load_spec, refused, same_checks_are_equal, steps_chain,
};
use rela_io::Files;
use rela_locations::Locations;
use rela_names::Alphabet;
use rela_nfa::BuildError;
use rela_translate::Check;
use std::alloc::{AllocError, Global};
use std::marker::Brand;

/// Reads the locations and the specification in the files of these names, in this order, and writes
/// the zone of the check of this name. No construction for it has more than `states` states: where
/// that doesn't suffice, the answer is the line `undecided`. Time and space: those of decoding the
/// files and of [`zone_text`].
///
/// # Errors
///
/// The first refusal, read fault or want of memory ends it.
pub fn show_zone<F: Files>(
    alloc: Global,
    files: &mut F,
    locations: &str,
    spec: &str,
    name: &str,
    states: usize,
) -> Result<Answer, Halt>
    requires some { 1 ≤ states }
    ensures given { IsGiven (is_some (F.holds files.old)) (F.steady files.old) SameZones
        (Zones (F.holds files.old) locations.now spec.now name.now states)
        (seen answer_by result) }
    ensures status { IfOk result (λ answer. IsOutcomeStatus answer.status) }
    ensures ends { Ends (F.faults files.old) (F.faults files.new) (F.given files.new) result }
    ensures steady_is_no_fault { IsTrue (F.steady files.old) →
        HoldsName (F.holds files.old) locations.now →
        HoldsName (F.holds files.old) spec.now →
        result ≢ Err Halt.ReadFault }
{
    steps_chain::<Brand>();
    same_checks_are_equal();
    calls_inside_end::<Answer>();
    let locations = load_locations(alloc, files, locations)?;
    let asked = load_spec(alloc, files, spec, &locations)?;
    zone_asked_for(alloc, &locations, &asked, name, states)
}

/// The zone of the check of this name, of those that are asked for over the locations.
///
/// # Errors
///
/// `Refused` where no check has the name; `Memory`.
fn zone_asked_for(
    alloc: Global,
    locations: &Locations,
    asked: &Asked,
    name: &str,
    states: usize,
) -> Result<Answer, Halt>
    requires some { 1 ≤ states }
    requires listed { All (ListsPathSymbols (alphabet_of asked.now.level locations.now))
        asked.now.checks.items }
    ensures zone { IsRead SameZones
        (ShowsZone locations.now name.now states (specified_by asked.now)) (seen answer_by result) }
    ensures status { IfOk result (λ answer. IsOutcomeStatus answer.status) }
{
    steps_chain::<Brand>();
    let check = check_named(&asked.checks, name)?;
    let alphabet = locations.alphabet(asked.level);
    zone_texts_are_one();
    Ok(zone_of(alloc, check, alphabet, states)?)
}

/// The check of this name.
///
/// # Errors
///
/// `Refused` where none of the checks has it.
fn check_named<'a>(checks: &'a [Check], name: &str) -> Result<&'a Check, Halt>
    ensures { IsRead Equals (Is (or_unknown (check_named name.now checks.now)))
        (seen (λ check. check.now) result) }
{
    match find_check(checks, name) {
        Some(check) => Ok(check),
        None => Err(refused(Input::Words, Reason::UnknownCheck)),
    }
}

/// The first check that has this name, if any.
fn find_check<'a>(checks: &'a [Check], name: &str) -> Option<&'a Check>
    ensures { option_copied result ≡ check_named name.now checks.now }
{
    checks.iter().find(|check| has_name(check, name))
}

/// Whether the check has this name.
fn has_name(check: &Check, name: &str) -> bool
    ensures { result ≡ bytes_eq name.now check.now.name }
{
    name.as_bytes() == check.name().as_bytes()
}

/// The text of the check's zone, or the line that says that it is left open. The locations are those
/// of the check's level. The only error is want of memory.
fn zone_of(
    alloc: Global,
    check: &Check,
    alphabet: &Alphabet,
    states: usize,
) -> Result<Answer, AllocError>
    requires some { 1 ≤ states }
    requires listed { ListsPathSymbols alphabet.now check.now }
    ensures zone { IfOk result (λ answer.
        IsZoneAnswer alphabet.now states check.now (answer_by answer)) }
    ensures status { IfOk result (λ answer. IsOutcomeStatus answer.status) }
{
    match zone_text(alloc, check, alphabet, states) {
        Ok(text) => Ok(Answer { text, status: MET }),
        Err(BuildError::Limit) => Ok(Answer {
            text: Vec::from_slice(alloc, b"undecided\n")?,
            status: UNDECIDED,
        }),
        Err(BuildError::Memory) => Err(AllocError),
    }
}
