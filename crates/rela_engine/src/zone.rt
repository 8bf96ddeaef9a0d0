//! The text of a check's zone.
ghost use Rattle.std.specs.Prelude.{◌≡◌, ◌≢◌, ◌+◌, ◌<◌, ◌≤◌, IfOk, IfErr, All, length};
ghost use Rattle.rela_build.specs.Lettering.{IsAlone};
ghost use Rattle.rela_build.specs.Made.{IsMade};
ghost use Rattle.rela_build.specs.Named.{Names};
ghost use Rattle.rela_build.specs.PathSets.{no_paths, scene_of};
ghost use Rattle.rela_names.specs.Alphabet.{path_symbols};
ghost use Rattle.rela_rir.specs.Limit.{ForcedInside, ReachedInside};
ghost use Rattle.rela_rir.specs.Meaning.{In};
ghost use Rattle.rela_rir.specs.declared.term.PathTerm.TheVariants.{Complement};
ghost use Rattle.rela_engine.specs.Spelled.{IsLeastBy};
ghost use Rattle.rela_engine.specs.Zone.{IsZoneText, ZoneMustPassLimit, ZonePassesLimit};

use crate::automaton_lines::automaton_text;
use crate::laws::Flows;
use rela_blocks::{check_blocks, check_letters, named_symbols_are_alone};
use rela_build::{Builder, Letters, NoPaths, Stop};
use rela_complement::{LimitedComplements, least_over};
use rela_labels::WideSet;
use rela_names::Alphabet;
use rela_nfa::{BuildError, Nfa};
use rela_rir::{
    PathTerm, complemented_parts_of_path_terms, complements_inside, reached_inside_path_terms,
    reached_states_are_places,
};
use rela_subset::Dfa;
use rela_translate::{Check, zone_term};
use std::alloc::Global;

/// The text of the check's zone, under the alphabet of its level, of which its class table lists path
/// symbols alone: the minimal complete deterministic automaton of the zone's words over the path symbols.
/// Its states are numbered as words first arrive at them, in shortlex order. Each construction may have
/// at most `states` states.
///
/// Time and space: those of the constructions, each of at most `states` states, and for the text a step
/// for each state and each path symbol, and a sort of the states to which symbols lead from each state.
///
/// # Errors
///
/// - `Limit` only where the zone's complement, or a meet or a complement in the zone, has more reached
///   places than `states`, and always where the zone, or the part of a complement in it, tells more words.
/// - `Memory` where there isn't memory.
pub fn zone_text(
    alloc: Global,
    check: &Check,
    alphabet: &Alphabet,
    states: usize,
) -> Result<Vec<u8>, BuildError>
    requires classes { All (λ set. All (λ s. s < path_symbols alphabet.now) set.members)
        check.now.classes }
    requires some { 1 ≤ states }
    ensures text { IfOk result (λ text. IsZoneText check.now alphabet.now text.items) }
    ensures within { IfOk result (λ _.
        ¬ ZoneMustPassLimit check.now (length alphabet.now) states) }
    ensures past { IfErr result (λ e. e ≡ BuildError.Limit →
        ZonePassesLimit check.now (length alphabet.now) states) }
{
    named_symbols_are_alone();
    // By what each check keeps, its markers are numbered from 1 on.
    let _ = check.body();
    let blocks = check_blocks(alloc, check, alphabet)?;
    let letters = check_letters(alloc, check, alphabet, &blocks)?;
    let zone = zone_term(alloc, check, alphabet)?;
    let least = least_automaton(alloc, &zone, &letters, states)?;
    let text = automaton_text(alloc, &least, &blocks, alphabet)?;
    Ok(text)
}

/// The minimal automaton, over these letters, of the words of path symbols in the term.
///
/// # Errors
///
/// - `Limit` only where some counted term in the term's complement has more reached places than the
///   limit, and always where a complement in that has a part that tells more words.
/// - `Memory` where there isn't memory.
fn least_automaton(
    alloc: Global,
    term: &PathTerm,
    letters: &Letters<'_>,
    limit: usize,
) -> Result<Dfa<WideSet>, BuildError>
    requires limit { 1 ≤ limit }
    requires alone { Names (IsAlone letters.now.blocks) term.now }
    ensures least { IfOk result (IsLeastBy letters.now.blocks letters.now.path_symbols
        (In (scene_of letters.now no_paths).setting term.now)) }
    ensures within { IfOk result (λ _.
        ¬ ForcedInside (scene_of letters.now no_paths) (limit + 1) (Complement term.now)) }
    ensures past { IfErr result (λ e. e ≡ BuildError.Limit →
        ReachedInside (scene_of letters.now no_paths) (limit + 1) (Complement term.now)) }
{
    letters.are_covered();
    reached_inside_path_terms::<Flows>();
    complemented_parts_of_path_terms();
    complements_inside::<Flows>();
    reached_states_are_places::<Flows>();
    let words = plain_automaton(alloc, term, letters, limit)?;
    let least = least_over(alloc, &words, letters.path(), limit)?;
    prove!(least.start() < least.states());
    Ok(least)
}

/// The automaton of the term as it is built, with complements under the limit.
///
/// # Errors
///
/// - `Limit` only where some counted term in the term has more reached places than the limit, and always
///   where a complement in it has a part that tells more words.
/// - `Memory` where there isn't memory.
fn plain_automaton(
    alloc: Global,
    term: &PathTerm,
    letters: &Letters<'_>,
    limit: usize,
) -> Result<Nfa<WideSet>, BuildError>
    requires limit { 1 ≤ limit }
    requires alone { Names (IsAlone letters.now.blocks) term.now }
    ensures made { IfOk result (IsMade ⊥ letters.now no_paths term.now) }
    ensures within { IfOk result (λ _.
        ¬ ForcedInside (scene_of letters.now no_paths) (limit + 1) term.now) }
    ensures past { IfErr result (λ e. e ≡ BuildError.Limit →
        ReachedInside (scene_of letters.now no_paths) (limit + 1) term.now) }
{
    letters.are_covered();
    complements_inside::<Flows>();
    reached_states_are_places::<Flows>();
    let complements = LimitedComplements::new(alloc, limit);
    let builder = Builder {
        letters,
        paths: &NoPaths,
        complements: &complements,
        limit,
    };
    let mut notes = Vec::new(alloc);
    match builder.automaton(alloc, term, &mut notes) {
        Ok(words) => Ok(words),
        Err(stop) => Err(error_of(stop)),
    }
}

/// The error where a term isn't built: `Limit` but where there isn't memory.
fn error_of(stop: Stop) -> BuildError
    ensures limit { result ≡ BuildError.Limit → stop ≢ Stop.Memory }
    ensures memory { result ≡ BuildError.Memory → stop ≡ Stop.Memory }
{
    match stop {
        Stop::Limit | Stop::Refused(_) => BuildError::Limit,
        Stop::Memory => BuildError::Memory,
    }
}
