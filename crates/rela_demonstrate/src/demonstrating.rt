//! The layered input of a size, and the report on its change. No file is opened.

ghost use Rattle.std.specs.Prelude.{◌≡◌, ℕ, ◌≤◌, IfOk};
ghost use Rattle.std.specs.List.{All};
ghost use Rattle.rela_names.specs.declared.level.Level.{Level};
ghost use Rattle.rela_locations.specs.Network.{alphabet_of};
ghost use Rattle.rela_snapshot.specs.PairsLocated.{ArePairsLocated};
ghost use Rattle.rela_expand.specs.Listed.{ListsPathSymbols};
ghost use Rattle.rela_demo.specs.Input.{AreShort};
ghost use Rattle.rela_demo.specs.Locations.{network};
ghost use Rattle.rela_demo.specs.Specification.{specification};
ghost use Rattle.rela_inputs.specs.Answer.{answer_by, IsOutcomeStatus};
ghost use Rattle.rela_change_report.specs.Reports.{SameReports};
ghost use Rattle.rela_demonstrate.specs.Demos.{AreLayered, Demos, IsInput, LoadsLayered, OrMemory};
ghost use Rattle.rela_inputs.specs.Given.{IsRead, seen};
ghost use Rattle.rela_inputs.specs.Loaded.{SameLoaded, loaded_by, names_of};
ghost use Rattle.rela_inputs.specs.Specified.{IsSpecified, specified_by};
ghost use Rattle.rela_rows.specs.Rows.{AreChecksAt};

use rela_change_report::{report_on, same_changes_agree};
use rela_demo::{DemoInput, flows_do_not_differ, generate};
use rela_inputs::{
    Answer, Asked, Halt, Input, Loaded, ask, loads_are_the_same, pair_flows, read_locations,
    read_snapshot, read_tree, steps_chain,
};
use rela_locations::Locations;
use rela_rir::{sizes_of_path_terms, sizes_of_rel_terms};
use rela_snapshot::FlowPair;
use rela_words::DEFAULT_STATES;
use std::alloc::Global;
use std::marker::Brand;

/// Makes the input of so many layers, and the report on its change. Nothing of it is refused.
///
/// # Errors
///
/// Only where memory is wanted.
pub fn demonstrate(alloc: Global, layers: u32) -> Result<Answer, Halt>
    requires from_one { 1 ≤ layers }
    requires at_most { layers ≤ 200 }
    ensures report { IsRead SameReports (Demos layers) (seen answer_by result) }
    ensures status { IfOk result (λ answer. IsOutcomeStatus answer.status) }
{
    steps_chain::<Brand>();
    same_changes_agree();
    let loaded = load_layered(alloc, layers)?;
    Ok(report_on(alloc, &loaded, DEFAULT_STATES)?)
}

/// The input of so many layers, loaded from its texts. Time and space: those of reading them.
///
/// # Errors
///
/// Only where memory is wanted.
fn load_layered(alloc: Global, layers: u32) -> Result<Loaded, Halt>
    requires from_one { 1 ≤ layers }
    requires at_most { layers ≤ 200 }
    ensures layered { IsRead SameLoaded (LoadsLayered layers) (seen loaded_by result) }
    ensures checks { IfOk result (λ loaded. AreChecksAt (names_of (loaded_by loaded))
        loaded.pairs.items loaded.asked.checks.items) }
{
    let input = generate(alloc, layers)?;
    load_texts(alloc, &input)
}

/// What the texts of an input are loaded as. Time and space: those of reading them.
///
/// # Errors
///
/// The first refusal or want of memory ends it; nothing of a layered input is refused.
fn load_texts(alloc: Global, input: &DemoInput) -> Result<Loaded, Halt>
    requires short { AreShort input.now }
    ensures layered { (n : ℕ) → IsInput n input.now →
        IsRead SameLoaded (LoadsLayered n) (seen loaded_by result) }
    ensures checks { IfOk result (λ loaded. AreChecksAt (names_of (loaded_by loaded))
        loaded.pairs.items loaded.asked.checks.items) }
{
    let locations = read_locations(alloc, input.locations())?;
    let change = read_change(alloc, input, &locations)?;
    loads_are_the_same();
    Ok(Loaded {
        locations,
        pairs: change.0,
        asked: change.1,
    })
}

/// The flows of the two snapshots of an input, side by side, and what its specification asks for.
///
/// # Errors
///
/// The first refusal or want of memory ends it; nothing of a layered input is refused.
fn read_change(
    alloc: Global,
    input: &DemoInput,
    locations: &Locations,
) -> Result<(Vec<FlowPair>, Asked), Halt>
    requires short { AreShort input.now }
    ensures layered { (n : ℕ) → locations.now ≡ network n → IsInput n input.now →
        OrMemory (λ change. AreLayered n change.0.items ×
        IsSpecified (network n) (specification n) (specified_by change.1)) result }
    ensures located { IfOk result (λ change. (level : Level) →
        ArePairsLocated (alphabet_of level locations.now) level change.0.items) }
    ensures listed { IfOk result (λ change.
        All (ListsPathSymbols (alphabet_of change.1.level locations.now)) change.1.checks.items) }
    ensures levels { IfOk result (λ change.
        All (λ check. check.level ≡ change.1.level) change.1.checks.items) }
{
    let pairs = read_pairs(alloc, input, locations)?;
    let asked = read_checks(alloc, input, locations)?;
    Ok((pairs, asked))
}

/// The flows of the two snapshots of an input, side by side. Their graphs lie in the locations.
///
/// # Errors
///
/// The first refusal or want of memory ends it; nothing of a layered input is refused.
fn read_pairs(
    alloc: Global,
    input: &DemoInput,
    locations: &Locations,
) -> Result<Vec<FlowPair>, Halt>
    requires short { AreShort input.now }
    ensures layered { (n : ℕ) → locations.now ≡ network n → IsInput n input.now →
        OrMemory (λ pairs. AreLayered n pairs.items) result }
    ensures located { IfOk result (λ pairs. (level : Level) →
        ArePairsLocated (alphabet_of level locations.now) level pairs.items) }
{
    // Pairing the flows of a layered input refuses nothing.
    flows_do_not_differ();
    let before = read_snapshot(alloc, Input::Before, input.before(), locations)?;
    let after = read_snapshot(alloc, Input::After, input.after(), locations)?;
    pair_flows(alloc, before, after)
}

/// What the specification of an input asks for over the locations.
///
/// # Errors
///
/// The first refusal or want of memory ends it; nothing of a layered input is refused.
fn read_checks(alloc: Global, input: &DemoInput, locations: &Locations) -> Result<Asked, Halt>
    requires short { AreShort input.now }
    ensures layered { (n : ℕ) → locations.now ≡ network n → IsInput n input.now →
        OrMemory (λ asked. IsSpecified (network n) (specification n) (specified_by asked))
        result }
    ensures listed { IfOk result (λ asked.
        All (ListsPathSymbols (alphabet_of asked.level locations.now)) asked.checks.items) }
    ensures levels { IfOk result (λ asked.
        All (λ check. check.level ≡ asked.level) asked.checks.items) }
{
    sizes_of_path_terms();
    sizes_of_rel_terms();
    let file = read_tree(alloc, input.spec())?;
    ask(alloc, &file, locations)
}
