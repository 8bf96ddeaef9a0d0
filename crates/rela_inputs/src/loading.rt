//! Loading each input: its file is read whole, and then its text. The first refusal or fault is the
//! answer.

ghost use Rattle.std.specs.Prelude.{◌≡◌, ◌≢◌, Err, All, IsTrue, IfOk, is_some};
ghost use Rattle.rela_expand.specs.Listed.{ListsPathSymbols};
ghost use Rattle.rela_names.specs.declared.level.Level.{Level};
ghost use Rattle.rela_locations.specs.Network.{alphabet_of};
ghost use Rattle.rela_snapshot.specs.Located.{AreLocated};
ghost use Rattle.rela_snapshot.specs.PairsLocated.{ArePairsLocated};
ghost use Rattle.rela_io.specs.Held.{HoldsName};
ghost use Rattle.rela_spec.specs.Depth.{IsLow};
ghost use Rattle.rela_spec.specs.Full.{IsFull};
ghost use Rattle.rela_tables.specs.Located.{IsForwardingIn};
ghost use Rattle.rela_inputs.specs.Given.{Equals, IsGiven, seen};
ghost use Rattle.rela_inputs.specs.Inputs.{BytesOf, Gives, ReadsNetwork, ReadsFlows, ReadsTables};
ghost use Rattle.rela_inputs.specs.Paired.{GivesPairs};
ghost use Rattle.rela_inputs.specs.Reading.{Ends};
ghost use Rattle.rela_same_flows.specs.SameFlows.{SameFlows, SamePairs};
ghost use Rattle.rela_spec.specs.Grammar.{Spells};
ghost use Rattle.rela_inputs.specs.Specifications.{ReadsTree, ReadsWritten, written_by};
ghost use Rattle.rela_inputs.specs.Specified.{ReadsChecks, SameSpecified, specified_by};

use crate::asking::{Asked, Written, read_asked, read_tree, read_written};
use crate::reading::{Halt, read_input};
use crate::refusal::Input;
use crate::texts::{pair_flows, read_locations, read_snapshot, read_tables};
use rela_io::Files;
use rela_locations::Locations;
use rela_snapshot::{FlowPair, Snapshot};
use rela_spec::SpecFile;
use rela_tables::Tables;
use std::alloc::Global;

/// The locations in the file of this name.
///
/// # Errors
///
/// `ReadFault` where the file can't be read; `Refused` where it is too long, or for its first
/// fault; `Memory`.
pub fn load_locations<F: Files>(alloc: Global, files: &mut F, name: &str) -> Result<Locations, Halt>
    ensures given { IsGiven (is_some (F.holds files.old)) (F.steady files.old) Equals
        (Gives (BytesOf (F.holds files.old) name.now Input.Locations) ReadsNetwork) result }
    ensures ends { Ends (F.faults files.old) (F.faults files.new) (F.given files.new) result }
    ensures steady_is_no_fault { IsTrue (F.steady files.old) →
        HoldsName (F.holds files.old) name.now →
        result ≢ Err Halt.ReadFault }
    ensures same_holds { F.holds files.new ≡ F.holds files.old }
    ensures same_steady { F.steady files.new ≡ F.steady files.old }
{
    let text = read_input(alloc, files, Input::Locations, name)?;
    read_locations(alloc, text.as_slice())
}

/// The snapshot in the file of this name, which stands for this input. Its graphs lie in the
/// locations.
///
/// # Errors
///
/// `ReadFault` where the file can't be read; `Refused` where it is too long, or for its first
/// fault; `Memory`.
pub fn load_snapshot<F: Files>(
    alloc: Global,
    files: &mut F,
    input: Input,
    name: &str,
    locations: &Locations,
) -> Result<Snapshot, Halt>
    ensures given { IsGiven (is_some (F.holds files.old)) (F.steady files.old) SameFlows
        (Gives (BytesOf (F.holds files.old) name.now input) (ReadsFlows input locations.now))
        result }
    ensures located { IfOk result (λ snapshot.
        (level : Level) → AreLocated (alphabet_of level locations.now) level snapshot) }
    ensures ends { Ends (F.faults files.old) (F.faults files.new) (F.given files.new) result }
    ensures steady_is_no_fault { IsTrue (F.steady files.old) →
        HoldsName (F.holds files.old) name.now →
        result ≢ Err Halt.ReadFault }
    ensures same_holds { F.holds files.new ≡ F.holds files.old }
    ensures same_steady { F.steady files.new ≡ F.steady files.old }
{
    let text = read_input(alloc, files, input, name)?;
    read_snapshot(alloc, input, text.as_slice(), locations)
}

/// The tables in the file of this name, which stands for this input; they speak of the locations.
///
/// # Errors
///
/// `ReadFault` where the file can't be read; `Refused` where it is too long, or for its first
/// fault; `Memory`.
pub fn load_tables<F: Files>(
    alloc: Global,
    files: &mut F,
    input: Input,
    name: &str,
    locations: &Locations,
) -> Result<Tables, Halt>
    ensures given { IsGiven (is_some (F.holds files.old)) (F.steady files.old) Equals
        (Gives (BytesOf (F.holds files.old) name.now input) (ReadsTables input locations.now))
        result }
    ensures located { IfOk result (IsForwardingIn locations.now) }
    ensures ends { Ends (F.faults files.old) (F.faults files.new) (F.given files.new) result }
    ensures steady_is_no_fault { IsTrue (F.steady files.old) →
        HoldsName (F.holds files.old) name.now →
        result ≢ Err Halt.ReadFault }
    ensures same_holds { F.holds files.new ≡ F.holds files.old }
    ensures same_steady { F.steady files.new ≡ F.steady files.old }
{
    let text = read_input(alloc, files, input, name)?;
    read_tables(alloc, input, text.as_slice(), locations)
}

/// The flows of the snapshots in the files of these names, side by side. Their graphs lie in the
/// locations.
///
/// # Errors
///
/// That of the snapshot before, or else of the one after, as [`load_snapshot`] gives it; else
/// `Refused` where a flow differs between them; `Memory`.
pub fn load_pairs<F: Files>(
    alloc: Global,
    files: &mut F,
    before: &str,
    after: &str,
    locations: &Locations,
) -> Result<Vec<FlowPair>, Halt>
    ensures given { IsGiven (is_some (F.holds files.old)) (F.steady files.old) SamePairs
        (GivesPairs locations.now (BytesOf (F.holds files.old) before.now Input.Before)
        (BytesOf (F.holds files.old) after.now Input.After))
        (seen (λ pairs. pairs.items) result) }
    ensures located { IfOk result (λ pairs. (level : Level) →
        ArePairsLocated (alphabet_of level locations.now) level pairs.items) }
    ensures ends { Ends (F.faults files.old) (F.faults files.new) (F.given files.new) result }
    ensures steady_is_no_fault { IsTrue (F.steady files.old) →
        HoldsName (F.holds files.old) before.now →
        HoldsName (F.holds files.old) after.now →
        result ≢ Err Halt.ReadFault }
    ensures same_holds { F.holds files.new ≡ F.holds files.old }
    ensures same_steady { F.steady files.new ≡ F.steady files.old }
{
    let earlier = load_snapshot(alloc, files, Input::Before, before, locations)?;
    let later = load_snapshot(alloc, files, Input::After, after, locations)?;
    pair_flows(alloc, earlier, later)
}

/// The tree of the specification in the file of this name, as [`read_tree`] gives it.
///
/// # Errors
///
/// `ReadFault` where the file can't be read; `Refused` where it is too long, or for its first
/// fault; `Memory`.
pub fn load_tree<F: Files>(alloc: Global, files: &mut F, name: &str) -> Result<SpecFile, Halt>
    ensures given { IsGiven (is_some (F.holds files.old)) (F.steady files.old) Equals
        (Gives (BytesOf (F.holds files.old) name.now Input.Spec) ReadsTree) result }
    ensures full { IfOk result (λ file. IsFull file) }
    ensures low { IfOk result (λ file. All IsLow file.items) }
    ensures ends { Ends (F.faults files.old) (F.faults files.new) (F.given files.new) result }
    ensures steady_is_no_fault { IsTrue (F.steady files.old) →
        HoldsName (F.holds files.old) name.now →
        result ≢ Err Halt.ReadFault }
    ensures same_holds { F.holds files.new ≡ F.holds files.old }
    ensures same_steady { F.steady files.new ≡ F.steady files.old }
{
    let text = read_input(alloc, files, Input::Spec, name)?;
    read_tree(alloc, text.as_slice())
}

/// The specification in the file of this name as it is written, as [`read_written`] gives it.
///
/// # Errors
///
/// `ReadFault` where the file can't be read; `Refused` where it is too long, or for its first
/// fault; `Memory`.
pub fn load_written<F: Files>(alloc: Global, files: &mut F, name: &str) -> Result<Written, Halt>
    ensures given { IsGiven (is_some (F.holds files.old)) (F.steady files.old) Equals
        (Gives (BytesOf (F.holds files.old) name.now Input.Spec) ReadsWritten)
        (seen written_by result) }
    ensures full { IfOk result (λ written. IsFull written.file) }
    ensures low { IfOk result (λ written. All IsLow written.file.items) }
    ensures spells { IfOk result (λ written. Spells written.tokens.items written.file) }
    ensures ends { Ends (F.faults files.old) (F.faults files.new) (F.given files.new) result }
    ensures steady_is_no_fault { IsTrue (F.steady files.old) →
        HoldsName (F.holds files.old) name.now →
        result ≢ Err Halt.ReadFault }
    ensures same_holds { F.holds files.new ≡ F.holds files.old }
    ensures same_steady { F.steady files.new ≡ F.steady files.old }
{
    let text = read_input(alloc, files, Input::Spec, name)?;
    read_written(alloc, text.as_slice())
}

/// What the specification in the file of this name asks for over these locations.
///
/// # Errors
///
/// `ReadFault` where the file can't be read; `Refused` where it is too long, or for its first
/// fault; `Memory`.
pub fn load_spec<F: Files>(
    alloc: Global,
    files: &mut F,
    name: &str,
    locations: &Locations,
) -> Result<Asked, Halt>
    ensures given { IsGiven (is_some (F.holds files.old)) (F.steady files.old) SameSpecified
        (Gives (BytesOf (F.holds files.old) name.now Input.Spec) (ReadsChecks locations.now))
        (seen specified_by result) }
    ensures listed { IfOk result (λ asked.
        All (ListsPathSymbols (alphabet_of asked.level locations.now)) asked.checks.items) }
    ensures levels { IfOk result (λ asked.
        All (λ check. check.level ≡ asked.level) asked.checks.items) }
    ensures ends { Ends (F.faults files.old) (F.faults files.new) (F.given files.new) result }
    ensures steady_is_no_fault { IsTrue (F.steady files.old) →
        HoldsName (F.holds files.old) name.now →
        result ≢ Err Halt.ReadFault }
    ensures same_holds { F.holds files.new ≡ F.holds files.old }
    ensures same_steady { F.steady files.new ≡ F.steady files.old }
{
    let text = read_input(alloc, files, Input::Spec, name)?;
    read_asked(alloc, text.as_slice(), locations)
}
