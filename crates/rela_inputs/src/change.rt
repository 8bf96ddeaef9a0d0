//! A change, loaded: what its four inputs stand for, before anything of it is decided.

ghost use Rattle.std.specs.Prelude.{◌≡◌, ◌≢◌, All, Err, IsTrue, IfOk, is_some};
ghost use Rattle.rela_expand.specs.Listed.{ListsPathSymbols};
ghost use Rattle.rela_io.specs.Held.{HoldsName};
ghost use Rattle.rela_snapshot.specs.PairsLocated.{ArePairsLocated};
ghost use Rattle.rela_inputs.specs.Given.{IsGiven, seen};
ghost use Rattle.rela_inputs.specs.Inputs.{BytesOf};
ghost use Rattle.rela_inputs.specs.Loaded.{Loads, NamesDiffer, SameLoaded, loaded_by, names_of};
ghost use Rattle.rela_inputs.specs.Reading.{Ends};
ghost use Rattle.rela_inputs.specs.declared.refusal.Input.TheVariants as input;

use crate::asking::Asked;
use crate::loading::{load_locations, load_pairs, load_spec};
use crate::reading::Halt;
use rela_io::Files;
use rela_locations::Locations;
use rela_snapshot::FlowPair;
use std::alloc::Global;

/// What the inputs of a change stand for.
#[derive(Drop)]
pub struct Loaded {
    /// The locations.
    pub locations: Locations,
    /// The flows before and after the change, side by side.
    pub pairs: Vec<FlowPair>,
    /// The checks.
    pub asked: Asked,
}

/// Reads the locations, the snapshot before, the snapshot after and the specification in the files
/// of these names, in this order: each file whole, and then its text. Time and space: those of
/// decoding the files.
///
/// # Errors
///
/// The first refusal, read fault or want of memory ends it.
pub fn load_change<F: Files>(
    alloc: Global,
    files: &mut F,
    before: &str,
    after: &str,
    locations: &str,
    spec: &str,
) -> Result<Loaded, Halt>
    ensures given { IsGiven (is_some (F.holds files.old)) (F.steady files.old) SameLoaded
        (Loads (BytesOf (F.holds files.old) before.now input.Before)
        (BytesOf (F.holds files.old) after.now input.After)
        (BytesOf (F.holds files.old) locations.now input.Locations)
        (BytesOf (F.holds files.old) spec.now input.Spec)) (seen loaded_by result) }
    ensures listed { IfOk result (λ loaded. All (ListsPathSymbols (names_of (loaded_by loaded)))
        loaded.asked.checks.items) }
    ensures located { IfOk result (λ loaded. All (λ check. ArePairsLocated
        (names_of (loaded_by loaded)) check.level loaded.pairs.items) loaded.asked.checks.items) }
    ensures names_differ { IfOk result (λ loaded. NamesDiffer (loaded_by loaded)) }
    ensures ends { Ends (F.faults files.old) (F.faults files.new) (F.given files.new) result }
    ensures steady_is_no_fault { IsTrue (F.steady files.old) →
        HoldsName (F.holds files.old) before.now →
        HoldsName (F.holds files.old) after.now →
        HoldsName (F.holds files.old) locations.now →
        HoldsName (F.holds files.old) spec.now →
        result ≢ Err Halt.ReadFault }
    ensures same_holds { F.holds files.new ≡ F.holds files.old }
    ensures same_steady { F.steady files.new ≡ F.steady files.old }
{
    let locations = load_locations(alloc, files, locations)?;
    let pairs = load_pairs(alloc, files, before, after, &locations)?;
    let asked = load_spec(alloc, files, spec, &locations)?;
    Ok(Loaded {
        locations,
        pairs,
        asked,
    })
}
