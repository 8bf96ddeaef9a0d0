//! From the tree of a specification to its checks.

ghost use Rattle.std.specs.Prelude.{◌≡◌, ◌≢◌, IfErr, IfOk, Err, Ok, map};
ghost use Rattle.std.specs.List.{All, AllZip};
ghost use Rattle.rela_lex.specs.declared.error.SpecError.TheVariants.{Memory};
ghost use Rattle.rela_locations.specs.Network.{alphabet_of};
ghost use Rattle.rela_spec.specs.Depth.{IsLow};
ghost use Rattle.rela_spec.specs.Full.{IsFull};
ghost use Rattle.rela_expand.specs.Expand.{expanded, outcome_of};
ghost use Rattle.rela_expand.specs.Faithful.{IsFaithful};
ghost use Rattle.rela_expand.specs.Listed.{ListsPathSymbols};
ghost use Rattle.rela_expand.specs.ZonesW.{bodies_of};

use crate::walking::walk_items;
use rela_lex::SpecError;
use rela_locations::Locations;
use rela_spec::SpecFile;
use rela_translate::Check;
use std::alloc::Global;

/// The checks of a specification over a network's locations, in their order. Names are replaced by
/// what they stand for, short forms are written out, classes and markers are numbered from left to
/// right. A definition that no check uses is never too large.
///
/// Time: the text is gone through once; the terms of each check, of at most 20,000 nodes, are
/// written out node by node, and each class that is written in it is listed and sorted once. Space:
/// what each name stands for, once, and the checks.
///
/// # Errors
///
/// The first fault, items in their order: `RepeatedName` at the name of an item that an earlier one
/// has; `TooLarge` at the name of the 201st check; in a body from left to right `UnknownName` at a
/// reference that names no earlier item of its kind, and `FinerLevel` and then `UnknownLocation` at
/// the name of a member; last, at a check's name, `TooDeep` where a relation term is deeper than
/// 1,000, and `TooLarge` where the two have more than 20,000 nodes together, or its classes list
/// more than 4,000,000 symbols. `Memory`.
pub fn expand(
    alloc: Global,
    file: &SpecFile,
    locations: &Locations,
) -> Result<Vec<Check>, SpecError>
    requires full { IsFull file.now }
    requires low { All IsLow file.now.items }
    ensures checks { IfOk result (λ checks. expanded locations.now file.now
        ≡ Ok (map outcome_of checks.items)) }
    ensures level { IfOk result (λ checks.
        All (λ check. check.level ≡ file.now.level) checks.items) }
    ensures listed { IfOk result (λ checks.
        All (ListsPathSymbols (alphabet_of file.now.level locations.now)) checks.items) }
    ensures faithful { IfOk result (λ checks.
        AllZip (IsFaithful (record { network = locations.now; level = file.now.level })
        file.now.items) (bodies_of file.now.items) checks.items) }
    ensures refused { IfErr result (λ e. e ≢ Memory → expanded locations.now file.now ≡ Err e) }
{
    walk_items(alloc, locations, file.level, file.items.as_slice())
}
