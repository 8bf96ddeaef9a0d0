//! Loading an assertion file: it is read whole, and then its text.

ghost use Rattle.std.specs.Prelude.{◌≡◌, ◌≢◌, Err, All, IsTrue, IfOk, is_some};
ghost use Rattle.rela_assertions.specs.Rows.{IsClaimAt};
ghost use Rattle.rela_io.specs.Held.{HoldsName};
ghost use Rattle.rela_locations.specs.Network.{alphabet_of};
ghost use Rattle.rela_inputs.specs.Given.{IsGiven, seen};
ghost use Rattle.rela_inputs.specs.Inputs.{BytesOf, Gives};
ghost use Rattle.rela_inputs.specs.Reading.{Ends};
ghost use Rattle.rela_assert.specs.Asserted.{ReadsClaims, SameAsserted, asserted_by};

use crate::claiming::{Asserted, read_claims};
use rela_inputs::{Halt, Input, calls_inside_end, read_input, steps_chain};
use rela_io::Files;
use rela_locations::Locations;
use std::alloc::Global;
use std::marker::Brand;

/// What the assertion file of this name asks for over these locations.
///
/// # Errors
///
/// `ReadFault` where the file can't be read; `Refused` where it is too long, or for its first
/// fault; `Memory`.
pub fn load_claims<F: Files>(
    alloc: Global,
    files: &mut F,
    name: &str,
    locations: &Locations,
) -> Result<Asserted, Halt>
    ensures given { IsGiven (is_some (F.holds files.old)) (F.steady files.old) SameAsserted
        (Gives (BytesOf (F.holds files.old) name.now Input.Assertions) (ReadsClaims locations.now))
        (seen asserted_by result) }
    ensures claims { IfOk result (λ asserted.
        All (IsClaimAt (alphabet_of asserted.level locations.now)) asserted.claims.items) }
    ensures ends { Ends (F.faults files.old) (F.faults files.new) (F.given files.new) result }
    ensures steady_is_no_fault { IsTrue (F.steady files.old) →
        HoldsName (F.holds files.old) name.now →
        result ≢ Err Halt.ReadFault }
    ensures same_holds { F.holds files.new ≡ F.holds files.old }
    ensures same_steady { F.steady files.new ≡ F.steady files.old }
{
    steps_chain::<Brand>();
    calls_inside_end::<Asserted>();
    let text = read_input(alloc, files, Input::Assertions, name)?;
    read_claims(alloc, text.as_slice(), locations)
}
