//! What an assertion file asks for, from its text.

ghost use Rattle.std.specs.Prelude.{◌≤◌, All, IfOk, length};
ghost use Rattle.rela_assertions.specs.Rows.{IsClaimAt};
ghost use Rattle.rela_locations.specs.Network.{alphabet_of};
ghost use Rattle.rela_assert.specs.Asserted.{ReadsClaims, SameAsserted, asserted_by};
ghost use Rattle.rela_inputs.specs.Given.{IsRead, seen};

use rela_claims::{Claim, resolve};
use rela_inputs::{Halt, Input, read_assertions, spec_halt, steps_chain, texts_are_refused};
use rela_locations::Locations;
use rela_names::Level;
use std::alloc::Global;
use std::marker::Brand;

/// What an assertion file asks for: claims over the locations of one level.
#[derive(Drop)]
pub struct Asserted {
    /// The level of its locations.
    pub level: Level,
    /// Its claims, in their order.
    pub claims: Vec<Claim>,
}

/// What an assertion file's text of at most 32 MiB asks for over these locations. Time and space:
/// linear in the text and in the symbols that the classes of the claims list.
///
/// # Errors
///
/// `Refused` with the first fault of the text: `BadToken` where no token begins; else `Syntax` or
/// `TooDeep` as the tokens are read; else, as names are looked up, `RepeatedName`, `FinerLevel`,
/// `UnknownLocation` or `TooLarge`; `Memory`.
pub fn read_claims(alloc: Global, text: &[u8], locations: &Locations) -> Result<Asserted, Halt>
    requires { length text.now ≤ 33554432 }
    ensures asserted { IsRead SameAsserted (ReadsClaims locations.now text.now)
        (seen asserted_by result) }
    ensures claims { IfOk result (λ asserted.
        All (IsClaimAt (alphabet_of asserted.level locations.now)) asserted.claims.items) }
{
    steps_chain::<Brand>();
    texts_are_refused();
    let file = read_assertions(alloc, text)?;
    match resolve(alloc, &file, locations) {
        Ok(claims) => Ok(Asserted {
            level: file.level,
            claims,
        }),
        Err(error) => Err(spec_halt(Input::Assertions, error)),
    }
}
