//! The symbols of the interfaces and devices that a file names.

ghost use Rattle.std.specs.Prelude.{◌≡◌, ◌<◌, Ok, Err, IfOk, IfErr, IfSome, length};
ghost use Rattle.rela_locations.specs.Network.{alphabet_of};
ghost use Rattle.rela_names.specs.declared.level.Level.TheVariants as levels;
ghost use Rattle.rela_snapshot.specs.Names.{place_of};
ghost use Rattle.rela_tables.specs.Entries as spec;

use rela_json::LoadError;
use rela_locations::Locations;
use rela_names::{Level, Symbol};
use rela_tokens::Unread;

/// The symbol of the interface of this name. Time: expected constant.
///
/// # Errors
///
/// `UnknownLocation` where no interface has it.
#[tactic(auto, unfolding(crate::specs::Entries::symbol_of))]
pub(crate) fn interface(locations: &Locations, name: &[u8], row: u32) -> Result<Symbol, LoadError>
    ensures symbol { IfOk result (λ s. spec.symbol_of levels.Interface locations.now row name.now
        ≡ Ok s) }
    ensures fault { IfErr result (λ e. spec.symbol_of levels.Interface locations.now row name.now
        ≡ Err e) }
    ensures located { IfOk result (λ s. s < length (alphabet_of levels.Interface locations.now)) }
{
    find_interface(locations, name).ok_or(LoadError::UnknownLocation { row })
}

/// The symbol of the interface of this name, and `None` where no interface has it.
fn find_interface(locations: &Locations, name: &[u8]) -> Option<Symbol>
    ensures place { result ≡ place_of (alphabet_of levels.Interface locations.now) name.now }
    ensures within { IfSome result (λ s. s < length (alphabet_of levels.Interface locations.now)) }
{
    locations.interface(name)
}

/// The same, and `Unread` where no interface has the name.
pub(crate) fn interface_named(
    locations: &Locations,
    name: &[u8],
    row: u32,
) -> Result<Symbol, Unread>
    ensures symbol { IfOk result (λ s. spec.symbol_of levels.Interface locations.now row name.now
        ≡ Ok s) }
    ensures located { IfOk result (λ s. s < length (alphabet_of levels.Interface locations.now)) }
{
    match interface(locations, name, row) {
        Ok(symbol) => Ok(symbol),
        Err(_) => Err(Unread),
    }
}

/// The symbol of the device of this name. Time: a binary search among the devices.
///
/// # Errors
///
/// `UnknownLocation` where no device has it.
#[tactic(auto, unfolding(crate::specs::Entries::symbol_of))]
pub(crate) fn device(locations: &Locations, name: &[u8], row: u32) -> Result<Symbol, LoadError>
    ensures symbol { IfOk result (λ s. spec.symbol_of levels.Device locations.now row name.now
        ≡ Ok s) }
    ensures fault { IfErr result (λ e. spec.symbol_of levels.Device locations.now row name.now
        ≡ Err e) }
    ensures located { IfOk result (λ s. s < length (alphabet_of levels.Device locations.now)) }
{
    find_device(locations, name).ok_or(LoadError::UnknownLocation { row })
}

/// The symbol of the device of this name, and `None` where no device has it.
fn find_device(locations: &Locations, name: &[u8]) -> Option<Symbol>
    ensures place { result ≡ place_of (alphabet_of levels.Device locations.now) name.now }
    ensures within { IfSome result (λ s. s < length (alphabet_of levels.Device locations.now)) }
{
    locations.alphabet(Level::Device).find(name)
}
