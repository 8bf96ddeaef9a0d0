//! The tables of a network: which locations lie in which, and the devices with each tag.

ghost use Rattle.std.specs.Prelude.{◌≡◌, ◌≤◌, length, IfOk};
ghost use Rattle.rela_names.specs.Name.{IsAscending};
ghost use Rattle.rela_names.specs.declared.level.Level.TheVariants as level;
ghost use Rattle.rela_locations.specs.Tables.{AreAlphabets, IsNamedOnce, IsContainment, AreTables};

use crate::alphabets::Alphabets;
use crate::containment::Containment;
use crate::name_index::NameIndex;
use crate::network::GroupEntry;
use crate::pairs::{devices_with_groups, interfaces_with_devices, interfaces_with_groups};
use crate::tags::{Tagged, tagged_devices};
use std::alloc::{AllocError, Global};

/// Which locations lie in which, and the devices with each tag, by their symbols.
#[derive(Drop)]
pub(crate) struct Tables {
    /// Which interfaces lie in which devices.
    pub(crate) interfaces_in_devices: Containment,
    /// Which interfaces lie in which groups.
    pub(crate) interfaces_in_groups: Containment,
    /// Which devices lie in which groups.
    pub(crate) devices_in_groups: Containment,
    /// The devices with each tag.
    pub(crate) tagged: Tagged,
}

impl Tables {
    /// The tables of these groups, whose names the alphabets have. Time: expected linear in the
    /// locations, and a search in an ordered map for each tag of a device; space: linear.
    ///
    /// # Errors
    ///
    /// Only where memory is wanted.
    pub(crate) fn new(
        alloc: Global,
        alphabets: &Alphabets,
        groups: &[GroupEntry<'_>],
    ) -> Result<Tables, AllocError>
        requires alphabets { AreAlphabets groups.now alphabets.now }
        requires once { IsNamedOnce groups.now }
        ensures { IfOk result (λ tables. AreTables groups.now tables) }
    {
        Ok(Tables {
            interfaces_in_devices: interfaces_in_devices(alloc, alphabets, groups)?,
            interfaces_in_groups: interfaces_in_groups(alloc, alphabets, groups)?,
            devices_in_groups: devices_in_groups(alloc, alphabets, groups)?,
            tagged: tagged_devices(alloc, &alphabets.devices, groups)?,
        })
    }
}

/// Which interfaces lie in which devices.
fn interfaces_in_devices(
    alloc: Global,
    alphabets: &Alphabets,
    groups: &[GroupEntry<'_>],
) -> Result<Containment, AllocError>
    requires alphabets { AreAlphabets groups.now alphabets.now }
    requires once { IsNamedOnce groups.now }
    ensures { IfOk result (λ made. IsContainment level.Interface level.Device groups.now made) }
{
    let pairs = interfaces_with_devices(alloc, alphabets, groups)?;
    let inner = count_of(&alphabets.interfaces);
    let outer = count_of(&alphabets.devices);
    Containment::new(alloc, pairs.as_slice(), inner, outer)
}

/// Which interfaces lie in which groups.
fn interfaces_in_groups(
    alloc: Global,
    alphabets: &Alphabets,
    groups: &[GroupEntry<'_>],
) -> Result<Containment, AllocError>
    requires alphabets { AreAlphabets groups.now alphabets.now }
    requires once { IsNamedOnce groups.now }
    ensures { IfOk result (λ made. IsContainment level.Interface level.Group groups.now made) }
{
    let pairs = interfaces_with_groups(alloc, alphabets, groups)?;
    let inner = count_of(&alphabets.interfaces);
    let outer = count_of(&alphabets.groups);
    Containment::new(alloc, pairs.as_slice(), inner, outer)
}

/// Which devices lie in which groups.
fn devices_in_groups(
    alloc: Global,
    alphabets: &Alphabets,
    groups: &[GroupEntry<'_>],
) -> Result<Containment, AllocError>
    requires alphabets { AreAlphabets groups.now alphabets.now }
    requires once { IsNamedOnce groups.now }
    ensures { IfOk result (λ made. IsContainment level.Device level.Group groups.now made) }
{
    let pairs = devices_with_groups(alloc, alphabets, groups)?;
    let inner = count_of(&alphabets.devices);
    let outer = count_of(&alphabets.groups);
    Containment::new(alloc, pairs.as_slice(), inner, outer)
}

/// How many locations the level has.
fn count_of(alphabet: &NameIndex) -> usize
    ensures count { result ≡ length alphabet.now }
    ensures ascending { IsAscending alphabet.now }
    ensures few { length alphabet.now ≤ 100000 }
{
    alphabet.alphabet().len() as usize - 2
}
