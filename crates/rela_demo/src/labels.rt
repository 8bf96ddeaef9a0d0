//! The letters and numbers of devices.

ghost use Rattle.std.specs.Prelude.{◌≡◌, ◌<◌, ◌≤◌, ◌-◌, ◌++◌, OnOk};
ghost use Rattle.rela_demo.specs.Names.{labels_from};

use std::alloc::AllocError;

/// Adds a and b of each number from the first on and below the end. Time: linear in the numbers.
///
/// # Errors
///
/// Only where memory is wanted.
pub(crate) fn push_labels(
    labels: &mut Vec<(u8, u32)>,
    first: u32,
    end: u32,
) -> Result<(), AllocError>
    requires { first ≤ end }
    ensures { OnOk result (labels.new.items ≡ labels.old.items ++ labels_from first (end - first)) }
{
    for number in first..end {
        labels.push((b'a', number))?;
        labels.push((b'b', number))?;
    }
    Ok(())
}
