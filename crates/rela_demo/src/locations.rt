//! The text of the locations.

ghost use Rattle.std.specs.Prelude.{◌≡◌, ◌≤◌, IfOk};
ghost use Rattle.rela_demo.specs.Names.{labels_from};
ghost use Rattle.rela_demo.specs.Pieces.{locations_text};

use crate::labels::push_labels;
use crate::pieces::push_devices;
use std::alloc::{AllocError, Global};

/// The number of bytes of the object of a device and a comma.
const DEVICE_BYTES: usize = 40;

/// The text of the locations of the input of `n` layers. Time and space: linear in `n`.
///
/// # Errors
///
/// Only where memory is wanted.
pub(crate) fn locations_text(alloc: Global, n: u32) -> Result<Vec<u8>, AllocError>
    requires from_one { 1 ≤ n }
    requires at_most { n ≤ 200 }
    ensures { IfOk result (λ text. text.items ≡ locations_text (labels_from 1 n)) }
{
    let mut labels = Vec::with_capacity(alloc, 2 * n as usize)?;
    push_labels(&mut labels, 1, n + 1)?;
    let mut text = Vec::with_capacity(alloc, 64 + DEVICE_BYTES * 2 * n as usize)?;
    text.extend_from_slice(b"{\"version\":1,\"groups\":[{\"name\":\"all-devices\",\"devices\":")?;
    push_devices(&mut text, labels.as_slice())?;
    text.extend_from_slice(b"}]}")?;
    Ok(text)
}
