//! The text of the specification.

ghost use Rattle.std.specs.Prelude.{◌≡◌, IfOk};
ghost use Rattle.rela_demo.specs.Specification.{specification_text};

use crate::pieces::push_device_name;
use std::alloc::{AllocError, Global};

/// The number of bytes of the text.
const SPECIFICATION_BYTES: usize = 146;

/// The text of the specification of the input of `n` layers.
///
/// # Errors
///
/// Only where memory is wanted.
pub(crate) fn specification_text(alloc: Global, n: u32) -> Result<Vec<u8>, AllocError>
    ensures { IfOk result (λ text. text.items ≡ specification_text n) }
{
    let mut text = Vec::with_capacity(alloc, SPECIFICATION_BYTES)?;
    text.extend_from_slice(b"level device;\ncheck c1 for not flow f7 : { .* : preserve };\n")?;
    text.extend_from_slice(b"check c2 for flow f7 : { .* : preserve } then { ")?;
    push_device_name(&mut text, (b'b', n))?;
    text.extend_from_slice(b" : drop } else { .* : preserve };\n")?;
    Ok(text)
}
