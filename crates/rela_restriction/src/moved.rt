//! Sets of letters that are moved on.
ghost use Rattle.std.specs.Prelude.{◌≡◌, ◌+◌, ◌≤◌, ◌<◌, IfOk, length};
ghost use Rattle.rela_restriction.specs.Automata.{moved};

use rela_labels::LabelSet;
use std::alloc::{AllocError, Global};

/// The set of this size that has each letter of the other one moved on by `by`. Time: a look at
/// each letter below the other one's size.
pub(crate) fn moved<L: LabelSet>(
    alloc: Global,
    set: &L,
    size: u32,
    by: u32,
) -> Result<L, AllocError>
    requires fits { L.fits size }
    requires room { by + length (L.letters set.now) ≤ size }
    ensures { IfOk result (λ result. L.letters result ≡ moved size by (L.letters set.now)) }
{
    let mut made = L::none(alloc, size)?;
    for letter in 0..set.size() {
        if set.contains(letter) {
            made.add(alloc, by + letter)?;
        }
    }
    Ok(made)
}
