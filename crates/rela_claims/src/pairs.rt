//! Two parts of a tree, for either of which memory may be wanting.

ghost use Rattle.std.specs.Prelude.{◌≡◌, Ok, IfOk};

use std::alloc::AllocError;

/// Both, where both were made. It knows of no form of a tree, so that no drop of one is written out
/// in a caller.
pub(crate) fn both<T: Drop, U: Drop>(
    first: Result<T, AllocError>,
    second: Result<U, AllocError>,
) -> Result<(T, U), AllocError>
    ensures first { IfOk result (λ values. first ≡ Ok values.0) }
    ensures second { IfOk result (λ values. second ≡ Ok values.1) }
{
    Ok((first?, second?))
}
