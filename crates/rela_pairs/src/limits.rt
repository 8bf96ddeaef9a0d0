//! What is made of a limit: whether it is kept, and what follows where it isn't.
ghost use Rattle.std.specs.Prelude.{◌≡◌, ◌<◌, ◌≤◌, IfErr, OnErr, OnOk};

use crate::errors::BuildError;
use std::alloc::AllocError;

/// `Limit` exactly where there are more than the limit. It asks for no memory.
pub fn within(count: usize, limit: usize) -> Result<(), BuildError>
    ensures few { OnOk result (count ≤ limit) }
    ensures limit { IfErr result (λ e. (e ≡ BuildError.Limit) × (limit < count)) }
{
    if count > limit {
        return Err(BuildError::Limit);
    }
    Ok(())
}

/// Lets it pass that a construction has more states than it may. The only error is want of memory.
pub fn pass_limit(error: BuildError) -> Result<(), AllocError>
    ensures limit { OnOk result (error ≡ BuildError.Limit) }
    ensures memory { OnErr result (error ≡ BuildError.Memory) }
{
    match error {
        BuildError::Limit => Ok(()),
        BuildError::Memory => Err(AllocError),
    }
}
