//! What is made of a term that isn't built under the limit.
ghost use Rattle.std.specs.Prelude.{◌≡◌, ◌≢◌, OnErr, OnOk};

use rela_build::Stop;
use std::alloc::AllocError;

/// Lets it pass that a term isn't built under the limit. The only error is want of memory.
pub(crate) fn pass_stop(stop: Stop) -> Result<(), AllocError>
    ensures limit { OnOk result (stop ≢ Stop.Memory) }
    ensures memory { OnErr result (stop ≡ Stop.Memory) }
{
    match stop {
        Stop::Limit | Stop::Refused(_) => Ok(()),
        Stop::Memory => Err(AllocError),
    }
}
