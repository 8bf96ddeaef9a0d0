//! What an error of a decoder, or of what is made of its values, ends a command with.

ghost use Rattle.std.specs.Prelude.{◌≡◌};
ghost use Rattle.rela_inputs.specs.Halts.{load_halt, spec_halt, pair_halt, fib_halt, refused};

use crate::reading::Halt;
use crate::refusal::{Input, Reason, Refusal};
use rela_fib::FibError;
use rela_json::LoadError;
use rela_lex::SpecError;
use rela_snapshot::PairError;

/// The refusal of an input.
pub fn refused(input: Input, reason: Reason) -> Halt
    ensures { result ≡ refused input reason }
{
    Halt::Refused(Refusal { input, reason })
}

/// What a decoder's error ends the command with: want of memory, or the refusal of this input.
pub(crate) fn load_halt(input: Input, error: LoadError) -> Halt
    ensures { result ≡ load_halt input error }
{
    match error {
        LoadError::Memory => Halt::Memory,
        error => refused(input, Reason::Load(error)),
    }
}

/// What an error of a text of tokens ends the command with: want of memory, or the refusal of this
/// input.
pub fn spec_halt(input: Input, error: SpecError) -> Halt
    ensures { result ≡ spec_halt input error }
{
    match error {
        SpecError::Memory => Halt::Memory,
        error => refused(input, Reason::Specification(error)),
    }
}

/// What an error of pairing two snapshots ends the command with: want of memory, or the refusal of
/// the pair.
pub(crate) fn pair_halt(error: PairError) -> Halt
    ensures { result ≡ pair_halt error }
{
    match error {
        PairError::FlowDiffers { before, after, .. } => {
            refused(Input::Pair, Reason::FlowDiffers { before, after })
        }
        PairError::Memory => Halt::Memory,
    }
}

/// What an error of making a snapshot from tables ends the command with: want of memory, or its
/// refusal.
pub fn fib_halt(error: FibError) -> Halt
    ensures { result ≡ fib_halt error }
{
    match error {
        FibError::Memory => Halt::Memory,
        error => refused(Input::Tables, Reason::Snapshot(error)),
    }
}
