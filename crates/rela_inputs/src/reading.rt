//! Reading the files that a command names.

ghost use Rattle.std.specs.Prelude.{◌≡◌, ◌≢◌, ◌≤◌, Err, IsTrue, IfOk, is_some, vec_len};
ghost use Rattle.rela_io.specs.Held.{HoldsName};
ghost use Rattle.rela_inputs.specs.Given.{Equals, IsGiven, seen};
ghost use Rattle.rela_inputs.specs.Inputs.{BytesOf};
ghost use Rattle.rela_inputs.specs.Reading.{max_file_bytes, Ends};

use crate::refusal::{Input, Reason, Refusal};
use rela_io::{Files, ReadError, read_all};
use std::alloc::{AllocError, Global};

/// The most bytes that a file may have: 32 MiB.
pub const MAX_FILE_BYTES: usize = 33_554_432;

/// Why a command ends before its answer.
#[derive(Debug, Drop)]
pub enum Halt {
    /// An input is refused.
    Refused(Refusal),
    /// A file can't be read.
    ReadFault,
    /// Memory ran out.
    Memory,
}

impl From<AllocError> for Halt {
    ghost use Rattle.rela_inputs.specs.declared.reading.Halt.TheVariants.{Memory};

    ghost from_gives = { λ _ e. e ≡ Memory };

    fn from(_refused: AllocError) -> Halt {
        Halt::Memory
    }
}

/// The bytes of the file of this name, which stands for an input.
///
/// # Errors
///
/// `ReadFault` where the file can't be opened or a read fails; `Refused` where it has more than
/// [`MAX_FILE_BYTES`]; `Memory`.
pub fn read_input<F: Files>(
    alloc: Global,
    files: &mut F,
    input: Input,
    name: &str,
) -> Result<Vec<u8>, Halt>
    ensures given { IsGiven (is_some (F.holds files.old)) (F.steady files.old) Equals
        (BytesOf (F.holds files.old) name.now input) (seen (λ bytes. bytes.items) result) }
    ensures ok_within { IfOk result (λ bytes. vec_len bytes ≤ max_file_bytes) }
    ensures ends { Ends (F.faults files.old) (F.faults files.new) (F.given files.new) result }
    ensures steady_is_no_fault { IsTrue (F.steady files.old) →
        HoldsName (F.holds files.old) name.now → result ≢ Err Halt.ReadFault }
    ensures same_holds { F.holds files.new ≡ F.holds files.old }
    ensures same_steady { F.steady files.new ≡ F.steady files.old }
{
    match read_all(alloc, files, name, MAX_FILE_BYTES) {
        Ok(bytes) => Ok(bytes),
        Err(ReadError::Fault) => Err(Halt::ReadFault),
        Err(ReadError::TooLong) => Err(Halt::Refused(Refusal {
            input,
            reason: Reason::TooLong,
        })),
        Err(ReadError::Memory) => Err(Halt::Memory),
    }
}
