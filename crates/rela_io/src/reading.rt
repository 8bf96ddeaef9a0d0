//! Reading a whole file.
ghost use Rattle.std.specs.Prelude.{◌≡◌, ◌≢◌, ◌+◌, ◌^◌, ◌<◌, ◌≤◌, ◌↔◌, length, Some, Err, IsTrue, IfOk, IfSome, IsErrOf, vec_len};
ghost use Rattle.rela_io.specs.Count.{Rose, full};
ghost use Rattle.rela_io.specs.Held.{HoldsName, Lacks};

use crate::errors::ReadError;
use crate::outside::Files;
use std::alloc::Global;

/// How many bytes are asked for at a time, at most.
const PIECE: usize = 65536;

/// Opens a file and reads it to its end, if it has at most `limit` bytes. It asks for one byte more
/// than `limit`, and for no byte after that. Time and space: linear in the bytes that are read.
///
/// # Errors
///
/// - `Fault` where the file can't be opened or a read fails.
/// - `TooLong` where the file has more than `limit` bytes.
/// - `Memory` where there isn't memory for the bytes.
pub fn read_all<F: Files>(
    alloc: Global,
    files: &mut F,
    name: &str,
    limit: usize,
) -> Result<Vec<u8>, ReadError>
    requires { limit < 2 ^ 32 }
    ensures ok_within { IfOk result (λ bytes. vec_len bytes ≤ limit) }
    ensures ok_is_file { IfOk result (λ bytes. IfSome (F.holds files.old) (λ held. held name.now
        ≡ Some bytes.items)) }
    ensures ok_given { IfOk result (λ bytes. F.given files.new ≡ vec_len bytes) }

    // The causes, exactly.
    ensures fault_counted { IsErrOf result ReadError.Fault →
        Rose (F.faults files.old) (F.faults files.new) }
    ensures no_fault_keeps_count { result ≢ Err ReadError.Fault → F.faults files.new
        ≡ F.faults files.old }
    ensures missing_is_fault { Lacks (F.holds files.old) name.now → IsErrOf result ReadError.Fault }
    ensures steady_is_no_fault { IsTrue (F.steady files.old) →
        HoldsName (F.holds files.old) name.now →
        (result ≢ Err ReadError.Fault) × (F.faults files.new ≡ F.faults files.old) }
    ensures too_long { IsErrOf result ReadError.TooLong ↔
        ((result ≢ Err ReadError.Fault) × (limit < F.given files.new)) }
    ensures too_long_stops { IsErrOf result ReadError.TooLong → F.given files.new ≡ limit + 1 }
    ensures too_long_is_file { IsErrOf result ReadError.TooLong →
        IfSome (F.holds files.old) (λ held.
        IfSome (held name.now) (λ bytes. limit < length bytes)) }

    ensures same_holds { F.holds files.new ≡ F.holds files.old }
    ensures same_steady { F.steady files.new ≡ F.steady files.old }
    ensures count_never_falls { F.faults files.old ≤ F.faults files.new }
    ensures count_stops_at_full { F.faults files.old ≤ full → F.faults files.new ≤ full }
{
    files.open(name)?;
    let mut piece = vec![in alloc; 0; PIECE.min(limit + 1)]?;
    read_rest(alloc, files, &mut piece, limit)
}

/// Reads the open file to its end, if it has at most `limit` bytes, a piece at a time. No byte of
/// it was read before. The errors are those of [`read_all`], but for a file that can't be opened.
fn read_rest<F: Files>(
    alloc: Global,
    files: &mut F,
    piece: &mut [u8],
    limit: usize,
) -> Result<Vec<u8>, ReadError>
    requires small { limit < 2 ^ 32 }
    requires piece { 0 < length piece.old }
    requires at_start { F.given files.old ≡ 0 }

    ensures ok_within { IfOk result (λ bytes. vec_len bytes ≤ limit) }
    ensures ok_is_rest { IfOk result (λ bytes. IfSome (F.left files.old) (λ rest. rest
        ≡ bytes.items)) }
    ensures ok_given { IfOk result (λ bytes. F.given files.new ≡ vec_len bytes) }

    ensures fault_counted { IsErrOf result ReadError.Fault →
        Rose (F.faults files.old) (F.faults files.new) }
    ensures no_fault_keeps_count { result ≢ Err ReadError.Fault → F.faults files.new
        ≡ F.faults files.old }
    ensures steady_is_no_fault { IsTrue (F.steady files.old) → IsTrue (F.is_open files.old) →
        result ≢ Err ReadError.Fault }
    ensures too_long { IsErrOf result ReadError.TooLong ↔
        ((result ≢ Err ReadError.Fault) × (limit < F.given files.new)) }
    ensures too_long_stops { IsErrOf result ReadError.TooLong → F.given files.new ≡ limit + 1 }
    ensures too_long_is_rest { IsErrOf result ReadError.TooLong →
        IfSome (F.left files.old) (λ rest. limit < length rest) }

    ensures same_holds { F.holds files.new ≡ F.holds files.old }
    ensures same_steady { F.steady files.new ≡ F.steady files.old }
    ensures count_never_falls { F.faults files.old ≤ F.faults files.new }
    ensures count_stops_at_full { F.faults files.old ≤ full → F.faults files.new ≤ full }
{
    let mut bytes = Vec::new(alloc);
    loop {
        let room = limit - bytes.len();
        let asked = piece.len().min(room + 1);
        let given = files.read(&mut piece[..asked])?;
        if given == 0 {
            return Ok(bytes);
        }
        if given > room {
            return Err(ReadError::TooLong);
        }
        bytes.extend_from_slice(&piece[..given])?;
    }
}
