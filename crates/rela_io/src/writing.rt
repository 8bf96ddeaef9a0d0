//! Writing a whole text.
ghost use Rattle.std.specs.Prelude.{◌≡◌, ◌≤◌, OnOk, OnErr};
ghost use Rattle.rela_io.specs.Count.{Rose, full};
ghost use Rattle.rela_io.specs.Bytes.{after_told, GrewByPart};

use crate::errors::Fault;
use crate::outside::Sink;

/// Writes all the bytes, in as many pieces as the sink takes them in. It takes no memory. Time:
/// linear in the bytes, and a call for each piece.
///
/// # Errors
///
/// `Fault` where a write fails. Some first bytes were then written, and not all of them.
pub fn write_all<K: Sink>(sink: &mut K, bytes: &[u8]) -> Result<(), Fault>
    ensures ok_appends_all { OnOk result (K.taken sink.new
        ≡ after_told (K.taken sink.old) bytes.now) }
    ensures ok_keeps_count { OnOk result (K.faults sink.new ≡ K.faults sink.old) }

    ensures fault_appends_part { OnErr result (GrewByPart (K.taken sink.old)
        (K.taken sink.new) bytes.now) }
    ensures fault_counted { OnErr result (Rose (K.faults sink.old) (K.faults sink.new)) }

    ensures count_never_falls { K.faults sink.old ≤ K.faults sink.new }
    ensures count_stops_at_full { K.faults sink.old ≤ full → K.faults sink.new ≤ full }
{
    let mut written = 0;
    while written < bytes.len() {
        written += sink.write(&bytes[written..])?;
    }
    Ok(())
}
