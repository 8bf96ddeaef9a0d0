//! Writing an answer out.

ghost use Rattle.std.specs.Prelude.{◌≡◌, ◌<◌};
ghost use Rattle.rela_io.specs.Count.{Rose};
ghost use Rattle.rela_top.specs.Delivered.{Delivers};

use rela_inputs::WRITE_FAULT;
use rela_io::{Sink, write_all};

/// Writes the text, and gives the status, or [`WRITE_FAULT`] where a write fails. It takes no
/// memory.
pub fn deliver<K: Sink>(out: &mut K, text: &[u8], status: u8) -> u8
    requires { status < WRITE_FAULT }
    ensures delivered { Delivers (K.taken out.old) (K.taken out.new)
        (record { text = text.now; status = status }) result }
    ensures fault_counted { result ≡ WRITE_FAULT → Rose (K.faults out.old) (K.faults out.new) }
    ensures counted_is_fault { K.faults out.old < K.faults out.new → result ≡ WRITE_FAULT }
{
    match write_all(out, text) {
        Ok(()) => status,
        Err(_) => WRITE_FAULT,
    }
}
