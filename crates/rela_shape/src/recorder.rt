//! A hasher that keeps what it is fed.

ghost use Rattle.std.specs.Prelude.{◌≡◌, ◌≤◌, [], IfOk, drop, length};
ghost use Rattle.rela_shape.specs.Recorded.{Recorded};

use std::alloc::{AllocError, Global};
use std::hash::Hasher;
use std::marker::Model;

/// A hasher that keeps the bytes that it is fed, while there is room for them. Contracts see it as
/// a `Recorded`.
#[derive(Drop)]
pub(crate) struct Recorder {
    /// The bytes, in the order in which they came.
    kept: Vec<u8>,
    /// How many more there is room for.
    left: usize,
}

impl Model for Recorder {
    ghost use Rattle.std.specs.Prelude.{◌+◌, ◌≤◌, vec_len, vec_capacity};
    ghost use Rattle.rela_shape.specs.Recorded.{Recorded};

    ghost Value = { Recorded };

    ghost view = { λ r. record { bytes = r.kept.items; room = r.left } };

    ghost invariant = { λ r. vec_len r.kept + r.left ≤ vec_capacity r.kept };
}

impl Hasher for Recorder {
    ghost use Rattle.rela_shape.specs.Recorded.{with_bytes};

    ghost write = { with_bytes };

    ghost finish = { λ _. 0 };

    /// Nothing is hashed: the bytes themselves are wanted.
    fn finish(&self) -> u64 {
        0
    }

    // Where it stands in the caller, the length of what is fed is known: mostly 4 bytes or one.
    #[inline(always)]
    fn write(&mut self, bytes: &[u8]) {
        if bytes.len() <= self.left && self.kept.extend_from_slice(bytes).is_ok() {
            self.left -= bytes.len();
        }
    }
}

impl Recorder {
    /// One that has room for so many bytes, and has been fed none.
    pub(crate) fn with_room(alloc: Global, room: usize) -> Result<Recorder, AllocError>
        ensures { IfOk result (λ recorder. recorder ≡ record { bytes = []; room = room }) }
    {
        let kept = Vec::with_capacity(alloc, room)?;
        Ok(Recorder { kept, left: room })
    }

    /// A copy of the bytes from this place on.
    pub(crate) fn bytes_from(&self, alloc: Global, place: usize) -> Result<Vec<u8>, AllocError>
        requires { place ≤ length self.now.bytes }
        ensures { IfOk result (λ bytes. bytes.items ≡ drop place self.now.bytes) }
    {
        Vec::from_slice(alloc, &self.kept[place..])
    }
}
