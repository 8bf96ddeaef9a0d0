//! A sink that stands in memory, some writes to which are made to fail.
ghost use Rattle.std.specs.Prelude.{◌≡◌, ◌⊎◌, ◌↔◌, ◌+◌, ◌<◌, ◌≤◌, [], length, take, Some, Ok, IsErr, IfOk, OnErr, vec_len, vec_capacity};
ghost use Rattle.rela_io.specs.Calls.{NextFails, no_calls};
ghost use Rattle.rela_io.specs.MemorySink.{SinkState, taken_of, after_write, not_written};

use crate::calls::Calls;
use crate::errors::Fault;
use crate::outside::Sink;
use std::alloc::{AllocError, Global};
use std::marker::Model;

/// A sink that keeps what it takes, and has room for a fixed number of bytes.
///
/// Each write of a piece that isn't empty is a call. The calls are numbered from 1, and those with
/// the numbers that `new` was given fail, as does a call that finds no room left. A counter that
/// reaches 2^64 - 1 stays there.
#[derive(Drop)]
pub struct MemorySink {
    /// The bytes that were taken so far.
    taken: Vec<u8>,
    /// How many more bytes there is room for.
    room: usize,
    /// How many bytes a write takes at most; at least 1.
    piece: usize,
    /// Counts the calls, and knows which are to fail.
    calls: Calls,
}

impl Model for MemorySink {
    ghost Value = { SinkState };

    ghost view = { λ s. record {
      taken = s.taken.items;
      room = s.room;
      piece = s.piece;
      calls = s.calls;
    } };

    ghost invariant = { λ s. (0 < s.piece) × (vec_len s.taken + s.room ≤ vec_capacity s.taken) };
}

impl MemorySink {
    /// An empty sink with room for `room` bytes, whose memory it takes now. The writes with the
    /// numbers in `failing` fail, and a write takes at most `piece` bytes.
    ///
    /// # Errors
    ///
    /// Only where memory is wanted.
    pub fn new(
        alloc: Global,
        room: usize,
        failing: Vec<u64>,
        piece: usize,
    ) -> Result<MemorySink, AllocError>
        requires { 0 < piece }
        ensures { IfOk result (λ sink. sink ≡ record {
          taken = [];
          room = room;
          piece = piece;
          calls = no_calls failing.items;
        }) }
    {
        Ok(MemorySink {
            taken: Vec::with_capacity(alloc, room)?,
            room,
            piece,
            calls: Calls::new(failing),
        })
    }

    /// The bytes that it has taken so far.
    pub fn taken(&self) -> &[u8]
        ensures { result.now ≡ self.now.taken }
    {
        self.taken.as_slice()
    }
}

impl Sink for MemorySink {
    ghost taken = { λ s. Some s.taken };

    ghost faults = { λ s. s.calls.faults };

    fn write(&mut self, bytes: &[u8]) -> Result<usize, Fault>
        ensures empty { length bytes.now ≡ 0 → (result ≡ Ok 0) × (self.new ≡ self.old) }
        ensures ok_writes { 0 < length bytes.now → IfOk result (λ n.
            (n ≡ taken_of self.old.piece (length bytes.now) self.old.room)
            × (self.new ≡ after_write self.old (take n bytes.now))) }
        ensures ok_takes_some { 0 < length bytes.now → IfOk result (λ n. 0 < n) }
        ensures fault { OnErr result (self.new ≡ not_written self.old) }
        ensures fails { 0 < length bytes.now → IsErr result ↔
            (NextFails self.old.calls ⊎ (self.old.room ≡ 0)) }
    {
        if bytes.is_empty() {
            return Ok(0);
        }
        let fails = self.calls.count();
        if fails || self.room == 0 {
            return Err(self.calls.fault());
        }
        let n = self.piece.min(bytes.len()).min(self.room);
        // There is room, so no memory is asked for.
        self.taken.extend_from_slice(&bytes[..n]).unwrap();
        self.room -= n;
        Ok(n)
    }
}
