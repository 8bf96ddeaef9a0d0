//! Standard output as a sink. What becomes of the bytes is trusted: no clause speaks of it.
ghost use Rattle.std.specs.Prelude.{◌≡◌, None};

use crate::errors::Fault;
use crate::outside::Sink;
use std::marker::Model;

/// Standard output. Contracts see it as the number of writes that failed.
#[derive(Drop)]
pub struct StdSink<P> {
    /// The part of the runtime that prints.
    rt: P,
    /// How many writes failed. A counter that reaches 2^64 - 1 stays there.
    faults: u64,
}

impl<P> Model for StdSink<P> {
    ghost use Rattle.std.specs.Prelude.{ℕ};

    ghost Value = { ℕ };

    ghost view = { λ s. s.faults };
}

impl<P> StdSink<P> {
    /// The standard output of the runtime, with no write failed yet.
    pub fn new(rt: P) -> StdSink<P>
        ensures { result ≡ 0 }
    {
        StdSink { rt, faults: 0 }
    }
}

impl<P: Print> Sink for StdSink<P> {
    ghost taken = { λ _. None };

    ghost faults = { λ faults. faults };

    fn write(&mut self, bytes: &[u8]) -> Result<usize, Fault> {
        if bytes.is_empty() {
            return Ok(0);
        }
        match self.rt.write_some(bytes) {
            Ok(n) if n > 0 => Ok(n),
            _ => {
                self.faults = self.faults.saturating_add(1);
                Err(Fault)
            }
        }
    }
}
