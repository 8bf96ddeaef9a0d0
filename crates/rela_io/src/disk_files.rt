//! The files of the system. What the disk gives is trusted: no clause speaks of it.
ghost use Rattle.std.specs.Prelude.{◌≡◌, None, false, is_some};
ghost use Rattle.std.proofs.lemmas.Bool.{false≢true};
ghost use Rattle.rela_io.specs.Disk.{DiskState};

use crate::errors::Fault;
use crate::outside::Files;
use std::io::Read;
use std::marker::Model;
use std::{fs, rt};

/// The files of the system, by their paths. A directory can be opened, and its first read fails.
#[derive(Drop)]
pub struct DiskFiles<R: rt::Files> {
    /// The part of the runtime that opens files.
    rt: R,
    /// The open file, and `None` where none is open.
    current: Option<R::File>,
    /// How many bytes were read since the last `open` that succeeded.
    given: u64,
    /// How many calls failed. A counter that reaches 2^64 - 1 stays there.
    faults: u64,
}

impl<R: rt::Files> Model for DiskFiles<R> {
    ghost Value = { DiskState };

    ghost view = { λ s. record {
      is_open = is_some s.current;
      given = s.given;
      faults = s.faults;
    } };
}

impl<R: rt::Files> DiskFiles<R> {
    /// The files that the runtime reaches, none of them open.
    pub fn new(rt: R) -> DiskFiles<R>
        ensures { result ≡ record { is_open = false; given = 0; faults = 0 } }
    {
        DiskFiles {
            rt,
            current: None,
            given: 0,
            faults: 0,
        }
    }
}

impl<R: rt::Files> Files for DiskFiles<R> {
    ghost holds = { λ _. None };

    ghost is_open = { λ s. s.is_open };

    ghost left = { λ _. None };

    ghost given = { λ s. s.given };

    ghost faults = { λ s. s.faults };

    ghost steady = { λ _. false };

    fn open(&mut self, name: &str) -> Result<(), Fault> {
        self.current = fs::open(&self.rt, name).ok();
        if self.current.is_none() {
            self.faults = self.faults.saturating_add(1);
            return Err(Fault);
        }
        self.given = 0;
        Ok(())
    }

    fn read(&mut self, into: &mut [u8]) -> Result<usize, Fault> {
        if into.is_empty() {
            return Ok(0);
        }
        let read = match &mut self.current {
            Some(file) => file.read(into).ok(),
            None => None,
        };
        if let Some(n) = read
            && let Some(given) = self.given.checked_add(n as u64)
        {
            self.given = given;
            return Ok(n);
        }
        self.faults = self.faults.saturating_add(1);
        Err(Fault)
    }

    ghost left_of_open = { λ _ told. absurd (false≢true told) };

    ghost steady_tells_files = { λ _ steady. absurd (false≢true steady) };

    ghost steady_tells_left = { λ _ steady. absurd (false≢true steady) };
}
