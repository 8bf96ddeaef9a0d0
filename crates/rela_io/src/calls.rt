//! Calls that fail by their numbers.
ghost use Rattle.std.specs.Prelude.{◌≡◌, ◌↔◌, IsTrue};
ghost use Rattle.rela_io.specs.Calls.{NextFails, no_calls};
ghost use Rattle.rela_io.specs.Count.{counted};

use crate::errors::Fault;
use std::marker::Model;

/// Counts the calls on an object and those that failed, and knows which of them are to fail. A
/// counter that reaches 2^64 - 1 stays there.
#[derive(Drop)]
pub struct Calls {
    /// The numbers of the calls that are to fail, in any order.
    failing: Vec<u64>,
    /// How many calls were made.
    made: u64,
    /// How many calls failed.
    faults: u64,
}

impl Model for Calls {
    ghost use Rattle.rela_io.specs.Calls.{CallCount};

    ghost Value = { CallCount };

    ghost view = { λ c. record { failing = c.failing.items; made = c.made; faults = c.faults } };
}

impl Calls {
    /// A count of no calls. Those with these numbers are to fail; the first call has the number 1.
    pub fn new(failing: Vec<u64>) -> Calls
        ensures { result ≡ no_calls failing.items }
    {
        Calls {
            failing,
            made: 0,
            faults: 0,
        }
    }

    /// Counts a call, and says whether it is to fail. Time: linear in the numbers of the calls that
    /// are to fail.
    pub fn count(&mut self) -> bool
        ensures fails { IsTrue result ↔ NextFails self.old }
        ensures counted { self.new ≡ record self.old { made = counted self.old.made } }
    {
        self.made = self.made.saturating_add(1);
        self.failing.contains(&self.made)
    }

    /// Counts a failure, and gives the error for it.
    pub fn fault(&mut self) -> Fault
        ensures counted { self.new ≡ record self.old { faults = counted self.old.faults } }
    {
        self.faults = self.faults.saturating_add(1);
        Fault
    }
}
