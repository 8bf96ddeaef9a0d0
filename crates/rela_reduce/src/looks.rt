//! When rows were looked at, and when they lost bits.
use crate::arrow::Step;
use std::alloc::{AllocError, Global};

/// When each state's row was last looked at, and when it last lost bits. Times are counted by looks.
#[derive(Drop)]
pub(crate) struct Looks {
    /// How many looks there have been.
    time: u64,
    /// For each state when its row was last looked at, and 0 before.
    looked: Vec<u64>,
    /// For each state when its row last lost bits, and 0 before.
    shrank: Vec<u64>,
}

impl Looks {
    /// No looks at the rows of so many states.
    pub(crate) fn new(alloc: Global, states: usize) -> Result<Looks, AllocError> {
        Ok(Looks {
            time: 0,
            looked: vec![in alloc; 0; states]?,
            shrank: vec![in alloc; 0; states]?,
        })
    }

    /// Whether the row of `p`, which has these steps, may have to lose bits: it hasn't been looked at
    /// since it lost some itself, or since the row of a step's end did.
    pub(crate) fn is_due(&self, steps: &[Step], p: usize) -> bool {
        let looked = time_of(&self.looked, p);
        if looked <= time_of(&self.shrank, p) {
            return true;
        }
        for step in steps {
            if looked <= time_of(&self.shrank, step.to) {
                return true;
            }
        }
        false
    }

    /// Counts a look at the row of `p`, at which it lost bits or didn't.
    pub(crate) fn count(&mut self, p: usize, shrinks: bool) {
        self.time = self.time.saturating_add(1);
        set_time(&mut self.looked, p, self.time);
        if shrinks {
            set_time(&mut self.shrank, p, self.time);
        }
    }
}

/// The time of the state.
fn time_of(times: &[u64], p: usize) -> u64 {
    times.get(p).copied().unwrap_or(0)
}

/// Sets the time of the state, if there is such a state.
fn set_time(times: &mut [u64], p: usize, time: u64) {
    if let Some(old) = times.get_mut(p) {
        *old = time;
    }
}
