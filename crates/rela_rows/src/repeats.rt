//! Which indexes are listed more than once, so that what is known of them may be asked for again.

use std::alloc::{AllocError, Global};

/// How often each index is listed, up to 255 times. Nothing rests on it but what is worth keeping.
#[derive(Drop)]
pub(crate) struct Repeats {
    /// The number of times, by the index.
    times: Vec<u8>,
}

impl Repeats {
    /// Of the indexes of this list, each of which is below the list's length. Time and space: linear
    /// in the list.
    ///
    /// # Errors
    ///
    /// Only where memory is wanted.
    pub(crate) fn of(alloc: Global, indexes: &[usize]) -> Result<Repeats, AllocError> {
        let mut times = vec![in alloc; 0u8; indexes.len()]?;
        for index in indexes {
            count_once(&mut times, *index);
        }
        Ok(Repeats { times })
    }

    /// Whether the index is listed more than once. Time: constant.
    pub(crate) fn has(&self, index: usize) -> bool {
        match self.times.get(index) {
            Some(times) => *times > 1,
            None => false,
        }
    }
}

/// Counts the index once more, up to 255 times.
fn count_once(times: &mut [u8], index: usize) {
    if index < times.len() {
        times[index] = times[index].saturating_add(1);
    }
}
