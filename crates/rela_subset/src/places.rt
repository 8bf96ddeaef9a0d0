//! Places that are noted for numbers.
use std::alloc::AllocError;

/// Notes the place for the number. Time: constant, and a step for each number below it where none
/// so high has a place yet.
pub(crate) fn note(places: &mut Vec<usize>, number: usize, place: usize) -> Result<(), AllocError> {
    if places.len() <= number {
        places.resize(number.saturating_add(1), 0)?;
    }
    if let Some(noted) = places.get_mut(number) {
        *noted = place;
    }
    Ok(())
}
