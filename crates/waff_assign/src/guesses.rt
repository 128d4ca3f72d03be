//! Guesses at which place of a list a cell stands.

use std::alloc::{AllocError, Global};
use waff_model::Cell;

/// For each cell the place at which it was last put, as a guess: cells may share a guess, so that who
/// asks has to look there.
pub(crate) struct Guesses {
    places: Vec<u32>,
    mask: u32,
}

impl Drop for Guesses {
    fn drop(self) {
        let Guesses { places, mask: _ } = self;
        drop(places);
    }
}

impl Guesses {
    /// No cell was put. Few messages get few guesses.
    pub(crate) fn new(alloc: Global, messages: u32) -> Result<Self, AllocError> {
        let mask = if messages < 4_096 { 16_383 } else { 1_048_575 };
        Ok(Guesses {
            places: vec![in alloc; 0; mask as usize + 1]?,
            mask,
        })
    }

    /// The place to look at.
    pub(crate) fn at(&self, cell: Cell) -> usize {
        match self.places.get(self.slot(cell)) {
            Some(place) => *place as usize,
            None => 0,
        }
    }

    /// Notes the place of a cell.
    pub(crate) fn put(&mut self, cell: Cell, place: usize) {
        let slot = self.slot(cell);
        if let Some(guess) = self.places.get_mut(slot) {
            *guess = u32::try_from(place).unwrap_or(0);
        }
    }

    fn slot(&self, cell: Cell) -> usize {
        let mixed = cell
            .index
            .wrapping_add(cell.space.wrapping_mul(2_654_435_761));
        (mixed & self.mask) as usize
    }
}
