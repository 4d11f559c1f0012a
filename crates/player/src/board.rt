//! What seats on running threads tell each other, in a ring.

use node::{Naming, Note, Seat};
use std::alloc::{AllocError, Global};
use std::sync::{Mutex, Wait};

/// What each seat of a ring has seen by its last answer.
#[derive(Drop)]
pub struct RingBoard<J: Naming> {
    notes: Vec<Mutex<Note<J>>>,
}

impl<J: Naming> RingBoard<J> {
    /// What the first ones of these seats have seen, so many.
    pub fn new(
        alloc: Global,
        seats: &[Seat<'_, J>],
        count: usize,
    ) -> Result<RingBoard<J>, AllocError> {
        let mut notes = Vec::new(alloc);
        for seat in seats.iter().take(count) {
            notes.push(Mutex::new(seat.note()))?;
        }
        Ok(RingBoard { notes })
    }

    /// How many seats it has.
    pub fn seats(&self) -> usize {
        self.notes.len()
    }

    /// Tells the seat of this number how many entries the one before it has seen.
    pub fn tell<R: Wait>(&self, rt: &R, number: usize, seat: &mut Seat<'_, J>) -> Option<u64> {
        let last = self.notes.len().wrapping_sub(1);
        let place = self.notes.get(number.checked_sub(1).unwrap_or(last))?;
        let note = place.lock(rt);
        seat.told(&note);
        Some(note.len())
    }

    /// The seat of this number has seen this.
    pub fn lay<R: Wait>(&self, rt: &R, number: usize, note: Note<J>) {
        if let Some(place) = self.notes.get(number) {
            let mut guard = place.lock(rt);
            *guard = note;
        }
    }
}
