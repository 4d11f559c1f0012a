//! What seats have for one another.

ghost use Rattle.std.specs.Prelude.{◌≡◌};

use crate::blocks::Blocks;
use crate::growth::Growth;
use crate::outbox::Outbox;
use crate::waste::Waste;
use crate::words::Facts;
use node::{Naming, Note, Seat};
use std::alloc::{AllocError, Global};
use std::sync::atomic::AtomicBool;
use std::sync::atomic::Ordering::SeqCst;
use std::sync::{Mutex, Wait};

/// What each seat has seen by its last answer, and what is known of the history.
#[derive(Drop)]
pub struct Board<J: Naming> {
    notes: Vec<Mutex<Note<J>>>,
    is_short: AtomicBool,
    /// The blocks of the history, as far as a request asked for them.
    pub blocks: Mutex<Blocks<J>>,
    /// How long the history is, for who waits.
    pub growth: Growth,
    pub outbox: Outbox,
    pub waste: Waste,
}

impl<J: Naming> Board<J> {
    /// What these seats have seen.
    pub fn new(
        alloc: Global,
        seats: &[Seat<'_, J>],
        facts: &Facts<'_>,
    ) -> Result<Board<J>, AllocError> {
        let mut notes = Vec::new(alloc);
        for seat in seats {
            notes.push(Mutex::new(seat.note()))?;
        }
        Ok(Board {
            notes,
            is_short: AtomicBool::new(false),
            blocks: Mutex::new(Blocks::new(alloc)?),
            growth: Growth::new(),
            outbox: Outbox::new(alloc, facts),
            waste: Waste::new(facts.history_memory, facts.wasted),
        })
    }

    /// The seat of this number has seen this.
    pub fn lay<R: Wait>(&self, rt: &R, number: usize, note: Note<J>) {
        if let Some(place) = self.notes.get(number) {
            let mut guard = place.lock(rt);
            *guard = note;
        }
    }

    /// Has a seat hear what the seat of this number has seen.
    pub fn tell<R: Wait>(&self, rt: &R, from: usize, seat: &mut Seat<'_, J>)
        ensures { seat.new.mine ≡ seat.old.mine }
    {
        if let Some(place) = self.notes.get(from) {
            let guard = place.lock(rt);
            seat.told(&guard);
        }
    }

    /// Has a seat hear what all seats have seen.
    pub fn tell_all<R: Wait>(&self, rt: &R, seat: &mut Seat<'_, J>)
        ensures { seat.new.mine ≡ seat.old.mine }
    {
        for place in self.notes.as_slice() {
            let guard = place.lock(rt);
            seat.told(&guard);
        }
    }

    /// A seat had no memory for an answer, and has left.
    pub fn set_short(&self) {
        self.is_short.store(true, SeqCst);
    }

    pub fn is_short(&self) -> bool {
        self.is_short.load(SeqCst)
    }
}
