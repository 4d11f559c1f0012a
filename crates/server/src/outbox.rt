//! What goes out with the answers.

ghost use Rattle.std.specs.Prelude.{◌≡◌, length, IfOk, IfSome};

use crate::log_gap::Lacking;
use crate::words::Facts;
use node::{Entry, Fault, Naming, Seat};
use std::alloc::Global;
use std::sync::atomic::AtomicBool;
use std::sync::atomic::Ordering::SeqCst;
use std::sync::{Mutex, Wait};

/// The steps that the log lacks, and whether anything goes out any more.
#[derive(Drop)]
pub struct Outbox {
    /// Where the history is kept.
    lacking: Option<Mutex<Lacking>>,
    is_over: AtomicBool,
}

impl Outbox {
    pub fn new(alloc: Global, facts: &Facts<'_>) -> Outbox {
        let lacking = if facts.is_kept {
            Some(Mutex::new(Lacking::new(alloc, facts.loaded as u64)))
        } else {
            None
        };
        Outbox {
            lacking,
            is_over: AtomicBool::new(false),
        }
    }

    /// Of how many steps an answer tells after which a seat has seen what it has. All of them go to the log, which has none
    /// where the history isn't kept.
    pub fn stamp<J: Naming, R>(&self, rt: &R, seat: &mut Seat<'_, J>) -> Result<u64, Fault>
    where
        R: AllocGlobal + Wait,
        ensures { IfOk result (λ n. IfSome self.now.lacking (λ _. n ≡ length seat.new.seen)) }
    {
        let Some(lacking) = &self.lacking else {
            return Ok(0);
        };
        lacking.lock(rt).catch_up(rt.alloc(), seat)?;
        Ok(seat.note().len())
    }

    /// What the log lacks. It is the caller's to append it.
    pub fn take<R: AllocGlobal + Wait>(&self, rt: &R) -> Vec<Entry> {
        match &self.lacking {
            Some(lacking) => lacking.lock(rt).take(rt.alloc()),
            None => Vec::new(rt.alloc()),
        }
    }

    /// No answer goes out any more, so no request is taken.
    pub fn set_over(&self) {
        self.is_over.store(true, SeqCst);
    }

    pub fn is_over(&self) -> bool {
        self.is_over.load(SeqCst)
    }
}
