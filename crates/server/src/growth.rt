//! How long the history is, for who waits until it is longer.

use std::sync::{Condvar, Mutex, Wait};

/// How many steps the history has at least, and whether requests can still come.
#[derive(Clone, Copy)]
struct KnownLength {
    steps: u64,
    is_over: bool,
}

/// What is known of the history's length.
#[derive(Drop)]
pub struct Growth {
    known: Mutex<KnownLength>,
    changed: Condvar,
}

impl Growth {
    pub fn new() -> Growth {
        Growth {
            known: Mutex::new(KnownLength {
                steps: 0,
                is_over: false,
            }),
            changed: Condvar::new(),
        }
    }

    /// The history has so many steps at least.
    pub fn tell<R: Wait>(&self, rt: &R, steps: u64) {
        let mut known = self.known.lock(rt);
        if known.steps < steps {
            known.steps = steps;
            self.changed.notify_all();
        }
    }

    /// No request comes any more.
    pub fn end<R: Wait>(&self, rt: &R) {
        let mut known = self.known.lock(rt);
        known.is_over = true;
        self.changed.notify_all();
    }

    /// Waits until the history has more steps than these, or no request comes any more.
    pub fn wait_past<R: Wait>(&self, rt: &R, steps: u64) {
        let known = self.known.lock(rt);
        let _ = self.changed.wait_while(rt, known, |known| {
            known.steps <= steps && !known.is_over
        });
    }
}
