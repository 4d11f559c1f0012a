//! A gate at which scripts wait.

use queue::Gate;
use std::alloc::Global;
use std::sync::atomic::Ordering::SeqCst;
use std::sync::atomic::{AtomicBool, AtomicU64};
use std::thread::yield_now;
use wire::Memory;

/// A gate at which each script waits until it is open. It opens as so many scripts have begun, or by a caller.
#[derive(Drop)]
pub struct Meeting {
    wanted: u64,
    /// How often a thread looks whether the gate is open.
    looks: u64,
    begun: AtomicU64,
    ended: AtomicU64,
    is_open: AtomicBool,
    /// A thread has waited in vain.
    is_late: AtomicBool,
}

impl Meeting {
    /// A gate that opens as so many scripts have begun; at 0 it is open.
    pub fn new(wanted: u64, looks: u64) -> Meeting {
        Meeting {
            wanted,
            looks,
            begun: AtomicU64::new(0),
            ended: AtomicU64::new(0),
            is_open: AtomicBool::new(wanted == 0),
            is_late: AtomicBool::new(false),
        }
    }

    /// Waits until a script has begun, or the gate is open.
    pub fn wait_for_a_script(&self) {
        for _ in 0..self.looks {
            if self.begun.load(SeqCst) > 0 || self.is_open.load(SeqCst) {
                return;
            }
            yield_now();
        }
        self.is_late.store(true, SeqCst);
    }

    pub fn open(&self) {
        self.is_open.store(true, SeqCst);
    }

    /// How many scripts were run, and whether all who waited met.
    pub fn seen(&self, alloc: Global) -> Result<String, Memory> {
        let word = if self.is_late.load(SeqCst) {
            "not met"
        } else {
            "met"
        };
        let (begun, ended) = (self.begun.load(SeqCst), self.ended.load(SeqCst));
        Ok(format!(in alloc; "gate = {word}, {begun} begun, {ended} ended")?)
    }
}

impl Gate for Meeting {
    fn begin(&self, _job: usize) {
        let others = self.begun.fetch_add(1, SeqCst);
        if others.wrapping_add(1) >= self.wanted {
            self.open();
        }
        for _ in 0..self.looks {
            if self.is_open.load(SeqCst) {
                return;
            }
            yield_now();
        }
        self.is_late.store(true, SeqCst);
    }

    fn end(&self, _job: usize) {
        self.ended.fetch_add(1, SeqCst);
    }
}
