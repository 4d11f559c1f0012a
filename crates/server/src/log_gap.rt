//! The entries that the log lacks.

ghost use Rattle.std.specs.Prelude.{◌≡◌, ◌++◌, [], length, drop, max, OnOk, OnErr};

use node::{Entry, Fault, Naming, Seat, Stamped};
use std::alloc::{AllocError, Global};
use std::mem;

/// The entries of the history that wait to be appended to the log, in order, and how many entries were taken so far.
#[derive(Drop)]
pub struct Lacking {
    taken: u64,
    entries: Vec<Entry>,
}

impl Lacking {
    /// Behind this many entries.
    pub fn new(alloc: Global, taken: u64) -> Lacking
        ensures { (result.taken ≡ taken) × (result.entries.items ≡ []) }
    {
        Lacking {
            taken,
            entries: Vec::new(alloc),
        }
    }

    /// Takes in what a seat has then seen beyond what was taken.
    pub fn catch_up<J: Naming>(
        &mut self,
        alloc: Global,
        seat: &mut Seat<'_, J>,
    ) -> Result<(), Fault>
        ensures taken { OnOk result (self.new.taken ≡ max self.old.taken (length seat.new.seen)) }
        ensures entries { OnOk result (self.new.entries.items
            ≡ self.old.entries.items ++ drop self.old.taken seat.new.seen) }
        ensures same { OnErr result ((self.new.taken ≡ self.old.taken)
            × (self.new.entries.items ≡ self.old.entries.items)) }
    {
        if seat.note().len() <= self.taken {
            return Ok(());
        }
        let Stamped { at, mut value } = seat.journal(alloc, self.taken, u64::MAX)?;
        match self.entries.append(&mut value) {
            Ok(()) => {
                self.taken = at;
                Ok(())
            }
            Err(AllocError) => Err(Fault::Memory),
        }
    }

    /// The entries, which don't wait any more.
    pub fn take(&mut self, alloc: Global) -> Vec<Entry>
        ensures all { result ≡ self.old.entries }
        ensures none { self.new.entries.items ≡ [] }
        ensures taken { self.new.taken ≡ self.old.taken }
    {
        mem::replace(&mut self.entries, Vec::new(alloc))
    }
}
