//! Where a reader is between calls.

ghost use Rattle.std.specs.Prelude.{◌≡◌, true, false, Decides, IfSome, MatchOption};
ghost use Rattle.view.specs.ViewState.{IsExact, IsLegal};
ghost use Rattle.node.specs.inside.Seats.{IsFound};

use std::marker::Model;
use view::{Naming, SeenHistory, ViewReader, ViewReading, enter};

/// A reader, or its place while it is in a view. A clause sees whether it is here.
#[derive(Drop)]
pub(crate) struct ReaderHome<J: Naming> {
    reader: Option<ViewReader<J>>,
}

impl<J: Naming> Model for ReaderHome<J> {
    ghost use Rattle.std.specs.Prelude.{Bool, is_some};

    ghost Value = { Bool };

    ghost view = { λ h. is_some h.reader };
}

impl<J: Naming> ReaderHome<J> {
    /// The home of this reader.
    pub(crate) fn of(reader: ViewReader<J>) -> ReaderHome<J>
        ensures { result ≡ true }
    {
        ReaderHome {
            reader: Some(reader),
        }
    }

    /// Enters the view that was published last. None where the writer is gone. The reading is handed back by `leave`.
    pub(crate) fn enter(&mut self) -> Option<ViewReading<J>>
        ensures home { MatchOption result
            (self.new ≡ self.old) (λ _. (self.old ≡ true) × (self.new ≡ false)) }
        ensures exact { IfSome result (λ r. IsExact r.part.value) }
        ensures origin { IfSome result (λ r. r.part.value.origin ≡ J.origin) }
    {
        match enter(self.reader.take()?) {
            Ok(reading) => Some(reading),
            Err(reader) => {
                self.reader = Some(reader);
                None
            }
        }
    }

    /// Enters it, if it is just this history.
    pub(crate) fn enter_at(&mut self, note: &SeenHistory) -> Option<ViewReading<J>>
        requires { note.now.book ≡ J.origin.book }
        ensures home { MatchOption result
            (self.new ≡ self.old) (λ _. (self.old ≡ true) × (self.new ≡ false)) }
        ensures exact { IfSome result (λ r. IsExact r.part.value) }
        ensures origin { IfSome result (λ r. r.part.value.origin ≡ J.origin) }
        ensures whole { IfSome result (λ r. note.now.entries ≡ r.part.value.journal) }
    {
        let reading = self.enter()?;
        match reading.get().note() {
            Some(found) if is_whole(note, &found) => Some(reading),
            _ => {
                self.leave(reading);
                None
            }
        }
    }

    /// Enters it, if it goes on from what was seen: the view, and a note of all of it.
    pub(crate) fn enter_from(&mut self, seen: &SeenHistory) -> Option<(ViewReading<J>, SeenHistory)>
        requires { seen.now.book ≡ J.origin.book }
        ensures home { MatchOption result
            (self.new ≡ self.old) (λ _. (self.old ≡ true) × (self.new ≡ false)) }
        ensures found { IfSome result (λ r.
            IsFound J.origin seen.now.entries r.0.part.value r.1) }
        ensures legal { IfSome result (λ r. IsLegal J.origin r.1.entries) }
    {
        let reading = self.enter()?;
        match reading.get().note() {
            Some(found) if seen.begins(&found) => Some((reading, found)),
            _ => {
                self.leave(reading);
                None
            }
        }
    }

    /// Leaves a view.
    pub(crate) fn leave(&mut self, reading: ViewReading<J>)
        ensures { self.new ≡ true }
    {
        self.reader = Some(reading.leave());
    }
}

/// Whether another beginning of the same history is just as long. Then it is the same, as one of them begins the other.
fn is_whole(note: &SeenHistory, found: &SeenHistory) -> bool
    requires { found.now.book ≡ note.now.book }
    ensures { Decides result (found.now.entries ≡ note.now.entries) }
{
    let _either = note.begins(found);
    note.len() == found.len()
}
