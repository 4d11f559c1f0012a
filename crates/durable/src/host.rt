//! What a log stands on: one file, and those who are told.

ghost use Rattle.std.specs.Prelude.{◌≡◌, ◌++◌, ◌∷◌, [], List};
ghost use Rattle.durable.specs.Crash.{Event, event};
ghost use Rattle.durable.specs.declared.host.Asked.TheVariants as asked;

/// What a host is asked.
#[derive(Clone, Copy, Debug, PartialEq, Eq)]
pub enum Asked {
    /// To open the file, with all that it holds on the disk.
    Open,
    /// To write behind the file's end.
    Append,
    /// To cut the file to this length.
    Cut(u64),
    /// To bring the file onto the disk.
    Sync,
    /// To let an answer out that tells of so many steps.
    Tell(u64),
}

/// A call of a host.
#[derive(Clone, Copy, Debug, PartialEq, Eq)]
pub struct Call {
    pub asked: Asked,
    /// False where it failed, wholly or in part.
    pub is_done: bool,
}

/// A file and those who are told of answers. A clause sees the calls so far, and `specs/Crash` says what they leave.
pub trait Host {
    /// Why a call failed.
    type Failure: Drop;

    /// The calls so far, each with the bytes that it was given.
    ghost calls: { Self → List Event };

    /// Writes behind the end of the file.
    fn append(&mut self, bytes: &Vec<u8>) -> Result<(), Self::Failure>
        ensures { calls self.new ≡ calls self.old
            ++ event asked.Append result bytes.now.items ∷ [] };

    /// Cuts the file to a length.
    fn cut(&mut self, len: u64) -> Result<(), Self::Failure>
        ensures { calls self.new ≡ calls self.old ++ event (asked.Cut len) result [] ∷ [] };

    /// Brings the file onto the disk.
    fn sync(&mut self) -> Result<(), Self::Failure>
        ensures { calls self.new ≡ calls self.old ++ event asked.Sync result [] ∷ [] };

    /// Lets an answer out that tells of so many steps. Where it fails, it may be out.
    fn tell(&mut self, stamp: u64, line: &Vec<u8>) -> Result<(), Self::Failure>
        ensures { calls self.new ≡ calls self.old
            ++ event (asked.Tell stamp) result line.now.items ∷ [] };
}
