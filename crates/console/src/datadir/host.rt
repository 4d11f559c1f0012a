//! The log's file, and the output on which answers go out. Each method makes one call, and then notes it with its result.

ghost use Rattle.std.specs.Prelude.{◌≡◌, ◌++◌, ◌∷◌, [], map, true};
ghost use Rattle.durable.specs.Crash.{Event};
ghost use Rattle.durable.specs.declared.host.Asked.TheVariants as asked;

use crate::datadir::LOG;
use crate::fault::RunFault;
use crate::options::STANDARD;
use durable::{Asked, Call, Host};
use http_server::Log as Notes;
use std::alloc::Global;
use std::fs::File;
use std::io::{Error, ErrorKind, Write};

/// What failed, as the system says.
#[derive(Debug, Drop)]
pub enum HostFault {
    /// The log's file takes no more.
    Disk(Error),
    /// The output takes no more.
    Out(Error),
}

/// The file of a log, if there is one, and the output.
#[derive(Drop)]
pub struct FileHost<'o, O: Write> {
    alloc: Global,
    file: Option<File>,
    /// Whether a sync waits for the disk.
    is_synced: bool,
    out: &'o mut O,
    /// The calls so far. It takes no memory.
    notes: Notes<Call, Vec<u8>>,
}

impl<'o, O: Write> FileHost<'o, O> {
    /// A log's file that was opened with these bytes, all of them on the disk.
    pub fn open(
        alloc: Global,
        file: Option<File>,
        bytes: &Vec<u8>,
        is_synced: bool,
        out: &'o mut O,
    ) -> FileHost<'o, O>
        ensures calls { result.notes.items
            ≡ (record { asked = asked.Open; is_done = true }, bytes.now) ∷ [] }
        ensures synced { result.is_synced ≡ is_synced }
    {
        let call = Call {
            asked: Asked::Open,
            is_done: true,
        };
        FileHost {
            alloc,
            file,
            is_synced,
            out,
            notes: Notes::new().and(&call, bytes),
        }
    }

    fn note(&mut self, asked: Asked, is_done: bool, bytes: &Vec<u8>)
        ensures { self.new.notes.items ≡ self.old.notes.items
            ++ (record { asked = asked; is_done = is_done }, bytes.now) ∷ [] }
    {
        self.notes = self.notes.and(&Call { asked, is_done }, bytes);
    }
}

impl<O: Write> Host for FileHost<'_, O> {
    type Failure = HostFault;

    ghost calls = { λ host. map (λ noted. (noted.0, noted.1.items)) host.notes.items };

    fn append(&mut self, bytes: &Vec<u8>) -> Result<(), HostFault> {
        let written = append_to(self.file.as_ref(), bytes.as_slice());
        self.note(Asked::Append, written.is_ok(), bytes);
        written
    }

    fn cut(&mut self, len: u64) -> Result<(), HostFault> {
        let cut = cut_to(self.file.as_ref(), len);
        self.note(Asked::Cut(len), cut.is_ok(), &Vec::new(self.alloc));
        cut
    }

    fn sync(&mut self) -> Result<(), HostFault> {
        let synced = sync(self.file.as_ref(), self.is_synced);
        self.note(Asked::Sync, synced.is_ok(), &Vec::new(self.alloc));
        synced
    }

    fn tell(&mut self, stamp: u64, line: &Vec<u8>) -> Result<(), HostFault> {
        let told = print_to(self.out, line.as_slice());
        self.note(Asked::Tell(stamp), told.is_ok(), line);
        told
    }
}

fn append_to(file: Option<&File>, bytes: &[u8]) -> Result<(), HostFault> {
    let mut file = there(file)?;
    file.write_all(bytes).map_err(HostFault::Disk)
}

fn cut_to(file: Option<&File>, len: u64) -> Result<(), HostFault> {
    there(file)?.set_len(len).map_err(HostFault::Disk)
}

fn sync(file: Option<&File>, waits: bool) -> Result<(), HostFault> {
    if !waits {
        return Ok(());
    }
    there(file)?.sync_data().map_err(HostFault::Disk)
}

fn print_to<O: Write>(out: &mut O, line: &[u8]) -> Result<(), HostFault> {
    out.write_all(line).map_err(HostFault::Out)?;
    out.flush().map_err(HostFault::Out)
}

fn there(file: Option<&File>) -> Result<&File, HostFault> {
    match file {
        Some(file) => Ok(file),
        None => Err(HostFault::Disk(Error::from(ErrorKind::NotFound))),
    }
}

impl From<HostFault> for RunFault<'_> {
    fn from(fault: HostFault) -> Self {
        match fault {
            HostFault::Disk(error) => RunFault::CannotWrite(LOG, error),
            HostFault::Out(error) => RunFault::CannotWrite(STANDARD, error),
        }
    }
}
