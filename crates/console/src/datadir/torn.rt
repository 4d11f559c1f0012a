//! What is cut off a log, kept beside it.

use crate::datadir::{LOG, path_of, sync_folder, unread};
use crate::fault::RunFault;
use std::fs::{File, OpenOptions};
use std::io::{Error, ErrorKind, Write};
use std::os::unix::fs::FileExt;
use std::rt::Files;
use std::{fs, io};

/// How many bytes are copied at once.
const PIECE: usize = 1 << 16;

/// What is cut off a log.
#[derive(Clone, Copy)]
pub struct Torn {
    pub bytes: u64,
    /// How many whole lines stand in it behind a zero byte.
    pub lines: u64,
    /// The number in the name of the file that keeps it.
    pub number: u64,
}

/// Copies what a log has from this place on into a file of its own, `torn-1` or the next number that is free, and brings
/// that onto the disk.
pub fn keep_torn<'w, R>(rt: &R, folder: &'w str, place: u64) -> Result<Torn, RunFault<'w>>
where
    R: Files<File = File> + AllocGlobal,
{
    let path = path_of(rt.alloc(), folder, LOG)?;
    let log = fs::open(rt, path.as_str()).map_err(|error| unread(error, folder, LOG))?;
    for number in 1..u64::MAX {
        let path = format!(in rt.alloc(); "{folder}/torn-{number}")?;
        let made = OpenOptions::new()
            .write(true)
            .create_new(true)
            .open(rt, path.as_str());
        let kept = match made {
            Ok(file) => keep_in(rt, folder, &log, place, file),
            Err(error) if error.kind() == ErrorKind::AlreadyExists => continue,
            Err(error) => Err(error),
        };
        return match kept {
            Ok(BehindZero { bytes, lines, .. }) => Ok(Torn {
                bytes,
                lines,
                number,
            }),
            Err(error) => Err(unkept(rt, path.as_str(), error, folder, number)),
        };
    }
    Err(RunFault::Closed)
}

/// Why a file can't be kept, which is taken away.
fn unkept<'w, R: Files>(
    rt: &R,
    path: &str,
    error: Error,
    folder: &'w str,
    number: u64,
) -> RunFault<'w> {
    let _ = fs::remove_file(rt, path);
    match error.kind() {
        ErrorKind::OutOfMemory => RunFault::Memory,
        _ => RunFault::CannotKeep(folder, number, error),
    }
}

/// Copies what a log has from this place on.
fn keep_in<R>(rt: &R, folder: &str, log: &File, place: u64, file: File) -> io::Result<BehindZero>
where
    R: Files<File = File> + AllocGlobal,
{
    let mut file = file;
    let mut piece = vec![in rt.alloc(); 0; PIECE]?;
    let mut seen = BehindZero::default();
    for _ in 0..u64::MAX {
        let count = log.read_at(piece.as_mut_slice(), place.saturating_add(seen.bytes))?;
        let Some(read) = piece.get(..count) else {
            break;
        };
        if read.is_empty() {
            break;
        }
        file.write_all(read)?;
        seen.add(read);
    }
    file.sync_all()?;
    sync_folder(rt, folder)?;
    Ok(seen)
}

/// What was read so far.
#[derive(Clone, Copy, Default)]
struct BehindZero {
    bytes: u64,
    /// How many whole lines stand behind a zero byte.
    lines: u64,
    has_zero: bool,
    /// Whether a line without a zero byte began behind an end of line.
    is_begun: bool,
}

impl BehindZero {
    fn add(&mut self, piece: &[u8]) {
        for byte in piece {
            match *byte {
                0 => {
                    self.has_zero = true;
                    self.is_begun = false;
                }
                b'\n' => {
                    if self.is_begun {
                        self.lines = self.lines.saturating_add(1);
                    }
                    self.is_begun = self.has_zero;
                }
                _ => {}
            }
        }
        self.bytes = self.bytes.saturating_add(piece.len() as u64);
    }
}
