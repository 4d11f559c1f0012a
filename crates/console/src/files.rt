//! The files of a run, and its streams.

use crate::fault::RunFault;
use crate::options::STANDARD;
use signatures::Table;
use std::alloc::Global;
use std::io::{Error, ErrorKind, Read, Write};
use std::rt::Files;
use std::{fs, io};

/// The bytes of a file.
pub fn read_file<'w, R>(rt: &R, file: &'w str) -> Result<Vec<u8>, RunFault<'w>>
where
    R: Files + AllocGlobal,
{
    match fs::read(rt, file) {
        Ok(bytes) => Ok(bytes),
        Err(error) => Err(unread(error, file)),
    }
}

/// Refuses what is there and is neither a regular file nor a folder: to open a pipe or a device may wait for ever.
pub fn check_regular<R: Files>(rt: &R, path: &str) -> io::Result<()> {
    match fs::metadata(rt, path) {
        Ok(found) if !found.is_file() && !found.is_dir() => {
            Err(Error::new(ErrorKind::InvalidInput, "not a regular file"))
        }
        _ => Ok(()),
    }
}

/// The bytes of a regular file.
pub fn read_regular<R>(rt: &R, path: &str) -> io::Result<Vec<u8>>
where
    R: Files + AllocGlobal,
{
    check_regular(rt, path)?;
    fs::read(rt, path)
}

/// The bytes of a file, if one is named.
pub fn read_if_named<'w, R>(rt: &R, file: Option<&'w str>) -> Result<Option<Vec<u8>>, RunFault<'w>>
where
    R: Files + AllocGlobal,
{
    match file {
        Some(file) => Ok(Some(read_file(rt, file)?)),
        None => Ok(None),
    }
}

/// The valid signatures of a table's file; none, where no file is named.
pub fn read_table_file<'w, R>(rt: &R, file: Option<&'w str>) -> Result<Table, RunFault<'w>>
where
    R: Files + AllocGlobal,
{
    match read_if_named(rt, file)? {
        Some(text) => read_table(rt.alloc(), Some(text.as_slice())),
        None => read_table(rt.alloc(), None),
    }
}

/// The bytes of a scenario's file, which may be the standard input.
pub fn read_scenario<'w, R, I>(
    rt: &R,
    file: &'w str,
    input: &mut I,
) -> Result<Vec<u8>, RunFault<'w>>
where
    R: Files + AllocGlobal,
    I: Read,
{
    if file != STANDARD {
        return read_file(rt, file);
    }
    let mut bytes = Vec::new(rt.alloc());
    match input.read_to_end(&mut bytes) {
        Ok(_) => Ok(bytes),
        Err(error) => Err(unread(error, file)),
    }
}

/// The valid signatures of a table's text: none, where there is no text.
pub fn read_table(alloc: Global, text: Option<&[u8]>) -> Result<Table, RunFault<'static>> {
    match text {
        Some(text) => Ok(Table::from_lines(alloc, text)?),
        None => Ok(Table::new(alloc)),
    }
}

fn unread<'w>(error: Error, file: &'w str) -> RunFault<'w> {
    match error.kind() {
        ErrorKind::OutOfMemory => RunFault::Memory,
        _ => RunFault::CannotRead(file, error),
    }
}

/// Writes a text to the standard output.
pub fn print<O: Write>(out: &mut O, text: &str) -> Result<(), RunFault<'static>> {
    print_bytes(out, text.as_bytes())
}

/// Writes bytes to the standard output.
pub fn print_bytes<O: Write>(out: &mut O, bytes: &[u8]) -> Result<(), RunFault<'static>> {
    match print_all(out, bytes) {
        Ok(()) => Ok(()),
        Err(error) => Err(RunFault::CannotWrite(STANDARD, error)),
    }
}

fn print_all<O: Write>(out: &mut O, bytes: &[u8]) -> io::Result<()> {
    out.write_all(bytes)?;
    out.flush()
}
