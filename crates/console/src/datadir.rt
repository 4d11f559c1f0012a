//! The folder in which a served node keeps its history: a log, and under which table and heights it is played.
//!
//! Who opens the log has the folder for itself.

mod host;
mod kept_steps;
mod lines;
mod setting;
mod torn;

use crate::fault::RunFault;
use crate::files::{check_regular, read_regular};
use crate::options::ServeOptions;
pub use host::{FileHost, HostFault};
pub use kept_steps::{KeptSteps, StepBatch};
pub use lines::{
    JudgedSignature, Unpacked, check_lines, entry_line, read_lines, table_of, triple_lines,
};
use setting::{check_setting, finish_setting, is_there, make_setting, write_synced};
pub use setting::{PlaySetting, read_setting};
use std::alloc::{AllocError, Global};
use std::fs::{File, OpenOptions, TryLockError};
use std::io::{Error, ErrorKind, Read};
use std::rt::Files;
use std::{fs, io};
pub use torn::{Torn, keep_torn};

/// The log of the history.
pub const LOG: &str = "history.log";

const TABLE: &str = "table.txt";

const HEIGHTS: &str = "heights.txt";

/// The file that is locked as long as a node has the folder.
const LOCK: &str = "lock";

/// What a folder says, and its log.
#[derive(Drop)]
pub struct Datadir {
    pub setting: PlaySetting,
    pub log: File,
    /// What the log holds, all of it on the disk.
    pub bytes: Vec<u8>,
    pub lock: FolderLock,
}

/// What keeps other nodes from a folder.
#[derive(Drop)]
pub struct FolderLock {
    /// The file that every version of the program locks.
    pub file: File,
    /// The folder itself, which stays when that file is removed.
    pub folder: Option<File>,
}

/// Opens the folder of a node, which is made where it lacks, for as long as the result is kept.
pub fn open_datadir<'w, R>(
    rt: &R,
    folder: &'w str,
    options: &ServeOptions<'w>,
) -> Result<Datadir, RunFault<'w>>
where
    R: Files<File = File> + AllocGlobal,
{
    let alloc = rt.alloc();
    let path = path_of(alloc, folder, LOG)?;
    make_folder(rt, folder).map_err(|error| unmade(error, folder, LOG))?;
    let lock = lock_for_node(rt, folder)?;
    if !is_there(rt, path.as_str()) {
        check_unused(rt, folder)?;
        make_setting(rt, folder, options)?;
        make_log(rt, folder, path.as_str()).map_err(|error| unmade(error, folder, LOG))?;
    }
    finish_setting(rt, folder)?;
    let setting = read_setting(rt, folder)?;
    check_setting(rt, folder, options, &setting)?;
    let mut bytes = Vec::new(alloc);
    let log = open_log(rt, path.as_str(), &mut bytes).map_err(|error| unread(error, folder, LOG))?;
    Ok(Datadir {
        setting,
        log,
        bytes,
        lock,
    })
}

/// Whether a folder has a log.
pub fn has_log<R>(rt: &R, folder: &str) -> Result<bool, AllocError>
where
    R: Files + AllocGlobal,
{
    Ok(is_there(rt, path_of(rt.alloc(), folder, LOG)?.as_str()))
}

/// Makes a folder, and brings its name onto the disk.
fn make_folder<R: Files<File = File> + AllocGlobal>(rt: &R, folder: &str) -> io::Result<()> {
    match fs::create_dir(rt, folder) {
        Ok(()) => sync_folder(rt, format!(in rt.alloc(); "{folder}/..")?.as_str()),
        Err(error) if error.kind() == ErrorKind::AlreadyExists => Ok(()),
        Err(error) => Err(error),
    }
}

fn sync_folder<R: Files<File = File>>(rt: &R, folder: &str) -> io::Result<()> {
    fs::open(rt, folder)?.sync_all()
}

/// Locks a folder for one node.
fn lock_for_node<'w, R>(rt: &R, folder: &'w str) -> Result<FolderLock, RunFault<'w>>
where
    R: Files<File = File> + AllocGlobal,
{
    let FolderLock { file, .. } = lock_to_save(rt, folder)?;
    match lock_folder(rt, folder) {
        Ok(itself) => Ok(FolderLock {
            file,
            folder: Some(itself),
        }),
        Err(error) => Err(unmade(error, folder, LOCK)),
    }
}

/// Locks a folder for one node that saves there at its end. Who reads the folder's files isn't kept waiting.
pub fn lock_to_save<'w, R>(rt: &R, folder: &'w str) -> Result<FolderLock, RunFault<'w>>
where
    R: Files<File = File> + AllocGlobal,
{
    match lock_file(rt, folder) {
        Ok(file) => Ok(FolderLock { file, folder: None }),
        Err(error) => Err(unmade(error, folder, LOCK)),
    }
}

/// Locks the file of a folder that is there for it.
fn lock_file<R>(rt: &R, folder: &str) -> io::Result<File>
where
    R: Files<File = File> + AllocGlobal,
{
    let path = path_of(rt.alloc(), folder, LOCK)?;
    check_regular(rt, path.as_str())?;
    let file = OpenOptions::new()
        .write(true)
        .create(true)
        .open(rt, path.as_str())?;
    locked(file)
}

/// Locks a folder itself.
fn lock_folder<R: Files<File = File>>(rt: &R, folder: &str) -> io::Result<File> {
    locked(fs::open(rt, folder)?)
}

/// Locks what was opened. On a file system that has no locks it is opened alone.
fn locked(file: File) -> io::Result<File> {
    if matches!(file.try_lock(), Err(TryLockError::WouldBlock)) {
        let busy = "another process has the folder";
        return Err(Error::new(ErrorKind::ResourceBusy, busy));
    }
    Ok(file)
}

/// Refuses a folder that had a log, and has none.
fn check_unused<'w, R>(rt: &R, folder: &'w str) -> Result<(), RunFault<'w>>
where
    R: Files + AllocGlobal,
{
    for name in [HEIGHTS, TABLE] {
        if is_there(rt, path_of(rt.alloc(), folder, name)?.as_str()) {
            let lost = "it is missing beside heights.txt or table.txt";
            return Err(unread(Error::new(ErrorKind::NotFound, lost), folder, LOG));
        }
    }
    Ok(())
}

/// Makes an empty log, and brings it and the folder's names onto the disk.
fn make_log<R: Files<File = File>>(rt: &R, folder: &str, path: &str) -> io::Result<()> {
    sync_folder(rt, folder)?;
    write_synced(rt, path, &[])?;
    sync_folder(rt, folder)
}

/// Opens a log, of which all is on the disk then, and reads it.
fn open_log<R: Files<File = File>>(rt: &R, path: &str, bytes: &mut Vec<u8>) -> io::Result<File> {
    check_regular(rt, path)?;
    let mut file = OpenOptions::new().read(true).append(true).open(rt, path)?;
    file.sync_all()?;
    // Else it is moved again and again as it grows.
    let len = file.metadata()?.len() as usize;
    bytes.reserve(len.saturating_add(1))?;
    file.read_to_end(bytes)?;
    Ok(file)
}

/// The bytes of a file of a folder.
pub fn read_bytes<'w, R>(
    rt: &R,
    folder: &'w str,
    name: &'static str,
) -> Result<Vec<u8>, RunFault<'w>>
where
    R: Files<File = File> + AllocGlobal,
{
    let path = path_of(rt.alloc(), folder, name)?;
    read_regular(rt, path.as_str()).map_err(|error| unread(error, folder, name))
}

/// The path of a file of a folder.
fn path_of(alloc: Global, folder: &str, name: &str) -> Result<String, AllocError> {
    format!(in alloc; "{folder}/{name}")
}

/// Where a file of a folder is made.
fn new_of(alloc: Global, folder: &str, name: &str) -> Result<String, AllocError> {
    format!(in alloc; "{folder}/{name}.new")
}

fn unread<'w>(error: Error, folder: &'w str, name: &'static str) -> RunFault<'w> {
    match error.kind() {
        ErrorKind::OutOfMemory => RunFault::Memory,
        _ => RunFault::CannotOpen(folder, name, error),
    }
}

fn unmade<'w>(error: Error, folder: &'w str, name: &'static str) -> RunFault<'w> {
    match error.kind() {
        ErrorKind::OutOfMemory => RunFault::Memory,
        _ => RunFault::CannotSave(folder, name, error),
    }
}
