//! The files that a run leaves in a folder.
//!
//! Each is made under its name and `.new` first, the journal's before all others, and renamed when all are whole, the
//! journal's first. That one rename decides. Where there is a `journal.txt.new`, the folder holds what it held before;
//! where there is none, another file that still has its name with `.new` is the one that counts.

use crate::fault::RunFault;
use crate::files::read_regular;
use crate::report::Report;
use journal::{RecordFault, blk_file};
use rules::{Deployment, Params};
use signatures::Table;
use std::alloc::{AllocError, Global};
use std::fs::{File, OpenOptions, TryLockError};
use std::io::{Error, ErrorKind, Write};
use std::rt::Files;
use std::{fs, io};

const JOURNAL: &str = "journal.txt";

const BLOCKS: &str = "blocks.blk";

const TABLE: &str = "table.txt";

const HEIGHTS: &str = "heights.txt";

const INVALID: &str = "invalid.txt";

/// A file of the folder.
#[derive(Drop)]
struct SavedFile {
    name: &'static str,
    path: String,
    /// Where it is made.
    new: String,
}

impl SavedFile {
    fn new(alloc: Global, folder: &str, name: &'static str) -> Result<SavedFile, AllocError> {
        Ok(SavedFile {
            name,
            path: format!(in alloc; "{folder}/{name}")?,
            new: format!(in alloc; "{folder}/{name}.new")?,
        })
    }
}

/// The files of the folder.
#[derive(Drop)]
struct FolderFiles {
    journal: SavedFile,
    blocks: SavedFile,
    table: SavedFile,
    heights: SavedFile,
}

impl FolderFiles {
    fn new(alloc: Global, folder: &str) -> Result<FolderFiles, AllocError> {
        Ok(FolderFiles {
            journal: SavedFile::new(alloc, folder, JOURNAL)?,
            blocks: SavedFile::new(alloc, folder, BLOCKS)?,
            table: SavedFile::new(alloc, folder, TABLE)?,
            heights: SavedFile::new(alloc, folder, HEIGHTS)?,
        })
    }
}

/// Makes a folder, if nothing has its name.
pub fn make_folder<'w, R: Files>(rt: &R, folder: &'w str) -> Result<(), RunFault<'w>> {
    match fs::create_dir(rt, folder) {
        Err(error) if error.kind() != ErrorKind::AlreadyExists => {
            Err(unsaved(error, folder, JOURNAL))
        }
        _ => Ok(()),
    }
}

/// Refuses a name that is no folder's: nothing can be saved there.
pub fn check_folder<'w, R: Files>(rt: &R, folder: &'w str) -> Result<(), RunFault<'w>> {
    match check_is_folder(rt, folder) {
        Ok(()) => Ok(()),
        Err(error) => Err(unsaved(error, folder, JOURNAL)),
    }
}

fn check_is_folder<R: Files>(rt: &R, folder: &str) -> io::Result<()> {
    if fs::metadata(rt, folder)?.is_dir() {
        return Ok(());
    }
    Err(Error::new(ErrorKind::NotADirectory, "Not a directory"))
}

/// Writes the journal, the blocks that were submitted, the signatures that were valid and the heights of soft forks.
///
/// The folder then holds all four; after a fault, or where the run is killed, all four or what it held before.
pub fn save<'w, R>(
    rt: &R,
    folder: &'w str,
    report: &Report<'_, '_>,
    table: &Table,
    heights: &str,
) -> Result<(), RunFault<'w>>
where
    R: Files<File = File> + AllocGlobal,
{
    let files = files_of(rt.alloc(), folder, report, table, heights)?;
    save_files(rt, folder, &files)
}

/// Writes these files, as `save` does. None without steps takes the place of one that has some.
pub fn save_files<'w, R>(rt: &R, folder: &'w str, files: &SavedFiles) -> Result<(), RunFault<'w>>
where
    R: Files<File = File> + AllocGlobal,
{
    // All names are made before anything changes.
    let places = FolderFiles::new(rt.alloc(), folder)?;
    match lock(rt, folder) {
        Ok(_lock) => save_at(rt, folder, &places, files),
        Err(error) => Err(unsaved(error, folder, JOURNAL)),
    }
}

/// Saves in a folder that is locked.
fn save_at<'w, R>(
    rt: &R,
    folder: &'w str,
    places: &FolderFiles,
    files: &SavedFiles,
) -> Result<(), RunFault<'w>>
where
    R: Files + AllocGlobal,
{
    finish_last(rt, folder, places)?;
    if files.journal.is_empty() {
        check_no_steps(rt, folder, &places.journal)?;
    }
    let made = match make_all(rt, folder, places, files) {
        Ok(()) => put_in_place(rt, folder, &places.journal),
        Err(fault) => Err(fault),
    };
    if let Err(fault) = made {
        let _ = take_away(rt, folder, places);
        return Err(fault);
    }
    put_in_place(rt, folder, &places.blocks)?;
    put_in_place(rt, folder, &places.table)?;
    put_in_place(rt, folder, &places.heights)
}

/// Locks a folder, in which no other run saves then. One that does isn't waited for; audits that read are. On a file
/// system that has no locks for folders it is opened alone.
fn lock<R: Files<File = File>>(rt: &R, folder: &str) -> io::Result<File> {
    check_is_folder(rt, folder)?;
    let file = fs::open(rt, folder)?;
    if !matches!(file.try_lock(), Err(TryLockError::WouldBlock)) {
        return Ok(file);
    }
    if file.try_lock_shared().is_err() {
        let busy = "another run saves into the folder";
        return Err(Error::new(ErrorKind::ResourceBusy, busy));
    }
    file.lock()?;
    Ok(file)
}

/// Ends what a run began that was killed: puts in place what counts, and takes away what doesn't.
fn finish_last<'w, R: Files>(
    rt: &R,
    folder: &'w str,
    places: &FolderFiles,
) -> Result<(), RunFault<'w>> {
    if !stands(rt, places.journal.new.as_str()) {
        finish(rt, folder, &places.blocks)?;
        finish(rt, folder, &places.table)?;
        finish(rt, folder, &places.heights)?;
    }
    take_away(rt, folder, places)
}

/// Puts a file in its place, if it is still under its other name.
fn finish<'w, R: Files>(rt: &R, folder: &'w str, place: &SavedFile) -> Result<(), RunFault<'w>> {
    if is_file(rt, place.new.as_str()) {
        return put_in_place(rt, folder, place);
    }
    Ok(())
}

/// Refuses a folder that has steps.
fn check_no_steps<'w, R: Files>(
    rt: &R,
    folder: &'w str,
    place: &SavedFile,
) -> Result<(), RunFault<'w>> {
    match fs::metadata(rt, place.path.as_str()) {
        Ok(found) if found.len() > 0 => {
            let steps = "there is a history, and it would be lost for one without steps";
            let error = Error::new(ErrorKind::AlreadyExists, steps);
            Err(RunFault::CannotSave(folder, place.name, error))
        }
        _ => Ok(()),
    }
}

/// Makes all files, none of them in its place.
fn make_all<'w, R: Files>(
    rt: &R,
    folder: &'w str,
    places: &FolderFiles,
    files: &SavedFiles,
) -> Result<(), RunFault<'w>> {
    make(rt, folder, &places.journal, files.journal.as_slice())?;
    make(rt, folder, &places.blocks, files.blocks.as_slice())?;
    make(rt, folder, &places.table, files.table.as_slice())?;
    make(rt, folder, &places.heights, files.heights.as_slice())
}

/// What is saved of a run.
fn files_of<'w>(
    alloc: Global,
    folder: &'w str,
    report: &Report<'_, '_>,
    table: &Table,
    heights: &str,
) -> Result<SavedFiles, RunFault<'w>> {
    Ok(SavedFiles {
        journal: report.journal_in_digits(alloc)?.into_bytes(),
        blocks: blocks_of(alloc, folder, report)?,
        table: table.to_string(alloc)?.into_bytes(),
        heights: format!(in alloc; "{heights}\n")?.into_bytes(),
    })
}

/// Soft forks that a line of heights names.
const NAMED: [Deployment; 1] = [Deployment::NullDummy];

/// The heights of soft forks, as a line that is read ([`journal::read_heights`]).
pub fn heights_line(alloc: Global, params: &Params) -> Result<String, AllocError> {
    let Params {
        bip34,
        bip65,
        bip66,
        csv,
        ..
    } = params;
    let mut line = format!(in alloc; "{bip34},{bip65},{bip66},{csv}")?;
    for deployment in NAMED {
        if let Some(height) = params.height(deployment) {
            let name = deployment.name();
            line.push_str(format!(in alloc; ",{name}@{height}")?.as_str())?;
        }
    }
    line.push('\n')?;
    Ok(line)
}

/// The blk file of the blocks that were submitted.
fn blocks_of<'w>(
    alloc: Global,
    folder: &'w str,
    report: &Report<'_, '_>,
) -> Result<Vec<u8>, RunFault<'w>> {
    match blk_file(alloc, report.entries()) {
        Ok(blocks) => Ok(blocks),
        Err(RecordFault::Memory) => Err(RunFault::Memory),
        Err(RecordFault::TooLong) => {
            let long = "a block is longer than a record may be";
            let error = Error::new(ErrorKind::FileTooLarge, long);
            Err(RunFault::CannotSave(folder, BLOCKS, error))
        }
    }
}

/// Makes a file that can take its place.
fn make<'w, R: Files>(
    rt: &R,
    folder: &'w str,
    place: &SavedFile,
    bytes: &[u8],
) -> Result<(), RunFault<'w>> {
    match make_new(rt, place, bytes) {
        Ok(()) => Ok(()),
        Err(error) => Err(unsaved(error, folder, place.name)),
    }
}

/// Makes a file anew: one that is there already is neither followed nor written to.
fn make_new<R: Files>(rt: &R, place: &SavedFile, bytes: &[u8]) -> io::Result<()> {
    if let Ok(found) = fs::symlink_metadata(rt, place.path.as_str()) {
        if found.is_dir() {
            return Err(Error::new(ErrorKind::IsADirectory, "Is a directory"));
        }
    }
    let mut file = OpenOptions::new()
        .write(true)
        .create_new(true)
        .open(rt, place.new.as_str())?;
    file.write_all(bytes)
}

fn put_in_place<'w, R: Files>(
    rt: &R,
    folder: &'w str,
    place: &SavedFile,
) -> Result<(), RunFault<'w>> {
    match fs::rename(rt, place.new.as_str(), place.path.as_str()) {
        Ok(()) => Ok(()),
        Err(error) => Err(unsaved(error, folder, place.name)),
    }
}

/// Takes away all that isn't in its place, the journal last: as long as it is there nothing of it counts.
fn take_away<'w, R: Files>(
    rt: &R,
    folder: &'w str,
    places: &FolderFiles,
) -> Result<(), RunFault<'w>> {
    remove(rt, folder, &places.blocks)?;
    remove(rt, folder, &places.table)?;
    remove(rt, folder, &places.heights)?;
    remove(rt, folder, &places.journal)
}

/// Takes a file away that isn't in its place, if it is there.
fn remove<'w, R: Files>(rt: &R, folder: &'w str, place: &SavedFile) -> Result<(), RunFault<'w>> {
    match fs::remove_file(rt, place.new.as_str()) {
        Ok(()) => Ok(()),
        Err(error) if error.kind() == ErrorKind::NotFound => Ok(()),
        Err(error) => Err(unsaved(error, folder, place.name)),
    }
}

/// Whether something of this name is there, if only a symlink to nothing.
fn stands<R: Files>(rt: &R, path: &str) -> bool {
    fs::symlink_metadata(rt, path).is_ok()
}

fn is_file<R: Files>(rt: &R, path: &str) -> bool {
    match fs::symlink_metadata(rt, path) {
        Ok(found) => found.is_file(),
        Err(_) => false,
    }
}

fn unsaved<'w>(error: Error, folder: &'w str, file: &'static str) -> RunFault<'w> {
    match error.kind() {
        ErrorKind::OutOfMemory => RunFault::Memory,
        _ => RunFault::CannotSave(folder, file, error),
    }
}

/// What a run saved.
#[derive(Drop)]
pub struct SavedFiles {
    pub journal: Vec<u8>,
    pub blocks: Vec<u8>,
    pub table: Vec<u8>,
    pub heights: Vec<u8>,
}

/// The files that a run saved, in the order in which one that can't be read is told. A run that saves there is waited
/// for, and of one that was killed the files are those that count.
pub fn read_saved<'w, R>(rt: &R, folder: &'w str) -> Result<SavedFiles, RunFault<'w>>
where
    R: Files<File = File> + AllocGlobal,
{
    let places = FolderFiles::new(rt.alloc(), folder)?;
    if let Err(error) = check_is_folder(rt, folder) {
        return Err(RunFault::CannotOpen(folder, JOURNAL, error));
    }
    // Where there are no locks it is read without one. A folder without a saved run may be a node's, which keeps it locked.
    let is_saved = stands(rt, places.journal.path.as_str())
        || stands(rt, places.journal.new.as_str());
    let _lock = if is_saved {
        lock_to_read(rt, folder).ok()
    } else {
        None
    };
    read_places(rt, folder, &places)
}

/// Whether a run's journal is there, or was begun.
fn has_run<R: Files>(rt: &R, places: &FolderFiles) -> bool {
    stands(rt, places.journal.path.as_str()) || stands(rt, places.journal.new.as_str())
}

/// Whether a folder has a saved run.
pub fn is_saved<R>(rt: &R, folder: &str) -> Result<bool, AllocError>
where
    R: Files + AllocGlobal,
{
    Ok(has_run(rt, &FolderFiles::new(rt.alloc(), folder)?))
}

fn read_places<'w, R>(
    rt: &R,
    folder: &'w str,
    places: &FolderFiles,
) -> Result<SavedFiles, RunFault<'w>>
where
    R: Files + AllocGlobal,
{
    let is_decided = !stands(rt, places.journal.new.as_str());
    Ok(SavedFiles {
        journal: read_place(rt, folder, &places.journal, false)?,
        blocks: read_place(rt, folder, &places.blocks, is_decided)?,
        table: read_place(rt, folder, &places.table, is_decided)?,
        heights: read_place(rt, folder, &places.heights, is_decided)?,
    })
}

fn lock_to_read<R: Files<File = File>>(rt: &R, folder: &str) -> io::Result<File> {
    let file = fs::open(rt, folder)?;
    file.lock_shared()?;
    Ok(file)
}

/// The bytes of a file: of the one that isn't in its place yet, where such ones count.
fn read_place<'w, R>(
    rt: &R,
    folder: &'w str,
    place: &SavedFile,
    counts_new: bool,
) -> Result<Vec<u8>, RunFault<'w>>
where
    R: Files + AllocGlobal,
{
    let is_new = counts_new && is_file(rt, place.new.as_str());
    let path = if is_new { &place.new } else { &place.path };
    match read_regular(rt, path.as_str()) {
        Ok(bytes) => Ok(bytes),
        Err(error) if error.kind() == ErrorKind::OutOfMemory => Err(RunFault::Memory),
        Err(error) => Err(RunFault::CannotOpen(folder, place.name, error)),
    }
}

/// Writes the lines of the signatures that were found not to be valid, beside a table of those that were. Where there are
/// none there is no such file.
pub fn save_invalid<'w, R>(rt: &R, folder: &'w str, lines: &str) -> Result<(), RunFault<'w>>
where
    R: Files + AllocGlobal,
{
    let place = SavedFile::new(rt.alloc(), folder, INVALID)?;
    if !lines.is_empty() {
        remove(rt, folder, &place)?;
        make(rt, folder, &place, lines.as_bytes())?;
        return put_in_place(rt, folder, &place);
    }
    if !stands(rt, place.path.as_str()) {
        return Ok(());
    }
    match fs::remove_file(rt, place.path.as_str()) {
        Ok(()) => Ok(()),
        Err(error) => Err(unsaved(error, folder, INVALID)),
    }
}

/// The lines of the signatures that an earlier run found not to be valid; none where there is no such file.
pub fn read_invalid<'w, R>(rt: &R, folder: &'w str) -> Result<Vec<u8>, RunFault<'w>>
where
    R: Files + AllocGlobal,
{
    let place = SavedFile::new(rt.alloc(), folder, INVALID)?;
    if !stands(rt, place.path.as_str()) {
        return Ok(Vec::new(rt.alloc()));
    }
    read_place(rt, folder, &place, false)
}
