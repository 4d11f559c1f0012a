//! Under which heights and table a folder's history is played.
//!
//! The files that say so are made under their names and `.new`, then the log is made, and then they get their names: so a
//! folder that has one of them had a log. A node by need has no table: its log has the verdicts.

use crate::datadir::{HEIGHTS, TABLE, new_of, path_of, read_bytes, sync_folder, unmade, unread};
use crate::fault::RunFault;
use crate::files::{read_table, read_table_file};
use crate::options::{HEIGHTS as DEFAULT_HEIGHTS, ServeOptions};
use crate::replay::read_heights_line;
use crate::saves::heights_line;
use journal::read_heights;
use rules::Params;
use signatures::Table;
use std::fs::{File, OpenOptions};
use std::io::{Error, ErrorKind, Write};
use std::rt::Files;
use std::{fs, io};

/// Under which heights and table a history is played.
#[derive(Drop)]
pub struct PlaySetting {
    pub params: Params,
    /// None where signatures are known by need.
    pub table: Option<Table>,
}

/// Makes the files of a folder that has no log yet, none of them in its place.
pub fn make_setting<'w, R>(
    rt: &R,
    folder: &'w str,
    options: &ServeOptions<'w>,
) -> Result<(), RunFault<'w>>
where
    R: Files<File = File> + AllocGlobal,
{
    let alloc = rt.alloc();
    let heights = options.heights.unwrap_or(DEFAULT_HEIGHTS);
    let params = read_heights(heights).ok_or(RunFault::Heights)?;
    make_table(rt, folder, options)?;
    let heights = heights_line(alloc, &params)?;
    make_file(rt, folder, HEIGHTS, heights.as_bytes())
}

/// Makes the table's file; of a node by need none.
fn make_table<'w, R>(
    rt: &R,
    folder: &'w str,
    options: &ServeOptions<'w>,
) -> Result<(), RunFault<'w>>
where
    R: Files<File = File> + AllocGlobal,
{
    let alloc = rt.alloc();
    if options.is_by_need {
        let path = new_of(alloc, folder, TABLE)?;
        return remove_last(rt, path.as_str()).map_err(|error| unmade(error, folder, TABLE));
    }
    let table = read_table_file(rt, options.table)?.to_string(alloc)?;
    make_file(rt, folder, TABLE, table.as_bytes())
}

fn make_file<'w, R>(
    rt: &R,
    folder: &'w str,
    name: &'static str,
    bytes: &[u8],
) -> Result<(), RunFault<'w>>
where
    R: Files<File = File> + AllocGlobal,
{
    let path = new_of(rt.alloc(), folder, name)?;
    let made = write_synced(rt, path.as_str(), bytes);
    made.map_err(|error| unmade(error, folder, name))
}

/// Takes a file away that a node left which was killed before it made the log: it counts for nothing.
fn remove_last<R: Files>(rt: &R, path: &str) -> io::Result<()> {
    match fs::remove_file(rt, path) {
        Err(error) if error.kind() != ErrorKind::NotFound => Err(error),
        _ => Ok(()),
    }
}

/// Writes a file, whatever was there.
pub fn write_synced<R: Files<File = File>>(rt: &R, path: &str, bytes: &[u8]) -> io::Result<()> {
    remove_last(rt, path)?;
    let mut file = OpenOptions::new()
        .write(true)
        .create_new(true)
        .open(rt, path)?;
    file.write_all(bytes)?;
    file.sync_all()
}

/// Puts the files in their places that a log has beside it, if that wasn't done.
pub fn finish_setting<'w, R>(rt: &R, folder: &'w str) -> Result<(), RunFault<'w>>
where
    R: Files<File = File> + AllocGlobal,
{
    let is_moved = finish(rt, folder, TABLE)? | finish(rt, folder, HEIGHTS)?;
    if is_moved {
        return sync_folder(rt, folder).map_err(|error| unmade(error, folder, HEIGHTS));
    }
    Ok(())
}

/// Puts a file in its place, if it lacks there: whether it did.
fn finish<'w, R>(rt: &R, folder: &'w str, name: &'static str) -> Result<bool, RunFault<'w>>
where
    R: Files + AllocGlobal,
{
    let (path, new) = (
        path_of(rt.alloc(), folder, name)?,
        new_of(rt.alloc(), folder, name)?,
    );
    if is_there(rt, path.as_str()) || !is_there(rt, new.as_str()) {
        return Ok(false);
    }
    match fs::rename(rt, new.as_str(), path.as_str()) {
        Ok(()) => Ok(true),
        Err(error) => Err(unmade(error, folder, name)),
    }
}

/// Whether something of this name is there, if only a symlink to nothing.
pub fn is_there<R: Files>(rt: &R, path: &str) -> bool {
    fs::symlink_metadata(rt, path).is_ok()
}

/// The heights and the table of a folder.
pub fn read_setting<'w, R>(rt: &R, folder: &'w str) -> Result<PlaySetting, RunFault<'w>>
where
    R: Files<File = File> + AllocGlobal,
{
    let heights = read_bytes(rt, folder, HEIGHTS)?;
    Ok(PlaySetting {
        params: read_heights_line(heights.as_slice()).ok_or(RunFault::Heights)?,
        table: read_table_there(rt, folder)?,
    })
}

/// The table of a folder, where it has one.
fn read_table_there<'w, R>(rt: &R, folder: &'w str) -> Result<Option<Table>, RunFault<'w>>
where
    R: Files<File = File> + AllocGlobal,
{
    let path = path_of(rt.alloc(), folder, TABLE)?;
    if !is_there(rt, path.as_str()) {
        return Ok(None);
    }
    let text = read_bytes(rt, folder, TABLE)?;
    Ok(Some(read_table(rt.alloc(), Some(text.as_slice()))?))
}

/// Refuses heights and a table that are given and aren't the folder's.
pub fn check_setting<'w, R>(
    rt: &R,
    folder: &'w str,
    options: &ServeOptions<'w>,
    setting: &PlaySetting,
) -> Result<(), RunFault<'w>>
where
    R: Files<File = File> + AllocGlobal,
{
    let alloc = rt.alloc();
    if let Some(heights) = options.heights {
        let given = read_heights(heights).ok_or(RunFault::Heights)?;
        if heights_line(alloc, &given)? != heights_line(alloc, &setting.params)? {
            return Err(other("the folder was made with other heights", folder, HEIGHTS));
        }
    }
    match &setting.table {
        Some(table) => check_table(rt, folder, options, table),
        None if options.is_by_need => Ok(()),
        None => Err(other("the folder was made with --by-need", folder, TABLE)),
    }
}

/// Refuses a table that isn't the folder's, and to go on by need.
fn check_table<'w, R>(
    rt: &R,
    folder: &'w str,
    options: &ServeOptions<'w>,
    table: &Table,
) -> Result<(), RunFault<'w>>
where
    R: Files<File = File> + AllocGlobal,
{
    if options.is_by_need {
        return Err(other("the folder was made without --by-need", folder, TABLE));
    }
    if options.table.is_some() && !read_table_file(rt, options.table)?.same(table) {
        return Err(other("the folder was made with another table", folder, TABLE));
    }
    Ok(())
}

fn other<'w>(text: &'static str, folder: &'w str, name: &'static str) -> RunFault<'w> {
    unread(Error::new(ErrorKind::InvalidInput, text), folder, name)
}
