//! The block tree of a history, as it is shown and as a picture.

use crate::datadir::has_log;
use crate::fault::RunFault;
use crate::files::{print, read_scenario};
use crate::history_tree::history_tree;
use crate::options::{Saved, TreeOptions};
use crate::replay::{Replay, read_replay};
use crate::saves::is_saved;
use crate::text::read_definitions;
use picture::{BlockTree, TreeView, to_svg, to_text};
use scenario::Definitions;
use signatures::Table;
use std::alloc::Global;
use std::fs::File;
use std::io::{Error, ErrorKind, Read, Write};
use std::rt::Files;
use std::{fs, io};

/// Shows the block tree that a saved journal leads to, with the names that a scenario gives.
pub fn draw_saved<'w, R, I, O>(
    rt: &R,
    options: &TreeOptions<'w>,
    input: &mut I,
    out: &mut O,
) -> Result<(), RunFault<'w>>
where
    R: Files<File = File> + AllocGlobal,
    I: Read,
    O: Write,
{
    let scenario = match options.scenario {
        Some(file) => Some(read_scenario(rt, file, input)?),
        None => None,
    };
    let replay = read_replay(rt, &saved_in(rt, options.saved)?, usize::MAX)?;
    let tree = match &scenario {
        Some(text) => {
            let empty = Table::new(rt.alloc());
            let text = read_definitions(rt.alloc(), text.as_slice(), empty)?;
            tree_after(rt, options, &replay, Some(&text.definitions))?
        }
        None => tree_after(rt, options, &replay, None)?,
    };
    print(out, tree_text(rt.alloc(), &tree, &options.view)?.as_str())?;
    write_picture(rt, options.svg, &tree, &options.view)
}

/// What a folder has: a run's files, or else a node's log.
fn saved_in<'w, R>(rt: &R, folder: &'w str) -> Result<Saved<'w>, RunFault<'w>>
where
    R: Files + AllocGlobal,
{
    if !is_saved(rt, folder)? && has_log(rt, folder)? {
        return Ok(Saved::Datadir(folder));
    }
    Ok(Saved::Folder(folder))
}

/// The tree after a replay's commands, once it is known that its picture can be written.
fn tree_after<'w, R>(
    rt: &R,
    options: &TreeOptions<'w>,
    replay: &Replay,
    definitions: Option<&Definitions>,
) -> Result<BlockTree, RunFault<'w>>
where
    R: Files + AllocGlobal,
{
    check_picture(rt, options.svg)?;
    let commands = replay.commands.as_slice();
    history_tree(
        rt.alloc(),
        &replay.params,
        commands,
        &replay.table,
        definitions,
    )
}

/// Refuses a file that can't be a picture's, before the work: a folder, or one in no folder.
pub fn check_picture<'w, R: Files>(rt: &R, file: Option<&'w str>) -> Result<(), RunFault<'w>> {
    let Some(file) = file else {
        return Ok(());
    };
    match check_is_writable(rt, file) {
        Ok(()) => Ok(()),
        Err(error) => Err(RunFault::CannotWrite(file, error)),
    }
}

fn check_is_writable<R: Files>(rt: &R, file: &str) -> io::Result<()> {
    if let Some((folder, _)) = file.rsplit_once('/') {
        let folder = if folder.is_empty() { "/" } else { folder };
        if !fs::metadata(rt, folder)?.is_dir() {
            return Err(Error::new(ErrorKind::NotADirectory, "Not a directory"));
        }
    }
    match fs::metadata(rt, file) {
        Ok(found) if found.is_dir() => {
            Err(Error::new(ErrorKind::IsADirectory, "Is a directory"))
        }
        _ => Ok(()),
    }
}

/// A tree as text. One without a block of the first height to show is refused.
pub fn tree_text(
    alloc: Global,
    tree: &BlockTree,
    view: &TreeView,
) -> Result<String, RunFault<'static>> {
    check_height(tree, view)?;
    Ok(to_text(alloc, tree, view)?)
}

fn check_height(tree: &BlockTree, view: &TreeView) -> Result<(), RunFault<'static>> {
    let height = view.first_height(tree);
    if height > tree.top() {
        return Err(RunFault::NoHeight(height, tree.top()));
    }
    Ok(())
}

/// Writes a picture of a tree, where one is asked for. A tree without a block of the first height to show is refused.
pub fn write_picture<'w, R>(
    rt: &R,
    file: Option<&'w str>,
    tree: &BlockTree,
    view: &TreeView,
) -> Result<(), RunFault<'w>>
where
    R: Files + AllocGlobal,
{
    let Some(file) = file else {
        return Ok(());
    };
    check_height(tree, view)?;
    let picture = to_svg(rt.alloc(), tree, view)?;
    match fs::write(rt, file, picture.as_bytes()) {
        Ok(()) => Ok(()),
        Err(error) => Err(RunFault::CannotWrite(file, error)),
    }
}
