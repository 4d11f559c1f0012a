//! What a node's log says, saved as a run's files.

use crate::datadir::triple_lines;
use crate::fault::RunFault;
use crate::options::{ExportOptions, Saved};
use crate::replay::{SavedRun, read_inputs};
use crate::saves::{SavedFiles, heights_line, make_folder, save_files, save_invalid};
use journal::{Asked, Step, read_journal};
use std::alloc::Global;
use std::fs::File;
use std::rt::Files;

/// Saves what the log of a node says: verdicts in files of their own, as a node by need saves them.
pub fn export<'w, R>(rt: &R, options: &ExportOptions<'w>) -> Result<(), RunFault<'w>>
where
    R: Files<File = File> + AllocGlobal,
{
    let SavedRun {
        params,
        journal,
        blk,
        verdicts,
        table,
    } = read_inputs(rt, &Saved::Datadir(options.datadir))?;
    let invalid = triple_lines(rt.alloc(), verdicts.as_slice(), false)?;
    let files = SavedFiles {
        journal: without_verdicts(rt.alloc(), journal.as_slice())?,
        blocks: blk,
        table: table.to_string(rt.alloc())?.into_bytes(),
        heights: heights_line(rt.alloc(), &params)?.into_bytes(),
    };
    make_folder(rt, options.save)?;
    save_files(rt, options.save, &files)?;
    save_invalid(rt, options.save, invalid.as_str())
}

/// The lines of a journal without its verdicts, numbered anew.
fn without_verdicts(alloc: Global, journal: &[u8]) -> Result<Vec<u8>, RunFault<'static>> {
    let mut lines = String::new(alloc);
    let mut number = 0usize;
    for step in read_journal(alloc, journal)? {
        if !matches!(step.asked, Asked::Learn(_)) {
            number = number.saturating_add(1);
            writeln!(lines, "{}", Step { number, ..step })?;
        }
    }
    Ok(lines.into_bytes())
}
