//! What happened, saved into a folder.

use crate::by_need::{Parted, without_verdicts};
use crate::service::taken;
use crate::turn::Blank;
use crate::words::Facts;
use console::datadir::HostFault;
use console::fault::RunFault;
use console::report::{Clients, Report};
use console::saves::{heights_line, save, save_invalid};
use durable::{Host, KeptLog, Lost};
use node::{Entry, Naming, Seat};
use scenario::Definitions;
use serving::{Answer, Refusal};
use signatures::Table;
use std::alloc::{AllocError, Global};
use std::fs::File;
use std::io::ErrorKind;
use std::rt::Files;
use std::sync::{Mutex, Wait};

/// Saves what happened into a folder: a history without verdicts, beside the signatures that these say are
/// valid, and that they aren't.
pub fn save_served<'w, R>(
    rt: &R,
    folder: &'w str,
    facts: &Facts<'_>,
    entries: Vec<Entry>,
) -> Result<(), RunFault<'w>>
where
    R: Files<File = File> + AllocGlobal,
{
    let heights = heights_line(rt.alloc(), &facts.params)?;
    let names = copied(rt.alloc(), &facts.clients)?;
    let Parted {
        clients,
        entries,
        valid,
        invalid,
    } = without_verdicts(rt.alloc(), names, entries)?;
    let found = Table::from_lines(rt.alloc(), valid.as_bytes())?;
    let table = if valid.is_empty() {
        &*facts.table
    } else {
        &found
    };
    let definitions = Definitions::read(rt.alloc(), &[], Table::new(rt.alloc()))?;
    let report = Report::new(rt.alloc(), &definitions, clients, entries)?;
    save(rt, folder, &report, table, heights.trim_end())?;
    save_invalid(rt, folder, invalid.as_str())
}

fn copied<'t>(alloc: Global, clients: &Clients<'t>) -> Result<Clients<'t>, AllocError> {
    Ok(Clients {
        earlier: Vec::from_slice(alloc, clients.earlier.as_slice())?,
        seats: Vec::from_slice(alloc, clients.seats.as_slice())?,
    })
}

/// Saves what happened so far, and answers how many steps that are. Where that fails, the folder is as it was, the answer
/// says why, and the node goes on.
pub fn answer_saved<J: Naming, R, H>(
    rt: &R,
    facts: &Facts<'_>,
    seats: &mut [Seat<'_, J>],
    blank: Blank,
    log: &Mutex<Option<KeptLog<H>>>,
) -> Result<(), RunFault<'static>>
where
    R: Files<File = File> + AllocGlobal + Wait,
    H: Host<Failure = HostFault> + Drop,
{
    let line = match save_so_far(rt, facts, seats) {
        Ok(steps) => blank.answer(rt.alloc(), steps, Answer::Place)?,
        Err(RunFault::Memory) => blank.refuse(Refusal::Memory)?,
        Err(fault) => blank.refuse(Refusal::NotSaved(reason(&fault)))?,
    };
    let Some(kept) = taken(rt, log) else {
        return Err(RunFault::Closed);
    };
    let answers = vec![in rt.alloc();
        durable::Answer {
            stamp: kept.count(),
            line
        },
    ]?;
    match kept.round(&answers) {
        Ok((kept, _)) => {
            let mut guard = log.lock(rt);
            *guard = Some(kept);
            Ok(())
        }
        Err(Lost { fault, host: _host }) => Err(RunFault::from(fault)),
    }
}

/// Saves all that any seat has seen: how many steps.
fn save_so_far<'w, J: Naming, R>(
    rt: &R,
    facts: &Facts<'w>,
    seats: &mut [Seat<'_, J>],
) -> Result<u64, RunFault<'w>>
where
    R: Files<File = File> + AllocGlobal,
{
    let (Some(folder), Some((seat, others))) = (facts.save, seats.split_first_mut()) else {
        return Err(RunFault::Closed);
    };
    for other in others.iter() {
        seat.told(&other.note());
    }
    match seat.journal(rt.alloc(), 0, u64::MAX) {
        Ok(listed) => {
            save_served(rt, folder, facts, listed.value)?;
            Ok(listed.at)
        }
        Err(node::Fault::Memory) => Err(RunFault::Memory),
        Err(_) => Err(RunFault::Closed),
    }
}

/// Why a folder couldn't be written, in a word of an answer.
fn reason(fault: &RunFault<'_>) -> &'static str {
    match fault {
        RunFault::CannotWrite(_, error) => match error.kind() {
            ErrorKind::StorageFull => "no space",
            ErrorKind::PermissionDenied => "permission",
            ErrorKind::ReadOnlyFilesystem => "read-only",
            _ => "disk",
        },
        _ => "disk",
    }
}
