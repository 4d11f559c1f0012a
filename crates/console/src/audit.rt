//! The replay of a journal.

use crate::fault::RunFault;
use crate::options::AuditOptions;
use crate::progress::Progress;
use crate::replay::{Replay, read_replay};
use journal::{Finding, Refuted, Replayer, first_refuted};
use model::Reply;
use std::fs::File;
use std::io::{IsTerminal, Write};
use std::rt::Files;
use std::time::Clock;

/// The outcome of an audit.
#[derive(Clone, Copy)]
pub struct Audited {
    pub finding: Finding,
    /// The reply that the line should have which differs.
    pub reply: Option<Reply>,
}

/// Replays a journal over the blocks of a blk file. Where `err` is a terminal it is told how far the replay is.
pub fn audit<'w, R, E>(
    rt: &R,
    options: &AuditOptions<'w>,
    err: &mut E,
) -> Result<Audited, RunFault<'w>>
where
    R: Files<File = File> + AllocGlobal + Clock,
    E: Write + IsTerminal,
{
    let replay = read_replay(rt, &options.saved, options.limit)?;
    let refuted = refuted(rt, options, &replay, err)?;
    Ok(match refuted {
        Some(Refuted { place, reply }) => Audited {
            finding: Finding::Differs(place.saturating_add(1)),
            reply,
        },
        None => Audited {
            finding: Finding::Agrees,
            reply: None,
        },
    })
}

/// The first reply that isn't the definition's, if there is one.
fn refuted<'w, R, E>(
    rt: &R,
    options: &AuditOptions<'w>,
    replay: &Replay,
    err: &mut E,
) -> Result<Option<Refuted>, RunFault<'w>>
where
    R: AllocGlobal + Clock,
    E: Write + IsTerminal,
{
    let is_terminal = err.is_terminal();
    let mut progress = Progress::new(rt, err, is_terminal);
    progress.begin_replay(replay.commands.len(), replay.blocks);
    let by = if options.is_quick {
        Replayer::Chainstate
    } else {
        Replayer::Definition
    };
    let refuted = first_refuted(
        rt.alloc(),
        by,
        &replay.params,
        replay.commands.as_slice(),
        &replay.table,
        replay.recorded.as_slice(),
        &mut progress,
    )?;
    progress.end();
    Ok(refuted)
}
