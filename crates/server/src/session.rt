//! A node that answers requests, a JSON object a line, until its input ends.

ghost use Rattle.std.specs.Prelude.{◌≡◌};
ghost use Rattle.durable.specs.Log.{opened};

use crate::delivery::tell_all;
use crate::earlier::{Earlier, play_earlier};
use crate::input_lines::{READ_AHEAD, WhenIdle};
use crate::node_faults::unopened;
use crate::saves::{answer_saved, save_served};
use crate::service::{serve_requests, taken};
use crate::words::{Facts, SEATS};
use console::datadir::{
    Datadir, FileHost, FolderLock, HostFault, JudgedSignature, KeptSteps, LOG, PlaySetting, Torn,
    check_lines, keep_torn, lock_to_save, open_datadir,
};
use console::fault::RunFault;
use console::files::{read_if_named, read_table_file};
use console::options::{HEIGHTS, Saved, ServeOptions};
use console::progress::Progress;
use console::replay::{SavedRun, commands, read_inputs};
use console::report::Clients;
use console::saves::{check_folder, read_invalid};
use durable::{Found, Host, KeptLog, Lost, UncutLog};
use journal::{read_heights, read_journal, read_records};
use node::{EndFault, Entry, Gate, Naming, Node, Opening, Params, Seat};
use serving::{Answer, Refusal, RequestId, Stamped, answer_line, refusal_line};
use signatures::Table;
use std::alloc::{AllocError, Global};
use std::fs::File;
use std::io::{BufReader, IsTerminal, Read, Write};
use std::marker::Brand;
use std::rt::Files;
use std::sync::{Arc, Mutex, Wait};
use std::thread::Threads;
use std::time::Clock;

/// Answers the requests of an input on an output until it ends or one asks to finish, and saves what happened where that
/// is asked for. Where the history is kept, an answer goes out when its steps are on the disk.
pub fn serve<'w, R, I, O, E>(
    rt: &R,
    options: &ServeOptions<'w>,
    gate: &(dyn Gate + Sync),
    input: &mut I,
    out: &mut O,
    err: &mut E,
) -> Result<(), RunFault<'w>>
where
    R: Files<File = File> + AllocGlobal + Clock + Threads + Wait + Sync,
    I: Read + Send,
    O: Write,
    E: Write + IsTerminal,
{
    let mut disk = open_disk(rt, options)?;
    tell_unsynced(options, err);
    let log = disk.log.take();
    let host = FileHost::open(rt.alloc(), log, &disk.bytes, !options.is_unsynced, out);
    serve_over(rt, options, gate, host, disk, Streams { input, err })
}

/// What a served node reads, and where it says what the one who started it has to know.
#[derive(Drop)]
struct Streams<'s, I, E> {
    input: &'s mut I,
    err: &'s mut E,
}

/// A node's log: as it was read, of which nothing is cut before its lines have been played, and then as it takes steps.
#[derive(Drop)]
struct LogPlace<'f, H: Host> {
    folder: &'f str,
    /// The whole lines that were read.
    found: Found,
    uncut: Mutex<Option<UncutLog<H>>>,
    kept: Mutex<Option<KeptLog<H>>>,
}

/// Serves over a log's file that was opened.
fn serve_over<'w, R, I, E, H>(
    rt: &R,
    options: &ServeOptions<'w>,
    gate: &(dyn Gate + Sync),
    host: H,
    disk: Disk,
    streams: Streams<'_, I, E>,
) -> Result<(), RunFault<'w>>
where
    R: Files<File = File> + AllocGlobal + Clock + Threads + Wait + Sync,
    I: Read + Send,
    E: Write + IsTerminal,
    H: Host<Failure = HostFault> + Drop,
    requires { H.calls host ≡ opened disk.bytes.items }
{
    let Disk { begin, bytes, .. } = disk;
    let folder = options.datadir.unwrap_or("");
    let uncut = match UncutLog::read(host, &bytes, options.is_cut) {
        Ok(uncut) => uncut,
        Err(Lost { fault, host: _host }) => {
            return Err(RunFault::Spoiled(folder, fault.place));
        }
    };
    drop(bytes);
    let place = LogPlace {
        folder,
        found: uncut.found,
        uncut: Mutex::new(Some(uncut)),
        kept: Mutex::new(None),
    };
    serve_from(rt, options, gate, begin, streams, &place)
}

/// Serves from what a node begins with on, and the whole lines of its log.
fn serve_from<'w, R, I, E, H>(
    rt: &R,
    options: &ServeOptions<'w>,
    gate: &(dyn Gate + Sync),
    begin: Beginning,
    streams: Streams<'_, I, E>,
    log: &LogPlace<'w, H>,
) -> Result<(), RunFault<'w>>
where
    R: Files<File = File> + AllocGlobal + Clock + Threads + Wait + Sync,
    I: Read + Send,
    E: Write + IsTerminal,
    H: Host<Failure = HostFault> + Drop,
{
    let alloc = rt.alloc();
    let Beginning {
        inputs: SavedRun {
            params,
            journal,
            blk,
            verdicts,
            table,
        },
        lock: _lock,
    } = begin;
    let known = read_known(rt, options, &table)?;
    let (journal, blk) = (journal.as_slice(), blk.as_slice());
    let mut earlier = read_earlier(rt, options, journal, blk, verdicts, known)?;
    earlier.kept = match options.datadir {
        Some(folder) => Some(KeptSteps::open(rt, folder, log.found)?),
        None => None,
    };
    let table = Arc::new(alloc, table)?;
    let facts = Facts {
        params,
        seats: options.seats,
        workers: options.workers,
        loaded: earlier.steps.len().saturating_add(log.found.count as usize),
        is_kept: options.datadir.is_some(),
        is_unsynced: options.is_unsynced,
        is_by_need: options.is_by_need,
        is_busy: options.is_busy,
        history_memory: options.history_memory,
        wasted: 0,
        save: options.save,
        table: Arc::clone(&table)?,
        clients: clients(alloc, &earlier)?,
    };
    serve_and_save(rt, options, gate, &mut earlier, facts, &table, streams, log)
}

/// What a node begins with, where its history isn't kept, and its setting.
#[derive(Drop)]
struct Beginning {
    inputs: SavedRun,
    /// What keeps other nodes from the folder.
    lock: Option<FolderLock>,
}

/// What is on the disk as a node begins.
#[derive(Drop)]
struct Disk {
    begin: Beginning,
    /// Where the history is kept.
    log: Option<File>,
    /// What the log holds.
    bytes: Vec<u8>,
}

/// Reads what a node begins with, and locks the folder that is its own.
fn open_disk<'w, R>(rt: &R, options: &ServeOptions<'w>) -> Result<Disk, RunFault<'w>>
where
    R: Files<File = File> + AllocGlobal,
{
    if let Some(folder) = options.datadir {
        return open_kept(rt, folder, options);
    }
    let lock = match options.save {
        Some(folder) => Some(lock_saved(rt, folder)?),
        None => None,
    };
    Ok(Disk {
        begin: Beginning {
            inputs: inputs(rt, options)?,
            lock,
        },
        log: None,
        bytes: Vec::new(rt.alloc()),
    })
}

/// What is on the disk of a node whose history is kept.
fn open_kept<'w, R>(
    rt: &R,
    folder: &'w str,
    options: &ServeOptions<'w>,
) -> Result<Disk, RunFault<'w>>
where
    R: Files<File = File> + AllocGlobal,
{
    let Datadir {
        setting: PlaySetting { params, table },
        log,
        bytes,
        lock,
    } = open_datadir(rt, folder, options)?;
    if !options.is_cut {
        check_lines(rt.alloc(), folder, bytes.as_slice())?;
    }
    let table = table.unwrap_or(Table::new(rt.alloc()));
    Ok(Disk {
        begin: Beginning {
            inputs: without_steps(rt.alloc(), params, table),
            lock: Some(lock),
        },
        log: Some(log),
        bytes,
    })
}

/// Nothing to be played, under these heights and this table.
fn without_steps(alloc: Global, params: Params, table: Table) -> SavedRun {
    SavedRun {
        params,
        journal: Vec::new(alloc),
        blk: Vec::new(alloc),
        verdicts: Vec::new(alloc),
        table,
    }
}

/// Locks the folder into which a node saves at its end.
fn lock_saved<'w, R>(rt: &R, folder: &'w str) -> Result<FolderLock, RunFault<'w>>
where
    R: Files<File = File> + AllocGlobal,
{
    check_folder(rt, folder)?;
    lock_to_save(rt, folder)
}

/// Says what the one who starts the node has to know of its answers.
fn tell_unsynced<E: Write>(options: &ServeOptions<'_>, err: &mut E) {
    if options.datadir.is_some() && options.is_unsynced {
        let _ = writeln!(
            err,
            "regchain: --no-sync: a crash of the machine may lose what was answered"
        );
    }
}

/// Says what was cut off a log, and where it is.
fn tell_cut<E: Write>(folder: &str, torn: Torn, err: &mut E) {
    let Torn {
        bytes,
        lines,
        number,
    } = torn;
    let _ = if lines == 0 {
        writeln!(
            err,
            "regchain: {LOG}: {bytes} bytes of an unfinished line were cut off: no whole line, kept in {folder}/torn-{number}"
        )
    } else {
        writeln!(
            err,
            "regchain: {LOG}: {bytes} bytes behind a zero byte were cut off: {lines} whole lines, kept in {folder}/torn-{number}"
        )
    };
}

/// What is played before the first request: what is known of signatures, then what the lines of a journal ask over these
/// records and verdicts, and a blk file.
fn read_earlier<'w, 't, R>(
    rt: &R,
    options: &ServeOptions<'w>,
    journal: &'t [u8],
    records: &[u8],
    verdicts: Vec<JudgedSignature>,
    (valid, invalid): (String, Vec<u8>),
) -> Result<Earlier<'t>, RunFault<'w>>
where
    R: Files<File = File> + AllocGlobal,
{
    let blk = read_if_named(rt, options.blk)?;
    let steps = read_journal(rt.alloc(), journal)?;
    let records = read_records(rt.alloc(), records)?;
    Ok(Earlier {
        commands: commands(rt.alloc(), steps.as_slice(), records, verdicts)?,
        steps,
        valid,
        invalid,
        kept: None,
        blk,
        workers: options.workers,
    })
}

/// The lines of the signatures that a node by need is told to be valid first, and not to be.
fn read_known<'w, R>(
    rt: &R,
    options: &ServeOptions<'w>,
    table: &Table,
) -> Result<(String, Vec<u8>), RunFault<'w>>
where
    R: Files<File = File> + AllocGlobal,
{
    if !options.is_by_need {
        return Ok((String::new(rt.alloc()), Vec::new(rt.alloc())));
    }
    let invalid = match options.load {
        Some(folder) => read_invalid(rt, folder)?,
        None => Vec::new(rt.alloc()),
    };
    Ok((table.to_string(rt.alloc())?, invalid))
}

/// Serves under this table, and saves then what happened.
fn serve_and_save<'w, R, I, E, H>(
    rt: &R,
    options: &ServeOptions<'w>,
    gate: &(dyn Gate + Sync),
    earlier: &mut Earlier<'_>,
    facts: Facts<'_>,
    table: &Arc<Table>,
    streams: Streams<'_, I, E>,
    log: &LogPlace<'w, H>,
) -> Result<(), RunFault<'w>>
where
    R: Files<File = File> + AllocGlobal + Clock + Threads + Wait + Sync,
    I: Read + Send,
    E: Write + IsTerminal,
    H: Host<Failure = HostFault> + Drop,
{
    let mut facts = facts;
    let opening = if facts.is_by_need {
        Opening::by_need(facts.params, facts.seats)
    } else {
        Opening::new(facts.params, table, facts.seats)
    };
    let Served {
        entries,
        fits,
        ended,
    } = serve_at_node::<Brand, R, I, E, H>(rt, opening, gate, earlier, &mut facts, streams, log)?;
    let ServiceOutcome { stop, served } = ended?;
    let steps = entries.len() as u64;
    let kept = keep_rest(rt, &facts, entries.as_slice(), &log.kept);
    let saved = match options.save {
        Some(folder) => save_served(rt, folder, &facts, entries),
        None => Ok(()),
    };
    let told = tell_end(rt.alloc(), stop, steps, saved.is_ok(), kept);
    served?;
    fits?;
    saved?;
    told
}

/// Brings what no answer told of onto the disk.
fn keep_rest<R, H>(
    rt: &R,
    facts: &Facts<'_>,
    entries: &[Entry],
    log: &Mutex<Option<KeptLog<H>>>,
) -> Result<KeptLog<H>, RunFault<'static>>
where
    R: AllocGlobal + Wait,
    H: Host<Failure = HostFault> + Drop,
{
    let Some(log) = taken(rt, log) else {
        return Err(RunFault::Closed);
    };
    if !facts.is_kept {
        return Ok(log);
    }
    let rest = entries.get(log.count() as usize..).unwrap_or(&[]);
    match tell_all(rt.alloc(), facts, rest, &[], log) {
        Ok(log) => Ok(log),
        Err(Lost { fault, host: _host }) => Err(fault),
    }
}

/// The folder of an earlier run, or none of its steps under these heights and this table.
fn inputs<'w, R>(rt: &R, options: &ServeOptions<'w>) -> Result<SavedRun, RunFault<'w>>
where
    R: Files<File = File> + AllocGlobal,
{
    if let Some(folder) = options.load {
        return read_inputs(rt, &Saved::Folder(folder));
    }
    let params = read_heights(options.heights.unwrap_or(HEIGHTS)).ok_or(RunFault::Heights)?;
    let table = read_table_file(rt, options.table)?;
    Ok(without_steps(rt.alloc(), params, table))
}

/// The clients of an earlier run, and the seats.
fn clients<'t>(alloc: Global, earlier: &Earlier<'t>) -> Result<Clients<'t>, RunFault<'static>> {
    let mut names = Vec::new(alloc);
    for step in earlier.steps.as_slice() {
        names.push(step.client)?;
    }
    let mut seats = Vec::new(alloc);
    for name in &SEATS {
        seats.push(*name)?;
    }
    Ok(Clients {
        earlier: names,
        seats,
    })
}

/// What was served, and the whole history.
#[derive(Drop)]
struct Served<'f> {
    entries: Vec<Entry>,
    /// That a seat doesn't fit them, if one doesn't.
    fits: Result<(), RunFault<'f>>,
    ended: Result<ServiceOutcome<'f>, RunFault<'f>>,
}

/// How the service ended that had begun.
#[derive(Drop)]
pub struct ServiceOutcome<'f> {
    /// What was asked for that stopped it.
    pub stop: Option<WhenIdle>,
    pub served: Result<(), RunFault<'f>>,
}

/// Serves at a node of this opening. The prover picks the node's name where this is called.
fn serve_at_node<'f, J: Naming, R, I, E, H>(
    rt: &R,
    opening: Opening<'_>,
    gate: &(dyn Gate + Sync),
    earlier: &mut Earlier<'_>,
    facts: &mut Facts<'_>,
    streams: Streams<'_, I, E>,
    log: &LogPlace<'f, H>,
) -> Result<Served<'f>, RunFault<'f>>
where
    R: Files<File = File> + AllocGlobal + Clock + Threads + Wait + Sync,
    I: Read + Send,
    E: Write + IsTerminal,
    H: Host<Failure = HostFault> + Drop,
    requires { opening ≡ J.origin }
{
    let (node, mut seats) = Node::<J>::open(rt.alloc(), opening, facts.workers, gate).map_err(
        unopened,
    )?;
    let Streams { input, err } = streams;
    let played = match seats.first_mut() {
        Some(seat) => play_watched(rt, &node, seat, earlier, facts, err),
        None => Ok(()),
    };
    let opened = match played {
        Ok(()) => open_log(rt, log, err),
        Err(fault) => Err(fault),
    };
    let ended = match opened {
        Ok(()) => serve_seats(rt, &node, seats.as_mut_slice(), facts, input, &log.kept),
        Err(fault) => Err(fault),
    };
    // The process ends soon: what is published isn't freed.
    let (entries, fits) = match node.finish(seats.as_mut_slice()) {
        Ok(entries) => (entries, Ok(())),
        Err(EndFault { history }) => (history, Err(RunFault::Closed)),
    };
    Ok(Served {
        entries,
        fits,
        ended,
    })
}

/// Cuts off what follows a log's whole lines, once it is kept beside. From then on the log takes steps.
fn open_log<'f, R, E, H>(rt: &R, log: &LogPlace<'f, H>, err: &mut E) -> Result<(), RunFault<'f>>
where
    R: Files<File = File> + AllocGlobal + Wait,
    E: Write,
    H: Host<Failure = HostFault> + Drop,
{
    let Some(uncut) = taken(rt, &log.uncut) else {
        return Err(RunFault::Closed);
    };
    let end = uncut.found.end;
    let torn = if end < uncut.len {
        Some(keep_torn(rt, log.folder, end)?)
    } else {
        None
    };
    match KeptLog::open(rt.alloc(), uncut) {
        Ok(kept) => {
            let mut guard = log.kept.lock(rt);
            *guard = Some(kept);
        }
        Err(Lost { fault, host: _host }) => return Err(RunFault::from(fault)),
    }
    if let Some(torn) = torn {
        tell_cut(log.folder, torn, err);
    }
    Ok(())
}

/// Serves until the end. Where a request asks to save, that is done while none is under way.
fn serve_seats<J: Naming, R, I, H>(
    rt: &R,
    node: &Node<'_, J>,
    seats: &mut [Seat<'_, J>],
    facts: &Facts<'_>,
    input: &mut I,
    log: &Mutex<Option<KeptLog<H>>>,
) -> Result<ServiceOutcome<'static>, RunFault<'static>>
where
    R: Files<File = File> + AllocGlobal + Threads + Wait + Sync,
    I: Read + Send,
    H: Host<Failure = HostFault> + Drop,
{
    let Ok(mut lines) = BufReader::with_capacity(rt.alloc(), READ_AHEAD, &mut *input) else {
        return Err(RunFault::Memory);
    };
    for _ in 0..u64::MAX {
        let ServiceOutcome { stop, served } = serve_requests(
            rt, node, seats, facts, &mut lines, log,
        )?;
        if served.is_err() {
            return Ok(ServiceOutcome { stop, served });
        }
        match stop {
            Some(WhenIdle::Save(blank)) => answer_saved(rt, facts, seats, blank, log)?,
            stop => return Ok(ServiceOutcome { stop, served }),
        }
    }
    Err(RunFault::Closed)
}

/// Plays what was earlier at a seat, and says on a terminal how far it is.
fn play_watched<J: Naming, R, E>(
    rt: &R,
    node: &Node<'_, J>,
    seat: &mut Seat<'_, J>,
    earlier: &mut Earlier<'_>,
    facts: &mut Facts<'_>,
    err: &mut E,
) -> Result<(), RunFault<'static>>
where
    R: AllocGlobal + Clock + Threads + Wait + Sync,
    E: Write + IsTerminal,
{
    let is_wanted = err.is_terminal() && facts.loaded > 0;
    let mut progress = Progress::new(rt, err, is_wanted);
    play_earlier(rt, node, seat, earlier, facts, &mut progress)?;
    progress.end();
    Ok(())
}

/// Answers the request that asked for the end, if one did, where the history is kept.
fn tell_end<H>(
    alloc: Global,
    stop: Option<WhenIdle>,
    steps: u64,
    is_saved: bool,
    kept: Result<KeptLog<H>, RunFault<'static>>,
) -> Result<(), RunFault<'static>>
where
    H: Host<Failure = HostFault> + Drop,
{
    let log = kept?;
    let Some(WhenIdle::Finish(id)) = stop else {
        return Ok(());
    };
    let line = end_line(alloc, &id, steps, is_saved)?;
    let stamp = log.count();
    let answers = vec![in alloc; durable::Answer { stamp, line }]?;
    match log.round(&answers) {
        Ok((_log, _went)) => Ok(()),
        Err(Lost { fault, host: _host }) => Err(RunFault::from(fault)),
    }
}

/// The line of the answer to the request that asked for the end: with how many entries the history has, or that it wasn't
/// saved.
fn end_line(
    alloc: Global,
    id: &RequestId,
    steps: u64,
    is_saved: bool,
) -> Result<Vec<u8>, AllocError> {
    if !is_saved {
        return refusal_line(Vec::new(alloc), id, Refusal::Unsaved);
    }
    let stamped = Stamped {
        at: steps,
        answer: Answer::Place,
    };
    answer_line(alloc, Vec::new(alloc), id, &stamped)
}
