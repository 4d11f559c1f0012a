//! The threads of a served node: one for each seat, one that reads, and this one, which writes.

use crate::answers::{SeatDesk, answer_turns};
use crate::board::Board;
use crate::delivery::{Lines, tell_as_they_come, tell_unsaved};
use crate::growth::Growth;
use crate::input_lines::{Doors, Requests, WhenIdle, read_requests, unread};
use crate::outbox::Outbox;
use crate::session::ServiceOutcome;
use crate::words::Facts;
use console::datadir::HostFault;
use console::fault::RunFault;
use durable::{Host, KeptLog};
use node::{Naming, Node, Seat};
use std::alloc::Global;
use std::sync::{Mutex, Wait};
use std::thread::{JoinHandle, Scope, Threads};
use std::{io, thread};

/// How many requests wait for a seat at most, and how many lines for being written.
const WAITING: usize = 64;

/// What a request asked for that stopped the reading, if one did, or why no more is read.
type ReadEnd = io::Result<Option<WhenIdle>>;

/// What was read, and whether all lines were written, where the threads could be made.
type ServiceEnd = Result<(ReadEnd, Result<(), RunFault<'static>>), RunFault<'static>>;

/// A seat, and what its thread reads and answers.
#[derive(Drop)]
struct SeatWork<'s, 't, J: Naming> {
    seat: &'s mut Seat<'t, J>,
    desk: SeatDesk,
}

/// What each thread takes when it begins.
type SeatsWork<'s, 't, J> = Vec<Mutex<Option<SeatWork<'s, 't, J>>>>;

/// Answers the requests of an input on an output until it ends, or until one asks for what is done when none is under way.
pub fn serve_requests<'t, J: Naming, R, I, H>(
    rt: &R,
    node: &Node<'_, J>,
    seats: &mut [Seat<'t, J>],
    facts: &Facts<'_>,
    input: &mut I,
    log: &Mutex<Option<KeptLog<H>>>,
) -> Result<ServiceOutcome<'static>, RunFault<'static>>
where
    R: AllocGlobal + Threads + Wait + Sync,
    I: Requests + Send,
    H: Host<Failure = HostFault> + Drop,
{
    let alloc = rt.alloc();
    let board = Board::new(alloc, seats, facts)?;
    let (to, waiting) = crossbeam_channel::bounded(alloc, WAITING)?;
    let lines = Lines::new(alloc, waiting, WAITING)?;
    let mut doors = Doors {
        seats: Vec::new(alloc),
        to,
        is_busy: facts.is_busy,
        is_saved: facts.save.is_some(),
        info: facts.info(),
    };
    let mut places: SeatsWork<'_, 't, J> = Vec::new(alloc);
    let all = seats.iter_mut();
    for seat in all {
        add_place(alloc, seat, &mut doors, &mut places)?;
    }
    serve_places(rt, node, &board, facts, &places, doors, lines, input, log)
}

/// Adds a seat's place, and the door behind which its requests wait.
fn add_place<'s, 't, J: Naming>(
    alloc: Global,
    seat: &'s mut Seat<'t, J>,
    doors: &mut Doors,
    places: &mut SeatsWork<'s, 't, J>,
) -> Result<(), RunFault<'static>> {
    let (door, turns) = crossbeam_channel::bounded(alloc, WAITING)?;
    doors.seats.push(door)?;
    let desk = SeatDesk {
        number: places.len(),
        turns,
        to: doors.to.clone()?,
    };
    places.push(Mutex::new(Some(SeatWork { seat, desk })))?;
    Ok(())
}

/// Answers requests at these places.
fn serve_places<'t, J: Naming, R, I, H>(
    rt: &R,
    node: &Node<'_, J>,
    board: &Board<J>,
    facts: &Facts<'_>,
    places: &SeatsWork<'_, 't, J>,
    doors: Doors,
    lines: Lines,
    input: &mut I,
    log: &Mutex<Option<KeptLog<H>>>,
) -> Result<ServiceOutcome<'static>, RunFault<'static>>
where
    R: AllocGlobal + Threads + Wait + Sync,
    I: Requests + Send,
    H: Host<Failure = HostFault> + Drop,
{
    let doors = Mutex::new(Some(doors));
    let lines = Mutex::new(Some(lines));
    let input = Mutex::new(&mut *input);
    let (read, written) = run_threads(rt, node, board, facts, places, &doors, &input, &lines, log)?;
    Ok(ended(read, written, board.is_short()))
}

/// Runs the threads until all have ended.
fn run_threads<'t, J: Naming, R, I, H>(
    rt: &R,
    node: &Node<'_, J>,
    board: &Board<J>,
    facts: &Facts<'_>,
    places: &SeatsWork<'_, 't, J>,
    doors: &Mutex<Option<Doors>>,
    input: &Mutex<&mut I>,
    lines: &Mutex<Option<Lines>>,
    log: &Mutex<Option<KeptLog<H>>>,
) -> ServiceEnd
where
    R: AllocGlobal + Threads + Wait + Sync,
    I: Requests + Send,
    H: Host<Failure = HostFault> + Drop,
{
    let outbox = &board.outbox;
    let growth = &board.growth;
    thread::scope(thread::scope_env(), rt, move |scope| -> ServiceEnd {
        let mut is_whole = true;
        for number in 0..places.len() {
            is_whole &= scope
                .spawn(move || run_seat(rt, node, board, facts, places.get(number)))
                .is_ok();
        }
        if !is_whole {
            return not_begun(rt, doors);
        }
        match start_reader(scope, rt, outbox, growth, doors, input) {
            Some(reader) => {
                let written = write_lines(rt, outbox, facts, lines, log);
                Ok((reader.join(rt), written))
            }
            None => not_begun(rt, doors),
        }
    })
}

/// Has the seats that run end, as nothing more can come.
fn not_begun<R: Wait>(rt: &R, doors: &Mutex<Option<Doors>>) -> ServiceEnd {
    drop(taken(rt, doors));
    Err(RunFault::NoThread)
}

/// Starts the thread that reads, if one can be made.
fn start_reader<'s, E, R, I>(
    scope: &Scope<'s, E>,
    rt: &'s R,
    outbox: &'s Outbox,
    growth: &'s Growth,
    doors: &'s Mutex<Option<Doors>>,
    input: &'s Mutex<&mut I>,
) -> Option<JoinHandle<ReadEnd>>
where
    R: AllocGlobal + Threads + Wait + Sync,
    I: Requests + Send,
{
    scope
        .spawn(move || run_reader(rt, outbox, growth, doors, input))
        .ok()
}

/// Takes what is in a place, which is empty then.
pub fn taken<T: Drop, R: Wait>(rt: &R, place: &Mutex<Option<T>>) -> Option<T> {
    let mut guard = place.lock(rt);
    guard.take()
}

/// A seat's thread.
fn run_seat<J: Naming, R>(
    rt: &R,
    node: &Node<'_, J>,
    board: &Board<J>,
    facts: &Facts<'_>,
    place: Option<&Mutex<Option<SeatWork<'_, '_, J>>>>,
)
where
    R: AllocGlobal + Threads + Wait + Sync,
{
    let Some(place) = place else {
        return;
    };
    if let Some(SeatWork { seat, desk }) = taken(rt, place) {
        answer_turns(rt, node, board, facts, &desk, seat);
    }
}

/// The thread that reads. The doors are closed as it ends.
fn run_reader<R, I>(
    rt: &R,
    outbox: &Outbox,
    growth: &Growth,
    doors: &Mutex<Option<Doors>>,
    input: &Mutex<&mut I>,
) -> ReadEnd
where
    R: AllocGlobal + Wait,
    I: Requests,
{
    let Some(doors) = taken(rt, doors) else {
        return Ok(None);
    };
    let mut input = input.lock(rt);
    let asked = read_requests(rt, outbox, &doors, &mut **input);
    growth.end(rt);
    asked
}

/// Writes each line whole, until all who answer have left. Where the disk or the output takes no more, they leave as they
/// answer.
fn write_lines<R, H>(
    rt: &R,
    outbox: &Outbox,
    facts: &Facts<'_>,
    lines: &Mutex<Option<Lines>>,
    log: &Mutex<Option<KeptLog<H>>>,
) -> Result<(), RunFault<'static>>
where
    R: AllocGlobal + Wait,
    H: Host<Failure = HostFault> + Drop,
{
    let Some(mut lines) = taken(rt, lines) else {
        return Ok(());
    };
    let Some(kept) = taken(rt, log) else {
        return Ok(());
    };
    match tell_as_they_come(rt, outbox, facts, &mut lines, kept) {
        Ok(kept) => {
            let mut guard = log.lock(rt);
            *guard = Some(kept);
            Ok(())
        }
        Err(lost) => {
            outbox.set_over();
            Err(tell_unsaved(&lines.unsaved, lost))
        }
    }
}

/// How it ended, by who read, who wrote, and whether a seat had no memory.
fn ended(
    read: ReadEnd,
    written: Result<(), RunFault<'static>>,
    is_short: bool,
) -> ServiceOutcome<'static> {
    let (stop, served) = match read {
        Ok(stop) => (stop, Ok(())),
        Err(error) => (None, Err(unread(error))),
    };
    let served = match (written, is_short) {
        (Err(fault), _) => Err(fault),
        (Ok(()), true) => Err(RunFault::Memory),
        (Ok(()), false) => served,
    };
    ServiceOutcome { stop, served }
}
