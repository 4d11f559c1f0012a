//! Notes that running threads hand each other, while the writer is held in the gate: who is told of a step finds it, and
//! who is told nothing sees it once it has ended.
//!
//! The first client writes at one seat, and its last command is the one that is held. The second client's commands are
//! asked at another seat before that has ended and after it, the third one's at a third seat, on a third thread, when the
//! others are done.

ghost use Rattle.std.specs.Prelude.{◌≡◌};

use crate::log::{PlayLog, PlayOptions};
use crate::seat_calls::ask_again;
use anyhow::bail;
use crossbeam_channel::{Receiver, Sender};
use doors::Meeting;
use node::{Naming, Node, Note, Opening, Seat};
use scenario::{Call, Definitions};
use std::marker::Brand;
use std::rt::Env;
use std::sync::{Arc, Wait};
use std::thread;
use std::thread::Threads;
use wire::Memory;

/// Makes these calls at a seat.
fn ask_all<J: Naming, R>(
    rt: &R,
    definitions: &Definitions,
    node: &Node<'_, J>,
    seat: &mut Seat<'_, J>,
    calls: &[Call<'_, '_>],
    log: &mut PlayLog,
) -> Result<(), Memory>
where
    R: AllocGlobal + Env + Threads + Wait + Sync,
{
    for call in calls {
        ask_again(rt, definitions, node, seat, call, false, log)?;
    }
    Ok(())
}

/// Makes all calls but the last, and sends a note; makes the last one, in whose script it is held, and sends another.
fn write<J: Naming, R>(
    rt: &R,
    definitions: &Definitions,
    node: &Node<'_, J>,
    seat: &mut Seat<'_, J>,
    calls: &[Call<'_, '_>],
    to: Sender<Note<J>>,
) -> Result<PlayLog, Memory>
where
    R: AllocGlobal + Env + Threads + Wait + Sync,
{
    let mut log = PlayLog::new(rt.alloc());
    let (front, last) = calls.split_at(calls.len().saturating_sub(1));
    ask_all(rt, definitions, node, seat, front, &mut log)?;
    let _ = to.send(rt, seat.note());
    let written = ask_all(rt, definitions, node, seat, last, &mut log);
    let _ = to.send(rt, seat.note());
    written?;
    Ok(log)
}

/// Reads after the first note, while the writer is held; lets the writer go on, and reads after the second.
fn read_both<J: Naming, R>(
    rt: &R,
    definitions: &Definitions,
    node: &Node<'_, J>,
    seat: &mut Seat<'_, J>,
    calls: &[Call<'_, '_>],
    gate: &Meeting,
    from: Receiver<Note<J>>,
) -> Result<PlayLog, Memory>
where
    R: AllocGlobal + Env + Threads + Wait + Sync,
{
    let mut log = PlayLog::new(rt.alloc());
    gate.wait_for_a_script();
    for _ in 0..2u32 {
        if let Ok(note) = from.recv(rt) {
            seat.told(&note);
            ask_all(rt, definitions, node, seat, calls, &mut log)?;
        }
        gate.open();
    }
    Ok(log)
}

/// Reads, told nothing.
fn read_last<J: Naming, R>(
    rt: &R,
    definitions: &Definitions,
    node: &Node<'_, J>,
    seat: &mut Seat<'_, J>,
    calls: &[Call<'_, '_>],
) -> Result<PlayLog, Memory>
where
    R: AllocGlobal + Env + Threads + Wait + Sync,
{
    let mut log = PlayLog::new(rt.alloc());
    ask_all(rt, definitions, node, seat, calls, &mut log)?;
    Ok(log)
}

/// Plays three clients at three seats on three threads.
pub fn play_handover<R>(
    rt: &R,
    asked: &PlayOptions<'_>,
    gate: &Meeting,
    log: &mut PlayLog,
) -> anyhow::Result<()>
where
    R: AllocGlobal + Env + Threads + Wait + Sync,
{
    let table = Arc::new(rt.alloc(), asked.definitions.table().copy()?)?;
    hand_over::<Brand, R>(rt, asked, Opening::new(asked.params, &table, 3), gate, log)
}

/// What three seats on three threads are answered: the writer, the reader that is told its notes, and the last one.
fn ask_three<J: Naming, R>(
    rt: &R,
    asked: &PlayOptions<'_>,
    node: &Node<'_, J>,
    writer: &mut Seat<'_, J>,
    reader: &mut Seat<'_, J>,
    last: &mut Seat<'_, J>,
    gate: &Meeting,
) -> Result<(PlayLog, PlayLog, PlayLog), Memory>
where
    R: AllocGlobal + Env + Threads + Wait + Sync,
{
    let (to, from) = crossbeam_channel::unbounded(rt.alloc())?;
    let named = asked.definitions;
    let writes = asked.calls(0);
    let reads = asked.calls(1);
    let others = asked.calls(2);
    let (written, read) = thread::join(
        rt,
        || write(rt, named, node, writer, writes, to),
        || read_both(rt, named, node, reader, reads, gate, from),
    );
    let (seen, ()) = thread::join(rt, || read_last(rt, named, node, last, others), || ());
    Ok((written?, read?, seen?))
}

/// Asks the first three of some seats.
fn ask_first_three<J: Naming, R>(
    rt: &R,
    asked: &PlayOptions<'_>,
    node: &Node<'_, J>,
    seats: &mut [Seat<'_, J>],
    gate: &Meeting,
) -> anyhow::Result<(PlayLog, PlayLog, PlayLog)>
where
    R: AllocGlobal + Env + Threads + Wait + Sync,
{
    let Some((writer, others)) = seats.split_first_mut() else {
        bail!("a seat");
    };
    let Some((reader, others)) = others.split_first_mut() else {
        bail!("a seat");
    };
    let Some((last, _)) = others.split_first_mut() else {
        bail!("a seat");
    };
    Ok(ask_three(rt, asked, node, writer, reader, last, gate)?)
}

/// Writes what was answered.
fn write_answers(
    answered: anyhow::Result<(PlayLog, PlayLog, PlayLog)>,
    log: &mut PlayLog,
) -> anyhow::Result<()> {
    let (written, read, seen) = answered?;
    log.client("writer", &written)?;
    log.client("reader", &read)?;
    Ok(log.client("last", &seen)?)
}

fn hand_over<'x, J: Naming, R>(
    rt: &R,
    asked: &PlayOptions<'_>,
    opening: Opening<'x>,
    gate: &'x Meeting,
    log: &mut PlayLog,
) -> anyhow::Result<()>
where
    R: AllocGlobal + Env + Threads + Wait + Sync,
    requires { opening ≡ J.origin }
{
    let (node, mut seats) = Node::<J>::open(rt.alloc(), opening, 1, gate)?;
    let answered = ask_first_three(rt, asked, &node, seats.as_mut_slice(), gate);
    write_answers(answered, log)
}
