//! A node: the first client's calls are made at all its seats in turn, each other client's at a seat of its own.

ghost use Rattle.std.specs.Prelude.{◌≡◌};

use crate::allocations::{begin, end};
use crate::at_once::{SeatAnswer, ask_at_once, places_of};
use crate::board::RingBoard;
use crate::log::{PlayLog, PlayOptions};
use crate::round::{Round, ask_in_turn};
use crate::seat_calls::{MOST_TRIES, ask_again};
use anyhow::bail;
use doors::Meeting;
use journal::{Asked as Taken, Step, block_of};
use node::{Command, Entry, Naming, Node, OpenFault, Opening, Seat};
use scenario::{Call, Definitions, Label, Request, Words};
use std::alloc::Global;
use std::marker::Brand;
use std::rt::Env;
use std::sync::{Arc, Wait};
use std::thread::Threads;
use wire::Memory;

/// Plays the list on a new node, which is opened as often as memory is refused.
pub fn play_node<R>(
    rt: &R,
    asked: &PlayOptions<'_>,
    gate: &Meeting,
    log: &mut PlayLog,
) -> anyhow::Result<()>
where
    R: AllocGlobal + Env + Threads + Wait + Sync,
{
    let table = Arc::new(rt.alloc(), asked.definitions.table().copy()?)?;
    for _ in 0..MOST_TRIES {
        let seats = asked.options.count("seats", 1);
        let opening = if asked.options.is("need") {
            Opening::by_need(asked.params, seats)
        } else {
            Opening::new(asked.params, &table, seats)
        };
        if play_opening::<Brand, R>(rt, asked, opening, gate, log)? {
            return Ok(());
        }
    }
    bail!("open is refused again and again")
}

/// Opens a node and plays the list on it: whether memory sufficed to open it.
fn play_opening<J: Naming, R>(
    rt: &R,
    asked: &PlayOptions<'_>,
    opening: Opening<'_>,
    gate: &Meeting,
    log: &mut PlayLog,
) -> anyhow::Result<bool>
where
    R: AllocGlobal + Env + Threads + Wait + Sync,
    requires { opening ≡ J.origin }
{
    begin(rt, asked.options.number("skipped", 0) == 0);
    let opened = Node::<J>::open(rt.alloc(), opening, asked.options.count("workers", 1), gate);
    let refused = end(rt);
    match opened {
        Ok((node, seats)) => {
            play_calls(rt, asked, node, seats, gate, log)?;
            log.refused(refused, "open", "answered")?;
            Ok(true)
        }
        Err(OpenFault::Memory) if refused > 0 => {
            log.refused(refused, "open", "memory")?;
            Ok(false)
        }
        Err(fault) => {
            log.answer(&"open", fault)?;
            Ok(true)
        }
    }
}

/// Makes the calls, ends the node and writes its history. From the opening of a node to its end nothing returns early.
fn play_calls<J: Naming, R>(
    rt: &R,
    asked: &PlayOptions<'_>,
    node: Node<'_, J>,
    seats: Vec<Seat<'_, J>>,
    gate: &Meeting,
    log: &mut PlayLog,
) -> anyhow::Result<()>
where
    R: AllocGlobal + Env + Threads + Wait + Sync,
{
    let mut back = Vec::new(rt.alloc());
    let played = ask_clients(rt, asked, &node, seats, gate, log, &mut back);
    let met = meet_first_two(rt, asked, &node, back.as_mut_slice(), log);
    let ended = end_node(rt, asked, node, back, log);
    write_end(rt.alloc(), asked, played.and(met), ended, log)
}

/// Writes a history, where there was memory for all before it.
fn write_end(
    alloc: Global,
    asked: &PlayOptions<'_>,
    played: Result<(), Memory>,
    ended: Result<Option<Vec<Entry>>, Memory>,
    log: &mut PlayLog,
) -> anyhow::Result<()> {
    played?;
    match ended? {
        Some(history) => write_journal(alloc, asked.definitions, history.as_slice(), log),
        None => Ok(()),
    }
}

/// Makes all calls: the seats come back.
fn ask_clients<'t, J: Naming, R>(
    rt: &R,
    asked: &PlayOptions<'_>,
    node: &Node<'_, J>,
    seats: Vec<Seat<'t, J>>,
    gate: &Meeting,
    log: &mut PlayLog,
    back: &mut Vec<Seat<'t, J>>,
) -> Result<(), Memory>
where
    R: AllocGlobal + Env + Threads + Wait + Sync,
{
    let seats = ask_first(rt, asked, node, seats, log)?;
    let places = ask_others(rt, asked, node, seats, gate)?;
    for (number, place) in places.into_iter().enumerate() {
        take_back(rt.alloc(), asked, number, place, log, back)?;
    }
    Ok(())
}

/// Makes the other clients' calls at a seat each, or in a ring: the seats with what they answered.
fn ask_others<'t, J: Naming, R>(
    rt: &R,
    asked: &PlayOptions<'_>,
    node: &Node<'_, J>,
    seats: Vec<Seat<'t, J>>,
    gate: &Meeting,
) -> Result<Vec<SeatAnswer<'t, J>>, Memory>
where
    R: AllocGlobal + Env + Threads + Wait + Sync,
{
    let alloc = rt.alloc();
    let count = if asked.options.is("ring") {
        seats.len()
    } else {
        0
    };
    let board = RingBoard::new(alloc, seats.as_slice(), count)?;
    let mut places = places_of(alloc, seats)?;
    ask_at_once(rt, asked, node, places.as_mut_slice(), gate, &board);
    Ok(places)
}

/// Takes the seat of this number back, and writes what it answered.
fn take_back<'t, J: Naming>(
    alloc: Global,
    asked: &PlayOptions<'_>,
    number: usize,
    place: SeatAnswer<'t, J>,
    log: &mut PlayLog,
    back: &mut Vec<Seat<'t, J>>,
) -> Result<(), Memory> {
    let SeatAnswer {
        seat,
        log: answers,
        written,
    } = place;
    back.push(seat)?;
    write_place(alloc, asked, number, &answers, log)?;
    written
}

/// Makes the first client's calls at all seats in turn: the seats.
fn ask_first<'t, J: Naming, R>(
    rt: &R,
    asked: &PlayOptions<'_>,
    node: &Node<'_, J>,
    seats: Vec<Seat<'t, J>>,
    log: &mut PlayLog,
) -> Result<Vec<Seat<'t, J>>, Memory>
where
    R: AllocGlobal + Env + Threads + Wait + Sync,
{
    let round = Round {
        seats,
        note: None,
        log: PlayLog::new(rt.alloc()),
    };
    let (round, written) = ask_in_turn(rt, asked, node, round, asked.calls(0));
    let Round {
        seats,
        log: answers,
        ..
    } = round;
    if let Some(client) = asked.clients.first() {
        log.client(client.name, &answers)?;
    }
    written?;
    Ok(seats)
}

/// Writes what the seat of this number answered: as its own in a ring, else as its client's.
fn write_place(
    alloc: Global,
    asked: &PlayOptions<'_>,
    number: usize,
    answers: &PlayLog,
    log: &mut PlayLog,
) -> Result<(), Memory> {
    if asked.options.is("ring") {
        let name = format!(in alloc; "seat {number}")?;
        return log.client(name.as_str(), answers);
    }
    match asked.clients.get(number.wrapping_add(1)) {
        Some(client) => log.client(client.name, answers),
        None => Ok(()),
    }
}

/// The first two seats meet, where that is asked for: how much both have seen before and behind, and what each then reads.
fn meet_first_two<J: Naming, R>(
    rt: &R,
    asked: &PlayOptions<'_>,
    node: &Node<'_, J>,
    seats: &mut [Seat<'_, J>],
    log: &mut PlayLog,
) -> Result<(), Memory>
where
    R: AllocGlobal + Env + Threads + Wait + Sync,
{
    let Some((one, others)) = seats.split_first_mut() else {
        return Ok(());
    };
    let Some(other) = others.first_mut() else {
        return Ok(());
    };
    if !asked.options.is("meet") {
        return Ok(());
    }
    writeln!(
        log.text,
        "client meeting\nseen {} {}",
        one.note().len(),
        other.note().len()
    )?;
    one.meet(other);
    writeln!(log.text, "seen {} {}", one.note().len(), other.note().len())?;
    let best = Call {
        words: Words::Line("best"),
        request: Request::Best,
    };
    ask_again(rt, asked.definitions, node, one, &best, false, log)?;
    ask_again(rt, asked.definitions, node, other, &best, false, log)?;
    Ok(())
}

/// Ends the node by either of the two calls, which take no memory, with so many of the seats, the first ones or the last:
/// the history. If it is refused, that is written.
fn end_node<J: Naming, R>(
    rt: &R,
    asked: &PlayOptions<'_>,
    node: Node<'_, J>,
    mut seats: Vec<Seat<'_, J>>,
    log: &mut PlayLog,
) -> Result<Option<Vec<Entry>>, Memory>
where
    R: AllocGlobal + Env + Wait,
{
    if asked.closes {
        seats.as_mut_slice().reverse();
    }
    seats.truncate(asked.options.count("passed", 16));
    begin(rt, true);
    let (name, ended) = if asked.closes {
        ("close", node.close(rt, seats.as_mut_slice()))
    } else {
        ("finish", node.finish(seats.as_mut_slice()))
    };
    let refused = end(rt);
    log.refused(refused, name, "answered")?;
    match ended {
        Ok(history) => Ok(Some(history)),
        Err(fault) => {
            log.answer(&name, fault)?;
            Ok(None)
        }
    }
}

/// Writes a history as a journal's lines, with the number of a seat in the place of a client's name.
fn write_journal(
    alloc: Global,
    definitions: &Definitions,
    history: &[Entry],
    log: &mut PlayLog,
) -> anyhow::Result<()> {
    writeln!(log.text, "journal")?;
    for (place, entry) in history.iter().enumerate() {
        let client = format!(in alloc; "{}", entry.seat)?;
        let step = Step {
            number: place.wrapping_add(1),
            client: client.as_str(),
            asked: Taken::from_command(&entry.command),
            block: told_block(alloc, definitions, entry)?,
            reply: entry.reply,
        };
        writeln!(log.text, "{step}")?;
    }
    Ok(())
}

/// How the block of an entry is told: by a name that its bytes have, if one has them.
fn told_block<'d>(
    alloc: Global,
    definitions: &'d Definitions,
    entry: &Entry,
) -> anyhow::Result<Label<'d>> {
    let id = block_of(alloc, entry)?;
    let label = definitions.label(id);
    let Command::Submit(bytes, _) = &entry.command else {
        return Ok(label);
    };
    if let Label::Name(name) = label {
        if has_bytes(definitions, name, bytes.as_slice()) {
            return Ok(label);
        }
    }
    for name in definitions.names() {
        if has_bytes(definitions, name.as_str(), bytes.as_slice()) {
            return Ok(Label::Name(name.as_str()));
        }
    }
    Ok(Label::Digits(id))
}

/// Whether the block of this name has these bytes.
fn has_bytes(definitions: &Definitions, name: &str, bytes: &[u8]) -> bool {
    match definitions.find(name) {
        Ok(named) => named.bytes.as_slice() == bytes,
        Err(_) => false,
    }
}
