//! What a node plays before its first request: an earlier run, and a blk file.

use crate::by_need::{deny_wants, learn_lines};
use crate::node_faults::unanswered;
use crate::waste::taken_by;
use crate::words::{Facts, SEATS};
use block::SliceSource;
use console::ahead::{CommandsAhead, NextBlock, RecordsAhead};
use console::datadir::KeptSteps;
use console::fault::RunFault;
use console::progress::Progress;
use console::replay::BLK_MOMENT;
use console::report::Clients;
use hash::Id;
use journal::{Records, Step};
use node::{Command, MarkReply, Naming, Node, Reply, Seat, Stamped, SubmitReply};
use scenario::BLK;
use std::io::Write;
use std::sync::Wait;
use std::thread::Threads;
use std::time::Clock;

/// What is played before the first request.
#[derive(Drop)]
pub struct Earlier<'t> {
    /// Those of an earlier run.
    pub commands: Vec<Command>,
    /// Their lines in the journal.
    pub steps: Vec<Step<'t, Id>>,
    /// The lines of the signatures that are told to be valid before, and not to be.
    pub valid: String,
    pub invalid: Vec<u8>,
    /// Then a kept history, if there is one: each is a step of it, and it has each verdict that they want.
    pub kept: Option<KeptSteps>,
    /// Then the blocks of this file are submitted.
    pub blk: Option<Vec<u8>>,
    /// At most so many threads decode and hash blocks ahead.
    pub workers: usize,
}

/// Commands that were steps, and what was replied to each.
#[derive(Clone, Copy)]
struct PastSteps<'b> {
    commands: &'b [Command],
    replies: &'b [Option<Reply>],
    /// How many steps are before them, where each is a step of a kept history.
    kept_before: Option<usize>,
    workers: usize,
}

/// Plays it at a seat. The first reply that isn't the recorded one is a fault, and so is a blk file's end that is none. A
/// signature that it wants of a node by need isn't valid where it isn't told to be; in a kept history it is a fault.
pub fn play_earlier<J: Naming, R, E>(
    rt: &R,
    node: &Node<'_, J>,
    seat: &mut Seat<'_, J>,
    earlier: &mut Earlier<'_>,
    facts: &mut Facts<'_>,
    progress: &mut Progress<'_, '_, R, E>,
) -> Result<(), RunFault<'static>>
where
    R: AllocGlobal + Clock + Threads + Wait + Sync,
    E: Write,
{
    learn_lines(rt, node, earlier.valid.as_bytes(), true, seat).map_err(unanswered)?;
    learn_lines(rt, node, earlier.invalid.as_slice(), false, seat).map_err(unanswered)?;
    facts.clients.put_in(0, seat.note().len(), SEATS[0])?;
    let mut replies = Vec::new(rt.alloc());
    for step in earlier.steps.iter() {
        replies.push(step.reply)?;
    }
    let saved = PastSteps {
        commands: earlier.commands.as_slice(),
        replies: replies.as_slice(),
        kept_before: None,
        workers: earlier.workers,
    };
    play_steps(rt, node, seat, saved, facts, progress)?;
    if let Some(kept) = &mut earlier.kept {
        play_kept(rt, node, seat, kept, facts, progress)?;
    }
    match &earlier.blk {
        Some(file) => {
            let records = Records::new(rt.alloc(), SliceSource::new(file.as_slice()));
            let mut records = RecordsAhead::new(rt.alloc(), records, earlier.workers);
            submit_file(rt, node, seat, &mut records, &mut facts.clients)
        }
        None => Ok(()),
    }
}

/// Plays a kept history, a batch at a time.
fn play_kept<J: Naming, R, E>(
    rt: &R,
    node: &Node<'_, J>,
    seat: &mut Seat<'_, J>,
    kept: &mut KeptSteps,
    facts: &mut Facts<'_>,
    progress: &mut Progress<'_, '_, R, E>,
) -> Result<(), RunFault<'static>>
where
    R: AllocGlobal + Clock + Threads + Wait + Sync,
    E: Write,
{
    for _ in 0..u64::MAX {
        let Some(batch) = kept.next()? else {
            return Ok(());
        };
        for client in batch.clients.iter() {
            facts.clients.earlier.push(*client)?;
        }
        let steps = PastSteps {
            commands: batch.commands.as_slice(),
            replies: batch.replies.as_slice(),
            kept_before: Some(batch.before),
            workers: facts.workers,
        };
        play_steps(rt, node, seat, steps, facts, progress)?;
    }
    Err(RunFault::Closed)
}

/// Plays steps. The first reply that isn't the recorded one is a fault.
fn play_steps<J: Naming, R, E>(
    rt: &R,
    node: &Node<'_, J>,
    seat: &mut Seat<'_, J>,
    steps: PastSteps<'_>,
    facts: &mut Facts<'_>,
    progress: &mut Progress<'_, '_, R, E>,
) -> Result<(), RunFault<'static>>
where
    R: AllocGlobal + Clock + Threads + Wait + Sync,
    E: Write,
{
    let mut number = steps.kept_before.unwrap_or(0);
    let mut ahead = CommandsAhead::new(rt.alloc(), steps.commands, steps.workers);
    for (command, recorded) in steps.commands.iter().zip(steps.replies.iter()) {
        number = number.saturating_add(1);
        if let Some(submission) = ahead.next(rt) {
            seat.hand_in(submission);
        }
        let before = seat.note().len();
        let is_kept = steps.kept_before.is_some();
        let reply = match asked(rt, node, seat, command) {
            Err(node::Fault::Unknown) if is_kept => Err(RunFault::NoStep(number)),
            Err(node::Fault::Unknown) => replied(rt, node, seat, command),
            answer => answer.map_err(unanswered),
        }?;
        let denied = seat.note().len().saturating_sub(before.saturating_add(1));
        facts.clients.put_in(before, denied, SEATS[0])?;
        facts.wasted = facts.wasted.saturating_add(wasted(command, reply));
        progress.count(matches!(command, Command::Submit(..)));
        match *recorded {
            Some(recorded) if recorded != reply => {
                return Err(RunFault::OtherReply(number, reply));
            }
            _ if is_kept && seat.note().len() != number as u64 => {
                return Err(RunFault::NoStep(number));
            }
            _ => {}
        }
    }
    Ok(())
}

/// How many bytes of the history a submission takes that isn't kept.
fn wasted(command: &Command, reply: Reply) -> u64 {
    match (command, reply) {
        (Command::Submit(block, _), Reply::Submit(reply)) => taken_by(reply, block.len()),
        _ => 0,
    }
}

/// The reply to a command that wants signatures, and is made again as long as it does.
fn replied<J: Naming, R>(
    rt: &R,
    node: &Node<'_, J>,
    seat: &mut Seat<'_, J>,
    command: &Command,
) -> Result<Reply, RunFault<'static>>
where
    R: AllocGlobal + Threads + Wait + Sync,
{
    for _ in 0..u64::MAX {
        deny_wants(rt, node, seat).map_err(unanswered)?;
        match asked(rt, node, seat, command) {
            Err(node::Fault::Unknown) => {}
            Ok(reply) => return Ok(reply),
            Err(fault) => return Err(unanswered(fault)),
        }
    }
    Err(RunFault::Closed)
}

/// What a seat answers to a command.
fn asked<J: Naming, R>(
    rt: &R,
    node: &Node<'_, J>,
    seat: &mut Seat<'_, J>,
    command: &Command,
) -> Result<Reply, node::Fault>
where
    R: AllocGlobal + Threads + Wait + Sync,
{
    match command {
        Command::Submit(block, now) => {
            match seat.submit_bytes(
                rt,
                node,
                block.clone().map_err(|_| node::Fault::Memory)?,
                *now,
            ) {
                Ok(reply) => Ok(Reply::Submit(reply.value)),
                Err(fault) => Err(fault),
            }
        }
        Command::Invalidate(id) => marked(seat.invalidate(rt, node, *id)),
        Command::Reconsider(id) => marked(seat.reconsider(rt, node, *id)),
        Command::Precious(id) => marked(seat.precious(rt, node, *id)),
        Command::Learn(triple, valid) => match seat.learn(rt, node, triple.triple(), *valid) {
            Ok(_) => Ok(Reply::Mark(MarkReply::Done)),
            Err(fault) => Err(fault),
        },
    }
}

fn marked(reply: Result<Stamped<MarkReply>, node::Fault>) -> Result<Reply, node::Fault> {
    match reply {
        Ok(reply) => Ok(Reply::Mark(reply.value)),
        Err(fault) => Err(fault),
    }
}

/// Submits the records of a blk file in their order. The steps are a client's whose name no other has.
fn submit_file<J: Naming, R>(
    rt: &R,
    node: &Node<'_, J>,
    seat: &mut Seat<'_, J>,
    records: &mut RecordsAhead<'_>,
    clients: &mut Clients<'_>,
) -> Result<(), RunFault<'static>>
where
    R: AllocGlobal + Threads + Wait + Sync,
{
    for _ in 0..u64::MAX {
        let Some(NextBlock { bytes, submission }) = records.next(rt)? else {
            return Ok(());
        };
        if let Some(submission) = submission {
            seat.hand_in(submission);
        }
        let told = seat.submit_bytes(rt, node, bytes, BLK_MOMENT);
        let reply = told.map_err(unanswered)?.value;
        if reply != SubmitReply::DecodeFailed {
            clients.earlier.push(BLK)?;
        }
    }
    Ok(())
}
