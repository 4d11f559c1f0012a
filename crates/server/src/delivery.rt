//! How answers go out: behind their steps.

ghost use Rattle.std.specs.Prelude.{◌≡◌, ◌++◌, ◌+◌, length, IfOk, IfErr};
ghost use Rattle.durable.specs.Log.{history, heard, as_told};
ghost use Rattle.server.specs.inside.Delivery.{GoesOn, KeepsToTheEnd, Appends};

use crate::outbox::Outbox;
use crate::words::Facts;
use console::datadir::{HostFault, entry_line};
use console::fault::RunFault;
use crossbeam_channel::Receiver;
use durable::{Answer, Host, KeptLog, Lost};
use node::Entry;
use serving::{Refusal, RequestId, refusal_line};
use std::alloc::{AllocError, Global};
use std::sync::Wait;

/// A log that goes on, or why it doesn't.
pub type Told<H> = Result<KeptLog<H>, Lost<RunFault<'static>, H>>;

/// The answers that wait to go out, with the memory for all that is done with them where the history isn't kept: so each
/// answer that was made goes out.
#[derive(Drop)]
pub struct Lines {
    waiting: Receiver<Answer>,
    at_hand: Vec<Answer>,
    /// The last line, where no answer goes out any more.
    pub unsaved: Vec<u8>,
}

impl Lines {
    /// Of which so many are taken at once.
    pub fn new(alloc: Global, waiting: Receiver<Answer>, most: usize) -> Result<Lines, AllocError> {
        Ok(Lines {
            waiting,
            at_hand: Vec::with_capacity(alloc, most)?,
            unsaved: refusal_line(Vec::new(alloc), &RequestId::Null, Refusal::Unsaved)?,
        })
    }

    /// Waits for an answer, and takes it with those that wait behind it, as many as there is room for. Whether one came.
    fn take<R: Wait>(&mut self, rt: &R) -> Result<bool, AllocError> {
        let Ok(first) = self.waiting.recv(rt) else {
            return Ok(false);
        };
        self.at_hand.clear();
        self.at_hand.push(first)?;
        for _ in 1..self.at_hand.capacity() {
            let Ok(answer) = self.waiting.try_recv(rt) else {
                return Ok(true);
            };
            self.at_hand.push(answer)?;
        }
        Ok(true)
    }
}

/// Lets answers out as they come, until all who answer have left: those that come at once behind one sync.
pub fn tell_as_they_come<R, H>(
    rt: &R,
    outbox: &Outbox,
    facts: &Facts<'_>,
    lines: &mut Lines,
    log: KeptLog<H>,
) -> Told<H>
where
    R: AllocGlobal + Wait,
    H: Host<Failure = HostFault> + Drop,
    ensures goes_on { IfOk result (λ now. GoesOn H.calls log.log now.log) }
    ensures lost { IfErr result (λ lost. KeepsToTheEnd H.calls log.log lost.host) }
{
    let mut log = log;
    for _ in rt.forever() {
        match lines.take(rt) {
            Ok(true) => {}
            Ok(false) => return Ok(log),
            Err(AllocError) => return Err(given_up(RunFault::Memory, log)),
        }
        let entries = outbox.take(rt);
        match tell_all(rt.alloc(), facts, entries.as_slice(), &lines.at_hand, log) {
            Ok(now) => log = now,
            Err(lost) => return Err(lost),
        }
    }
    Ok(log)
}

/// Appends entries that the log lacks, brings them onto the disk, and lets answers out then.
pub fn tell_all<H>(
    alloc: Global,
    facts: &Facts<'_>,
    entries: &[Entry],
    answers: &[Answer],
    log: KeptLog<H>,
) -> Told<H>
where
    H: Host<Failure = HostFault> + Drop,
    ensures goes_on { IfOk result (λ now. GoesOn H.calls log.log now.log) }
    ensures lost { IfErr result (λ lost. KeepsToTheEnd H.calls log.log lost.host) }
    ensures appended { IfOk result (λ now. length (history H.calls now.log)
        ≡ length (history H.calls log.log) + length entries.now) }
    ensures told { IfOk result (λ now.
        heard H.calls now.log ≡ heard H.calls log.log ++ as_told answers.now) }
{
    match append_all(alloc, facts, entries, log) {
        Ok(log) => let_go(answers, log),
        Err(lost) => Err(lost),
    }
}

/// Brings all that waits onto the disk, and lets all answers out then. None tells of a step that the log lacks.
fn let_go<H>(answers: &[Answer], log: KeptLog<H>) -> Told<H>
where
    H: Host<Failure = HostFault> + Drop,
    ensures goes_on { IfOk result (λ now. GoesOn H.calls log.log now.log) }
    ensures lost { IfErr result (λ lost. KeepsToTheEnd H.calls log.log lost.host) }
    ensures same { IfOk result (λ now. history H.calls now.log ≡ history H.calls log.log) }
    ensures told { IfOk result (λ now.
        heard H.calls now.log ≡ heard H.calls log.log ++ as_told answers.now) }
{
    match log.round(answers) {
        Ok((log, went)) if went == answers.len() => Ok(log),
        Ok((log, _)) => Err(given_up(RunFault::Closed, log)),
        Err(Lost { fault, host }) => Err(Lost {
            fault: RunFault::from(fault),
            host,
        }),
    }
}

fn append_all<H>(alloc: Global, facts: &Facts<'_>, entries: &[Entry], log: KeptLog<H>) -> Told<H>
where
    H: Host<Failure = HostFault> + Drop,
    ensures goes_on { IfOk result (λ now. GoesOn H.calls log.log now.log) }
    ensures lost { IfErr result (λ lost. KeepsToTheEnd H.calls log.log lost.host) }
    ensures appended { IfOk result (λ now.
        Appends H.calls log.log now.log (length entries.now)) }
{
    let mut log = log;
    for entry in entries {
        match append(alloc, facts, entry, log) {
            Ok(now) => log = now,
            Err(lost) => return Err(lost),
        }
    }
    Ok(log)
}

fn append<H>(alloc: Global, facts: &Facts<'_>, entry: &Entry, log: KeptLog<H>) -> Told<H>
where
    H: Host<Failure = HostFault> + Drop,
    ensures goes_on { IfOk result (λ now. GoesOn H.calls log.log now.log) }
    ensures lost { IfErr result (λ lost. KeepsToTheEnd H.calls log.log lost.host) }
    ensures appended { IfOk result (λ now. Appends H.calls log.log now.log 1) }
{
    let number = log.count().saturating_add(1);
    match entry_line(alloc, &facts.clients, number, entry) {
        Ok(line) => append_line(line, log),
        Err(fault) => Err(given_up(fault, log)),
    }
}

fn append_line<H>(line: Vec<u8>, log: KeptLog<H>) -> Told<H>
where
    H: Host<Failure = HostFault> + Drop,
    ensures goes_on { IfOk result (λ now. GoesOn H.calls log.log now.log) }
    ensures lost { IfErr result (λ lost. KeepsToTheEnd H.calls log.log lost.host) }
    ensures appended { IfOk result (λ now. Appends H.calls log.log now.log 1) }
{
    match log.append(line) {
        Ok(log) => Ok(log),
        Err(Lost { fault, host }) => Err(Lost {
            fault: RunFault::from(fault),
            host,
        }),
    }
}

/// Why a log is no more, and its host.
fn given_up<H>(fault: RunFault<'static>, log: KeptLog<H>) -> Lost<RunFault<'static>, H>
where
    H: Host<Failure = HostFault> + Drop,
    ensures { KeepsToTheEnd H.calls log.log result.host }
{
    Lost {
        fault,
        host: log.into_host(),
    }
}

/// Says by this line, which tells of no step, that no answer goes out any more: why that is so.
pub fn tell_unsaved<H>(line: &Vec<u8>, lost: Lost<RunFault<'static>, H>) -> RunFault<'static>
where
    H: Host<Failure = HostFault> + Drop,
{
    let Lost { fault, mut host } = lost;
    let _ = host.tell(0, line);
    fault
}
