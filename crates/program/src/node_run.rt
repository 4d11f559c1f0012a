//! The run of a scenario's clients on a node.

use crate::answer::AnsweredCommand;
use crate::clients::{ClientEnd, answer, answer_record, ended_by};
use crate::writer::Writer;
use block::SliceSource;
use console::ahead::RecordsAhead;
use console::fault::RunFault;
use journal::Records;
use node::{Naming, Node, Seat};
use scenario::{BLK, Client, Definitions};
use std::alloc::Global;
use std::io::Write;
use std::sync::{Mutex, Wait};
use std::thread;
use std::thread::Threads;
use std::time::Clock;

/// Runs the clients, each on a seat of its own. The answers of the first are written as they come, the answers of each other
/// one when it and all before it have ended.
pub fn run_clients<J: Naming, R, E, O>(
    rt: &R,
    definitions: &Definitions,
    clients: &[Client<'_, '_>],
    node: &Node<'_, J>,
    seats: &mut [Seat<'_, J>],
    writer: &mut Writer<'_, '_, '_, R, E, O>,
) -> Result<(), RunFault<'static>>
where
    R: AllocGlobal + Clock + Threads + Wait + Sync,
    E: Write,
    O: Write,
{
    let (Some((client, others)), Some((seat, rest))) = (
        clients.split_first(),
        seats.split_first_mut(),
    ) else {
        return Ok(());
    };
    let desks = desks(rt.alloc(), others.len())?;
    let table = desks.as_slice();
    let ((), written) = thread::join(
        rt,
        || run_at_once(rt, definitions, others, node, rest, table),
        || run_first(rt, definitions, client, node, seat, writer),
    );
    written?;
    write_others(others, desks, writer)
}

/// Writes the answers of the clients that ran beside the first.
fn write_others<C: Clock, E: Write, O: Write>(
    clients: &[Client<'_, '_>],
    desks: Vec<ClientDesk<'_>>,
    writer: &mut Writer<'_, '_, '_, C, E, O>,
) -> Result<(), RunFault<'static>> {
    for (client, desk) in clients.iter().zip(desks.into_iter()) {
        writer.client(client.name)?;
        writer.answers(desk.into_answers()?.as_slice())?;
    }
    Ok(())
}

/// Runs the first client, and writes each answer when it comes.
fn run_first<J: Naming, R, E, O>(
    rt: &R,
    definitions: &Definitions,
    client: &Client<'_, '_>,
    node: &Node<'_, J>,
    seat: &mut Seat<'_, J>,
    writer: &mut Writer<'_, '_, '_, R, E, O>,
) -> Result<(), RunFault<'static>>
where
    R: AllocGlobal + Clock + Threads + Wait + Sync,
    E: Write,
    O: Write,
{
    writer.client(client.name)?;
    for call in client.calls.as_slice() {
        let answered = answer(rt, definitions, node, call, seat)?;
        writer.answer(&answered)?;
    }
    Ok(())
}

/// The answers of a client, when it has ended.
#[derive(Drop)]
struct ClientDesk<'d> {
    answers: Mutex<Result<Vec<AnsweredCommand<'d>>, ClientEnd>>,
}

fn desks<'d>(alloc: Global, count: usize) -> Result<Vec<ClientDesk<'d>>, RunFault<'static>> {
    let mut desks = Vec::new(alloc);
    for _ in 0..count {
        desks.push(ClientDesk::new(alloc))?;
    }
    Ok(desks)
}

impl<'d> ClientDesk<'d> {
    fn new(alloc: Global) -> ClientDesk<'d> {
        ClientDesk {
            answers: Mutex::new(Ok(Vec::new(alloc))),
        }
    }

    fn lay<R: Wait>(&self, rt: &R, answers: Result<Vec<AnsweredCommand<'d>>, ClientEnd>) {
        let mut guard = self.answers.lock(rt);
        *guard = answers;
    }

    fn into_answers(self) -> Result<Vec<AnsweredCommand<'d>>, ClientEnd> {
        let ClientDesk { answers } = self;
        answers.into_inner()
    }
}

/// Runs several clients at once, each on a thread of its own where one can be made.
fn run_at_once<'x, 'd: 'x, J: Naming, R>(
    rt: &'x R,
    definitions: &'d Definitions,
    clients: &'x [Client<'_, '_>],
    node: &'x Node<'_, J>,
    seats: &mut [Seat<'_, J>],
    desks: &'x [ClientDesk<'d>],
)
where
    R: AllocGlobal + Threads + Wait + Sync,
{
    let run_one = |place: usize, seat: &mut Seat<'_, J>| {
        if let (Some(client), Some(desk)) = (clients.get(place), desks.get(place)) {
            desk.lay(rt, collected(rt, definitions, node, client, seat));
        }
    };
    thread::for_each_mut(rt, seats, 16, &run_one);
}

/// All answers of a client.
fn collected<'d, J: Naming, R>(
    rt: &R,
    definitions: &'d Definitions,
    node: &Node<'_, J>,
    client: &Client<'_, '_>,
    seat: &mut Seat<'_, J>,
) -> Result<Vec<AnsweredCommand<'d>>, ClientEnd>
where
    R: AllocGlobal + Threads + Wait + Sync,
{
    let mut answers = Vec::new(rt.alloc());
    for call in client.calls.as_slice() {
        answers.push(answer(rt, definitions, node, call, seat)?)?;
    }
    Ok(answers)
}

/// Submits the records of a blk file in their order, until one can't be read.
fn submit_all<J: Naming, R, E, O>(
    rt: &R,
    node: &Node<'_, J>,
    records: &mut RecordsAhead<'_>,
    seat: &mut Seat<'_, J>,
    writer: &mut Writer<'_, '_, '_, R, E, O>,
) -> Result<(), ClientEnd>
where
    R: AllocGlobal + Clock + Threads + Wait + Sync,
    E: Write,
    O: Write,
{
    for number in 1..u64::MAX {
        let Some(answered) = answer_record(rt, node, records, seat, number)? else {
            return Ok(());
        };
        if let Err(fault) = writer.answer(&answered) {
            return Err(ended_by(&fault));
        }
    }
    Ok(())
}

/// The client of a blk file, whose answers are written as they come. The file's fault comes before the output's.
pub fn run_records<J: Naming, R, E, O>(
    rt: &R,
    file: &[u8],
    workers: usize,
    node: &Node<'_, J>,
    seat: &mut Seat<'_, J>,
    writer: &mut Writer<'_, '_, '_, R, E, O>,
) -> Result<(), RunFault<'static>>
where
    R: AllocGlobal + Clock + Threads + Wait + Sync,
    E: Write,
    O: Write,
{
    let alloc = rt.alloc();
    let records = Records::new(alloc, SliceSource::new(file));
    let mut records = RecordsAhead::new(alloc, records, workers);
    let written = match writer.client(BLK) {
        Ok(()) => submit_all(rt, node, &mut records, seat, writer),
        Err(fault) => Err(ended_by(&fault)),
    };
    if let Err(ClientEnd::CannotWrite(_)) = written {
        records.read_out()?;
    }
    Ok(written?)
}
