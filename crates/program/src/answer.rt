//! The answers of a client's seat.

use crate::told::{NamedBlock, NamedTips, SeatReply};
use hash::Id;
use node::{Bytes, Fault, MarkReply, Naming, Node, Seat, Stamped, Tip, UnspentOutput};
use scenario::{Definitions, Request};
use std::fmt;
use std::sync::Wait;
use std::thread::Threads;

/// A command and its answer, as they are printed.
#[derive(Drop)]
pub struct AnsweredCommand<'d> {
    pub command: String,
    /// Faults have no stamp.
    pub outcome: Result<Stamped<SeatReply<'d>>, Fault>,
    pub is_submission: bool,
}

/// What a seat answers to a request.
pub fn asked<'d, J: Naming, R>(
    rt: &R,
    definitions: &'d Definitions,
    request: &Request<'_>,
    node: &Node<'_, J>,
    seat: &mut Seat<'_, J>,
) -> Result<Stamped<SeatReply<'d>>, Fault>
where
    R: AllocGlobal + Threads + Wait + Sync,
{
    let alloc = rt.alloc();
    match request {
        Request::Submit(bytes, now) => submitted(rt, node, seat, bytes.as_slice(), *now),
        Request::Invalidate(id) => marked(seat.invalidate(rt, node, *id)),
        Request::Reconsider(id) => marked(seat.reconsider(rt, node, *id)),
        Request::Precious(id) => marked(seat.precious(rt, node, *id)),
        Request::Best => best(definitions, seat.getbestblockhash()),
        Request::Tips => tips(definitions, seat.getchaintips(alloc)),
        Request::Output(outpoint) => output(seat.gettxout(alloc, outpoint)),
    }
}

/// What a seat answers to the submission of these bytes.
pub fn submitted<'d, J: Naming, R>(
    rt: &R,
    node: &Node<'_, J>,
    seat: &mut Seat<'_, J>,
    bytes: &[u8],
    now: u64,
) -> Result<Stamped<SeatReply<'d>>, Fault>
where
    R: Threads + Wait + Sync,
{
    let reply = seat.submit(rt, node, bytes, now)?;
    Ok(stamped(reply.at, SeatReply::Submit(reply.value)))
}

/// The same for shared bytes.
pub fn submitted_bytes<'d, J: Naming, R>(
    rt: &R,
    node: &Node<'_, J>,
    seat: &mut Seat<'_, J>,
    bytes: Bytes,
    now: u64,
) -> Result<Stamped<SeatReply<'d>>, Fault>
where
    R: Threads + Wait + Sync,
{
    let reply = seat.submit_bytes(rt, node, bytes, now)?;
    Ok(stamped(reply.at, SeatReply::Submit(reply.value)))
}

fn marked<'d>(reply: Result<Stamped<MarkReply>, Fault>) -> Result<Stamped<SeatReply<'d>>, Fault> {
    let Stamped { at, value } = reply?;
    Ok(stamped(at, SeatReply::Mark(value)))
}

fn best<'d>(
    definitions: &'d Definitions,
    best: Result<Stamped<Id>, Fault>,
) -> Result<Stamped<SeatReply<'d>>, Fault> {
    let Stamped { at, value } = best?;
    Ok(stamped(at, SeatReply::Best(NamedBlock::new(definitions, value))))
}

fn tips<'d>(
    definitions: &'d Definitions,
    tips: Result<Stamped<Vec<Tip>>, Fault>,
) -> Result<Stamped<SeatReply<'d>>, Fault> {
    let Stamped { at, value: list } = tips?;
    Ok(stamped(at, SeatReply::Tips(NamedTips { definitions, list })))
}

fn output<'d>(
    output: Result<Stamped<Option<UnspentOutput>>, Fault>,
) -> Result<Stamped<SeatReply<'d>>, Fault> {
    let Stamped { at, value } = output?;
    Ok(stamped(at, SeatReply::Output(value)))
}

fn stamped(at: u64, value: SeatReply<'_>) -> Stamped<SeatReply<'_>> {
    Stamped { at, value }
}

impl fmt::Display for AnsweredCommand<'_> {
    fn fmt<W: fmt::Write>(&self, f: &mut fmt::Formatter<W>) -> fmt::Result {
        match &self.outcome {
            Ok(told) => writeln!(f, "{} = {} @{}", self.command, told.value, told.at),
            Err(fault) => writeln!(f, "{} = {fault}", self.command),
        }
    }
}
