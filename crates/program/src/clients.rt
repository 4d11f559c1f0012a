//! What clients ask of their seats, one after the other.

use crate::answer::{AnsweredCommand, asked, submitted_bytes};
use block::BlkFault;
use console::ahead::{NextBlock, RecordsAhead};
use console::fault::{BlkStop, RunFault};
use console::options::STANDARD;
use console::replay::BLK_MOMENT;
use node::{Naming, Node, Seat};
use scenario::{Call, Definitions, Request};
use std::alloc::{AllocError, AllocFailed};
use std::io::Error;
use std::sync::Wait;
use std::thread::Threads;

/// Why a client ends before its commands do.
#[derive(Clone, Copy)]
pub enum ClientEnd {
    /// There was no memory for an answer.
    Memory,
    /// The output takes no more.
    CannotWrite(Error),
    /// The blk file isn't read on from this offset.
    BlkStopped(u64, BlkStop),
    /// The reader of the blk file has no more to give.
    Closed,
}

impl From<AllocError> for ClientEnd {
    fn from(_error: AllocError) -> ClientEnd {
        ClientEnd::Memory
    }
}

impl<T: Drop> From<AllocFailed<T>> for ClientEnd {
    fn from(_error: AllocFailed<T>) -> ClientEnd {
        ClientEnd::Memory
    }
}

impl From<BlkFault> for ClientEnd {
    fn from(fault: BlkFault) -> ClientEnd {
        match fault {
            BlkFault::Foreign(offset) => ClientEnd::BlkStopped(offset, BlkStop::Foreign),
            BlkFault::Cut(offset) => ClientEnd::BlkStopped(offset, BlkStop::Cut),
            BlkFault::TooLong(offset) => ClientEnd::BlkStopped(offset, BlkStop::TooLong),
            BlkFault::Memory => ClientEnd::Memory,
            BlkFault::Read | BlkFault::Stopped => ClientEnd::Closed,
        }
    }
}

impl From<ClientEnd> for RunFault<'_> {
    fn from(ended: ClientEnd) -> Self {
        match ended {
            ClientEnd::Memory => RunFault::Memory,
            ClientEnd::CannotWrite(error) => RunFault::CannotWrite(STANDARD, error),
            ClientEnd::BlkStopped(offset, stop) => RunFault::BlkStopped(offset, stop),
            ClientEnd::Closed => RunFault::Closed,
        }
    }
}

/// How a client ends by a fault of the output.
pub fn ended_by(fault: &RunFault<'_>) -> ClientEnd {
    match fault {
        RunFault::CannotWrite(_, error) => ClientEnd::CannotWrite(*error),
        RunFault::Memory => ClientEnd::Memory,
        _ => ClientEnd::Closed,
    }
}

/// What a client's seat answers to a call.
pub fn answer<'d, J: Naming, R>(
    rt: &R,
    definitions: &'d Definitions,
    node: &Node<'_, J>,
    call: &Call<'_, '_>,
    seat: &mut Seat<'_, J>,
) -> Result<AnsweredCommand<'d>, ClientEnd>
where
    R: AllocGlobal + Threads + Wait + Sync,
{
    let command = call.words.to_string(rt.alloc())?;
    Ok(AnsweredCommand {
        command,
        outcome: asked(rt, definitions, &call.request, node, seat),
        is_submission: matches!(call.request, Request::Submit(..)),
    })
}

/// What a seat answers to the next record of a blk file, which has this number; None behind the last one.
pub fn answer_record<'d, J: Naming, R>(
    rt: &R,
    node: &Node<'_, J>,
    records: &mut RecordsAhead<'_>,
    seat: &mut Seat<'_, J>,
    number: u64,
) -> Result<Option<AnsweredCommand<'d>>, ClientEnd>
where
    R: AllocGlobal + Threads + Wait + Sync,
{
    let Some(NextBlock { bytes, submission }) = records.next(rt)? else {
        return Ok(None);
    };
    if let Some(submission) = submission {
        seat.hand_in(submission);
    }
    let command = format!(in rt.alloc(); "record {number}")?;
    Ok(Some(AnsweredCommand {
        command,
        outcome: submitted_bytes(rt, node, seat, bytes, BLK_MOMENT),
        is_submission: true,
    }))
}
