//! The calls of a node's seat.

use crate::allocations::{begin, end};
use crate::answer::CommandAnswer;
use crate::log::PlayLog;
use node::{Fault, KeptTriple, MarkReply, Naming, Node, Reply, Seat, Stamped};
use scenario::{Call, Definitions, Request};
use std::rt::Env;
use std::sync::Wait;
use std::thread::Threads;
use wire::Memory;

/// A call is made so often at most.
pub const MOST_TRIES: u32 = 1_000;

/// Makes a call of a seat.
fn ask<'d, J: Naming, R>(
    rt: &R,
    definitions: &'d Definitions,
    node: &Node<'_, J>,
    seat: &mut Seat<'_, J>,
    request: &Request<'_>,
) -> Result<Stamped<CommandAnswer<'d>>, Fault>
where
    R: AllocGlobal + Threads + Wait + Sync,
{
    let alloc = rt.alloc();
    Ok(match request {
        Request::Submit(bytes, now) => {
            let Stamped { at, value } = seat.submit(rt, node, bytes.as_slice(), *now)?;
            stamped(at, CommandAnswer::Reply(Reply::Submit(value)))
        }
        Request::Invalidate(id) => marked(seat.invalidate(rt, node, *id)?),
        Request::Reconsider(id) => marked(seat.reconsider(rt, node, *id)?),
        Request::Precious(id) => marked(seat.precious(rt, node, *id)?),
        Request::Best => {
            let best = seat.getbestblockhash()?;
            stamped(best.at, CommandAnswer::Best(definitions.label(best.value)))
        }
        Request::Tips => {
            let Stamped { at, value } = seat.getchaintips(alloc)?;
            stamped(at, CommandAnswer::Tips(definitions, value))
        }
        Request::Output(outpoint) => {
            let Stamped { at, value } = seat.gettxout(alloc, outpoint)?;
            stamped(at, CommandAnswer::Output(value))
        }
    })
}

fn marked<'d>(reply: Stamped<MarkReply>) -> Stamped<CommandAnswer<'d>> {
    stamped(reply.at, CommandAnswer::Reply(Reply::Mark(reply.value)))
}

fn stamped(at: u64, value: CommandAnswer<'_>) -> Stamped<CommandAnswer<'_>> {
    Stamped { at, value }
}

/// The name of the call that a request is.
fn name_of(request: &Request<'_>) -> &'static str {
    match request {
        Request::Submit(..) => "submit",
        Request::Invalidate(_) => "invalidate",
        Request::Reconsider(_) => "reconsider",
        Request::Precious(_) => "precious",
        Request::Best => "getbestblockhash",
        Request::Tips => "getchaintips",
        Request::Output(_) => "gettxout",
    }
}

/// What a call is answered, and how many allocations were refused in it.
type Counted<'d> = (Result<Stamped<CommandAnswer<'d>>, Fault>, u64);

/// Makes a call, in which allocations count where that is asked for.
fn ask_counted<'d, J: Naming, R>(
    rt: &R,
    definitions: &'d Definitions,
    node: &Node<'_, J>,
    seat: &mut Seat<'_, J>,
    request: &Request<'_>,
    is_counted: bool,
) -> Counted<'d>
where
    R: AllocGlobal + Env + Threads + Wait + Sync,
{
    begin(rt, is_counted);
    let answered = ask(rt, definitions, node, seat, request);
    (answered, end(rt))
}

/// How a call ended.
#[derive(Clone, Copy)]
enum CallEnd {
    /// With an answer of this stamp.
    At(u64),
    /// By a fault.
    Fault,
    /// It was refused memory.
    Memory,
}

/// Writes how a call ended: its answer with the stamp, or the fault, where it isn't made again.
fn write_answer(
    call: &Call<'_, '_>,
    (answered, refused): Counted<'_>,
    log: &mut PlayLog,
) -> Result<CallEnd, Memory> {
    let name = name_of(&call.request);
    Ok(match answered {
        Ok(Stamped { at, value }) => {
            log.refused(refused, name, "answered")?;
            log.answer(&call.words, format_args!("{value} @{at}"))?;
            CallEnd::At(at)
        }
        Err(Fault::Memory) if refused > 0 => {
            log.refused(refused, name, "memory")?;
            CallEnd::Memory
        }
        Err(fault) => {
            log.refused(refused, name, fault)?;
            log.answer(&call.words, fault)?;
            CallEnd::Fault
        }
    })
}

/// Tells a seat of each signature that it wants whether the list's table has it.
fn learn_wants<J: Naming, R>(
    rt: &R,
    definitions: &Definitions,
    node: &Node<'_, J>,
    seat: &mut Seat<'_, J>,
) -> Result<(), Memory>
where
    R: AllocGlobal + Threads + Wait + Sync,
{
    let alloc = rt.alloc();
    let mut wants = Vec::new(alloc);
    for triple in seat.wants() {
        wants.push(triple.copy()?)?;
    }
    for triple in wants.as_slice() {
        let (key, signature, digest) = (triple.key(), triple.signature(), triple.digest());
        let valid = definitions.table().has(key, signature, digest);
        if seat.learn(rt, node, triple, valid).is_err() {
            return Err(Memory);
        }
    }
    Ok(())
}

/// Makes a call until it isn't refused memory and wants no signature, and writes its answer with its stamp: the stamp, if it
/// has one.
pub fn ask_again<J: Naming, R>(
    rt: &R,
    definitions: &Definitions,
    node: &Node<'_, J>,
    seat: &mut Seat<'_, J>,
    call: &Call<'_, '_>,
    is_counted: bool,
    log: &mut PlayLog,
) -> Result<Option<u64>, Memory>
where
    R: AllocGlobal + Env + Threads + Wait + Sync,
{
    for _ in 0..MOST_TRIES {
        let answered = ask_counted(rt, definitions, node, seat, &call.request, is_counted);
        if let (Err(Fault::Unknown), _) = &answered {
            if learn_wants(rt, definitions, node, seat).is_ok() {
                continue;
            }
        }
        match write_answer(call, answered, log)? {
            CallEnd::At(at) => return Ok(Some(at)),
            CallEnd::Fault => break,
            CallEnd::Memory => {}
        }
    }
    Ok(None)
}
