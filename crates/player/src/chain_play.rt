//! The definition as a program, and a chainstate of one thread: the commands of the first client, by themselves or with
//! what is read between them. The second client names the outputs that are looked at.

use crate::allocations::{begin, end};
use crate::chainstates::{AnyChain, ChainDesk, Whole};
use crate::log::{PlayLog, PlayOptions};
use crate::seat_calls::MOST_TRIES;
use crate::state::{StateLines, read, state_of};
use anyhow::bail;
use model::{Bytes, Command, Reply};
use reference::slow;
use scenario::{Call, Request};
use std::alloc::Global;
use std::rt::Env;
use wire::Memory;

/// The command of a request that takes a step.
fn command_of(alloc: Global, request: &Request<'_>) -> Result<Option<Command>, Memory> {
    Ok(match request {
        Request::Submit(bytes, now) => {
            Some(Command::Submit(Bytes::from_slice(alloc, bytes.as_slice())?, *now))
        }
        Request::Invalidate(id) => Some(Command::Invalidate(*id)),
        Request::Reconsider(id) => Some(Command::Reconsider(*id)),
        Request::Precious(id) => Some(Command::Precious(*id)),
        _ => None,
    })
}

/// All commands of the first client.
fn commands_of(alloc: Global, asked: &PlayOptions<'_>) -> Result<Vec<Command>, Memory> {
    let mut commands = Vec::new(alloc);
    for call in asked.calls(0) {
        if let Some(command) = command_of(alloc, &call.request)? {
            commands.push(command)?;
        }
    }
    Ok(commands)
}

/// Writes replies to the commands of the first client.
fn write_replies(
    asked: &PlayOptions<'_>,
    replies: &[Reply],
    log: &mut PlayLog,
) -> Result<(), Memory> {
    let mut replies = replies.iter();
    for call in asked.calls(0) {
        if !matches!(
            call.request,
            Request::Best | Request::Tips | Request::Output(_)
        ) {
            if let Some(reply) = replies.next() {
                log.answer(&call.words, *reply)?;
            }
        }
    }
    Ok(())
}

/// The replies of the definition.
pub fn play_definition(
    alloc: Global,
    asked: &PlayOptions<'_>,
    log: &mut PlayLog,
) -> Result<(), Memory> {
    let commands = commands_of(alloc, asked)?;
    let table = asked.definitions.table();
    let replies = slow(alloc, &asked.params, commands.as_slice(), table)?;
    write_replies(asked, replies.as_slice(), log)
}

/// The replies of a chainstate to all commands at once, and its state after them.
pub fn play_run(alloc: Global, asked: &PlayOptions<'_>, log: &mut PlayLog) -> Result<(), Memory> {
    let commands = commands_of(alloc, asked)?;
    let mut whole = Whole::new(alloc, asked.params, asked.definitions.table())?;
    let replies = whole.run(alloc, commands.as_slice())?;
    write_replies(asked, replies.as_slice(), log)?;
    let look = whole.look(alloc)?;
    write_state(
        &state_of(alloc, asked.definitions, &look, asked.calls(1))?,
        log,
    )
}

fn write_state(state: &StateLines, log: &mut PlayLog) -> Result<(), Memory> {
    log.text.push_str(state.head.as_str())?;
    Ok(log.text.push_str(state.coins.as_str())?)
}

/// A chainstate of genesis alone, as often as memory is refused.
fn opened<'t, R>(
    rt: &R,
    asked: &PlayOptions<'t>,
    is_lent: bool,
    log: &mut PlayLog,
) -> anyhow::Result<AnyChain<'t>>
where
    R: AllocGlobal + Env,
{
    for _ in 0..MOST_TRIES {
        begin(rt, asked.options.number("skipped", 0) == 0);
        let opened = AnyChain::new(rt.alloc(), asked.params, asked.definitions.table(), is_lent);
        let refused = end(rt);
        let outcome = if opened.is_ok() { "answered" } else { "memory" };
        log.refused(refused, "with", outcome)?;
        if let Ok(chain) = opened {
            return Ok(chain);
        }
    }
    bail!("a chainstate is refused again and again")
}

/// What a chainstate shows.
fn shown(
    alloc: Global,
    asked: &PlayOptions<'_>,
    chain: &AnyChain<'_>,
) -> Result<StateLines, Memory> {
    let look = chain.look(alloc)?;
    state_of(alloc, asked.definitions, &look, asked.calls(1))
}

/// Writes what a call reads, if it takes no step: whether it takes none.
fn write_read(
    alloc: Global,
    asked: &PlayOptions<'_>,
    chain: &AnyChain<'_>,
    call: &Call<'_, '_>,
    log: &mut PlayLog,
) -> Result<bool, Memory> {
    let look = chain.look(alloc)?;
    let Some(answer) = read(alloc, asked.definitions, &look, &call.request)? else {
        return Ok(false);
    };
    log.answer(&call.words, answer)?;
    Ok(true)
}

/// Takes a command until it isn't refused memory, and writes its reply. A refusal that changes the state is written.
fn taken<'t, R>(
    rt: &R,
    asked: &PlayOptions<'_>,
    mut chain: AnyChain<'t>,
    state: &StateLines,
    call: &Call<'_, '_>,
    is_counted: bool,
    log: &mut PlayLog,
) -> Result<AnyChain<'t>, Memory>
where
    R: AllocGlobal + Env,
{
    for _ in 0..MOST_TRIES {
        let Some(command) = command_of(rt.alloc(), &call.request)? else {
            break;
        };
        let desk = ChainDesk {
            is_counted,
            outputs: asked.calls(1),
            coins: state.coins.as_str(),
        };
        let (after, reply) = chain.take(rt, command, &desk, log)?;
        chain = after;
        if let Some(reply) = reply {
            log.answer(&call.words, reply)?;
            break;
        }
        let left = shown(rt.alloc(), asked, &chain)?;
        if left != *state {
            log.answer(&call.words, "refused, and another state is left")?;
            write_state(&left, log)?;
        }
    }
    Ok(chain)
}

/// A chainstate, and its state.
type ChainAndState<'t> = (AnyChain<'t>, StateLines);

/// Makes the call of this place, and gives the state after it, which is written where that is asked for.
fn made<'t, R>(
    rt: &R,
    asked: &PlayOptions<'_>,
    (chain, state): ChainAndState<'t>,
    place: usize,
    call: &Call<'_, '_>,
    log: &mut PlayLog,
) -> Result<ChainAndState<'t>, Memory>
where
    R: AllocGlobal + Env,
{
    if write_read(rt.alloc(), asked, &chain, call, log)? {
        return Ok((chain, state));
    }
    let is_counted = place >= asked.options.count("skipped", 0);
    let chain = taken(rt, asked, chain, &state, call, is_counted, log)?;
    if !asked.options.is("each") {
        return Ok((chain, state));
    }
    let state = shown(rt.alloc(), asked, &chain)?;
    write_state(&state, log)?;
    Ok((chain, state))
}

/// Makes the first client's calls one after the other, and writes the state at the end.
pub fn play_chain<R>(
    rt: &R,
    asked: &PlayOptions<'_>,
    is_lent: bool,
    log: &mut PlayLog,
) -> anyhow::Result<()>
where
    R: AllocGlobal + Env,
{
    let chain = opened(rt, asked, is_lent, log)?;
    let state = shown(rt.alloc(), asked, &chain)?;
    let mut now = (chain, state);
    for (place, call) in asked.calls(0).iter().enumerate() {
        now = made(rt, asked, now, place, call, log)?;
    }
    Ok(write_state(&shown(rt.alloc(), asked, &now.0)?, log)?)
}
