//! Plays at the door that the command line names.

use crate::allocations::refuse;
use crate::chain_play::{play_chain, play_definition, play_run};
use crate::handover::play_handover;
use crate::inside::play_inside;
use crate::log::{PlayLog, PlayOptions};
use crate::node_play::play_node;
use anyhow::{Context, bail};
use doors::{HEIGHTS, Meeting, Options};
use journal::read_heights;
use scenario::{Client, Definitions, Line, lines, read_clients};
use signatures::Table;
use std::alloc::Global;
use std::io::{Print, Read, read_to_string};
use std::rt::Env;
use std::sync::Wait;
use std::thread::Threads;
use workloads::drawn::Drawn;
use workloads::table::{REGTEST, find};

/// The text of the list that is asked for.
fn text_of<I: Read + Drop>(
    alloc: Global,
    options: &Options<'_>,
    input: I,
) -> anyhow::Result<String> {
    match options.list {
        "-" => Ok(read_to_string(alloc, input)?),
        "random" => {
            let (below, count) = (options.count("below", 0), options.count("count", 20));
            Ok(Drawn::new(alloc, options.number("seed", 0), below, count)?.text()?)
        }
        name => Ok(
            find(name)
                .context("no scenario has this name")?
                .text(alloc)?,
        ),
    }
}

/// The heights of soft forks: the command line's, else the ones of the scenario of this name.
fn heights_of<'w>(options: &Options<'w>) -> &'w str {
    match (options.text(HEIGHTS), find(options.list)) {
        (Some(heights), _) => heights,
        (None, Some(scenario)) => scenario.heights,
        (None, None) => REGTEST,
    }
}

/// What these lines define.
fn defined(alloc: Global, lines: &[Line<'_>]) -> anyhow::Result<Definitions> {
    match Definitions::read(alloc, lines, Table::new(alloc)) {
        Ok(definitions) => Ok(definitions),
        Err(_) => bail!("a definition can't be read"),
    }
}

/// Plays the list.
pub fn play<R, I>(rt: &R, options: &Options<'_>, input: I, gate: &Meeting) -> anyhow::Result<()>
where
    R: AllocGlobal + Env + Print + Threads + Wait + Sync,
    I: Read + Drop,
{
    let text = text_of(rt.alloc(), options, input)?;
    if options.door == "text" {
        return Ok(print!(rt; "{text}")?);
    }
    play_text(rt, options, text.as_str(), gate)
}

/// Plays a list of this text: what it defines, and then its clients.
fn play_text<R>(rt: &R, options: &Options<'_>, text: &str, gate: &Meeting) -> anyhow::Result<()>
where
    R: AllocGlobal + Env + Print + Threads + Wait + Sync,
{
    let lines = lines(rt.alloc(), text.as_bytes())?;
    let first = lines
        .iter()
        .position(|line| line.words.first() == Some(&"client"));
    let (above, below) = lines.as_slice().split_at(first.unwrap_or(lines.len()));
    play_lines(rt, options, &defined(rt.alloc(), above)?, below, gate)
}

/// Plays the clients that these lines name.
fn play_lines<R>(
    rt: &R,
    options: &Options<'_>,
    definitions: &Definitions,
    lines: &[Line<'_>],
    gate: &Meeting,
) -> anyhow::Result<()>
where
    R: AllocGlobal + Env + Print + Threads + Wait + Sync,
{
    match read_clients(rt.alloc(), definitions, lines) {
        Ok(clients) => play_clients(rt, options, definitions, clients.as_slice(), gate),
        Err(_) => bail!("a command can't be read"),
    }
}

/// Plays these clients, once or while memory is refused.
fn play_clients<R>(
    rt: &R,
    options: &Options<'_>,
    definitions: &Definitions,
    clients: &[Client<'_, '_>],
    gate: &Meeting,
) -> anyhow::Result<()>
where
    R: AllocGlobal + Env + Print + Threads + Wait + Sync,
{
    let asked = PlayOptions {
        options,
        params: read_heights(heights_of(options)).context("heights")?,
        definitions,
        clients,
        closes: options.is("close"),
    };
    if options.number("first", 0) > 0 {
        return play_refused(rt, &asked, gate);
    }
    let mut log = PlayLog::new(rt.alloc());
    play_once(rt, &asked, gate, &mut log)?;
    Ok(print!(rt; "{}", log.text)?)
}

/// Plays at a door.
fn play_once<R>(
    rt: &R,
    asked: &PlayOptions<'_>,
    gate: &Meeting,
    log: &mut PlayLog,
) -> anyhow::Result<()>
where
    R: AllocGlobal + Env + Threads + Wait + Sync,
{
    match asked.options.door {
        "definition" => Ok(play_definition(rt.alloc(), asked, log)?),
        "run" => Ok(play_run(rt.alloc(), asked, log)?),
        "chainstate" => play_chain(rt, asked, false, log),
        "core" => play_chain(rt, asked, true, log),
        "node" => play_node(rt, asked, gate, log),
        "handover" => play_handover(rt, asked, gate, log),
        "inside" => play_inside(rt, log),
        _ => bail!("there is no such door"),
    }
}

/// Plays in turn, in each of which another allocation is the first that is refused, until none is. The lines of a play are
/// printed where they differ from the play before.
fn play_refused<R>(rt: &R, asked: &PlayOptions<'_>, gate: &Meeting) -> anyhow::Result<()>
where
    R: AllocGlobal + Env + Print + Threads + Wait + Sync,
{
    let options = asked.options;
    let first = options.number("first", 1);
    let mut last = String::new(rt.alloc());
    for number in first..first.saturating_add(options.number("count", 1)) {
        if !refuse(rt, rt.alloc(), number, options.number("refused", 1))? {
            bail!("no library counts allocations");
        }
        let asked = PlayOptions {
            closes: number % 2 == 0,
            ..*asked
        };
        let mut log = PlayLog::new(rt.alloc());
        play_once(rt, &asked, gate, &mut log)?;
        let PlayLog { text, refusals } = log;
        print!(rt; "play {number}\n{refusals}")?;
        if text.as_str() != last.as_str() {
            print!(rt; "{text}")?;
            last = text;
        }
        if refusals.is_empty() {
            break;
        }
    }
    Ok(())
}
