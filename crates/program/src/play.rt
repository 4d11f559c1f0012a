//! The run of a scenario: its files, its clients, what is printed, and what is saved.

ghost use Rattle.std.specs.Prelude.{◌≡◌};

use crate::node_run::{run_clients, run_records};
use crate::output::RunOutput;
use crate::writer::Writer;
use block::SliceSource;
use console::fault::RunFault;
use console::files::{read_if_named, read_scenario, read_table};
use console::history_tree::history_tree;
use console::options::RunOptions;
use console::pictures::{check_picture, tree_text, write_picture};
use console::progress::Progress;
use console::report::{Clients, Report};
use console::saves::{check_folder, save};
use console::text::{Text, read_definitions};
use journal::{Records, read_heights, read_out};
use node::{EndFault, Entry, Gate, Naming, Node, Opening, Params};
use scenario::{BLK, Client, Complaint, Definitions, Why, number_after, read_clients};
use server::node_faults::unopened;
use signatures::Table;
use std::alloc::Global;
use std::fs::File;
use std::io::{IsTerminal, Read, Write};
use std::marker::Brand;
use std::rt::Files;
use std::sync::{Arc, Wait};
use std::thread::Threads;
use std::time::Clock;

/// What the files of a run hold, beside the table.
#[derive(Drop)]
struct RunFiles {
    scenario: Vec<u8>,
    blk: Option<Vec<u8>>,
    expected: Option<Vec<u8>>,
}

/// How the node is opened.
#[derive(Clone, Copy)]
struct NodeSetting {
    params: Params,
    workers: usize,
}

/// Runs a scenario, prints what its clients were answered, and saves it where that is asked for.
pub fn run<'w, R, I, O, E>(
    rt: &R,
    options: &RunOptions<'w>,
    gate: &(dyn Gate + Sync),
    input: &mut I,
    out: &mut O,
    err: &mut E,
) -> Result<(), RunFault<'w>>
where
    R: Files<File = File> + AllocGlobal + Clock + Threads + Wait + Sync,
    I: Read,
    O: Write,
    E: Write + IsTerminal,
{
    let setting = NodeSetting {
        params: read_heights(options.heights).ok_or(RunFault::Heights)?,
        workers: options.workers,
    };
    let (inputs, table) = read_inputs(rt, options, input)?;
    let text = read_definitions(rt.alloc(), inputs.scenario.as_slice(), table)?;
    let clients = read_some_clients(rt.alloc(), &inputs, &text)?;
    run_read(
        rt,
        options,
        setting,
        gate,
        &inputs,
        &text.definitions,
        clients.as_slice(),
        out,
        err,
    )
}

/// The clients of a scenario, of which there has to be one.
fn read_some_clients<'d, 't>(
    alloc: Global,
    inputs: &RunFiles,
    text: &'d Text<'t>,
) -> Result<Vec<Client<'d, 't>>, RunFault<'static>> {
    let clients = read_clients(alloc, &text.definitions, text.below.as_slice())?;
    if clients.is_empty() {
        let why = Why::of_line(Complaint::Without);
        return Err(RunFault::ScenarioLine(number_after(inputs.scenario.as_slice()), why));
    }
    Ok(clients)
}

/// Runs a scenario that was read.
fn run_read<'w, 'd, 't, R, O, E>(
    rt: &R,
    options: &RunOptions<'w>,
    setting: NodeSetting,
    gate: &(dyn Gate + Sync),
    inputs: &RunFiles,
    definitions: &'d Definitions,
    clients: &[Client<'d, 't>],
    out: &mut O,
    err: &mut E,
) -> Result<(), RunFault<'w>>
where
    R: Files<File = File> + AllocGlobal + Clock + Threads + Wait + Sync,
    O: Write,
    E: Write + IsTerminal,
{
    check_before_run(rt, options, &inputs.blk)?;
    let is_terminal = err.is_terminal();
    let mut writer = Writer {
        output: RunOutput::new(rt.alloc(), out, options.form, inputs.expected.is_some()),
        progress: Progress::new(rt, err, is_terminal),
        name: String::new(rt.alloc()),
        alloc: rt.alloc(),
    };
    let played = play(
        rt,
        setting,
        gate,
        definitions,
        clients,
        lent(&inputs.blk),
        &mut writer,
    )?;
    let Writer {
        mut output,
        mut progress,
        ..
    } = writer;
    progress.end();
    finish_run(
        rt,
        options,
        &setting.params,
        inputs,
        definitions,
        played,
        &mut output,
    )
}

/// Writes what follows the answers of a run, saves it, and compares its output, where each is asked for.
fn finish_run<'w, R, O>(
    rt: &R,
    options: &RunOptions<'w>,
    params: &Params,
    inputs: &RunFiles,
    definitions: &Definitions,
    played: Played<'_, '_>,
    output: &mut RunOutput<'_, O>,
) -> Result<(), RunFault<'w>>
where
    R: Files<File = File> + AllocGlobal,
    O: Write,
{
    let Played { report, written } = played;
    let written = match written {
        Ok(()) => write_rest(rt, options, params, &report, definitions, output),
        Err(fault) => Err(fault),
    };
    save_run(rt, options, &report, definitions, written)?;
    compare_with(lent(&inputs.expected), output)
}

/// Saves a run where that is asked for, also one whose output took no more.
fn save_run<'w, R>(
    rt: &R,
    options: &RunOptions<'w>,
    report: &Report<'_, '_>,
    definitions: &Definitions,
    written: Result<(), RunFault<'w>>,
) -> Result<(), RunFault<'w>>
where
    R: Files<File = File> + AllocGlobal,
{
    let saved = match options.save {
        Some(folder) => save(rt, folder, report, definitions.table(), options.heights),
        None => Ok(()),
    };
    match written {
        Ok(()) => saved,
        Err(fault) => Err(fault),
    }
}

fn compare_with<O: Write>(
    expected: Option<&[u8]>,
    output: &RunOutput<'_, O>,
) -> Result<(), RunFault<'static>> {
    match expected {
        Some(expected) => output.compare(expected),
        None => Ok(()),
    }
}

/// Refuses a folder in which nothing can be saved, or a file that can't be a picture's, unless the blk file's fault is to
/// be told first.
fn check_before_run<'w, R>(
    rt: &R,
    options: &RunOptions<'w>,
    blk: &Option<Vec<u8>>,
) -> Result<(), RunFault<'w>>
where
    R: Files + AllocGlobal,
{
    let checked = match options.save {
        Some(folder) => check_folder(rt, folder),
        None => Ok(()),
    };
    let checked = match checked {
        Ok(()) => check_picture(rt, options.svg),
        Err(fault) => Err(fault),
    };
    if let (Err(_), Some(file)) = (&checked, blk) {
        let mut records = Records::new(rt.alloc(), SliceSource::new(file.as_slice()));
        if read_out(&mut records).is_err() {
            return Ok(());
        }
    }
    checked
}

/// Writes what follows the answers: the journal, and the block tree where it is asked for.
fn write_rest<'w, R, O>(
    rt: &R,
    options: &RunOptions<'w>,
    params: &Params,
    report: &Report<'_, '_>,
    definitions: &Definitions,
    output: &mut RunOutput<'_, O>,
) -> Result<(), RunFault<'w>>
where
    R: Files + AllocGlobal,
    O: Write,
{
    output.journal(report)?;
    if !options.has_tree && options.svg.is_none() {
        return Ok(());
    }
    let alloc = rt.alloc();
    let commands = report.commands(alloc)?;
    let table = definitions.table();
    let tree = history_tree(alloc, params, commands.as_slice(), table, Some(definitions))?;
    if options.has_tree {
        output.tree(tree_text(alloc, &tree, &options.view)?.as_str())?;
    }
    write_picture(rt, options.svg, &tree, &options.view)
}

/// The files of a run, in the order in which one that can't be read is told.
fn read_inputs<'w, R, I>(
    rt: &R,
    options: &RunOptions<'w>,
    input: &mut I,
) -> Result<(RunFiles, Table), RunFault<'w>>
where
    R: Files + AllocGlobal,
    I: Read,
{
    let scenario = read_scenario(rt, options.scenario, input)?;
    let blk = read_if_named(rt, options.blk)?;
    // Its lines are looked at when all files were read.
    let table = read_if_named(rt, options.table)?;
    let expected = read_if_named(rt, options.expect)?;
    let table = read_table(rt.alloc(), lent(&table))?;
    let inputs = RunFiles {
        scenario,
        blk,
        expected,
    };
    Ok((inputs, table))
}

fn lent(bytes: &Option<Vec<u8>>) -> Option<&[u8]> {
    match bytes {
        Some(bytes) => Some(bytes.as_slice()),
        None => None,
    }
}

/// A run whose history is known.
#[derive(Drop)]
struct Played<'d, 't> {
    report: Report<'d, 't>,
    /// That the output took no more, if it didn't.
    written: Result<(), RunFault<'static>>,
}

/// Runs the clients on a new node. After the output's fault, and that of its end, there is a history.
fn play<'d, 't, R, E, O>(
    rt: &R,
    setting: NodeSetting,
    gate: &(dyn Gate + Sync),
    definitions: &'d Definitions,
    clients: &[Client<'d, 't>],
    blk: Option<&[u8]>,
    writer: &mut Writer<'_, '_, '_, R, E, O>,
) -> Result<Played<'d, 't>, RunFault<'static>>
where
    R: AllocGlobal + Clock + Threads + Wait + Sync,
    O: Write,
    E: Write,
{
    let alloc = rt.alloc();
    let NodeSetting { params, workers } = setting;
    let names = names(alloc, clients, blk.is_some())?;
    let table = Arc::new(alloc, definitions.table().copy()?)?;
    let opening = Opening::new(params, &table, names.len());
    let Ran { entries, written } = run_at_node::<Brand, R, E, O>(
        rt,
        opening,
        workers,
        gate,
        definitions,
        clients,
        blk,
        writer,
    )?;
    match written {
        Ok(()) | Err(RunFault::CannotWrite(..) | RunFault::Closed) => Ok(Played {
            report: Report::new(alloc, definitions, clients_named(alloc, names), entries)?,
            written,
        }),
        Err(fault) => Err(fault),
    }
}

/// The history of a run, and whether its answers were written.
#[derive(Drop)]
struct Ran<'f> {
    entries: Vec<Entry>,
    written: Result<(), RunFault<'f>>,
}

/// Runs the clients on a node of this opening. The prover picks the node's name where this is called.
fn run_at_node<'f, J: Naming, R, E, O>(
    rt: &R,
    opening: Opening<'_>,
    workers: usize,
    gate: &(dyn Gate + Sync),
    definitions: &Definitions,
    clients: &[Client<'_, '_>],
    blk: Option<&[u8]>,
    writer: &mut Writer<'_, '_, '_, R, E, O>,
) -> Result<Ran<'f>, RunFault<'f>>
where
    R: AllocGlobal + Clock + Threads + Wait + Sync,
    O: Write,
    E: Write,
    requires { opening ≡ J.origin }
{
    let (node, mut seats) = Node::<J>::open(rt.alloc(), opening, workers, gate).map_err(unopened)?;
    let lone = usize::from(blk.is_some()).min(seats.len());
    let (first, others) = seats.split_at_mut(lone);
    let submitted = match (blk, first) {
        (Some(file), [seat]) => run_records(rt, file, workers, &node, seat, writer),
        _ => Ok(()),
    };
    let written = match submitted {
        Ok(()) => run_clients(rt, definitions, clients, &node, others, writer),
        Err(fault) => Err(fault),
    };
    match node.finish(seats.as_mut_slice()) {
        Ok(entries) => Ok(Ran { entries, written }),
        // What was played is told and saved, since there is no other copy.
        Err(EndFault { history }) => Ok(Ran {
            entries: history,
            written: Err(RunFault::Closed),
        }),
    }
}

/// The clients of a run from genesis on.
fn clients_named<'t>(alloc: Global, seats: Vec<&'t str>) -> Clients<'t> {
    Clients {
        earlier: Vec::new(alloc),
        seats,
    }
}

/// The client of each seat.
fn names<'t>(
    alloc: Global,
    clients: &[Client<'_, 't>],
    has_blk: bool,
) -> Result<Vec<&'t str>, RunFault<'static>> {
    let mut names = Vec::new(alloc);
    if has_blk {
        names.push(BLK)?;
    }
    for client in clients {
        names.push(client.name)?;
    }
    Ok(names)
}
