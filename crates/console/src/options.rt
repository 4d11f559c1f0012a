//! The command line.

use crate::command_line::command;
use crate::view_options::read_view;
use clap::error::ErrorKind;
use clap::{ArgMatches, Error};
use picture::TreeView;
use std::alloc::{AllocError, Global};

/// How a line is written.
#[derive(Clone, Copy, PartialEq, Eq)]
pub enum Form {
    Text,
    /// A JSON object for each answer and each line of the journal.
    Json,
    /// Not at all: the block tree alone is shown.
    Tree,
}

/// The program's name.
pub const NAME: &str = "regchain";

/// The name of the standard streams.
pub const STANDARD: &str = "-";

/// The program's version, with the kit and its logic by which it is proved.
pub const VERSION: &str = "0.2 (rattle-kit-13f logic dac8208d650f15bf)";

/// How many workers check scripts by default.
const WORKERS: usize = 2;

/// How many seats a served node has by default.
const SEATS: usize = 4;

/// The heights of soft forks by default, regtest's.
pub const HEIGHTS: &str = "1,1,1,1";

/// What the command line asks for.
#[derive(Drop)]
pub enum CommandOptions<'w> {
    Run(RunOptions<'w>),
    Audit(AuditOptions<'w>),
    Tree(TreeOptions<'w>),
    Show(ShowOptions<'w>),
    Serve(ServeOptions<'w>),
    Export(ExportOptions<'w>),
}

/// To run the scenario of a file.
#[derive(Clone, Copy)]
pub struct RunOptions<'w> {
    pub scenario: &'w str,
    /// The file of blocks that are submitted first.
    pub blk: Option<&'w str>,
    /// The file of the valid signatures.
    pub table: Option<&'w str>,
    /// From 1 to 16.
    pub workers: usize,
    /// The heights of soft forks, not yet read.
    pub heights: &'w str,
    /// The folder for the journal, the blocks, the table and the heights.
    pub save: Option<&'w str>,
    /// The file of the output that is expected.
    pub expect: Option<&'w str>,
    pub form: Form,
    /// Whether the block tree is shown after the journal.
    pub has_tree: bool,
    /// The file for a picture of the block tree.
    pub svg: Option<&'w str>,
    pub view: TreeView,
}

/// Where a saved run is.
#[derive(Clone, Copy)]
pub enum Saved<'w> {
    /// In the files of a folder.
    Folder(&'w str),
    /// In the log of a node.
    Datadir(&'w str),
    Files {
        journal: &'w str,
        blk: &'w str,
        /// The file of the valid signatures.
        table: Option<&'w str>,
        /// The heights of soft forks, not yet read.
        heights: &'w str,
    },
}

/// To replay a journal over the blocks of a blk file.
#[derive(Clone, Copy)]
pub struct AuditOptions<'w> {
    pub saved: Saved<'w>,
    /// By the chainstate of one thread, not by the definition.
    pub is_quick: bool,
    /// To tell the reply of the first line that differs.
    pub is_explained: bool,
    /// How many lines are looked at.
    pub limit: usize,
    pub form: Form,
}

/// To show the block tree that a saved journal leads to.
#[derive(Clone, Copy)]
pub struct TreeOptions<'w> {
    /// The folder of a run's files.
    pub saved: &'w str,
    /// The scenario that gives names.
    pub scenario: Option<&'w str>,
    /// The file for a picture.
    pub svg: Option<&'w str>,
    pub view: TreeView,
}

/// To answer requests until the standard input ends.
#[derive(Clone, Copy)]
pub struct ServeOptions<'w> {
    /// From 1 to 16.
    pub seats: usize,
    /// From 1 to 16.
    pub workers: usize,
    /// The heights of soft forks, not yet read.
    pub heights: Option<&'w str>,
    /// The file of the valid signatures.
    pub table: Option<&'w str>,
    /// The file of blocks that are submitted before the first request.
    pub blk: Option<&'w str>,
    /// The folder of an earlier run, which is played again before the first request.
    pub load: Option<&'w str>,
    /// The folder for the journal, the blocks, the table and the heights.
    pub save: Option<&'w str>,
    /// The folder in which the history is kept.
    pub datadir: Option<&'w str>,
    /// Whether an answer goes out before its steps are on the disk.
    pub is_unsynced: bool,
    /// Whether whole lines behind a zero byte of the log are cut off too.
    pub is_cut: bool,
    /// Whether seats tell which signatures are valid, as calls want them, in place of a table.
    pub is_by_need: bool,
    /// Whether a request is refused for whose seat as many wait as may.
    pub is_busy: bool,
    /// How many megabytes of the history submissions that aren't kept may take.
    pub history_memory: Option<u64>,
}

/// To save what a node's log says.
#[derive(Clone, Copy)]
pub struct ExportOptions<'w> {
    /// The folder of the node.
    pub datadir: &'w str,
    /// The folder for the journal, the blocks, the table and the heights.
    pub save: &'w str,
}

/// To show what a scenario defines.
#[derive(Drop)]
pub struct ShowOptions<'w> {
    pub scenario: &'w str,
    /// The names that are shown; all, where there are none.
    pub names: Vec<&'w str>,
}

impl<'w> CommandOptions<'w> {
    /// What these words ask for, of which the first is the program's name. With no others it is to run the
    /// scenario on the standard input. A tree that is printed on a terminal has colours, where nothing else is said.
    pub fn read(
        alloc: Global,
        words: &'w [&'w str],
        is_terminal: bool,
    ) -> Result<CommandOptions<'w>, Error> {
        if words.len() <= 1 {
            return Ok(CommandOptions::Run(STANDARD_RUN));
        }
        let matches = matches(alloc, words)?;
        if let Some(("run", run)) = matches.subcommand() {
            check_view(alloc, run)?;
        }
        match options_of(alloc, &matches, is_terminal)? {
            Some(options) => Ok(options),
            None => Err(error(alloc, ErrorKind::InvalidSubcommand, "no such command line")?),
        }
    }
}

/// Refuses an option of a block tree that a run shows nowhere.
fn check_view(alloc: Global, run: &ArgMatches<'_>) -> Result<(), Error> {
    if run.get_flag("tree") || run.get_str("svg").is_some() {
        return Ok(());
    }
    let Some(name) = first_view_option(run) else {
        return Ok(());
    };
    let message = format!(in alloc;
        "the argument '--{name}' cannot be used without '--tree' or '--svg'"
    )?;
    Err(error(alloc, ErrorKind::MissingRequiredArgument, message.as_str())?)
}

/// The first option that is given of how a block tree is shown.
fn first_view_option(run: &ArgMatches<'_>) -> Option<&'static str> {
    if run.get_one::<u64>("from").is_some() {
        return Some("from");
    }
    if run.get_one::<u64>("last").is_some() {
        return Some("last");
    }
    if run.get_str("fold").is_some() {
        return Some("fold");
    }
    if run.get_str("color").is_some() {
        return Some("color");
    }
    if run.get_flag("legend") {
        return Some("legend");
    }
    None
}

/// To run the scenario on the standard input.
const STANDARD_RUN: RunOptions<'static> = RunOptions {
    scenario: STANDARD,
    blk: None,
    table: None,
    workers: WORKERS,
    heights: HEIGHTS,
    save: None,
    expect: None,
    form: Form::Text,
    has_tree: false,
    svg: None,
    view: TreeView::ALL,
};

fn matches<'w>(alloc: Global, words: &'w [&'w str]) -> Result<ArgMatches<'w>, Error> {
    let mut command = command(alloc)?;
    command.try_get_matches_from_mut(words)
}

/// The text that the subcommand `help` or `version` asks for. That of `--help` and `--version` is a fault.
pub fn text_asked_for<'w>(
    alloc: Global,
    words: &'w [&'w str],
) -> Result<Option<String>, AllocError> {
    let Some(word) = words.get(1) else {
        return Ok(None);
    };
    if *word == "help" {
        return help_text(alloc, words);
    }
    if *word == "version" && words.len() == 2 {
        return Ok(Some(format!(in alloc; "{NAME} {VERSION}\n")?));
    }
    Ok(None)
}

fn help_text<'w>(alloc: Global, words: &'w [&'w str]) -> Result<Option<String>, AllocError> {
    let Err(error) = matches(alloc, words) else {
        return Ok(None);
    };
    if error.kind() != ErrorKind::DisplayHelp {
        return Ok(None);
    }
    Ok(Some(error.to_string(alloc)?))
}

/// An error of this command line.
fn error(alloc: Global, kind: ErrorKind, message: &str) -> Result<Error, AllocError> {
    let mut command = command(alloc)?;
    command.error(kind, message)
}

/// What a subcommand and its options ask for; None where there is none such.
fn options_of<'w>(
    alloc: Global,
    matches: &ArgMatches<'w>,
    is_terminal: bool,
) -> Result<Option<CommandOptions<'w>>, AllocError> {
    match matches.subcommand() {
        Some(("run", run)) => Ok(read_run(run, is_terminal)),
        Some(("audit", audit)) => Ok(read_audit(audit)),
        Some(("tree", tree)) => Ok(read_tree(tree, is_terminal)),
        Some(("show", show)) => read_show(alloc, show),
        Some(("serve", serve)) => Ok(Some(read_serve(serve))),
        Some(("export", export)) => Ok(read_export(export)),
        _ => Ok(None),
    }
}

/// An output that is compared has colours only where they are asked for.
fn read_run<'w>(run: &ArgMatches<'w>, is_terminal: bool) -> Option<CommandOptions<'w>> {
    let expect = run.get_str("expect");
    Some(CommandOptions::Run(RunOptions {
        scenario: run.get_str("scenario")?,
        blk: run.get_str("blk"),
        table: run.get_str("table"),
        workers: run.get_one("workers").unwrap_or(WORKERS),
        heights: run.get_str("heights").unwrap_or(HEIGHTS),
        save: run.get_str("save"),
        expect,
        form: form_asked_for(run),
        has_tree: run.get_flag("tree"),
        svg: run.get_str("svg"),
        view: read_view(run, is_terminal && expect.is_none()),
    }))
}

/// Without a folder the scenario is run, and the block tree alone is shown.
fn read_tree<'w>(tree: &ArgMatches<'w>, is_terminal: bool) -> Option<CommandOptions<'w>> {
    let view = read_view(tree, is_terminal);
    let (scenario, svg) = (tree.get_str("scenario"), tree.get_str("svg"));
    if let Some(saved) = tree.get_str("saved") {
        return Some(CommandOptions::Tree(TreeOptions {
            saved,
            scenario,
            svg,
            view,
        }));
    }
    Some(CommandOptions::Run(RunOptions {
        scenario: scenario?,
        blk: tree.get_str("blk"),
        table: tree.get_str("table"),
        workers: WORKERS,
        heights: tree.get_str("heights").unwrap_or(HEIGHTS),
        save: None,
        expect: None,
        form: Form::Tree,
        has_tree: true,
        svg,
        view,
    }))
}

fn read_audit<'w>(audit: &ArgMatches<'w>) -> Option<CommandOptions<'w>> {
    Some(CommandOptions::Audit(AuditOptions {
        saved: read_saved(audit)?,
        is_quick: audit.get_flag("quick"),
        is_explained: audit.get_flag("explain"),
        limit: audit.get_one("to").unwrap_or(usize::MAX),
        form: form_asked_for(audit),
    }))
}

fn read_saved<'w>(audit: &ArgMatches<'w>) -> Option<Saved<'w>> {
    if let Some(folder) = audit.get_str("saved") {
        return Some(Saved::Folder(folder));
    }
    if let Some(folder) = audit.get_str("datadir") {
        return Some(Saved::Datadir(folder));
    }
    Some(Saved::Files {
        journal: audit.get_str("journal")?,
        blk: audit.get_str("blk")?,
        table: audit.get_str("table"),
        heights: audit.get_str("heights").unwrap_or(HEIGHTS),
    })
}

fn read_show<'w>(
    alloc: Global,
    show: &ArgMatches<'w>,
) -> Result<Option<CommandOptions<'w>>, AllocError> {
    let Some(scenario) = show.get_str("scenario") else {
        return Ok(None);
    };
    let names = Vec::from_slice(alloc, show.get_strs("names").unwrap_or(&[]))?;
    Ok(Some(CommandOptions::Show(ShowOptions { scenario, names })))
}

fn read_serve<'w>(serve: &ArgMatches<'w>) -> CommandOptions<'w> {
    CommandOptions::Serve(ServeOptions {
        seats: serve.get_one("seats").unwrap_or(SEATS),
        workers: serve.get_one("workers").unwrap_or(WORKERS),
        heights: serve.get_str("heights"),
        table: serve.get_str("table"),
        blk: serve.get_str("blk"),
        load: serve.get_str("load"),
        save: serve.get_str("save"),
        datadir: serve.get_str("datadir"),
        is_unsynced: serve.get_flag("no-sync"),
        is_cut: serve.get_flag("cut"),
        is_by_need: serve.get_flag("by-need"),
        is_busy: serve.get_flag("busy"),
        history_memory: serve.get_one("history-memory"),
    })
}

fn read_export<'w>(export: &ArgMatches<'w>) -> Option<CommandOptions<'w>> {
    Some(CommandOptions::Export(ExportOptions {
        datadir: export.get_str("datadir")?,
        save: export.get_str("save")?,
    }))
}

fn form_asked_for(matches: &ArgMatches<'_>) -> Form {
    if matches.get_flag("json") {
        return Form::Json;
    }
    Form::Text
}

/// The fault of a command line that isn't text.
pub fn no_text(alloc: Global) -> Result<Error, AllocError> {
    let message = "invalid UTF-8 was detected in one or more arguments";
    error(alloc, ErrorKind::InvalidValue, message)
}
