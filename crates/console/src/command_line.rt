//! The words of the command line: its subcommands and their options, as a table.

use crate::options::{NAME, VERSION};
use clap::builder::ValueParser;
use clap::{Arg, ArgAction, Command, value_parser};
use std::alloc::{AllocError, Global};

/// A subcommand.
#[derive(Clone, Copy)]
struct Subcommand {
    name: &'static str,
    about: &'static str,
    options: &'static [Opt],
}

/// What an option takes.
#[derive(Clone, Copy)]
enum Takes {
    Nothing,
    Text,
    /// A number from 1 to 16.
    Few,
    Number,
    /// A number from 1 on.
    Count,
    /// A word of `WHEN`.
    When,
    /// Any number of words, which stand by themselves.
    Words,
}

/// When an option has to be there.
#[derive(Clone, Copy)]
enum Needed {
    Never,
    Always,
    /// Unless a folder is named.
    UnlessSaved,
    /// Unless a folder of either kind is named.
    UnlessKept,
}

/// An option of a subcommand.
#[derive(Clone, Copy)]
struct Opt {
    name: &'static str,
    takes: Takes,
    /// What stands for its value.
    value: &'static str,
    help: &'static str,
    needed: Needed,
    /// The options that can't stand beside it.
    not_beside: &'static [&'static str],
}

const SUBCOMMANDS: [Subcommand; 7] = [
    Subcommand {
        name: "run",
        about: "Runs a scenario, and prints what its clients are answered",
        options: &RUN,
    },
    Subcommand {
        name: "audit",
        about: "Replays a journal by the definition, and compares the replies",
        options: &AUDIT,
    },
    Subcommand {
        name: "tree",
        about: "Shows the block tree that a scenario or a saved journal leads to",
        options: &TREE,
    },
    Subcommand {
        name: "show",
        about: "Shows the id and the bytes of each block and transaction that a scenario defines",
        options: &SHOW,
    },
    Subcommand {
        name: "serve",
        about: "Answers requests, a JSON object a line, from the standard input",
        options: &SERVE,
    },
    Subcommand {
        name: "export",
        about: "Writes the files of a run from the log of a served node",
        options: &EXPORT,
    },
    Subcommand {
        name: "version",
        about: "Prints the version",
        options: &[],
    },
];

const RUN: [Opt; 15] = [
    SCENARIO,
    BLK,
    TABLE,
    WORKERS,
    HEIGHTS,
    SAVE,
    Opt {
        name: "expect",
        help: "The output that it has to have",
        ..FILE
    },
    JSON,
    Opt {
        name: "tree",
        help: "Shows the block tree after the journal",
        not_beside: &["json"],
        ..FLAG
    },
    SVG,
    FROM,
    LAST,
    FOLD,
    COLOR,
    LEGEND,
];

const AUDIT: [Opt; 10] = [
    Opt {
        not_beside: &["blk", "table", "heights", "journal", "datadir"],
        ..SAVED
    },
    Opt {
        not_beside: &["blk", "table", "heights", "journal"],
        ..DATADIR
    },
    Opt {
        name: "journal",
        help: "The journal.txt of a run",
        needed: Needed::UnlessKept,
        ..FILE
    },
    Opt {
        help: "Its blocks.blk",
        needed: Needed::UnlessKept,
        ..BLK
    },
    TABLE,
    HEIGHTS,
    Opt {
        name: "quick",
        help: "By the chainstate of one thread in place of the definition",
        ..FLAG
    },
    Opt {
        name: "explain",
        help: "Tells the reply that the first line which differs should have",
        ..FLAG
    },
    Opt {
        name: "to",
        takes: Takes::Number,
        value: "N",
        help: "Looks at the first N lines",
        ..FILE
    },
    JSON,
];

const TREE: [Opt; 11] = [
    Opt {
        help: "The scenario that is run; of --saved, the one that gives names; - is the standard input",
        needed: Needed::UnlessSaved,
        ..SCENARIO
    },
    SAVED,
    BLK,
    TABLE,
    HEIGHTS,
    SVG,
    FROM,
    LAST,
    FOLD,
    COLOR,
    LEGEND,
];

const SHOW: [Opt; 2] = [
    SCENARIO,
    Opt {
        name: "names",
        takes: Takes::Words,
        value: "NAME",
        help: "These names alone",
        ..FILE
    },
];

const SERVE: [Opt; 13] = [
    Opt {
        name: "seats",
        help: "How many callers the node has places for, 1 to 16 [default: 4]",
        ..WORKERS
    },
    WORKERS,
    HEIGHTS,
    TABLE,
    BLK,
    Opt {
        name: "load",
        value: "D",
        help: "The folder of an earlier --save, which is played again first, with its table and heights",
        not_beside: &["table", "heights"],
        ..FILE
    },
    SAVE,
    Opt {
        help: "The folder in which the history is kept: an answer goes out when its steps are on the disk there",
        not_beside: &["load", "save"],
        ..DATADIR
    },
    Opt {
        name: "no-sync",
        help: "With --datadir: answers without waiting for the disk; a crash of the machine may lose what was answered",
        ..FLAG
    },
    Opt {
        name: "cut",
        help: "With --datadir: cuts a log off at a zero byte, though whole lines follow; they are kept beside",
        ..FLAG
    },
    Opt {
        name: "by-need",
        help: "Has callers tell which signatures are valid, as blocks ask for them",
        not_beside: &["table", "blk"],
        ..FLAG
    },
    Opt {
        name: "busy",
        help: "Refuses a request where 64 wait for its seat, and reads on",
        ..FLAG
    },
    Opt {
        name: "history-memory",
        takes: Takes::Number,
        value: "MB",
        help: "Refuses submissions that aren't kept, once such ones have taken so many megabytes",
        ..FILE
    },
];

/// An option that takes a file's name.
const FILE: Opt = Opt {
    name: "",
    takes: Takes::Text,
    value: "F",
    help: "",
    needed: Needed::Never,
    not_beside: &[],
};

/// An option that takes nothing.
const FLAG: Opt = Opt {
    takes: Takes::Nothing,
    ..FILE
};

const SCENARIO: Opt = Opt {
    name: "scenario",
    help: "The scenario; - is the standard input",
    needed: Needed::Always,
    ..FILE
};

const BLK: Opt = Opt {
    name: "blk",
    help: "Blocks that are submitted first, as a blk file of Bitcoin Core has them",
    ..FILE
};

const TABLE: Opt = Opt {
    name: "table",
    help: "The signatures that are valid",
    ..FILE
};

const WORKERS: Opt = Opt {
    name: "workers",
    takes: Takes::Few,
    value: "N",
    help: "At most so many threads check scripts, 1 to 16 [default: 2]",
    ..FILE
};

const HEIGHTS: Opt = Opt {
    name: "heights",
    value: "A,B,C,D",
    help: "From which heights the rules of BIP 34, 65, 66, and of BIPs 68, 112 and 113 are in force, and others by name, as 1,1,1,1,nulldummy@0 [default: 1,1,1,1]",
    ..FILE
};

const SAVE: Opt = Opt {
    name: "save",
    value: "D",
    help: "The folder for journal.txt, blocks.blk, table.txt and heights.txt",
    ..FILE
};

const EXPORT: [Opt; 2] = [
    Opt {
        needed: Needed::Always,
        ..DATADIR
    },
    Opt {
        needed: Needed::Always,
        ..SAVE
    },
];

const DATADIR: Opt = Opt {
    name: "datadir",
    value: "D",
    help: "The folder of a served node's --datadir",
    ..FILE
};

/// The folder of a run, beside which there is no other file of one.
const SAVED: Opt = Opt {
    name: "saved",
    value: "D",
    help: "The folder of a run's --save",
    not_beside: &["blk", "table", "heights"],
    ..FILE
};

const SVG: Opt = Opt {
    name: "svg",
    help: "The file for a picture of the block tree",
    ..FILE
};

const FROM: Opt = Opt {
    name: "from",
    takes: Takes::Number,
    value: "HEIGHT",
    help: "The block tree from this height on",
    ..FILE
};

const LAST: Opt = Opt {
    name: "last",
    takes: Takes::Count,
    value: "N",
    help: "The last N heights of the block tree",
    not_beside: &["from"],
    ..FILE
};

/// When something is done.
const WHEN: [&str; 3] = ["auto", "always", "never"];

const FOLD: Opt = Opt {
    name: "fold",
    help: "When a branch beside the active one is drawn as one shape; auto: in a large picture",
    ..WHEN_OPTION
};

const COLOR: Opt = Opt {
    name: "color",
    help: "When the block tree has colours; auto: on a terminal",
    ..WHEN_OPTION
};

/// An option that takes a word of `WHEN`.
const WHEN_OPTION: Opt = Opt {
    takes: Takes::When,
    value: "WHEN",
    ..FILE
};

const LEGEND: Opt = Opt {
    name: "legend",
    help: "Explains the shapes and colours behind the block tree",
    ..FLAG
};

const JSON: Opt = Opt {
    name: "json",
    help: "Writes a JSON object a line",
    ..FLAG
};

/// The command line, as `clap` reads it.
pub fn command<'w>(alloc: Global) -> Result<Command<'w>, AllocError> {
    let mut command = Command::new(alloc, NAME)
        .about(
            "The chainstate of a Bitcoin node on regtest. Without words it runs the scenario on the standard input",
        )
        .version(VERSION)
        .subcommand_required(true);
    for subcommand in &SUBCOMMANDS {
        command = command.subcommand(command_of(alloc, subcommand)?)?;
    }
    Ok(command)
}

fn command_of<'w>(alloc: Global, subcommand: &Subcommand) -> Result<Command<'w>, AllocError> {
    let mut command = Command::new(alloc, subcommand.name).about(subcommand.about);
    for option in subcommand.options {
        command = command.arg(arg(alloc, option)?)?;
    }
    Ok(command)
}

fn arg<'w>(alloc: Global, option: &Opt) -> Result<Arg<'w>, AllocError> {
    let arg = arg_that_takes(alloc, option);
    let mut arg = match option.needed {
        Needed::Never => arg,
        Needed::Always => arg.required(true),
        Needed::UnlessSaved => arg.required_unless_present("saved")?,
        Needed::UnlessKept => arg
            .required_unless_present("saved")?
            .required_unless_present("datadir")?,
    };
    for other in option.not_beside {
        arg = arg.conflicts_with(*other)?;
    }
    Ok(arg)
}

fn arg_that_takes<'w>(alloc: Global, option: &Opt) -> Arg<'w> {
    let arg = Arg::new(alloc, option.name).help(option.help);
    match option.takes {
        Takes::Nothing => arg.long(option.name).action(ArgAction::SetTrue),
        Takes::Text => arg_of_a_value(option, arg),
        Takes::Few => arg_of_a_value(option, arg).value_parser(value_parser!(u8).range(1..=16)),
        Takes::Number => arg_of_a_value(option, arg).value_parser(value_parser!(u64)),
        Takes::Count => arg_of_a_value(option, arg).value_parser(value_parser!(u64).range(1..)),
        Takes::When => arg_of_a_value(option, arg).value_parser(ValueParser::Names(&WHEN)),
        Takes::Words => arg
            .value_name(option.value)
            .num_args(0..)
            .action(ArgAction::Append),
    }
}

fn arg_of_a_value<'w>(option: &Opt, arg: Arg<'w>) -> Arg<'w> {
    arg.long(option.name)
        .value_name(option.value)
        .action(ArgAction::Set)
}
