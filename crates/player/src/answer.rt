//! What is answered, as the table of scenarios has it.

use node::{Reply, Status, Tip, UnspentOutput};
use scenario::{Definitions, Label};
use std::fmt;

/// What a command is answered.
#[derive(Drop)]
pub enum CommandAnswer<'d> {
    Reply(Reply),
    Best(Label<'d>),
    Tips(&'d Definitions, Vec<Tip>),
    Output(Option<UnspentOutput>),
}

impl fmt::Display for CommandAnswer<'_> {
    fn fmt<W: fmt::Write>(&self, f: &mut fmt::Formatter<W>) -> fmt::Result {
        match self {
            CommandAnswer::Reply(reply) => reply.fmt(f),
            CommandAnswer::Best(block) => block.fmt(f),
            CommandAnswer::Tips(definitions, list) => write_tips(definitions, list.as_slice(), f),
            CommandAnswer::Output(None) => f.write_str("none"),
            CommandAnswer::Output(Some(output)) => write_output(output, f),
        }
    }
}

/// Bitcoin Core's words (`getchaintips`).
fn word(status: Status) -> &'static str {
    match status {
        Status::Active => "active",
        Status::Invalid => "invalid",
        Status::ValidFork => "valid-fork",
        Status::ValidHeaders => "valid-headers",
    }
}

fn write_tips<W: fmt::Write>(
    definitions: &Definitions,
    list: &[Tip],
    f: &mut fmt::Formatter<W>,
) -> fmt::Result {
    let mut mark = "";
    for tip in list {
        let (block, status) = (definitions.label(tip.id), word(tip.status));
        write!(f, "{mark}{block} {} {} {status}", tip.height, tip.length)?;
        mark = "; ";
    }
    Ok(())
}

fn write_output<W: fmt::Write>(output: &UnspentOutput, f: &mut fmt::Formatter<W>) -> fmt::Result {
    write!(f, "{} ", output.value)?;
    for byte in output.script.as_slice() {
        write!(f, "{byte:02x}")?;
    }
    let mark = if output.coinbase { " coinbase" } else { "" };
    write!(
        f,
        " height {}{mark} conf {}",
        output.height, output.confirmations
    )
}
