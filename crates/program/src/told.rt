//! What a seat answers, as it is printed.

use hash::Id;
use node::{MarkReply, SubmitReply, Tip, UnspentOutput};
use scenario::{Definitions, Label};
use serving::status_word;
use std::fmt;
use txn::Script;

/// What a seat answered.
#[derive(Drop)]
pub enum SeatReply<'d> {
    Submit(SubmitReply),
    Mark(MarkReply),
    Best(NamedBlock<'d>),
    Tips(NamedTips<'d>),
    Output(Option<UnspentOutput>),
}

/// A block, with its name.
#[derive(Clone, Copy)]
pub struct NamedBlock<'d> {
    pub id: Id,
    pub label: Label<'d>,
}

impl<'d> NamedBlock<'d> {
    pub fn new(definitions: &'d Definitions, id: Id) -> NamedBlock<'d> {
        NamedBlock {
            id,
            label: definitions.label(id),
        }
    }

    /// Its name, if the scenario gave it one.
    pub fn name(&self) -> Option<&'d str> {
        match self.label {
            Label::Name(name) => Some(name),
            Label::Digits(_) => None,
        }
    }
}

/// The tips of the tree, with the names of their blocks.
#[derive(Drop)]
pub struct NamedTips<'d> {
    pub definitions: &'d Definitions,
    pub list: Vec<Tip>,
}

impl fmt::Display for SeatReply<'_> {
    fn fmt<W: fmt::Write>(&self, f: &mut fmt::Formatter<W>) -> fmt::Result {
        match self {
            SeatReply::Submit(reply) => reply.fmt(f),
            SeatReply::Mark(reply) => reply.fmt(f),
            SeatReply::Best(block) => block.label.fmt(f),
            SeatReply::Tips(tips) => tips.fmt(f),
            SeatReply::Output(None) => f.write_str("none"),
            SeatReply::Output(Some(output)) => write_output(output, f),
        }
    }
}

impl fmt::Display for NamedTips<'_> {
    fn fmt<W: fmt::Write>(&self, f: &mut fmt::Formatter<W>) -> fmt::Result {
        for (place, tip) in self.list.iter().enumerate() {
            if place > 0 {
                f.write_str("; ")?;
            }
            let block = self.definitions.label(tip.id);
            let status = status_word(tip.status);
            write!(f, "{block} {} {} {status}", tip.height, tip.length)?;
        }
        Ok(())
    }
}

fn write_output<W: fmt::Write>(output: &UnspentOutput, f: &mut fmt::Formatter<W>) -> fmt::Result {
    write!(f, "{} ", output.value)?;
    write_script(&output.script, f)?;
    write!(f, " height {} ", output.height)?;
    if output.coinbase {
        f.write_str("coinbase ")?;
    }
    write!(f, "conf {}", output.confirmations)
}

/// A script in hexadecimal digits, or `-` for the empty one.
fn write_script<W: fmt::Write>(script: &Script, f: &mut fmt::Formatter<W>) -> fmt::Result {
    if script.is_empty() {
        return f.write_str("-");
    }
    write!(f, "{}", Hex(script.as_slice()))
}

/// Bytes in hexadecimal digits.
#[derive(Clone, Copy)]
pub struct Hex<'b>(pub &'b [u8]);

impl fmt::Display for Hex<'_> {
    fn fmt<W: fmt::Write>(&self, f: &mut fmt::Formatter<W>) -> fmt::Result {
        for byte in self.0 {
            write!(f, "{byte:02x}")?;
        }
        Ok(())
    }
}
