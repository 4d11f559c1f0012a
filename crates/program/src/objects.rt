//! Answers, lines of the journal, findings and faults as JSON objects, one a line.

use crate::answer::AnsweredCommand;
use crate::told::{NamedBlock, NamedTips, SeatReply};
use console::fault::{FaultLine, FaultReason, RunFault};
use journal::Step;
use node::{Reply, Stamped, Tip, UnspentOutput};
use scenario::Label;
use server::texts::{output_of, reply_text};
use serving::Object;
use std::alloc::{AllocError, Global};

/// An answer: its client, what was asked, the answer, and its stamp if it has one. What is more than a word is told by
/// parts, and beside them as a text.
pub fn answer(
    alloc: Global,
    client: &str,
    answer: &AnsweredCommand<'_>,
) -> Result<String, AllocError> {
    let mut object = Object::new(alloc)?;
    object.text("client", client)?;
    object.text("command", answer.command.as_str())?;
    put_outcome(alloc, &mut object, answer)?;
    into_line(object)
}

/// What was answered, and its stamp, or the fault.
fn put_outcome(
    alloc: Global,
    object: &mut Object,
    answer: &AnsweredCommand<'_>,
) -> Result<(), AllocError> {
    match &answer.outcome {
        Ok(Stamped { at, value }) => {
            put_told(alloc, object, value)?;
            object.number("at", *at)
        }
        Err(fault) => object.text("fault", fault.to_string(alloc)?.as_str()),
    }
}

/// A line of the journal: its number, client, word, block, moment and reply.
pub fn step(alloc: Global, step: &Step<'_, Label<'_>>) -> Result<String, AllocError> {
    let block = step.block.to_string(alloc)?;
    let reply = reply_text(alloc, step.reply)?;
    let mut object = Object::new(alloc)?;
    object.step(&serving::Step {
        number: step.number as u64,
        client: step.client,
        command: step.asked.word(),
        block: block.as_str(),
        moment: step.asked.moment(),
        reply: reply.as_str(),
    })?;
    into_line(object)
}

/// That a journal agrees.
pub fn agreement(alloc: Global) -> Result<String, AllocError> {
    let mut object = Object::new(alloc)?;
    object.text("audit", "agrees")?;
    into_line(object)
}

/// The first line of a journal that differs.
pub fn difference(alloc: Global, line: u64) -> Result<String, AllocError> {
    let mut object = Object::new(alloc)?;
    object.text("audit", "differs")?;
    object.number("line", line)?;
    into_line(object)
}

/// The reply that the definition gives at a line of the journal.
pub fn explanation(alloc: Global, line: u64, reply: Reply) -> Result<String, AllocError> {
    let mut object = Object::new(alloc)?;
    object.number("line", line)?;
    object.text("definition", reply.to_string(alloc)?.as_str())?;
    into_line(object)
}

/// A fault: its line, and why.
pub fn fault(alloc: Global, fault: &RunFault<'_>) -> Result<String, AllocError> {
    let mut object = Object::new(alloc)?;
    put_fault(alloc, &mut object, fault)?;
    into_line(object)
}

fn put_fault(alloc: Global, object: &mut Object, fault: &RunFault<'_>) -> Result<(), AllocError> {
    let line = FaultLine(fault).to_string(alloc)?;
    object.text("fault", bare(line.as_str()))?;
    if !fault.has_reason() {
        return Ok(());
    }
    object.text("why", FaultReason(fault).to_string(alloc)?.as_str())
}

/// A line without the program's name and without its end.
fn bare(line: &str) -> &str {
    let line = line.strip_prefix("regchain: ").unwrap_or(line);
    line.strip_suffix('\n').unwrap_or(line)
}

/// The object, and the end of its line.
fn into_line(object: Object) -> Result<String, AllocError> {
    match String::from_utf8(object.line()?) {
        Ok(line) => Ok(line),
        Err(_) => Err(AllocError),
    }
}

/// What a seat answered, and its text where that isn't the answer.
fn put_told(alloc: Global, object: &mut Object, told: &SeatReply<'_>) -> Result<(), AllocError> {
    let text = told.to_string(alloc)?;
    match told {
        SeatReply::Submit(_) | SeatReply::Mark(_) => return object.text("answer", text.as_str()),
        SeatReply::Best(block) => put_best(alloc, object, block)?,
        SeatReply::Tips(tips) => put_tips(alloc, object, tips)?,
        SeatReply::Output(None) => object.null("answer")?,
        SeatReply::Output(Some(output)) => put_output(alloc, object, output)?,
    }
    object.text("text", text.as_str())
}

fn put_best(alloc: Global, object: &mut Object, block: &NamedBlock<'_>) -> Result<(), AllocError> {
    object.begin("answer")?;
    put_block(alloc, object, block)?;
    object.end()
}

fn put_output(
    alloc: Global,
    object: &mut Object,
    output: &UnspentOutput,
) -> Result<(), AllocError> {
    object.begin("answer")?;
    object.output(alloc, &output_of(output))?;
    object.end()
}

/// The members of a block.
fn put_block(alloc: Global, object: &mut Object, block: &NamedBlock<'_>) -> Result<(), AllocError> {
    object.id(alloc, "hash", block.id)?;
    match block.name() {
        Some(name) => object.text("name", name),
        None => object.null("name"),
    }
}

/// A list of tips, as Bitcoin Core's `getchaintips` gives them.
fn put_tips(alloc: Global, object: &mut Object, tips: &NamedTips<'_>) -> Result<(), AllocError> {
    object.begin_list("answer")?;
    for tip in tips.list.as_slice() {
        put_tip(
            alloc,
            object,
            &NamedBlock::new(tips.definitions, tip.id),
            tip,
        )?;
    }
    object.end_list()
}

fn put_tip(
    alloc: Global,
    object: &mut Object,
    block: &NamedBlock<'_>,
    tip: &Tip,
) -> Result<(), AllocError> {
    object.item()?;
    put_block(alloc, object, block)?;
    object.tip(tip)?;
    object.end()
}
