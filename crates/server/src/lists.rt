//! Requests that list steps of the history.

ghost use Rattle.std.specs.Prelude.{◌≡◌, map, IfOk};
ghost use Rattle.json.specs.Json.{object};
ghost use Rattle.serving.specs.Answers.{step_members};
ghost use Rattle.server.specs.inside.Lists.{AreSteps, IsTextOf, text_json};
ghost use Rattle.server.specs.inside.Answers.{IsJournalTold, TellsSteps};

use crate::answers::refused;
use crate::texts::reply_text;
use crate::turn::Blank;
use crate::words::Facts;
use journal::{Asked, block_of};
use node::{Entry, Naming, Seat, Stamped};
use serving::{Answer, Refusal, Step};
use std::alloc::{AllocError, Global};
use wire::Memory;

/// The line of the steps between these numbers.
pub fn steps<J: Naming>(
    alloc: Global,
    facts: &Facts<'_>,
    blank: Blank,
    first: u64,
    last: u64,
    seat: &mut Seat<'_, J>,
) -> Result<Vec<u8>, AllocError>
    ensures { IfOk result (λ line.
        IsJournalTold seat.old seat.new first last blank line.items) }
{
    let found = seat.journal(alloc, first.saturating_sub(1), last);
    listed(alloc, facts, blank, first, found)
}

/// The line of some steps, of which the first has this number.
fn listed(
    alloc: Global,
    facts: &Facts<'_>,
    blank: Blank,
    first: u64,
    found: Result<Stamped<Vec<Entry>>, node::Fault>,
) -> Result<Vec<u8>, AllocError>
    ensures { IfOk result (λ line. TellsSteps first blank found line.items) }
{
    match found {
        Ok(Stamped { at, value }) => {
            let Ok(texts) = texts_of(alloc, facts, first, value.as_slice()) else {
                return blank.refuse(Refusal::Memory);
            };
            let Ok(steps) = steps_of(alloc, texts.as_slice()) else {
                return blank.refuse(Refusal::Memory);
            };
            blank.read(alloc, at, Answer::Steps(steps.as_slice()))
        }
        Err(fault) => blank.refuse(refused(fault)),
    }
}

/// The texts of steps, of which the first has this number.
fn texts_of(
    alloc: Global,
    facts: &Facts<'_>,
    first: u64,
    entries: &[Entry],
) -> Result<Vec<EntryText>, Memory>
    ensures { IfOk result (λ texts. AreSteps first entries.now (map text_json texts.items)) }
{
    let mut texts = Vec::new(alloc);
    for place in 0..entries.len() {
        // No history has as many steps.
        let Some(number) = first.checked_add(place as u64) else {
            return Err(Memory);
        };
        texts.push(entry_text(alloc, facts, number, &entries[place])?)?;
    }
    Ok(texts)
}

fn steps_of<'e>(alloc: Global, texts: &'e [EntryText]) -> Result<Vec<Step<'e>>, AllocError>
    ensures { IfOk result (λ steps.
        map (λ step. object (step_members step)) steps.items ≡ map text_json texts.now) }
{
    let mut steps = Vec::new(alloc);
    for text in texts {
        steps.push(text.step())?;
    }
    Ok(steps)
}

/// A step by its texts.
#[derive(Drop)]
struct EntryText {
    number: u64,
    client: String,
    asked: Asked,
    block: String,
    reply: String,
}

impl EntryText {
    fn step(&self) -> Step<'_>
        ensures { object (step_members result) ≡ text_json self.now }
    {
        Step {
            number: self.number,
            client: self.client.as_str(),
            command: self.asked.word(),
            block: self.block.as_str(),
            moment: self.asked.moment(),
            reply: self.reply.as_str(),
        }
    }
}

/// The texts of the step of this number.
fn entry_text(
    alloc: Global,
    facts: &Facts<'_>,
    number: u64,
    entry: &Entry,
) -> Result<EntryText, Memory>
    ensures { IfOk result (λ text. IsTextOf number entry.now (text_json text)) }
{
    let place = number.saturating_sub(1) as usize;
    let client = facts.clients.name(place, entry.seat);
    let Ok(block) = block_of(alloc, entry) else {
        return Err(Memory);
    };
    Ok(EntryText {
        number,
        client: String::from_str(alloc, client)?,
        asked: Asked::from_command(&entry.command),
        block: block.to_string(alloc)?,
        reply: reply_text(alloc, entry.reply)?,
    })
}
