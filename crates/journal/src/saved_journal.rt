//! Journals, read back.

ghost use Rattle.std.specs.Prelude.{◌≡◌, IfOk, IfSome};
ghost use Rattle.journal.specs.Line.{line_of, IsJournal, AreNumbered};

use crate::fault::JournalFault;
use crate::lines::first_line;
use crate::replies::{is_text_of, read_mark_reply, read_submit_reply};
use crate::step::{Asked, Step};
use hash::Id;
use model::Reply;
use scenario::is_name;
use std::alloc::{AllocError, Global};
use std::str;

/// The steps of a journal's text. A line can be read where a step is printed so, with the id of its block, or the
/// digest of its verdict, in digits. The last line may lack its end.
pub fn read_journal<'t>(alloc: Global, text: &'t [u8]) -> Result<Vec<Step<'t, Id>>, JournalFault>
    ensures lines { IfOk result (λ steps. IsJournal steps.items text.now) }
    ensures numbers { IfOk result (λ steps. AreNumbered steps.items) }
{
    let mut steps = Vec::new(alloc);
    let mut rest = text;
    while !rest.is_empty() {
        let (line, behind) = first_line(rest);
        let number = steps.len() + 1;
        match read_line(alloc, number, line)? {
            Some(step) => steps.push(step)?,
            None => return Err(JournalFault::BadLine(number)),
        }
        rest = behind;
    }
    Ok(steps)
}

/// The step of this line, whose number is to be this one. None where no step is printed so.
pub fn read_line<'t>(
    alloc: Global,
    number: usize,
    line: &'t [u8],
) -> Result<Option<Step<'t, Id>>, AllocError>
    ensures { IfOk result (λ found. IfSome found (λ step.
        (line.now ≡ line_of step) × (step.number ≡ number))) }
{
    let Ok(line) = str::from_utf8(line) else {
        return Ok(None);
    };
    let Some((front, reply)) = line.split_once(" = ") else {
        return Ok(None);
    };
    let words: Vec<&str> = front.split(' ').collect(alloc)?;
    let Some(step) = read_step(number, words.as_slice(), reply) else {
        return Ok(None);
    };
    // The words may be spelled in another way.
    if !is_text_of(&step, line) {
        return Ok(None);
    }
    Ok(Some(step))
}

/// The step of this place that the words of a line and the text of its reply tell, however they are spelled.
fn read_step<'t>(number: usize, words: &[&'t str], reply: &str) -> Option<Step<'t, Id>>
    ensures { IfSome result (λ step. step.number ≡ number) }
{
    let (client, asked, id) = match words {
        [_, client, "submit", id, now] => (*client, Asked::Submit(now.parse().ok()?), id),
        [_, client, "invalidate", id] => (*client, Asked::Invalidate, id),
        [_, client, "reconsider", id] => (*client, Asked::Reconsider, id),
        [_, client, "precious", id] => (*client, Asked::Precious, id),
        [_, client, "valid", id] => (*client, Asked::Learn(true), id),
        [_, client, "invalid", id] => (*client, Asked::Learn(false), id),
        _ => return None,
    };
    if !is_name(client) {
        return None;
    }
    Some(Step {
        number,
        client,
        asked,
        block: Id::read(id.as_bytes())?,
        reply: read_reply(asked, reply)?,
    })
}

/// The reply of this text to what was asked; within, none where it is owed.
fn read_reply(asked: Asked, text: &str) -> Option<Option<Reply>> {
    if text == "owed" {
        return Some(None);
    }
    let reply = match asked {
        Asked::Submit(_) => Reply::Submit(read_submit_reply(text)?),
        _ => Reply::Mark(read_mark_reply(text)?),
    };
    Some(Some(reply))
}
