//! What waits for a seat.

ghost use Rattle.std.specs.Prelude.{◌≡◌, [], IfOk, IfErr};
ghost use Rattle.serving.specs.Answers.{answer_members};
ghost use Rattle.serving.specs.declared.refusal.Refusal.TheVariants as refusals;
ghost use Rattle.server.specs.inside.Answers.{IsError, IsReadLine, answer_at, error_of};

use serving::{Answer, Call, Refusal, RequestId, Stamped, answer_line, refusal_line};
use std::alloc::{AllocError, Global};
use std::marker::Model;

/// How long a line is at most that answers a step or refuses a request, beside its id.
const ROOM: usize = 256;

/// A request that waits for its seat's turn.
#[derive(Drop)]
pub struct Turn {
    pub ask: Ask,
    pub blank: Blank,
}

/// What is asked in a seat's turn.
#[derive(Drop)]
pub enum Ask {
    Call(Call),
    /// To save what happened so far.
    Save,
    /// Nothing that can be answered.
    Refused(Refusal),
}

impl Turn {
    pub fn new(alloc: Global, id: RequestId, ask: Ask) -> Result<Turn, AllocError>
        ensures { IfOk result (λ turn. (turn.ask ≡ ask) × (turn.blank ≡ id)) }
    {
        let blank = Blank::new(alloc, id)?;
        Ok(Turn { ask, blank })
    }
}

/// A line that will answer a request, with the room for it: so one that answers a step or refuses the request takes no
/// memory. A clause sees the request's id.
#[derive(Drop)]
pub struct Blank {
    id: RequestId,
    /// Nothing is written there yet.
    room: Vec<u8>,
}

impl Model for Blank {
    ghost use Rattle.std.specs.Prelude.{◌≡◌, []};
    ghost use Rattle.serving.specs.declared.request_id.RequestId.{RequestId as AnyId};

    ghost Value = { AnyId };

    ghost view = { λ b. b.id };

    ghost invariant = { λ b. b.room.items ≡ [] };
}

impl Blank {
    pub fn new(alloc: Global, id: RequestId) -> Result<Blank, AllocError>
        ensures { IfOk result (λ blank. blank ≡ id) }
    {
        let room = line_room(alloc, &id)?;
        Ok(Blank { id, room })
    }

    /// The line of an answer.
    pub fn answer(self, alloc: Global, at: u64, answer: Answer<'_>) -> Result<Vec<u8>, AllocError>
        ensures { IfOk result (λ line.
            line.items ≡ answer_at self at (answer_members answer.entry)) }
    {
        let Blank { id, room } = self;
        answer_line(alloc, room, &id, &Stamped { at, answer })
    }

    /// The line of an answer that takes memory, or that there is none.
    pub fn read(self, alloc: Global, at: u64, answer: Answer<'_>) -> Result<Vec<u8>, AllocError>
        ensures { IfOk result (λ line.
            IsReadLine self at (answer_members answer.entry) line.items) }
    {
        match read_line(alloc, &self.id, at, answer) {
            Ok(line) => Ok(line),
            Err(refusal) => self.refuse(refusal),
        }
    }

    /// The line that says why there is no answer.
    pub fn refuse(self, refusal: Refusal) -> Result<Vec<u8>, AllocError>
        ensures line { IfOk result (λ line. line.items ≡ error_of self refusal) }
        ensures error { IfOk result (λ line. IsError self line.items) }
    {
        let Blank { id, room } = self;
        refusal_line(room, &id, refusal)
    }
}

/// The line of an answer to the request of this id.
fn read_line(alloc: Global, id: &RequestId, at: u64, answer: Answer<'_>) -> Result<Vec<u8>, Refusal>
    ensures line { IfOk result (λ line.
        line.items ≡ answer_at id.now at (answer_members answer.entry)) }
    ensures err { IfErr result (λ why. why ≡ refusals.Memory) }
{
    let Ok(room) = line_room(alloc, id) else {
        return Err(Refusal::Memory);
    };
    match answer_line(alloc, room, id, &Stamped { at, answer }) {
        Ok(line) => Ok(line),
        Err(AllocError) => Err(Refusal::Memory),
    }
}

/// Room for a line that answers the request of this id.
fn line_room(alloc: Global, id: &RequestId) -> Result<Vec<u8>, AllocError>
    ensures { IfOk result (λ room. room.items ≡ []) }
{
    Vec::with_capacity(alloc, ROOM.saturating_add(id.len()))
}
