//! The lines that are answered.

ghost use Rattle.std.specs.Prelude.{◌≡◌, ◌++◌, codes, IfOk};
ghost use Rattle.serving.specs.Answers.{Adds, about, info_members, line_of, members, refusal_members, response, stamped_members};
ghost use Rattle.serving.specs.inside.Front.{front};

use crate::answer::{Info, Stamped};
use crate::object::Object;
use crate::refusal::Refusal;
use crate::request_id::RequestId;
use std::alloc::{AllocError, Global};

impl Object {
    /// A response to the request of this id, written behind what the room holds.
    fn response_to(room: Vec<u8>, id: &RequestId) -> Result<Object, AllocError>
        ensures { IfOk result (λ o. (o.before ≡ room.items) × (o.tokens ≡ front id.now)) }
    {
        let mut object = Object::after(room)?;
        object.text("jsonrpc", "2.0")?;
        match id {
            RequestId::Null => object.null("id")?,
            RequestId::Number(digits) => object.digits("id", digits.as_str())?,
            RequestId::Text(text) => object.text("id", text.as_str())?,
        }
        Ok(object)
    }

    /// An answer, and its place.
    fn stamped(&mut self, alloc: Global, stamped: &Stamped<'_>) -> Result<(), AllocError>
        ensures { Adds result self.old self.new (members (stamped_members stamped.now)) }
    {
        self.number("at", stamped.at)?;
        self.answer(alloc, &stamped.answer)
    }

    /// The members of an error.
    fn refusal(&mut self, refusal: Refusal) -> Result<(), AllocError>
        ensures { Adds result self.old self.new (members (refusal_members refusal)) }
    {
        self.signed("code", refusal.code())?;
        self.text("message", refusal.message())?;
        self.about(refusal)
    }

    /// What a refusal is about.
    fn about(&mut self, refusal: Refusal) -> Result<(), AllocError>
        ensures { Adds result self.old self.new (members (about refusal)) }
    {
        match refusal {
            Refusal::TooLong => self.text("data", "line"),
            Refusal::TooMany => self.text("data", "values"),
            Refusal::Param(name) => self.text("data", name),
            Refusal::NotSaved(why) => self.text("data", why),
            _ => Ok(()),
        }
    }
}

/// The line of an answer, behind what the room holds. A reply whose line fits into the room takes no memory.
#[tactic(auto, using(crate::proofs::ClosingTokens::closed))]
pub fn answer_line(
    alloc: Global,
    room: Vec<u8>,
    id: &RequestId,
    stamped: &Stamped<'_>,
) -> Result<Vec<u8>, AllocError>
    ensures { let answered = response (codes "result") id.now (stamped_members stamped.now) in
        IfOk result (λ line. line.items ≡ room.items ++ line_of answered) }
{
    let mut object = Object::response_to(room, id)?;
    object.begin("result")?;
    object.stamped(alloc, stamped)?;
    object.end()?;
    object.line()
}

/// The line that says how the node was opened, behind what the room holds.
#[tactic(auto, using(crate::proofs::ClosingTokens::closed))]
pub fn info_line(room: Vec<u8>, id: &RequestId, info: &Info<'_>) -> Result<Vec<u8>, AllocError>
    ensures { let answered = response (codes "result") id.now (info_members info.now) in
        IfOk result (λ line. line.items ≡ room.items ++ line_of answered) }
{
    let mut object = Object::response_to(room, id)?;
    object.begin("result")?;
    object.info(info)?;
    object.end()?;
    object.line()
}

/// The line of a refusal, behind what the room holds.
#[tactic(auto, using(crate::proofs::ClosingTokens::closed))]
pub fn refusal_line(room: Vec<u8>, id: &RequestId, refusal: Refusal) -> Result<Vec<u8>, AllocError>
    ensures { let answered = response (codes "error") id.now (refusal_members refusal) in
        IfOk result (λ line. line.items ≡ room.items ++ line_of answered) }
{
    let mut object = Object::response_to(room, id)?;
    object.begin("error")?;
    object.refusal(refusal)?;
    object.end()?;
    object.line()
}
