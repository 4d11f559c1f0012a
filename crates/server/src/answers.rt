//! What a seat's thread answers.

ghost use Rattle.std.specs.Prelude.{◌≡◌, IfOk, IfErr};
ghost use Rattle.node.specs.Calls.{IsClosedFault};
ghost use Rattle.node.specs.Pass.{IsRead};
ghost use Rattle.node.specs.Told.{best_in};
ghost use Rattle.server.specs.inside.Answers.{IsAnswered, IsPlaceTold, IsReadTold, TellsRead, TellsStep, best_answer, no_answer, output_answer, refusal_of, tips_answer};

use crate::board::Board;
use crate::by_need::{learnt, wanted};
use crate::lists::steps;
use crate::save_request::saved;
use crate::submissions::{TimedBlock, judged, submitted};
use crate::texts::output_of;
use crate::turn::{Ask, Blank, Turn};
use crate::words::Facts;
use crate::{lookups, undo_told};
use arrayvec::ArrayString;
use crossbeam_channel::{Receiver, Sender};
use hash::Id;
use node::{Naming, Node, Seat, Tip, UnspentOutput};
use serving::{Answer, Call, Refusal};
use std::alloc::{AllocError, Global};
use std::fmt;
use std::fmt::Write as _;
use std::sync::Wait;
use std::thread::Threads;

/// How long a reply's text is at most.
const MAX_REPLY: usize = 128;

/// What waits for a seat, and where its answers go.
#[derive(Drop)]
pub struct SeatDesk {
    /// The seat's.
    pub number: usize,
    pub turns: Receiver<Turn>,
    pub to: Sender<durable::Answer>,
}

/// Answers what comes in, one after the other, until nothing more can come or nobody takes the answers.
pub fn answer_turns<J: Naming, R>(
    rt: &R,
    node: &Node<'_, J>,
    board: &Board<J>,
    facts: &Facts<'_>,
    desk: &SeatDesk,
    seat: &mut Seat<'_, J>,
)
where
    R: AllocGlobal + Threads + Wait + Sync,
{
    for turn in desk.turns.iter(rt) {
        let line = answered(rt, node, board, facts, turn, seat);
        let stamp = board.outbox.stamp(rt, seat);
        let note = seat.note();
        board.growth.tell(rt, note.len());
        board.lay(rt, desk.number, note);
        if !send(rt, desk, board, line, stamp) {
            return;
        }
    }
}

/// Sends a line that tells of so many steps. Whether it was taken.
fn send<J: Naming, R: Wait>(
    rt: &R,
    desk: &SeatDesk,
    board: &Board<J>,
    line: Result<Vec<u8>, AllocError>,
    stamp: Result<u64, node::Fault>,
) -> bool {
    match (line, stamp) {
        (Ok(line), Ok(stamp)) => desk.to.send(rt, durable::Answer { stamp, line }).is_ok(),
        _ => {
            board.set_short();
            false
        }
    }
}

/// The line that answers a request, or that says why none does. In its blank it takes no memory, so that each request has
/// one, and a step that was taken is told.
fn answered<J: Naming, R>(
    rt: &R,
    node: &Node<'_, J>,
    board: &Board<J>,
    facts: &Facts<'_>,
    turn: Turn,
    seat: &mut Seat<'_, J>,
) -> Result<Vec<u8>, AllocError>
where
    R: AllocGlobal + Threads + Wait + Sync,
    ensures { IfOk result (λ line.
        IsAnswered turn.ask seat.old seat.new turn.blank line.items) }
{
    let alloc = rt.alloc();
    let Turn { ask, blank } = turn;
    let call = match ask {
        Ask::Call(call) => call,
        Ask::Save => return saved(rt, board, facts, blank, seat),
        Ask::Refused(refusal) => return blank.refuse(refusal),
    };
    match call {
        Call::Submit(block, now) => {
            let submission = TimedBlock { block, now };
            submitted(rt, node, &board.waste, blank, submission, seat)
        }
        Call::Judge(block, now) => judged(rt, node, blank, block.as_slice(), now, seat),
        Call::Invalidate(block) => replied(alloc, blank, seat.invalidate(rt, node, block), seat),
        Call::Reconsider(block) => replied(alloc, blank, seat.reconsider(rt, node, block), seat),
        Call::Precious(block) => replied(alloc, blank, seat.precious(rt, node, block), seat),
        Call::Output(outpoint) => found(alloc, blank, seat.gettxout(alloc, &outpoint)),
        Call::Best => best(alloc, blank, seat.getbestblockhash()),
        Call::Tips => listed_tips(alloc, blank, seat.getchaintips(alloc)),
        Call::Wait(steps) => waited(rt, board, blank, steps, seat),
        Call::Note => blank.answer(alloc, seat.note().len(), Answer::Place),
        Call::Told(from) => told(rt, board, blank, from, seat),
        Call::Wants => wanted(alloc, blank, seat),
        Call::Learn(valid, invalid) => learnt(rt, node, blank, valid, invalid, seat),
        Call::Journal(from, to) => steps(alloc, facts, blank, from, to, seat),
        Call::Block(id) => lookups::block(rt, board, blank, &id, seat),
        Call::Header(id) => lookups::header(rt, board, blank, &id, seat),
        Call::Hash(height) => lookups::hash(rt, board, blank, height, seat),
        Call::Ancestor(id, height) => lookups::ancestor(rt, board, blank, &id, height, seat),
        Call::Fork(id, other) => lookups::fork(rt, board, blank, &id, &other, seat),
        Call::Spent(id) => undo_told::spent(rt, node, blank, &id, seat),
        Call::Coins(above, most) => lookups::coins(alloc, blank, above.as_ref(), most, seat),
    }
}

/// The line of a reply to a step, or of the signatures that it wants.
pub fn replied<J: Naming, T: fmt::Display + Copy>(
    alloc: Global,
    blank: Blank,
    reply: Result<node::Stamped<T>, node::Fault>,
    seat: &Seat<'_, J>,
) -> Result<Vec<u8>, AllocError>
    ensures { IfOk result (λ line. TellsStep T.output blank reply seat.now line.items) }
{
    match reply {
        Ok(stamped) => {
            let mut word = ArrayString::<MAX_REPLY>::new();
            match word.write(stamped.value) {
                Ok(()) => blank.answer(alloc, stamped.at, Answer::Reply(word.as_str())),
                // No reply is as long.
                Err(_) => blank.refuse(Refusal::Owed),
            }
        }
        Err(node::Fault::Unknown) => wanted(alloc, blank, seat),
        Err(fault) => blank.refuse(refused(fault)),
    }
}

/// The line of an output, if there is one.
fn found(
    alloc: Global,
    blank: Blank,
    found: Result<node::Stamped<Option<UnspentOutput>>, node::Fault>,
) -> Result<Vec<u8>, AllocError>
    ensures { IfOk result (λ line. TellsRead output_answer blank found line.items) }
{
    match found {
        Ok(node::Stamped { at, value }) => match &value {
            Some(output) => blank.read(alloc, at, Answer::Output(Some(output_of(output)))),
            None => blank.read(alloc, at, Answer::Output(None)),
        },
        Err(fault) => blank.refuse(refused(fault)),
    }
}

fn best(
    alloc: Global,
    blank: Blank,
    best: Result<node::Stamped<Id>, node::Fault>,
) -> Result<Vec<u8>, AllocError>
    ensures { IfOk result (λ line. TellsRead best_answer blank best line.items) }
{
    match best {
        Ok(node::Stamped { at, value }) => blank.read(alloc, at, Answer::Best(value)),
        Err(fault) => blank.refuse(refused(fault)),
    }
}

/// The line of how many steps the seat has then seen.
fn best_place(
    alloc: Global,
    blank: Blank,
    best: Result<node::Stamped<Id>, node::Fault>,
) -> Result<Vec<u8>, AllocError>
    ensures { IfOk result (λ line. TellsRead no_answer blank best line.items) }
{
    match best {
        Ok(node::Stamped { at, .. }) => blank.read(alloc, at, Answer::Place),
        Err(fault) => blank.refuse(refused(fault)),
    }
}

fn listed_tips(
    alloc: Global,
    blank: Blank,
    tips: Result<node::Stamped<Vec<Tip>>, node::Fault>,
) -> Result<Vec<u8>, AllocError>
    ensures { IfOk result (λ line. TellsRead tips_answer blank tips line.items) }
{
    match tips {
        Ok(node::Stamped { at, value }) => blank.read(alloc, at, Answer::Tips(value.as_slice())),
        Err(fault) => blank.refuse(refused(fault)),
    }
}

/// Waits until the history has more steps than these, and tells how many the seat has then seen.
fn waited<J: Naming, R>(
    rt: &R,
    board: &Board<J>,
    blank: Blank,
    steps: u64,
    seat: &mut Seat<'_, J>,
) -> Result<Vec<u8>, AllocError>
where
    R: AllocGlobal + Wait,
    ensures { IfOk result (λ line. let best = best_in seat.old.origin in
        let IsBest = IsRead seat.old seat.new best in
        IsReadTold IsBest (IsClosedFault seat.old seat.new) no_answer blank line.items) }
{
    board.growth.wait_past(rt, steps);
    best_place(rt.alloc(), blank, seat.getbestblockhash())
}

/// Has a seat hear what another has seen, and tells how many steps it has then seen.
fn told<J: Naming, R>(
    rt: &R,
    board: &Board<J>,
    blank: Blank,
    from: usize,
    seat: &mut Seat<'_, J>,
) -> Result<Vec<u8>, AllocError>
where
    R: AllocGlobal + Wait,
    ensures { IfOk result (λ line. IsPlaceTold seat.old seat.new blank line.items) }
{
    board.tell(rt, from, seat);
    blank.answer(rt.alloc(), seat.note().len(), Answer::Place)
}

/// What a fault of a seat is told as.
pub fn refused(fault: node::Fault) -> Refusal
    ensures { result ≡ refusal_of fault }
{
    match fault {
        node::Fault::Memory => Refusal::Memory,
        node::Fault::Owed => Refusal::Owed,
        node::Fault::Closed => Refusal::Closed,
        // A step's is answered by what it wants, and no other call has it.
        node::Fault::Unknown => Refusal::Closed,
    }
}
