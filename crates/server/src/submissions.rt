//! Submissions, and what their replies would be.

ghost use Rattle.std.specs.Prelude.{◌≡◌, IfErr, IfOk};
ghost use Rattle.model.specs.declared.command.Command.TheVariants as command;
ghost use Rattle.node.specs.Calls.{IsSubmitAnswer, IsWriteFault};
ghost use Rattle.server.specs.inside.Answers.{IsJudgeTold, IsSubmitTold, IsTaken};

use crate::answers::replied;
use crate::turn::Blank;
use crate::waste::{Waste, is_kept};
use node::{Bytes, Naming, Node, Seat, SubmitReply};
use serving::Refusal;
use std::alloc::AllocError;
use std::sync::Wait;
use std::thread::Threads;
use wire::LIMIT;

/// A block's bytes, and the moment at which they are submitted.
#[derive(Drop)]
pub struct TimedBlock {
    pub block: Vec<u8>,
    /// In seconds since 1970.
    pub now: u64,
}

/// The line of a submission's reply. A block that no record can hold is no step, and neither is one that isn't kept where
/// the history has no more room for such.
pub fn submitted<J: Naming, R>(
    rt: &R,
    node: &Node<'_, J>,
    waste: &Waste,
    blank: Blank,
    submission: TimedBlock,
    seat: &mut Seat<'_, J>,
) -> Result<Vec<u8>, AllocError>
where
    R: AllocGlobal + Threads + Wait + Sync,
    ensures { IfOk result (λ line.
        IsSubmitTold seat.old seat.new submission.block.items submission.now blank line.items) }
{
    if submission.block.len() as u64 > LIMIT {
        return blank.refuse(Refusal::Param("block"));
    }
    if waste.is_full() {
        return judged_first(rt, node, waste, blank, submission, seat);
    }
    taken(rt, node, waste, blank, submission, seat)
}

/// The line of a submission's reply, where the history has no more room for those that aren't kept.
fn judged_first<J: Naming, R>(
    rt: &R,
    node: &Node<'_, J>,
    waste: &Waste,
    blank: Blank,
    submission: TimedBlock,
    seat: &mut Seat<'_, J>,
) -> Result<Vec<u8>, AllocError>
where
    R: AllocGlobal + Threads + Wait + Sync,
    ensures { IfOk result (λ line.
        IsSubmitTold seat.old seat.new submission.block.items submission.now blank line.items) }
{
    match seat.judge(rt, node, submission.block.as_slice(), submission.now) {
        Ok(judged) => {
            if is_kept(judged.value) {
                taken(rt, node, waste, blank, submission, seat)
            } else {
                blank.refuse(Refusal::HistoryFull)
            }
        }
        Err(fault) => replied::<J, SubmitReply>(rt.alloc(), blank, Err(fault), seat),
    }
}

/// The line of a submission's reply.
fn taken<J: Naming, R>(
    rt: &R,
    node: &Node<'_, J>,
    waste: &Waste,
    blank: Blank,
    submission: TimedBlock,
    seat: &mut Seat<'_, J>,
) -> Result<Vec<u8>, AllocError>
where
    R: AllocGlobal + Threads + Wait + Sync,
    ensures { IfOk result (λ line.
        IsTaken seat.old seat.new submission.block.items submission.now blank line.items) }
{
    let bytes = submission.block.len();
    let reply = submit(rt, node, submission, seat);
    if let Ok(stamped) = &reply {
        waste.add(stamped.value, bytes);
    }
    replied(rt.alloc(), blank, reply, seat)
}

fn submit<J: Naming, R>(
    rt: &R,
    node: &Node<'_, J>,
    submission: TimedBlock,
    seat: &mut Seat<'_, J>,
) -> Result<node::Stamped<SubmitReply>, node::Fault>
where
    R: AllocGlobal + Threads + Wait + Sync,
    ensures answer { let block = submission.block.items in
        let IsAnswer = IsSubmitAnswer seat.old seat.new block submission.now in
        IfOk result (λ r. IsAnswer r.at r.value) }
    ensures fault { let asked = command.Submit submission.block.items submission.now in
        IfErr result (IsWriteFault seat.old seat.new asked) }
{
    let TimedBlock { block, now } = submission;
    seat.submit_bytes(rt, node, Bytes::from_vec(rt.alloc(), block)?, now)
}

/// The line of the reply that a submission would get. No step is taken.
pub fn judged<J: Naming, R>(
    rt: &R,
    node: &Node<'_, J>,
    blank: Blank,
    block: &[u8],
    now: u64,
    seat: &mut Seat<'_, J>,
) -> Result<Vec<u8>, AllocError>
where
    R: AllocGlobal + Threads + Wait + Sync,
    ensures { IfOk result (λ line.
        IsJudgeTold seat.old seat.new block.now now blank line.items) }
{
    if block.len() as u64 > LIMIT {
        return blank.refuse(Refusal::Param("block"));
    }
    let reply = seat.judge(rt, node, block, now);
    replied(rt.alloc(), blank, reply, seat)
}
