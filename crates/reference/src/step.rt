//! One command and its reply.

ghost use Rattle.std.specs.Prelude.{◌≡◌, ◌<◌, IfOk, OnOk, None, Some, length};
ghost use Rattle.std.specs.Result.{result_err};
ghost use Rattle.block.specs.declared.fault.ReadFault.TheVariants as faults;
ghost use Rattle.block.specs.Identity.{id_of};
ghost use Rattle.txn.specs.First.{first_broken};
ghost use Rattle.rules.specs.Alone.{alone_rules};
ghost use Rattle.tree.specs.Branches.{branch, blocks_at, place_of};
ghost use Rattle.tree.specs.Names.{names};
ghost use Rattle.tree.specs.Limits.{max_blocks};
ghost use Rattle.tree.specs.State.{with_block};
ghost use Rattle.model.specs.Commands.{outcome};
ghost use Rattle.model.specs.Context.{first_fault};
ghost use Rattle.model.specs.Settle.{settle};
ghost use Rattle.model.specs.Step.{Submit, Invalidate, Reconsider, Precious, mark_says, step};
ghost use Rattle.model.specs.Submission.{submit_says, outcome_of_added, answer_known};
ghost use Rattle.reference.specs.inside.Replay.{IsRight, chain_rules, reply_by_trial, state_of_replayed};

use crate::branch_replay::{Chain, Trial, medians_by_height, replay};
use crate::judgement::{best_of, is_usable, survey};
use crate::kept_block::{branch_of, find};
use crate::settlement::settle;
use crate::state::Replayed;
use block::{Block, ReadFault};
use hash::Id;
use model::{Command, MarkReply, Reply, SubmitReply};
use rules::{block_alone, context_fault};
use std::alloc::Global;
use tree::MAX_BLOCKS;
use txn::Reason;
use wire::Memory;

pub(crate) fn step(
    alloc: Global,
    chain: &Chain,
    old: &mut Replayed,
    command: &Command,
) -> Result<Reply, Memory>
    requires { IsRight (chain_rules chain.now) old.old }
    ensures state { IfOk result (λ reply.
        (state_of_replayed old.new, reply)
        ≡ outcome (chain_rules chain.now) (state_of_replayed old.old) command.now) }
    ensures right { OnOk result (IsRight (chain_rules chain.now) old.new) }
{
    match command {
        Command::Submit(bytes, now) => match block::read(alloc, bytes.as_slice()) {
            Ok(block) => Ok(Reply::Submit(submit(alloc, chain, old, block, *now)?)),
            Err(fault) => {
                undecodable(fault)?;
                Ok(Reply::Submit(SubmitReply::DecodeFailed))
            }
        },
        Command::Invalidate(id) => Ok(Reply::Mark(invalidate(alloc, chain, old, id)?)),
        Command::Reconsider(id) => Ok(Reply::Mark(reconsider(alloc, chain, old, id)?)),
        Command::Precious(id) => Ok(Reply::Mark(prefer(alloc, chain, old, id)?)),
        Command::Learn(_, _) => Ok(Reply::Mark(MarkReply::Done)),
    }
}

/// Refuses where memory ran out, and not where the bytes are at fault.
fn undecodable(fault: ReadFault) -> Result<(), Memory>
    ensures { IfOk result (λ _. ¬ (fault ≡ faults.Memory)) }
{
    match fault {
        ReadFault::Memory => Err(Memory),
        _ => Ok(()),
    }
}

fn submit(
    alloc: Global,
    chain: &Chain,
    old: &mut Replayed,
    block: Block,
    now: u64,
) -> Result<SubmitReply, Memory>
    requires { IsRight (chain_rules chain.now) old.old }
    ensures state { IfOk result (λ answer.
        submit_says (state_of_replayed old.new) answer
        ≡ step (chain_rules chain.now) (state_of_replayed old.old)
        (Submit now block)) }
    ensures right { OnOk result (IsRight (chain_rules chain.now) old.new) }
{
    let id = block.id();
    if let Some(place) = find(&old.held, &id) {
        return answer_known(alloc, chain, &*old, place);
    }
    if old.held.len() >= MAX_BLOCKS {
        return Ok(SubmitReply::TreeFull);
    }
    match judge(alloc, chain, &*old, &block, now)? {
        Err(reason) => Ok(SubmitReply::Rejected(reason)),
        Ok(parent) => keep(alloc, chain, old, block, parent),
    }
}

/// Keeps a block without a fault before connection, and settles.
fn keep(
    alloc: Global,
    chain: &Chain,
    old: &mut Replayed,
    block: Block,
    parent: usize,
) -> Result<SubmitReply, Memory>
    requires right { IsRight (chain_rules chain.now) old.old }
    requires room { length old.old.held.items < max_blocks }
    requires new { place_of names (state_of_replayed old.old).blocks (id_of block.header) ≡ None }
    requires alone { first_broken (alone_rules block) ≡ None }
    requires parent { place_of names (state_of_replayed old.old).blocks block.header.prev
        ≡ Some parent }
    ensures state { IfOk result (λ answer.
        submit_says (state_of_replayed old.new) answer
        ≡ outcome_of_added (chain_rules chain.now)
        (settle (chain_rules chain.now)
        (with_block (state_of_replayed old.old) block parent))) }
    ensures right { OnOk result (IsRight (chain_rules chain.now) old.new) }
{
    let id = block.id();
    let place = old.held.len();
    let branch = branch_of(alloc, &old.held, parent)?;
    let trial = replay(alloc, chain, &old.held, &branch, &block)?;
    old.add(block, id, parent, trial)?;
    let settled = settle(alloc, chain, old)?;
    if place == settled.active {
        return Ok(SubmitReply::Accepted);
    }
    Ok(rejected(old.bad[place], settled.judged[place].trial))
}

/// The answer to a block that isn't the active one.
fn rejected(is_bad: bool, trial: Trial) -> SubmitReply
    ensures { result ≡ reply_by_trial is_bad trial }
{
    match trial {
        Trial::Fails(reason) if is_bad => SubmitReply::Rejected(reason),
        _ => SubmitReply::Inconclusive,
    }
}

/// The answer to a block that was kept before.
fn answer_known(
    alloc: Global,
    chain: &Chain,
    old: &Replayed,
    place: usize,
) -> Result<SubmitReply, Memory>
    requires right { IsRight (chain_rules chain.now) old.now }
    requires kept { place < length old.now.held.items }
    ensures { IfOk result (λ answer.
        answer ≡ answer_known (chain_rules chain.now) (state_of_replayed old.now) place) }
{
    if !is_usable(alloc, old, place)? {
        return Ok(SubmitReply::DuplicateInvalid);
    }
    if old.seen[place] {
        return Ok(SubmitReply::Duplicate);
    }
    Ok(SubmitReply::DuplicateInconclusive)
}

/// The first fault of a block by itself and on its parent, or else its parent's place.
fn judge(
    alloc: Global,
    chain: &Chain,
    old: &Replayed,
    block: &Block,
    now: u64,
) -> Result<Result<usize, Reason>, Memory>
    requires { IsRight (chain_rules chain.now) old.now }
    ensures fault { IfOk result (λ answer.
        result_err answer
        ≡ first_fault (chain_rules chain.now) (state_of_replayed old.now) now
        block.now) }
    ensures parent { IfOk result (λ answer.
        IfOk answer (λ parent.
        place_of names (state_of_replayed old.now).blocks block.now.header.prev
        ≡ Some parent)) }
{
    if let Some(reason) = block_alone(alloc, block)? {
        return Ok(Err(reason));
    }
    let Some(parent) = find(&old.held, &block.header.prev) else {
        return Ok(Err(Reason::ParentNotFound));
    };
    if !is_usable(alloc, old, parent)? {
        return Ok(Err(Reason::ParentInvalid));
    }
    match fault_by_place(alloc, chain, old, parent, block, now)? {
        Some(reason) => Ok(Err(reason)),
        None => Ok(Ok(parent)),
    }
}

/// The first rule that a block breaks by its place on this parent.
fn fault_by_place(
    alloc: Global,
    chain: &Chain,
    old: &Replayed,
    parent: usize,
    block: &Block,
    now: u64,
) -> Result<Option<Reason>, Memory>
    requires right { IsRight (chain_rules chain.now) old.now }
    requires kept { parent < length old.now.held.items }
    ensures { let t = (state_of_replayed old.now).blocks in
        let fault_on = (chain_rules chain.now).context_fault in
        let older = blocks_at names t (branch t parent) in
        IfOk result (λ fault. fault ≡ fault_on older now block.now) }
{
    let branch = branch_of(alloc, &old.held, parent)?;
    let medians = medians_by_height(alloc, &old.held, &branch)?;
    let median = medians[branch.len() - 1];
    Ok(context_fault(block, branch.len() as u32, median, now, chain.params))
}

fn invalidate(
    alloc: Global,
    chain: &Chain,
    old: &mut Replayed,
    id: &Id,
) -> Result<MarkReply, Memory>
    requires { IsRight (chain_rules chain.now) old.old }
    ensures state { IfOk result (λ answer.
        mark_says (state_of_replayed old.new) answer
        ≡ step (chain_rules chain.now) (state_of_replayed old.old)
        (Invalidate id.now)) }
    ensures right { OnOk result (IsRight (chain_rules chain.now) old.new) }
{
    match find(&old.held, id) {
        None => Ok(MarkReply::NotFound),
        Some(0) => Ok(MarkReply::Genesis),
        Some(place) => {
            old.mark(place);
            settle(alloc, chain, old)?;
            Ok(MarkReply::Done)
        }
    }
}

fn reconsider(
    alloc: Global,
    chain: &Chain,
    old: &mut Replayed,
    id: &Id,
) -> Result<MarkReply, Memory>
    requires { IsRight (chain_rules chain.now) old.old }
    ensures state { IfOk result (λ answer.
        mark_says (state_of_replayed old.new) answer
        ≡ step (chain_rules chain.now) (state_of_replayed old.old)
        (Reconsider id.now)) }
    ensures right { OnOk result (IsRight (chain_rules chain.now) old.new) }
{
    let Some(place) = find(&old.held, id) else {
        return Ok(MarkReply::NotFound);
    };
    old.clear(alloc, place)?;
    settle(alloc, chain, old)?;
    Ok(MarkReply::Done)
}

/// Calls a block precious, unless it is lower than the active one.
fn prefer(alloc: Global, chain: &Chain, old: &mut Replayed, id: &Id) -> Result<MarkReply, Memory>
    requires { IsRight (chain_rules chain.now) old.old }
    ensures state { IfOk result (λ answer.
        mark_says (state_of_replayed old.new) answer
        ≡ step (chain_rules chain.now) (state_of_replayed old.old) (Precious id.now)) }
    ensures right { OnOk result (IsRight (chain_rules chain.now) old.new) }
{
    let Some(place) = find(&old.held, id) else {
        return Ok(MarkReply::NotFound);
    };
    let judged = survey(alloc, chain, &*old)?;
    if judged[place].height >= judged[best_of(&judged)].height {
        old.call(place)?;
        settle(alloc, chain, old)?;
    }
    Ok(MarkReply::Done)
}
