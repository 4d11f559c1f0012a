//! The scripts of an input and of the output that it spends.

ghost use Rattle.std.specs.Prelude.{◌≡◌, ◌<◌, ◌↔◌, [], ◌∷◌, ◌++◌, length, IsTrue, IfOk, MatchOption};
ghost use Rattle.script.specs.Ops.{ops, rest};
ghost use Rattle.interp.specs.Answer.{Tells};
ghost use Rattle.interp.specs.Question.{question_of};
ghost use Rattle.interp.specs.Rules.{Accepts};
ghost use Rattle.interp.specs.inside.RunningContext.{running_of};
ghost use Rattle.interp.specs.computed.Step.{outcome, ends_true, inner_verdict, verdict_on, verdict_with, verdict};

use crate::base::base;
use crate::element::Element;
use crate::execution::Execution;
use crate::job::Job;
use crate::no_verdict::Unverified;
use crate::pile::Pile;
use crate::running::Running;
use script::opcode::OP_PUSHDATA4;
use script::{MAX_SCRIPT_SIZE, Ops, is_p2sh, push_only};
use signatures::{KnowsSignatures, Table};
use std::alloc::Global;
use wire::Memory;

/// Whether the input may spend the output: the scripts run, and end with a true element on top (Bitcoin Core's
/// `VerifyScript`, with the rules of BIPs 16, 65, 66 and 112). The signatures of the table are the valid ones.
pub fn verify(alloc: Global, job: &Job, table: &Table) -> Result<bool, Memory>
    // The input is one of the transaction's.
    requires { job.now.input < length job.now.tx.now.inputs }
    ensures { IfOk result (λ yes. IsTrue yes
        ↔ Accepts job.now.tx.now job.now.input job.now.spent.now job.now.flags table.now) }
{
    match verify_with(alloc, job, table) {
        Ok(accepted) => Ok(accepted),
        Err(Unverified::Memory) => Err(Memory),
        // Of a table all is known.
        Err(Unverified::Unknown(_)) => unreachable!(),
    }
}

/// The same with what is known of signatures, as far as that goes: else one that has to be found out first.
pub fn verify_with<K: KnowsSignatures>(
    alloc: Global,
    job: &Job,
    known: &K,
) -> Result<bool, Unverified>
    // The input is one of the transaction's.
    requires { job.now.input < length job.now.tx.now.inputs }
    ensures { Tells result (verdict (K.known known.now) (question_of job.now)) }
{
    let tx = job.tx;
    let script = tx.inputs.as_slice()[job.input].script.as_slice();
    let yes = accepts(alloc, job, known, script)?;
    Ok(yes)
}

/// The opcode at the front of a script, if it is whole, and what follows it.
pub fn first_op(script: &[u8]) -> Option<(&[u8], &[u8])>
    ensures { MatchOption result ((ops script.now ≡ []) × (rest script.now ≡ script.now))
        (λ parts. (ops script.now ≡ parts.0.now ∷ ops parts.1.now)
        × (script.now ≡ parts.0.now ++ parts.1.now)) }
{
    let (number, after) = script.split_first()?;
    // Above the numbers of pushes an opcode has no other byte, and nothing has to be measured.
    if *number > OP_PUSHDATA4 {
        return Some((&script[..1], after));
    }
    let mut ops = Ops::new(script);
    let op = ops.next()?;
    Some((op, ops.rest()))
}

/// Runs a script on a stack, and gives the stack that it leaves, or nothing where it fails.
#[tactic(auto, unfolding(crate::specs::computed::Step::outcome))]
pub fn run<K: KnowsSignatures>(
    alloc: Global,
    running: &Running,
    known: &K,
    script: &[u8],
    stack: Pile<Element>,
) -> Result<Option<Pile<Element>>, Unverified>
    requires { running.now.input < length running.now.tx.now.inputs }
    ensures { Tells result (outcome (K.known known.now) (running_of running.now) script.now stack) }
{
    if script.len() > MAX_SCRIPT_SIZE {
        return Ok(None);
    }
    let mut execution = Execution::new(alloc, script, stack);
    let mut ahead = script;
    while let Some((op, after)) = first_op(ahead) {
        if !execution.step(alloc, running, known, after, op)? {
            return Ok(None);
        }
        ahead = after;
    }
    if !ahead.is_empty() {
        return Ok(None);
    }
    Ok(execution.finish())
}

/// Whether a script runs on a stack, and leaves a true element on top.
#[tactic(auto, unfolding(crate::specs::computed::Step::ends_true))]
fn runs_to_true<K: KnowsSignatures>(
    alloc: Global,
    running: &Running,
    known: &K,
    script: &[u8],
    stack: Pile<Element>,
) -> Result<bool, Unverified>
    requires { running.now.input < length running.now.tx.now.inputs }
    ensures { Tells result
        (ends_true (outcome (K.known known.now) (running_of running.now) script.now stack)) }
{
    let Some(end) = run(alloc, running, known, script, stack)? else {
        return Ok(false);
    };
    if end.len() == 0 {
        return Ok(false);
    }
    Ok(end.at(0).is_true())
}

/// Whether the top of a stack, run as a script on the others, leaves a true element on top, and the input script
/// that left the stack only pushes (BIP 16).
#[tactic(auto, unfolding(crate::specs::computed::Step::inner_verdict))]
fn accepts_inner<K: KnowsSignatures>(
    alloc: Global,
    job: &Job,
    known: &K,
    script: &[u8],
    left: Pile<Element>,
) -> Result<bool, Unverified>
    requires { job.now.input < length job.now.tx.now.inputs }
    ensures { Tells result (inner_verdict (K.known known.now) (question_of job.now) script.now left) }
{
    if !push_only(script) {
        return Ok(false);
    }
    if left.len() == 0 {
        return Ok(false);
    }
    let mut left = left;
    let inner = left.pop();
    runs_to_true(alloc, &base(job), known, inner.as_slice(), left)
}

/// Whether the scripts accept, with the stack that the input script left.
#[tactic(auto, unfolding(crate::specs::computed::Step::verdict_on))]
fn accepts_on<K: KnowsSignatures>(
    alloc: Global,
    job: &Job,
    known: &K,
    script: &[u8],
    left: Pile<Element>,
) -> Result<bool, Unverified>
    requires { job.now.input < length job.now.tx.now.inputs }
    ensures { Tells result (verdict_on (K.known known.now) (question_of job.now) script.now left) }
{
    if !job.flags.p2sh || !is_p2sh(job.spent) {
        return runs_to_true(alloc, &base(job), known, job.spent, left);
    }
    let same = left.copy(alloc)?;
    if !runs_to_true(alloc, &base(job), known, job.spent, same)? {
        return Ok(false);
    }
    accepts_inner(alloc, job, known, script, left)
}

/// Whether the scripts accept, with the input script.
#[tactic(auto, unfolding(crate::specs::computed::Step::verdict_with))]
fn accepts<K: KnowsSignatures>(
    alloc: Global,
    job: &Job,
    known: &K,
    script: &[u8],
) -> Result<bool, Unverified>
    requires { job.now.input < length job.now.tx.now.inputs }
    ensures { Tells result (verdict_with (K.known known.now) (question_of job.now) script.now) }
{
    let Some(left) = run(alloc, &base(job), known, script, Pile::new(alloc))? else {
        return Ok(false);
    };
    accepts_on(alloc, job, known, script, left)
}
