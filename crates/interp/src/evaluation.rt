//! A script, and an input, with the name of its failure.

ghost use Rattle.std.specs.Prelude.{◌<◌, length};
ghost use Rattle.interp.specs.Answer.{Tells};
ghost use Rattle.interp.specs.Question.{question_of};
ghost use Rattle.interp.specs.inside.RunningContext.{running_of};
ghost use Rattle.interp.specs.computed.NamedFailures.{eval_script, eval_running, eval_to_true, inner_named, on_left, verify_with_script, verify_script};

use crate::base::base;
use crate::element::Element;
use crate::execution::Execution;
use crate::job::Job;
use crate::no_verdict::Unverified;
use crate::pile::Pile;
use crate::running::Running;
use crate::script_error::ScriptError;
use crate::verification::first_op;
use script::{MAX_SCRIPT_SIZE, is_p2sh, push_only};
use signatures::KnowsSignatures;
use std::alloc::Global;

/// Runs a script on a stack as one of the job's, and gives the stack that it leaves, or why it fails (Bitcoin Core's
/// `EvalScript`). Signatures are of the job's transaction and input.
pub fn eval_script<K: KnowsSignatures>(
    alloc: Global,
    job: &Job,
    known: &K,
    script: &[u8],
    stack: Pile<Element>,
) -> Result<Result<Pile<Element>, ScriptError>, Unverified>
    // The input is one of the transaction's.
    requires { job.now.input < length job.now.tx.now.inputs }
    ensures { Tells result
        (eval_script (K.known known.now) (question_of job.now) script.now stack) }
{
    run_or_name(alloc, &base(job), known, script, stack)
}

/// The same, of what it runs for.
fn run_or_name<K: KnowsSignatures>(
    alloc: Global,
    running: &Running,
    known: &K,
    script: &[u8],
    stack: Pile<Element>,
) -> Result<Result<Pile<Element>, ScriptError>, Unverified>
    requires { running.now.input < length running.now.tx.now.inputs }
    ensures { Tells result
        (eval_running (K.known known.now) (running_of running.now) script.now stack) }
{
    if script.len() > MAX_SCRIPT_SIZE {
        return Ok(Err(ScriptError::ScriptSize));
    }
    let mut execution = Execution::new(alloc, script, stack);
    let mut ahead = script;
    while let Some((op, after)) = first_op(ahead) {
        if let Some(name) = execution.step_or_name(alloc, running, known, after, op)? {
            return Ok(Err(name));
        }
        ahead = after;
    }
    if !ahead.is_empty() {
        return Ok(Err(ScriptError::BadOpcode));
    }
    match execution.finish() {
        None => Ok(Err(ScriptError::UnbalancedConditional)),
        Some(left) => Ok(Ok(left)),
    }
}

/// Runs a script on a stack, which has to leave a true element on top.
#[tactic(auto, unfolding(crate::specs::computed::NamedFailures::eval_to_true))]
fn eval_to_true<K: KnowsSignatures>(
    alloc: Global,
    running: &Running,
    known: &K,
    script: &[u8],
    stack: Pile<Element>,
) -> Result<Result<(), ScriptError>, Unverified>
    requires { running.now.input < length running.now.tx.now.inputs }
    ensures { Tells result
        (eval_to_true (K.known known.now) (running_of running.now) script.now stack) }
{
    let end = match run_or_name(alloc, running, known, script, stack)? {
        Err(name) => return Ok(Err(name)),
        Ok(end) => end,
    };
    if end.len() == 0 || !end.at(0).is_true() {
        return Ok(Err(ScriptError::EvalFalse));
    }
    Ok(Ok(()))
}

/// Runs the top of a stack as a script on the others; the input script that left the stack only pushes (BIP 16).
#[tactic(auto, unfolding(crate::specs::computed::NamedFailures::inner_named))]
fn eval_inner<K: KnowsSignatures>(
    alloc: Global,
    job: &Job,
    known: &K,
    script: &[u8],
    left: Pile<Element>,
) -> Result<Result<(), ScriptError>, Unverified>
    requires { job.now.input < length job.now.tx.now.inputs }
    ensures { Tells result (inner_named (K.known known.now) (question_of job.now) script.now left) }
{
    if !push_only(script) {
        return Ok(Err(ScriptError::SigPushOnly));
    }
    if left.len() == 0 {
        return Ok(Err(ScriptError::EvalFalse));
    }
    let mut left = left;
    let inner = left.pop();
    eval_to_true(alloc, &base(job), known, inner.as_slice(), left)
}

/// Runs what is spent on the stack that the input script left.
#[tactic(auto, unfolding(crate::specs::computed::NamedFailures::on_left))]
fn eval_on<K: KnowsSignatures>(
    alloc: Global,
    job: &Job,
    known: &K,
    script: &[u8],
    left: Pile<Element>,
) -> Result<Result<(), ScriptError>, Unverified>
    requires { job.now.input < length job.now.tx.now.inputs }
    ensures { Tells result (on_left (K.known known.now) (question_of job.now) script.now left) }
{
    if !job.flags.p2sh || !is_p2sh(job.spent) {
        return eval_to_true(alloc, &base(job), known, job.spent, left);
    }
    let same = left.copy(alloc)?;
    if let Err(name) = eval_to_true(alloc, &base(job), known, job.spent, same)? {
        return Ok(Err(name));
    }
    eval_inner(alloc, job, known, script, left)
}

/// Runs an input script and what it spends.
#[tactic(auto, unfolding(crate::specs::computed::NamedFailures::verify_with_script))]
fn eval_both<K: KnowsSignatures>(
    alloc: Global,
    job: &Job,
    known: &K,
    script: &[u8],
) -> Result<Result<(), ScriptError>, Unverified>
    requires { job.now.input < length job.now.tx.now.inputs }
    ensures { Tells result
        (verify_with_script (K.known known.now) (question_of job.now) script.now) }
{
    let left = match eval_script(alloc, job, known, script, Pile::new(alloc))? {
        Err(name) => return Ok(Err(name)),
        Ok(left) => left,
    };
    eval_on(alloc, job, known, script, left)
}

/// Why the input may not spend the output, or that it may: [`verify_with`](crate::verify_with) with the name of the
/// failure (Bitcoin Core's `VerifyScript`).
pub fn verify_script<K: KnowsSignatures>(
    alloc: Global,
    job: &Job,
    known: &K,
) -> Result<Result<(), ScriptError>, Unverified>
    // The input is one of the transaction's.
    requires { job.now.input < length job.now.tx.now.inputs }
    ensures { Tells result (verify_script (K.known known.now) (question_of job.now)) }
{
    let tx = job.tx;
    let script = tx.inputs.as_slice()[job.input].script.as_slice();
    let named = eval_both(alloc, job, known, script)?;
    Ok(named)
}
