//! The witness of an input (BIP 141).

ghost use Rattle.std.specs.Prelude.{◌≡◌, ◌<◌, [], length, reverse, slice_get, IfOk, Some};
ghost use Rattle.std.specs.List.{list_any};
ghost use Rattle.std.specs.Option.{option_map_or};
ghost use Rattle.interp.specs.Answer.{Tells};
ghost use Rattle.interp.specs.Question.{question_of};
ghost use Rattle.interp.specs.inside.RunningContext.{running_of};
ghost use Rattle.interp.specs.Witness.{version0, is_long, is_clean, execute, key_hash_script, key_hash_verdict, script_hash_verdict, verdict0, witness_with, witness_verdict};

use crate::element::Element;
use crate::execution::MAX_PUSH;
use crate::hashes::sha256;
use crate::job::Job;
use crate::no_verdict::Unverified;
use crate::pile::Pile;
use crate::running::Running;
use crate::verification::run;
use script::opcode::{OP_CHECKSIG, OP_DUP, OP_EQUALVERIFY, OP_HASH160};
use script::spent_program;
use sighash::WitnessHashes;
use signatures::KnowsSignatures;
use std::alloc::Global;
use txn::{Script, Tx};
use wire::Memory;

/// Whether an input's witness lets it spend the output, where such have a meaning: what the scripts say is
/// [`verify_with`](crate::verify_with)'s (Bitcoin Core's `VerifyScript`, from its witness program on). `value` is the
/// output's, in satoshis, and the hashes are of the job's transaction.
pub fn verify_witness<'a, K: KnowsSignatures>(
    alloc: Global,
    job: &Job<'a>,
    hashes: &'a WitnessHashes<'a>,
    value: i64,
    known: &K,
) -> Result<bool, Unverified>
    // The input is one of the transaction's.
    requires input { job.now.input < length job.now.tx.now.inputs }
    requires same { hashes.now.tx.now ≡ job.now.tx.now }
    ensures { Tells result (witness_verdict (K.known known.now) (question_of job.now) value) }
{
    let tx = job.tx;
    let script = tx.inputs.as_slice()[job.input].script.as_slice();
    let yes = accepts_witness(alloc, job, hashes, value, known, script)?;
    Ok(yes)
}

/// The same, with the input script.
#[tactic(auto, unfolding(crate::specs::Witness::witness_with))]
fn accepts_witness<'a, K: KnowsSignatures>(
    alloc: Global,
    job: &Job<'a>,
    hashes: &'a WitnessHashes<'a>,
    value: i64,
    known: &K,
    script: &[u8],
) -> Result<bool, Unverified>
    requires input { job.now.input < length job.now.tx.now.inputs }
    requires same { hashes.now.tx.now ≡ job.now.tx.now }
    ensures { Tells result
        (witness_with (K.known known.now) (question_of job.now) value script.now) }
{
    let strings = witness_at(job.tx, job.input);
    let Some(found) = spent_program(script, job.spent) else {
        return Ok(strings.is_empty());
    };
    if !found.is_exact {
        return Ok(false);
    }
    // A later version has no meaning yet, and accepts.
    if found.program.version != 0 {
        return Ok(true);
    }
    let running = version0(job, hashes, value);
    accepts_program(alloc, &running, known, found.program.bytes, strings)
}

/// The witness of an input.
fn witness_at<'a>(tx: &'a Tx, input: usize) -> &'a [Script]
    ensures { result.now ≡ option_map_or (λ w. w) (slice_get tx.now.witnesses input) [] }
{
    match tx.inputs.witnesses().get(input) {
        Some(witness) => witness.as_slice(),
        None => &[],
    }
}

/// What a script of version 0 runs for.
fn version0<'a>(job: &Job<'a>, hashes: &'a WitnessHashes<'a>, value: i64) -> Running<'a>
    requires { hashes.now.tx.now ≡ job.now.tx.now }
    ensures is { running_of result ≡ version0 (question_of job.now) value }
    ensures tx { result.tx.now ≡ job.now.tx.now }
    ensures input { result.input ≡ job.now.input }
{
    Running {
        tx: job.tx,
        input: job.input,
        flags: job.flags,
        midstates: job.midstates,
        witness: Some((hashes, value)),
    }
}

/// Whether a witness, its bottom first, is one that a program of version 0 accepts.
#[tactic(auto, unfolding(crate::specs::Witness::verdict0))]
fn accepts_program<K: KnowsSignatures>(
    alloc: Global,
    running: &Running,
    known: &K,
    program: &[u8],
    strings: &[Script],
) -> Result<bool, Unverified>
    requires { running.now.input < length running.now.tx.now.inputs }
    ensures { Tells result (verdict0 (K.known known.now) (running_of running.now)
        program.now (reverse strings.now)) }
{
    match program.len() {
        20 => accepts_key_hash(alloc, running, known, program, strings),
        32 => accepts_script_hash(alloc, running, known, program, strings),
        _ => Ok(false),
    }
}

#[tactic(auto, unfolding(crate::specs::Witness::key_hash_verdict))]
fn accepts_key_hash<K: KnowsSignatures>(
    alloc: Global,
    running: &Running,
    known: &K,
    hash: &[u8],
    strings: &[Script],
) -> Result<bool, Unverified>
    requires { running.now.input < length running.now.tx.now.inputs }
    ensures { Tells result (key_hash_verdict (K.known known.now) (running_of running.now)
        hash.now (reverse strings.now)) }
{
    if strings.len() != 2 {
        return Ok(false);
    }
    let script = key_hash_script(alloc, hash)?;
    runs_clean(alloc, running, known, script.as_slice(), strings)
}

/// DUP HASH160, the hash, EQUALVERIFY CHECKSIG.
fn key_hash_script(alloc: Global, hash: &[u8]) -> Result<Vec<u8>, Memory>
    ensures { IfOk result (λ script. script.items ≡ key_hash_script hash.now) }
{
    let mut script = Vec::with_capacity(alloc, 25)?;
    script.extend_from_slice(&[OP_DUP, OP_HASH160, 20])?;
    script.extend_from_slice(hash)?;
    script.extend_from_slice(&[OP_EQUALVERIFY, OP_CHECKSIG])?;
    Ok(script)
}

#[tactic(auto, unfolding(crate::specs::Witness::script_hash_verdict))]
fn accepts_script_hash<K: KnowsSignatures>(
    alloc: Global,
    running: &Running,
    known: &K,
    hash: &[u8],
    strings: &[Script],
) -> Result<bool, Unverified>
    requires { running.now.input < length running.now.tx.now.inputs }
    ensures { Tells result (script_hash_verdict (K.known known.now) (running_of running.now)
        hash.now (reverse strings.now)) }
{
    let Some((script, below)) = strings.split_last() else {
        return Ok(false);
    };
    let script = script.as_slice();
    if sha256(script).as_slice() != hash {
        return Ok(false);
    }
    runs_clean(alloc, running, known, script, below)
}

/// Whether no string is too long, and a script that runs on them, their bottom first, leaves a true element alone.
#[tactic(auto, unfolding(crate::specs::Witness::execute))]
fn runs_clean<K: KnowsSignatures>(
    alloc: Global,
    running: &Running,
    known: &K,
    script: &[u8],
    strings: &[Script],
) -> Result<bool, Unverified>
    requires { running.now.input < length running.now.tx.now.inputs }
    ensures { Tells result (execute (K.known known.now) (running_of running.now)
        script.now (reverse strings.now)) }
{
    if is_any_long(strings) {
        return Ok(false);
    }
    let Some(end) = run(alloc, running, known, script, stack_of(alloc, strings)?)? else {
        return Ok(false);
    };
    Ok(is_clean(&end))
}

/// Whether a true element is left, and no other.
fn is_clean(end: &Pile<Element>) -> bool
    ensures { result ≡ is_clean (Some end.now) }
{
    if end.len() != 1 {
        return false;
    }
    end.at(0).is_true()
}

fn is_any_long(strings: &[Script]) -> bool
    ensures { result ≡ list_any is_long strings.now }
{
    strings.iter().any(|string| string.len() > MAX_PUSH)
}

/// A stack of these strings, the bottom first.
fn stack_of(alloc: Global, strings: &[Script]) -> Result<Pile<Element>, Memory>
    ensures { IfOk result (λ stack. stack ≡ reverse strings.now) }
{
    let mut elements = Vec::with_capacity(alloc, strings.len())?;
    for string in strings {
        elements.push(Element::from_slice(alloc, string.as_slice())?)?;
    }
    Ok(Pile::from_vec(elements))
}
