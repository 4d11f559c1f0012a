//! CHECKMULTISIG.

ghost use Rattle.std.specs.Prelude.{◌≡◌, ◌+◌, ◌-◌, ◌<◌, ◌≤◌, length, take, drop, IfOk, IfSome};
ghost use Rattle.std.specs.List.{concat};
ghost use Rattle.script.specs.Removal.{bytes_of};
ghost use Rattle.interp.specs.Answer.{Tells};
ghost use Rattle.interp.specs.Running.{digest_with};
ghost use Rattle.interp.specs.inside.RunningContext.{value_of, running_of};
ghost use Rattle.interp.specs.Signatures.{type_of};
ghost use Rattle.interp.specs.computed.Signatures.{pairs_verdict};
ghost use Rattle.interp.specs.inside.Multisig.{many, multisig_answer};

use crate::element::{Element, natural};
use crate::no_verdict::Unverified;
use crate::pile::Pile;
use crate::running::Running;
use crate::signature_check::{code_parts, digest_for, is_valid, may_be_tried};
use signatures::KnowsSignatures;
use std::alloc::Global;
use wire::Memory;

/// The number so far below the top, if it is from 0 to `most`.
pub fn many(stack: &Pile<Element>, at: usize, most: usize) -> Option<usize>
    ensures value { result ≡ many most (drop at stack.now) }
    ensures bound { IfSome result (λ n. n ≤ most) }
{
    if at >= stack.len() {
        return None;
    }
    let n = natural(stack.at(at).as_slice(), 4)?;
    if n > most as u64 {
        return None;
    }
    Some(n as usize)
}

/// The elements from one so far below the top to before another.
fn slices(
    alloc: Global,
    stack: &Pile<Element>,
    from: usize,
    to: usize,
) -> Result<Vec<&[u8]>, Memory>
    requires order { from ≤ to }
    requires there { to ≤ length stack.now }
    ensures { IfOk result (λ slices. bytes_of slices.items
        ≡ take (to - from) (drop from stack.now)) }
{
    let mut slices = Vec::new(alloc);
    for i in from..to {
        slices.push(stack.at(i).as_slice())?;
    }
    Ok(slices)
}

/// What a signature signs, which may be in hand already.
fn known_or_worked_out(
    running: &Running,
    code: &[&[u8]],
    signature: &[u8],
    in_hand: Option<[u8; 32]>,
) -> [u8; 32]
    requires input { running.now.input < length running.now.tx.now.inputs }
    requires right { IfSome in_hand (λ digest. digest ≡ digest_with (value_of running.now)
        running.now.tx.now running.now.input (concat (bytes_of code.now)) (type_of signature.now)) }
    ensures { result ≡ digest_with (value_of running.now) running.now.tx.now running.now.input
        (concat (bytes_of code.now)) (type_of signature.now) }
{
    match in_hand {
        Some(digest) => digest,
        None => digest_for(running, code, signature),
    }
}

/// Tries signatures and keys from the top down: None where one that is tried may not be.
fn try_pairs<K: KnowsSignatures>(
    alloc: Global,
    running: &Running,
    known: &K,
    code: &[&[u8]],
    signatures: &[&[u8]],
    keys: &[&[u8]],
) -> Result<Option<bool>, Unverified>
    requires { running.now.input < length running.now.tx.now.inputs }
    ensures { Tells result (pairs_verdict (K.known known.now) (running_of running.now)
        (concat (bytes_of code.now)) (bytes_of signatures.now) (bytes_of keys.now)) }
{
    let mut used = 0;
    // What the first signature that isn't used up signs, once one key was tried with it.
    let mut signed = None;
    for place in 0..keys.len() {
        let Some(signature) = signatures.get(used) else {
            return Ok(Some(true));
        };
        if keys.len() - place < signatures.len() - used {
            return Ok(Some(false));
        }
        if !may_be_tried(running.flags, signature) {
            return Ok(None);
        }
        if !signature.is_empty() {
            let digest = known_or_worked_out(running, code, signature, signed);
            let valid = is_valid(alloc, known, &digest, signature, keys[place])?;
            signed = if valid { None } else { Some(digest) };
            used += usize::from(valid);
        }
    }
    Ok(Some(used == signatures.len()))
}

/// What CHECKMULTISIG answers, with so many keys and signatures on the stack.
pub fn answer<K: KnowsSignatures>(
    alloc: Global,
    running: &Running,
    known: &K,
    code: &[u8],
    stack: &Pile<Element>,
    counts: (usize, usize),
) -> Result<Option<bool>, Unverified>
    requires input { running.now.input < length running.now.tx.now.inputs }
    requires few { counts.0 ≤ 20 }
    requires no_more { counts.1 ≤ counts.0 }
    requires there { counts.0 + counts.1 + 3 ≤ length stack.now }
    ensures { Tells result (multisig_answer (K.known known.now) (running_of running.now)
        code.now stack.now counts) }
{
    let (keys, signatures) = counts;
    let middle = keys + 2;
    let keys = slices(alloc, stack, 1, keys + 1)?;
    let signatures = slices(alloc, stack, middle, middle + signatures)?;
    let Some(first) = signatures.first() else {
        return Ok(Some(true));
    };
    if first.is_empty() {
        return Ok(Some(false));
    }
    let parts = code_parts(alloc, running, code, signatures.as_slice())?;
    try_pairs(
        alloc,
        running,
        known,
        parts.as_slice(),
        signatures.as_slice(),
        keys.as_slice(),
    )
}
