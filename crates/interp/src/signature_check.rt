//! What is signed, and CHECKSIG.

ghost use Rattle.std.specs.Prelude.{◌≡◌, ◌<◌, [], ◌∷◌, length, map, IfOk};
ghost use Rattle.std.specs.List.{concat};
ghost use Rattle.script.specs.Removal.{bytes_of};
ghost use Rattle.signatures.specs.Triple.{triple_of};
ghost use Rattle.interp.specs.Answer.{Tells};
ghost use Rattle.interp.specs.Running.{digest_with, code_with};
ghost use Rattle.interp.specs.inside.RunningContext.{value_of, running_of};
ghost use Rattle.interp.specs.Signatures.{push_of, pieces_of, signed_code, type_of, signature_proper};
ghost use Rattle.interp.specs.computed.Signatures.{may_be_tried, verdict_or_wanted, pair_verdict};

use crate::element::Element;
use crate::flags::Flags;
use crate::no_verdict::Unverified;
use crate::running::Running;
use script::opcode::{OP_CODESEPARATOR, OP_PUSHDATA1, OP_PUSHDATA2, OP_PUSHDATA4};
use script::without;
use signatures::{KeptTriple, KnowsSignatures, der_shape};
use std::alloc::Global;
use wire::Memory;

/// The shortest opcode by length that pushes these bytes.
#[tactic(auto, unfolding(crate::specs::Signatures::push_of))]
fn push_of(alloc: Global, bytes: &[u8]) -> Result<Element, Memory>
    ensures { IfOk result (λ op. op ≡ push_of bytes.now) }
{
    let len = bytes.len();
    let mut op = Vec::new(alloc);
    if len < usize::from(OP_PUSHDATA1) {
        op.push(len as u8)?;
    } else if len < 0x100 {
        op.extend_from_slice(&[OP_PUSHDATA1, len as u8])?;
    } else if len < 0x1_0000 {
        let [a, b] = (len as u16).to_le_bytes();
        op.extend_from_slice(&[OP_PUSHDATA2, a, b])?;
    } else {
        let [a, b, c, d] = ((len % 0x1_0000_0000) as u32).to_le_bytes();
        op.extend_from_slice(&[OP_PUSHDATA4, a, b, c, d])?;
    }
    op.extend_from_slice(bytes)?;
    Ok(Element::from_vec(op))
}

/// The pushes of some signatures.
fn pushes_of(alloc: Global, signatures: &[&[u8]]) -> Result<Vec<Element>, Memory>
    ensures { IfOk result (λ ops. ops.items ≡ map push_of (bytes_of signatures.now)) }
{
    let mut ops = Vec::new(alloc);
    for signature in signatures {
        ops.push(push_of(alloc, signature)?)?;
    }
    Ok(ops)
}

/// Some elements, lent.
fn slices_of(alloc: Global, elements: &[Element]) -> Result<Vec<&[u8]>, Memory>
    ensures { IfOk result (λ slices. bytes_of slices.items ≡ elements.now) }
{
    let mut slices = Vec::new(alloc);
    for element in elements {
        slices.push(element.as_slice())?;
    }
    Ok(slices)
}

/// The parts of a code that are signed: all but the signatures' pushes and CODESEPARATORs.
fn signed_parts<'a>(
    alloc: Global,
    code: &'a [u8],
    signatures: &[&[u8]],
) -> Result<Vec<&'a [u8]>, Memory>
    ensures { IfOk result (λ parts. concat (bytes_of parts.items)
        ≡ signed_code code.now (bytes_of signatures.now)) }
{
    let ops = pushes_of(alloc, signatures)?;
    let mut pieces = slices_of(alloc, ops.as_slice())?;
    pieces.push(&[OP_CODESEPARATOR])?;
    without(alloc, code, pieces.as_slice())
}

/// The same of a running script. BIP 143 takes nothing out of the code.
pub fn code_parts<'a>(
    alloc: Global,
    running: &Running,
    code: &'a [u8],
    signatures: &[&[u8]],
) -> Result<Vec<&'a [u8]>, Memory>
    ensures { IfOk result (λ parts. concat (bytes_of parts.items)
        ≡ code_with (value_of running.now) code.now (bytes_of signatures.now)) }
{
    if running.witness.is_none() {
        return signed_parts(alloc, code, signatures);
    }
    let mut whole = Vec::new(alloc);
    whole.push(code)?;
    Ok(whole)
}

/// What a signature signs: its last byte is its type.
pub fn digest_for(running: &Running, code: &[&[u8]], signature: &[u8]) -> [u8; 32]
    requires { running.now.input < length running.now.tx.now.inputs }
    ensures { result ≡ digest_with (value_of running.now) running.now.tx.now running.now.input
        (concat (bytes_of code.now)) (type_of signature.now) }
{
    let kind = match signature.last() {
        Some(kind) => u32::from(*kind),
        None => 0,
    };
    if let Some((hashes, value)) = running.witness {
        return hashes.digest(running.input, code, value, kind);
    }
    match running.midstates {
        Some(midstates) => midstates.digest(running.input, code, kind),
        None => sighash::digest(running.tx, running.input, code, kind),
    }
}

/// Whether a signature that isn't empty is valid for a key over this digest.
pub fn is_valid<K: KnowsSignatures>(
    alloc: Global,
    known: &K,
    digest: &[u8; 32],
    signature: &[u8],
    key: &[u8],
) -> Result<bool, Unverified>
    requires { 0 < length signature.now }
    ensures { let t = triple_of key.now (signature_proper signature.now) digest.now in
        Tells result (verdict_or_wanted (K.known known.now t) t) }
{
    let proper = &signature[..signature.len() - 1];
    match known.find(key, proper, digest) {
        Some(valid) => Ok(valid),
        None => {
            let unknown = KeptTriple::from_parts(alloc, key, proper, digest)?;
            Err(Unverified::Unknown(Box::new(alloc, unknown)?))
        }
    }
}

/// Whether a signature is strictly encoded or empty, where that is asked for.
#[tactic(auto, unfolding(crate::specs::computed::Signatures::may_be_tried))]
pub fn may_be_tried(flags: Flags, signature: &[u8]) -> bool
    ensures { result ≡ may_be_tried flags signature.now }
{
    !flags.dersig || der_shape(signature)
}

/// Whether a signature is valid for a key over a running script's code: None where it may not be tried.
#[tactic(auto, unfolding(crate::specs::computed::Signatures::pair_verdict))]
pub fn judge<K: KnowsSignatures>(
    alloc: Global,
    running: &Running,
    known: &K,
    code: &[u8],
    signature: &[u8],
    key: &[u8],
) -> Result<Option<bool>, Unverified>
    requires { running.now.input < length running.now.tx.now.inputs }
    ensures { Tells result (pair_verdict (K.known known.now) (running_of running.now)
        (code_with (value_of running.now) code.now (signature.now ∷ []))
        signature.now key.now) }
{
    if !may_be_tried(running.flags, signature) {
        return Ok(None);
    }
    if signature.is_empty() {
        return Ok(Some(false));
    }
    let parts = code_parts(alloc, running, code, &[signature])?;
    let digest = digest_for(running, parts.as_slice(), signature);
    Ok(Some(is_valid(alloc, known, &digest, signature, key)?))
}
