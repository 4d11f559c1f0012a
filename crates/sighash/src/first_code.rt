//! What a signature is expected to sign.

ghost use Rattle.script.specs.Ops.{ops};

use crate::midstates::ALL;
use script::opcode::{OP_CHECKMULTISIGVERIFY, OP_CHECKSIG, OP_CODESEPARATOR};
use script::{Ops, is_p2sh, number, pushed};

/// The code that an input's first signature is expected to sign with hash type ALL: the spent script, or in its place the
/// script of which it has the hash (BIP 16). It is empty where none is expected. Nothing is run, so it is a guess.
pub fn expected_code<'a>(spent: &'a [u8], script: &'a [u8]) -> &'a [u8] {
    let (signature, last) = pushes(script);
    let code = if is_p2sh(spent) { last } else { spent };
    if is_of_all(signature) && checks_signatures(code) {
        return code;
    }
    &[]
}

/// What a script pushes first that isn't empty, and what it pushes last.
fn pushes(script: &[u8]) -> (&[u8], &[u8]) {
    let mut first: &[u8] = &[];
    let mut last: &[u8] = &[];
    for op in Ops::new(script) {
        last = pushed(op);
        first = or_else(first, last);
    }
    (first, last)
}

/// Some bytes, or others where they are none.
fn or_else<'a>(bytes: &'a [u8], others: &'a [u8]) -> &'a [u8] {
    if bytes.is_empty() { others } else { bytes }
}

/// Whether a signature ends in the hash type ALL.
fn is_of_all(signature: &[u8]) -> bool {
    match signature.last() {
        Some(kind) => u32::from(*kind) == ALL,
        None => false,
    }
}

/// Whether a code has an opcode that checks signatures, and none that separates codes.
fn checks_signatures(code: &[u8]) -> bool {
    let mut checks = false;
    let mut separates = false;
    for op in Ops::new(code) {
        let number = number(op);
        checks |= OP_CHECKSIG <= number && number <= OP_CHECKMULTISIGVERIFY;
        separates |= number == OP_CODESEPARATOR;
    }
    checks && !separates
}
