//! Which name an opcode's failure has.

ghost use Rattle.std.specs.Prelude.{◌≡◌, ◌≤◌, min, drop, IfOk};
ghost use Rattle.script.specs.Num.{operand};
ghost use Rattle.interp.specs.Elements.{natural};
ghost use Rattle.interp.specs.Failures.{few, place_name, lock_name, count_of, count_or, multisig_name, name_at, verify_name};

use crate::element::Element;
use crate::execution::{MAX_KEYS, MAX_OPS};
use crate::numbers::MAX_OPERAND;
use crate::pile::Pile;
use crate::script_error::ScriptError;
use crate::timelocks::MAX_LOCK;
use script::Num;
use script::opcode::*;

/// The number of at most so many bytes.
fn operand(bytes: &[u8], most: usize) -> Option<i64>
    ensures { result ≡ operand (min most 8) bytes.now }
{
    let Num(z) = Num::read(bytes, most)?;
    Some(z)
}

/// A number that isn't negative.
fn natural(z: i64) -> Option<u64>
    ensures { result ≡ natural z }
{
    if z < 0 {
        return None;
    }
    Some(z.unsigned_abs())
}

/// Too few elements, else the other name.
fn few(main: &Pile<Element>, n: usize, other: ScriptError) -> ScriptError
    ensures { result ≡ few n other main.now 0 }
{
    if main.len() < n {
        return ScriptError::InvalidStackOperation;
    }
    other
}

/// Of PICK and ROLL.
fn place_name(main: &Pile<Element>) -> ScriptError
    ensures { result ≡ place_name main.now }
{
    if main.len() < 2 {
        return ScriptError::InvalidStackOperation;
    }
    match operand(main.at(0).as_slice(), MAX_OPERAND) {
        Some(_) => ScriptError::InvalidStackOperation,
        None => ScriptError::UnknownError,
    }
}

/// Of CHECKLOCKTIMEVERIFY and CHECKSEQUENCEVERIFY.
fn lock_name(main: &Pile<Element>) -> ScriptError
    ensures { result ≡ lock_name main.now }
{
    if main.len() == 0 {
        return ScriptError::InvalidStackOperation;
    }
    let Some(z) = operand(main.at(0).as_slice(), MAX_LOCK) else {
        return ScriptError::UnknownError;
    };
    match natural(z) {
        Some(_) => ScriptError::UnsatisfiedLocktime,
        None => ScriptError::NegativeLocktime,
    }
}

/// The number of an element, if it is from 0 to `most`, else why it isn't.
fn count_of(bytes: &[u8], most: usize, beyond: ScriptError) -> Result<usize, ScriptError>
    ensures value { result ≡ count_of most beyond bytes.now }
    ensures bound { IfOk result (λ n. n ≤ most) }
{
    let Some(z) = operand(bytes, MAX_OPERAND) else {
        return Err(ScriptError::UnknownError);
    };
    let Some(n) = natural(z) else {
        return Err(beyond);
    };
    if n > most as u64 {
        return Err(beyond);
    }
    Ok(n as usize)
}

/// The number so far below the top, if it is from 0 to `most`, else why it isn't.
#[tactic(auto, unfolding(crate::specs::Failures::count_or))]
fn count_or(
    main: &Pile<Element>,
    at: usize,
    most: usize,
    beyond: ScriptError,
) -> Result<usize, ScriptError>
    ensures value { result ≡ count_or most beyond (drop at main.now) }
    ensures bound { IfOk result (λ n. n ≤ most) }
{
    if at >= main.len() {
        return Err(ScriptError::InvalidStackOperation);
    }
    count_of(main.at(at).as_slice(), most, beyond)
}

/// Of CHECKMULTISIG, after so many opcodes.
fn multisig_name(main: &Pile<Element>, count: usize) -> ScriptError
    ensures { result ≡ multisig_name main.now count }
{
    let keys = match count_or(main, 0, MAX_KEYS, ScriptError::PubkeyCount) {
        Err(name) => return name,
        Ok(keys) => keys,
    };
    if count > MAX_OPS - keys {
        return ScriptError::OpCount;
    }
    let signatures = match count_or(main, keys + 1, keys, ScriptError::SigCount) {
        Err(name) => return name,
        Ok(signatures) => signatures,
    };
    if main.len() < keys + signatures + 3 {
        return ScriptError::InvalidStackOperation;
    }
    ScriptError::SigDer
}

/// The name of the failure of an opcode of this number, with the main stack that it finds and how many opcodes were
/// counted with it.
#[tactic(auto, using(crate::proofs::OpcodeNames::naming))]
pub fn name_at(number: u8, main: &Pile<Element>, count: usize) -> ScriptError
    ensures { result ≡ name_at number main.now count }
{
    match number {
        OP_0..=OP_PUSHDATA4 => ScriptError::PushSize,
        OP_1NEGATE..=OP_VER => ScriptError::BadOpcode,
        OP_IF..=OP_NOTIF => ScriptError::UnbalancedConditional,
        OP_VERIF..=OP_VERNOTIF => ScriptError::BadOpcode,
        OP_ELSE..=OP_ENDIF => ScriptError::UnbalancedConditional,
        OP_VERIFY => few(main, 1, ScriptError::Verify),
        OP_RETURN => ScriptError::OpReturn,
        OP_TOALTSTACK => ScriptError::InvalidStackOperation,
        OP_FROMALTSTACK => ScriptError::InvalidAltstackOperation,
        OP_2DROP..=OP_OVER => ScriptError::InvalidStackOperation,
        OP_PICK..=OP_ROLL => place_name(main),
        OP_ROT..=OP_TUCK => ScriptError::InvalidStackOperation,
        OP_CAT..=OP_RIGHT => ScriptError::DisabledOpcode,
        OP_SIZE => ScriptError::InvalidStackOperation,
        OP_INVERT..=OP_XOR => ScriptError::DisabledOpcode,
        OP_EQUAL..=OP_EQUALVERIFY => ScriptError::InvalidStackOperation,
        OP_RESERVED1..=OP_RESERVED2 => ScriptError::BadOpcode,
        OP_1ADD..=OP_1SUB => few(main, 1, ScriptError::UnknownError),
        OP_2MUL..=OP_2DIV => ScriptError::DisabledOpcode,
        OP_NEGATE..=OP_0NOTEQUAL => few(main, 1, ScriptError::UnknownError),
        OP_ADD..=OP_SUB => few(main, 2, ScriptError::UnknownError),
        OP_MUL..=OP_RSHIFT => ScriptError::DisabledOpcode,
        OP_BOOLAND..=OP_MAX => few(main, 2, ScriptError::UnknownError),
        OP_WITHIN => few(main, 3, ScriptError::UnknownError),
        OP_RIPEMD160..=OP_HASH256 => ScriptError::InvalidStackOperation,
        OP_CODESEPARATOR => ScriptError::BadOpcode,
        OP_CHECKSIG..=OP_CHECKSIGVERIFY => few(main, 2, ScriptError::SigDer),
        OP_CHECKMULTISIG..=OP_CHECKMULTISIGVERIFY => multisig_name(main, count),
        OP_NOP1 => ScriptError::BadOpcode,
        OP_CHECKLOCKTIMEVERIFY..=OP_CHECKSEQUENCEVERIFY => lock_name(main),
        OP_NOP4..=OP_INVALIDOPCODE => ScriptError::BadOpcode,
    }
}

/// The name where the test of an opcode that verifies was done, and its answer is false.
#[tactic(auto, unfolding(crate::specs::Failures::verify_name))]
pub fn verify_name(number: u8) -> ScriptError
    ensures { result ≡ verify_name number }
{
    match number {
        OP_EQUALVERIFY => ScriptError::EqualVerify,
        OP_NUMEQUALVERIFY => ScriptError::NumEqualVerify,
        OP_CHECKSIGVERIFY => ScriptError::CheckSigVerify,
        _ => ScriptError::CheckMultisigVerify,
    }
}
