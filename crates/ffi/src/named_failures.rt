//! Scripts and inputs with the names of their failures, by what is known of signatures.

ghost use Rattle.std.specs.Prelude.{◌≡◌, ◌<◌, length};
ghost use Rattle.signatures.specs.Lines.{lines};
ghost use Rattle.interp.specs.Answer.{Tells};
ghost use Rattle.interp.specs.Question.{question};
ghost use Rattle.interp.specs.computed.NamedFailures.{Named, verify_script};
ghost use Rattle.txn.specs.computed.Reader.{tx_at};
ghost use Rattle.ffi.specs.Known.{asked_of};
ghost use Rattle.ffi.specs.NamedFailures.{number_of, failure_number, has_bit, flags_in, IsAnswered, IsInputNamed, told_of};
ghost use Rattle.ffi.specs.Refusals.{IsTold};

use crate::answers::{DONE, MEMORY, NO_INPUT};
use crate::known::{known_of, tell_line};
use crate::transactions::front;
use interp::{Flags, Job, ScriptError, Unverified, verify_script};
use signatures::KnowsSignatures;
use std::alloc::Global;
use txn::Tx;
use wire::Cursor;

/// Why an input of a transaction may not spend a script under these rules, by the number of the failure, 0 where it may,
/// by two tables: of signatures that are valid and of others that aren't. Where the scripts ask for one of which nothing
/// is known, its line is put at the front of what is passed for it. Where a line of a table can't be read, `line` is its
/// number, from 1.
#[unsafe(no_mangle)]
pub extern "C" fn ffi_verify_script(
    alloc: Global,
    bytes: &[u8],
    input: u64,
    spent: &[u8],
    flags: u32,
    valid: &[u8],
    invalid: &[u8],
    line: &mut u64,
    error: &mut u32,
    asked: &mut [u8],
    count: &mut u64,
) -> u32
    ensures { let before = told_of line.old error.old asked.old count.old in
        let after = told_of line.new error.new asked.new count.new in
        IsTold (tx_at bytes.now) (λ tx. IsInputNamed tx input spent.now flags (lines valid.now)
        (lines invalid.now) before after result) (after ≡ before) result }
{
    let mut cursor = Cursor::new(bytes);
    match front(alloc, &mut cursor) {
        Err(code) => code,
        Ok(tx) => {
            if input >= tx.inputs.len() as u64 {
                return NO_INPUT;
            }
            match known_of(alloc, valid, invalid, line) {
                Err(code) => code,
                Ok(known) => {
                    let found = judge(alloc, &tx, input as usize, spent, flags, &known);
                    tell_failure(alloc, found, error, asked, count)
                }
            }
        }
    }
}

/// Tells what was found of an input: why it may not spend a script, or the triple that is asked for.
pub(crate) fn tell_failure(
    alloc: Global,
    found: Result<Result<(), ScriptError>, Unverified>,
    error: &mut u32,
    asked: &mut [u8],
    count: &mut u64,
) -> u32
    ensures { (answer : Named (Unit {0})) → Tells found answer
        → let before = asked_of asked.old count.old in
        let after = asked_of asked.new count.new in
        IsAnswered answer (λ named. (result ≡ 0) × (error.new ≡ failure_number named))
        (error.new ≡ error.old) before after result }
{
    match found {
        Ok(Ok(())) => {
            *error = 0;
            DONE
        }
        Ok(Err(name)) => {
            *error = number_of(name);
            DONE
        }
        Err(Unverified::Memory) => MEMORY,
        Err(Unverified::Unknown(triple)) => tell_line(alloc, &triple, asked, count),
    }
}

fn judge<'a, K: KnowsSignatures>(
    alloc: Global,
    tx: &'a Tx,
    input: usize,
    spent: &'a [u8],
    flags: u32,
    known: &K,
) -> Result<Result<(), ScriptError>, Unverified>
    requires { input < length tx.now.inputs }
    ensures { Tells result (verify_script (K.known known.now)
        (question tx.now input spent.now (flags_in flags))) }
{
    let flags = flags_in(flags);
    let job = Job {
        tx,
        input,
        spent,
        flags,
        midstates: None,
    };
    verify_script(alloc, &job, known)
}

/// Whether a number has the bit of this weight.
fn has_bit(weight: u32, n: u32) -> bool
    requires { 0 < weight }
    ensures { result ≡ has_bit weight n }
{
    (n / weight) % 2 == 1
}

/// The rules that are in force, by Bitcoin Core's bits.
pub(crate) fn flags_in(n: u32) -> Flags
    ensures { result ≡ flags_in n }
{
    Flags {
        p2sh: has_bit(1, n),
        dersig: has_bit(4, n),
        cltv: has_bit(512, n),
        csv: has_bit(1024, n),
        nulldummy: has_bit(16, n),
    }
}

/// The number of a failure, by Bitcoin Core's numbers.
pub(crate) fn number_of(name: ScriptError) -> u32
    ensures { result ≡ number_of name }
{
    match name {
        ScriptError::UnknownError => 1,
        ScriptError::EvalFalse => 2,
        ScriptError::OpReturn => 3,
        ScriptError::ScriptSize => 4,
        ScriptError::PushSize => 5,
        ScriptError::OpCount => 6,
        ScriptError::StackSize => 7,
        ScriptError::SigCount => 8,
        ScriptError::PubkeyCount => 9,
        ScriptError::Verify => 10,
        ScriptError::EqualVerify => 11,
        ScriptError::CheckMultisigVerify => 12,
        ScriptError::CheckSigVerify => 13,
        ScriptError::NumEqualVerify => 14,
        ScriptError::BadOpcode => 15,
        ScriptError::DisabledOpcode => 16,
        ScriptError::InvalidStackOperation => 17,
        ScriptError::InvalidAltstackOperation => 18,
        ScriptError::UnbalancedConditional => 19,
        ScriptError::NegativeLocktime => 20,
        ScriptError::UnsatisfiedLocktime => 21,
        ScriptError::SigDer => 23,
        ScriptError::SigPushOnly => 25,
        ScriptError::SigNullDummy => 27,
    }
}
