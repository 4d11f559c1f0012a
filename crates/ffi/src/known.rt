//! An input judged by what is known of signatures, as far as that goes.

ghost use Rattle.std.specs.Prelude.{◌≡◌, ◌↔◌, ◌⊎◌, ◌<◌, length, IsTrue, IfOk, IfErr, OnOk};
ghost use Rattle.signatures.specs.Known.{Under, verdict_in};
ghost use Rattle.signatures.specs.Lines.{lines};
ghost use Rattle.interp.specs.Answer.{Stops};
ghost use Rattle.interp.specs.Question.{question};
ghost use Rattle.interp.specs.Rules.{Accepts};
ghost use Rattle.interp.specs.computed.Step.{verdict};
ghost use Rattle.txn.specs.computed.Reader.{tx_at};
ghost use Rattle.ffi.specs.Known.{AreOf, IsFound, IsFoundBy, IsInputFound, IsLineTold, asked_of};
ghost use Rattle.ffi.specs.Refusals.{IsTold};
ghost use Rattle.ffi.specs.Scripts.{flags_of};
ghost use Rattle.ffi.specs.inside.Known.{IsNoKnown};

use crate::answers::{CONTRADICTION, DONE, MEMORY, NO_INPUT, Name, UNKNOWN};
use crate::room::fill;
use crate::scripts::flags_of;
use crate::shown::{ShownFlags, bit};
use crate::tables::{spelled_line, table_of};
use crate::transactions::front;
use interp::{Job, Unverified, verify_with};
use signatures::{FoundTables, KeptTriple};
use std::alloc::Global;
use txn::Tx;
use wire::Cursor;

/// Whether an input of a transaction may spend a script under these rules, by two tables: of signatures that are valid
/// and of others that aren't. Where the scripts ask for one of which nothing is known, its line is put at the front of
/// what is passed for it. Where a line of a table can't be read, `line` is its number, from 1.
#[unsafe(no_mangle)]
pub extern "C" fn ffi_verify_known(
    alloc: Global,
    bytes: &[u8],
    input: u64,
    spent: &[u8],
    flags: &ShownFlags,
    valid: &[u8],
    invalid: &[u8],
    line: &mut u64,
    accepted: &mut u32,
    asked: &mut [u8],
    count: &mut u64,
) -> u32
    ensures { let kept = accepted.new ≡ accepted.old in
        let before = asked_of asked.old count.old in
        let after = asked_of asked.new count.new in
        IsTold (tx_at bytes.now) (λ tx. IsInputFound tx input spent.now (flags_of flags.now)
        (lines valid.now) (lines invalid.now) line.old line.new
        accepted.new kept before after result)
        ((line.new ≡ line.old) × (after ≡ before) × kept) result }
{
    let mut cursor = Cursor::new(bytes);
    match front(alloc, &mut cursor) {
        Err(code) => code,
        Ok(tx) => {
            if input >= tx.inputs.len() as u64 {
                return NO_INPUT;
            }
            match known_of(alloc, valid, invalid, line) {
                Err(code) => code,
                Ok(known) => tell_found(
                    alloc,
                    &tx,
                    input as usize,
                    spent,
                    flags,
                    &known,
                    accepted,
                    asked,
                    count,
                ),
            }
        }
    }
}

/// What two texts say of signatures; else the number that says why that is nothing, and where a line can't be read its
/// number.
pub(crate) fn known_of(
    alloc: Global,
    valid: &[u8],
    invalid: &[u8],
    line: &mut u64,
) -> Result<FoundTables, u32>
    ensures found { IfOk result (AreOf (lines valid.now) (lines invalid.now)) }
    ensures kept { OnOk result (line.new ≡ line.old) }
    ensures refused { IfErr result
        (IsNoKnown (lines valid.now) (lines invalid.now) line.old line.new) }
{
    let valid = match table_of(alloc, valid, line) {
        Err(code) => return Err(code),
        Ok(table) => table,
    };
    let invalid = match table_of(alloc, invalid, line) {
        Err(code) => return Err(code),
        Ok(table) => table,
    };
    match FoundTables::new(valid, invalid) {
        None => Err(CONTRADICTION),
        Some(known) => Ok(known),
    }
}

fn tell_found(
    alloc: Global,
    tx: &Tx,
    input: usize,
    spent: &[u8],
    flags: &ShownFlags,
    known: &FoundTables,
    accepted: &mut u32,
    asked: &mut [u8],
    count: &mut u64,
) -> u32
    requires { input < length tx.now.inputs }
    ensures { let kept = accepted.new ≡ accepted.old in
        let before = asked_of asked.old count.old in
        let after = asked_of asked.new count.new in
        IsFound tx.now input spent.now (flags_of flags.now) known.now accepted.new kept before after
        result }
{
    match judge(alloc, tx, input, spent, flags, known) {
        Ok(yes) => {
            *accepted = bit(yes);
            DONE
        }
        Err(Unverified::Memory) => MEMORY,
        Err(Unverified::Unknown(triple)) => tell_line(alloc, &triple, asked, count),
    }
}

fn judge<'a>(
    alloc: Global,
    tx: &'a Tx,
    input: usize,
    spent: &'a [u8],
    flags: &ShownFlags,
    known: &FoundTables,
) -> Result<bool, Unverified>
    requires { input < length tx.now.inputs }
    ensures answer { IfOk result (λ yes. Under (verdict_in known.now) (λ triples. IsTrue yes
        ↔ Accepts tx.now input spent.now (flags_of flags.now) triples)) }
    ensures stops { IfErr result (Stops (verdict (verdict_in known.now)
        (question tx.now input spent.now (flags_of flags.now)))) }
{
    let flags = flags_of(flags);
    let job = Job {
        tx,
        input,
        spent,
        flags,
        midstates: None,
    };
    verify_with(alloc, &job, known)
}

/// A triple's line, at the front of what is passed for it, and how many bytes it has.
pub(crate) fn tell_line(
    alloc: Global,
    triple: &KeptTriple,
    asked: &mut [u8],
    count: &mut u64,
) -> u32
    ensures { let before = asked_of asked.old count.old in
        let after = asked_of asked.new count.new in
        IsLineTold triple.now before after result ⊎ ((result ≡ 1) × (after ≡ before)) }
{
    let digest = Name {
        bytes: *triple.digest(),
    };
    match spelled_line(alloc, triple.key(), triple.signature(), &digest) {
        Err(_) => MEMORY,
        Ok(spelled) => {
            *count = spelled.len() as u64;
            let code = fill(spelled.as_slice(), asked);
            if code == DONE { UNKNOWN } else { code }
        }
    }
}
