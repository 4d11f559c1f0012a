//! What is asked of scripts, and of an input that spends one.

ghost use Rattle.std.specs.Prelude.{◌≡◌, ◌↔◌, ◌<◌, ◌∷◌, [], min, length, IsTrue, IfOk};
ghost use Rattle.signatures.specs.Lines.{lines};
ghost use Rattle.signatures.specs.computed.Shape.{is_strict};
ghost use Rattle.interp.specs.Rules.{Accepts};
ghost use Rattle.script.specs.Num.{operand, shortest_bytes};
ghost use Rattle.script.specs.Ops.{ops};
ghost use Rattle.script.specs.Signatures.{p2sh_sigops};
ghost use Rattle.sighash.specs.Digest.{digest_of};
ghost use Rattle.txn.specs.computed.Reader.{tx_at};
ghost use Rattle.ffi.specs.Refusals.{IsTold, bit};
ghost use Rattle.ffi.specs.Room.{IsCounted};
ghost use Rattle.ffi.specs.Scripts.{IsNumberTold, IsOfInput, IsInputJudged, IsJudged, IsOpShown, ShowsScript, flags_of};
ghost use Rattle.ffi.specs.Transactions.{counted};

use crate::answers::{DONE, MEMORY, NO_INPUT, NONE, Name};
use crate::room::fill;
use crate::shown::{ShownFlags, ShownOp, ShownScript, bit};
use crate::tables::table_of;
use crate::transactions::{counted, front};
use interp::{Flags, Job, verify};
use script::{
    Counting, Num, Ops, is_p2sh, number, p2sh_sigops, push_only, pushed, sigops, unspendable,
};
use sighash::digest;
use signatures::{Table, der_shape};
use std::alloc::Global;
use txn::Tx;
use wire::{Cursor, Memory};

/// The opcode at the front of a script.
#[unsafe(no_mangle)]
pub extern "C" fn ffi_op(script: &[u8], shown: &mut ShownOp) -> u32
    ensures { IsOpShown script.now (ops script.now) shown.new (shown.new ≡ shown.old) result }
{
    let mut ops = Ops::new(script);
    match ops.next() {
        None => NONE,
        Some(op) => {
            *shown = ShownOp {
                length: op.len() as u64,
                pushed: pushed(op).len() as u64,
                number: number(op) as u32,
            };
            DONE
        }
    }
}

/// A script's signature operations and its kind.
#[unsafe(no_mangle)]
pub extern "C" fn ffi_script(script: &[u8], shown: &mut ShownScript) -> u32
    ensures shown { ShowsScript script.now shown.new }
    ensures done { result ≡ 0 }
{
    *shown = ShownScript {
        plain: counted(sigops(script, Counting::Plain)),
        accurate: counted(sigops(script, Counting::Accurate)),
        push_only: push_only(script) as u32,
        p2sh: is_p2sh(script) as u32,
        unspendable: unspendable(script) as u32,
    };
    DONE
}

/// The signature operations of the inner script of an input script and the script that it spends (BIP 16).
#[unsafe(no_mangle)]
pub extern "C" fn ffi_p2sh_sigops(input: &[u8], spent: &[u8]) -> u64
    ensures { result ≡ counted (p2sh_sigops input.now spent.now) }
{
    counted(p2sh_sigops(input, spent))
}

/// The number that at most `most` bytes spell.
#[unsafe(no_mangle)]
pub extern "C" fn ffi_number(bytes: &[u8], most: u64, value: &mut i64) -> u32
    ensures { IsNumberTold (operand (min most 8) bytes.now)
        value.new (value.new ≡ value.old) result }
{
    match Num::read(bytes, most as usize) {
        None => NONE,
        Some(found) => {
            *value = found.0;
            DONE
        }
    }
}

/// A number's shortest spelling, at the front of what is passed for it, and how many bytes it has.
#[unsafe(no_mangle)]
pub extern "C" fn ffi_number_bytes(
    alloc: Global,
    value: i64,
    bytes: &mut [u8],
    count: &mut u64,
) -> u32
    ensures { IsCounted (shortest_bytes value) bytes.old bytes.new count.old count.new result }
{
    match Num(value).spell(alloc) {
        Err(_) => MEMORY,
        Ok(spelled) => {
            *count = spelled.len() as u64;
            fill(spelled.as_slice(), bytes)
        }
    }
}

/// 1 where a signature with its hash type is strictly encoded (BIP 66) or has no byte, and else 0.
#[unsafe(no_mangle)]
pub extern "C" fn ffi_strict(bytes: &[u8]) -> u32
    ensures { result ≡ bit (is_strict bytes.now) }
{
    bit(der_shape(bytes))
}

/// What a signature of an input signs, for this code and hash type.
#[unsafe(no_mangle)]
pub extern "C" fn ffi_digest(
    alloc: Global,
    bytes: &[u8],
    input: u64,
    code: &[u8],
    kind: u32,
    found: &mut Name,
) -> u32
    ensures { IsTold (tx_at bytes.now) (λ tx. IsOfInput tx input
        (found.new.bytes ≡ digest_of tx input code.now kind) (found.new ≡ found.old) result)
        (found.new ≡ found.old) result }
{
    let mut cursor = Cursor::new(bytes);
    match front(alloc, &mut cursor) {
        Err(code) => code,
        Ok(tx) => {
            if input >= tx.inputs.len() as u64 {
                return NO_INPUT;
            }
            let signed = digest_of_code(&tx, input as usize, code, kind);
            found.bytes = signed;
            DONE
        }
    }
}

fn digest_of_code(tx: &Tx, input: usize, code: &[u8], kind: u32) -> [u8; 32]
    requires { input < length tx.now.inputs }
    ensures { result ≡ digest_of tx.now input code.now kind }
{
    digest(tx, input, &[code], kind)
}

pub(crate) fn flags_of(flags: &ShownFlags) -> Flags
    ensures { result ≡ flags_of flags.now }
{
    Flags {
        p2sh: true,
        dersig: flags.dersig != 0,
        cltv: flags.cltv != 0,
        csv: flags.csv != 0,
        nulldummy: false,
    }
}

/// Whether an input of a transaction may spend a script under these rules. The table's lines are the signatures that are
/// valid; where one can't be read, `line` is its number, from 1.
#[unsafe(no_mangle)]
pub extern "C" fn ffi_verify(
    alloc: Global,
    bytes: &[u8],
    input: u64,
    spent: &[u8],
    flags: &ShownFlags,
    table: &[u8],
    line: &mut u64,
    accepted: &mut u32,
) -> u32
    ensures { let kept = accepted.new ≡ accepted.old in
        IsTold (tx_at bytes.now) (λ tx. IsInputJudged tx input spent.now (flags_of flags.now)
        (lines table.now) line.old line.new accepted.new kept result)
        ((line.new ≡ line.old) × kept) result }
{
    let mut cursor = Cursor::new(bytes);
    match front(alloc, &mut cursor) {
        Err(code) => code,
        Ok(tx) => {
            if input >= tx.inputs.len() as u64 {
                return NO_INPUT;
            }
            tell_verdict(
                alloc,
                &tx,
                input as usize,
                spent,
                flags,
                table,
                line,
                accepted,
            )
        }
    }
}

fn tell_verdict(
    alloc: Global,
    tx: &Tx,
    input: usize,
    spent: &[u8],
    flags: &ShownFlags,
    table: &[u8],
    line: &mut u64,
    accepted: &mut u32,
) -> u32
    requires { input < length tx.now.inputs }
    ensures { IsJudged tx.now input spent.now (flags_of flags.now) (lines table.now)
        line.old line.new accepted.new (accepted.new ≡ accepted.old) result }
{
    match table_of(alloc, table, line) {
        Err(code) => code,
        Ok(table) => match judge(alloc, tx, input, spent, flags, &table) {
            Err(_) => MEMORY,
            Ok(yes) => {
                *accepted = bit(yes);
                DONE
            }
        },
    }
}

fn judge<'a>(
    alloc: Global,
    tx: &'a Tx,
    input: usize,
    spent: &'a [u8],
    flags: &ShownFlags,
    table: &Table,
) -> Result<bool, Memory>
    requires { input < length tx.now.inputs }
    ensures { IfOk result (λ yes. IsTrue yes
        ↔ Accepts tx.now input spent.now (flags_of flags.now) table.now) }
{
    let flags = flags_of(flags);
    let job = Job {
        tx,
        input,
        spent,
        flags,
        midstates: None,
    };
    verify(alloc, &job, table)
}
