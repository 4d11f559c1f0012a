//! What is asked of a transaction. It is read at the front of bytes; the bytes behind it aren't looked at.

ghost use Rattle.std.specs.Prelude.{◌≡◌, ◌+◌, ◌⊎◌, length, map, IfOk, IfErr, Ok};
ghost use Rattle.txn.specs.Grammar.{transaction};
ghost use Rattle.txn.specs.computed.Reader.{tx_at};
ghost use Rattle.rules.specs.Alone.{tx_sigops};
ghost use Rattle.locks.specs.Finality.{is_final};
ghost use Rattle.ffi.specs.Refusals.{IsTold, bit, broken_number};
ghost use Rattle.ffi.specs.inside.Parts.{IsRefusal, tx_number};
ghost use Rattle.ffi.specs.Transactions.{AreLocksTold, ShowsTx, core_number, counted, start_of};

use crate::answers::{DONE, MEMORY, MISMATCH, Name};
use crate::shown::{ShownTx, Start};
use locks::{LockStart, is_final, relative_ok};
use rules::tx_sigops;
use std::alloc::Global;
use txn::{Reason, Tx, TxFault, check, read};
use wire::{Cursor, Memory};

/// A transaction has at most so many bytes without witnesses.
const MAX_TX_SIZE: usize = 1_000_000;
/// The number of the rule that it has no more.
const OVERSIZE: u32 = 30;

/// Why there is no transaction, by its number.
pub(crate) fn refusal(fault: TxFault) -> u32
    ensures { result ≡ tx_number fault }
{
    match fault {
        TxFault::Short => 20,
        TxFault::LongForm => 21,
        TxFault::TooLarge => 22,
        TxFault::Memory => MEMORY,
    }
}

/// The transaction at the front, or the number that says why there is none.
pub(crate) fn front(alloc: Global, bytes: &mut Cursor) -> Result<Tx, u32>
    ensures found { IfOk result (λ tx. tx_at bytes.old ≡ Ok (tx, bytes.new)) }
    ensures size { IfOk result (λ tx.
        length bytes.old ≡ length (transaction.spell tx) + length bytes.new) }
    ensures refused { IfErr result (IsRefusal (tx_at bytes.old)) }
{
    match read(alloc, bytes) {
        Ok(tx) => Ok(tx),
        Err(fault) => Err(refusal(fault)),
    }
}

/// The number of a rule that is broken, 0 where none is.
pub(crate) fn broken(reason: Option<Reason>) -> u32
    ensures { result ≡ broken_number reason }
{
    match reason {
        None => 0,
        Some(reason) => reason.number() as u32,
    }
}

/// A number in 64 bits: the highest is given for all above it too.
pub(crate) fn counted(n: u128) -> u64
    ensures { result ≡ counted n }
{
    n.min(0xffff_ffff_ffff_ffff) as u64
}

fn sigops_of(tx: &Tx) -> u64
    ensures { result ≡ counted (tx_sigops tx.now) }
{
    counted(tx_sigops(tx))
}

/// The transaction, but for its parts.
#[unsafe(no_mangle)]
pub extern "C" fn ffi_tx(alloc: Global, bytes: &[u8], shown: &mut ShownTx) -> u32
    ensures { IsTold (tx_at bytes.now) (λ tx. (result ≡ 0) × ShowsTx tx shown.new)
        (shown.new ≡ shown.old) result }
{
    let mut cursor = Cursor::new(bytes);
    match front(alloc, &mut cursor) {
        Err(code) => code,
        Ok(tx) => {
            let size = bytes.len() - cursor.rest().len();
            match show(alloc, &tx, size as u64) {
                Err(_) => MEMORY,
                Ok(found) => {
                    *shown = found;
                    DONE
                }
            }
        }
    }
}

fn show(alloc: Global, tx: &Tx, size: u64) -> Result<ShownTx, Memory>
    requires { size ≡ length (transaction.spell tx.now) }
    ensures { IfOk result (ShowsTx tx.now) }
{
    let found = check(alloc, tx)?;
    let bytes = tx.id().0;
    Ok(ShownTx {
        id: Name { bytes },
        size,
        inputs: tx.inputs.len() as u64,
        outputs: tx.outputs.len() as u64,
        sigops: sigops_of(tx),
        version: tx.version,
        lock_time: tx.lock_time,
        coinbase: tx.is_coinbase() as u32,
        reason: broken(found),
    })
}

/// The first rule that it breaks by itself, by Bitcoin Core's rule of sizes too; 0 where there is none.
#[unsafe(no_mangle)]
pub extern "C" fn ffi_tx_check(alloc: Global, bytes: &[u8], reason: &mut u32) -> u32
    ensures { IsTold (tx_at bytes.now)
        (λ tx. (result ≡ 0) × (reason.new ≡ core_number tx))
        (reason.new ≡ reason.old) result }
{
    let mut cursor = Cursor::new(bytes);
    match front(alloc, &mut cursor) {
        Err(code) => code,
        Ok(tx) => {
            let size = bytes.len() - cursor.rest().len();
            match core_number(alloc, &tx, size) {
                Err(_) => MEMORY,
                Ok(found) => {
                    *reason = found;
                    DONE
                }
            }
        }
    }
}

fn core_number(alloc: Global, tx: &Tx, size: usize) -> Result<u32, Memory>
    requires { size ≡ length (transaction.spell tx.now) }
    ensures { IfOk result (λ found. found ≡ core_number tx.now) }
{
    if tx.inputs.len() != 0 && tx.outputs.len() != 0 && size > MAX_TX_SIZE {
        return Ok(OVERSIZE);
    }
    let found = check(alloc, tx)?;
    Ok(broken(found))
}

/// Whether it may stand in a block of this height. The cutoff is the time that its lock time must lie below.
#[unsafe(no_mangle)]
pub extern "C" fn ffi_tx_final(
    alloc: Global,
    bytes: &[u8],
    height: u32,
    cutoff: u32,
    yes: &mut u32,
) -> u32
    ensures { IsTold (tx_at bytes.now)
        (λ tx. (result ≡ 0) × (yes.new ≡ bit (is_final tx height cutoff)))
        (yes.new ≡ yes.old) result }
{
    let mut cursor = Cursor::new(bytes);
    match front(alloc, &mut cursor) {
        Err(code) => code,
        Ok(tx) => {
            *yes = is_final(&tx, height, cutoff) as u32;
            DONE
        }
    }
}

/// Whether its relative locks are met in a block of this height. There is a start for each input, in order; the cutoff
/// is the median time past of the block's parent.
#[unsafe(no_mangle)]
pub extern "C" fn ffi_tx_locks(
    alloc: Global,
    bytes: &[u8],
    starts: &[Start],
    height: u32,
    cutoff: u32,
    yes: &mut u32,
) -> u32
    ensures { IsTold (tx_at bytes.now) (λ tx.
        AreLocksTold tx starts.now height cutoff yes.new (yes.new ≡ yes.old) result)
        (yes.new ≡ yes.old) result }
{
    let mut cursor = Cursor::new(bytes);
    match front(alloc, &mut cursor) {
        Err(code) => code,
        Ok(tx) => tell_locks(alloc, &tx, starts, height, cutoff, yes),
    }
}

fn tell_locks(
    alloc: Global,
    tx: &Tx,
    starts: &[Start],
    height: u32,
    cutoff: u32,
    yes: &mut u32,
) -> u32
    ensures { AreLocksTold tx.now starts.now height cutoff yes.new (yes.new ≡ yes.old) result
        ⊎ ((result ≡ 1) × (yes.new ≡ yes.old)) }
{
    if starts.len() != tx.inputs.len() {
        return MISMATCH;
    }
    match starts_of(alloc, starts) {
        Err(_) => MEMORY,
        Ok(starts) => {
            *yes = relative_ok(tx, starts.as_slice(), height, cutoff) as u32;
            DONE
        }
    }
}

fn starts_of(alloc: Global, starts: &[Start]) -> Result<Vec<LockStart>, Memory>
    ensures { IfOk result (λ list. list.items ≡ map start_of starts.now) }
{
    let mut list = Vec::new(alloc);
    for start in starts {
        list.push(lock_start(start))?;
    }
    Ok(list)
}

fn lock_start(start: &Start) -> LockStart
    ensures { result ≡ start_of start.now }
{
    LockStart {
        height: start.height,
        median: start.median,
    }
}
