//! Coins that C gives, over which it has blocks connected and transactions checked.

ghost use Rattle.std.specs.Prelude.{◌≡◌, ◌==◌, not, pos, None, IfOk, IfErr, IfSome, IfNone, slice_get};
ghost use Rattle.txn.specs.Reason.{number_of};
ghost use Rattle.std.specs.FinMap as coin_map;
ghost use Rattle.txn.specs.computed.Reader.{tx_at};
ghost use Rattle.block.specs.BlockOfBytes.{block_of_bytes};
ghost use Rattle.block.specs.Whole.{Faulty};
ghost use Rattle.block.specs.declared.fault.ReadFault.{ReadFault};
ghost use Rattle.signatures.specs.Triple.{triple_of};
ghost use Rattle.ffi.specs.Answers.{IsCoinShown, IsWantShown, above_of, close_number, outpoint_of};
ghost use Rattle.ffi.specs.Known.{asked_of};
ghost use Rattle.ffi.specs.Lookups.{IsSpentShown};
ghost use Rattle.ffi.specs.Medians.{with_cutoff};
ghost use Rattle.ffi.specs.ParsedTransaction.{IsOfKept};
ghost use Rattle.ffi.specs.Refusals.{IsBlockTold, IsFaultTold, IsTold};
ghost use Rattle.ffi.specs.UtxoState.{IsLearnt, IsTakenBack, known_by};
ghost use Rattle.ffi.specs.Utxo.{AreInputsTold, Becomes, IsConnectTold, IsNextIn, IsPut, IsUtxoOpened, coin_of, fault_row, nearest, setting_of, spent_last};

use crate::answers::{
    CLOSED, DONE, FULL, MEMORY, MISMATCH, NONE, Name, Place, ShownCoin, ShownSpent,
};
use crate::block_rules::refusal;
use crate::known::tell_line;
use crate::lists::{outpoint, tell_coin, tell_next};
use crate::lookups::tell_spent;
use crate::shown::{BlockSetting, BrokenRule, InputsTold};
use crate::transactions::front;
use crate::utxo::Utxo;
use crate::utxo_slot::{UtxoSlot, put_utxo, take_utxo};
use block::{Block, read};
use coins::Coin;
use connect::Context;
use std::alloc::Global;
use txn::{Reason, Script, Tx};
use wire::{Cursor, Memory};

/// The transaction has more inputs and outputs than a block has room for.
const TOO_LARGE: u32 = 22;

/// Opens a set without coins.
#[unsafe(no_mangle)]
pub extern "C" fn ffi_utxo_open(alloc: Global, slot: &mut UtxoSlot) -> u32
    ensures { IsUtxoOpened slot.old.kept.value slot.new.kept.value result }
{
    if slot.is_full() {
        return FULL;
    }
    match Box::new(alloc, Utxo::new(alloc)) {
        Err(_) => MEMORY,
        Ok(utxo) => {
            put_utxo(slot, utxo);
            DONE
        }
    }
}

/// Gives the set's memory back.
#[unsafe(no_mangle)]
pub extern "C" fn ffi_utxo_close(alloc: Global, slot: &mut UtxoSlot) -> u32
    ensures away { slot.new.kept.value ≡ None }
    ensures code { result ≡ close_number slot.old.kept.value }
{
    match take_utxo(alloc, slot) {
        None => CLOSED,
        Some(utxo) => {
            drop(utxo);
            DONE
        }
    }
}

/// Puts a coin in, in the place of one that is at its outpoint. How long the row says that the script is doesn't count.
#[unsafe(no_mangle)]
pub extern "C" fn ffi_utxo_put(
    alloc: Global,
    slot: &mut UtxoSlot,
    at: &Place,
    coin: &ShownCoin,
    script: &[u8],
) -> u32
    ensures { let put = coin_of coin.now script.now in
        Becomes slot.old.kept.value slot.new.kept.value (λ before after.
        IsPut (outpoint_of at.now) put before after result) (Unit {0}) result }
{
    let Some(mut utxo) = take_utxo(alloc, slot) else {
        return CLOSED;
    };
    let code = put_coin(alloc, &mut utxo, at, coin, script);
    put_utxo(slot, utxo);
    code
}

fn put_coin(alloc: Global, utxo: &mut Utxo, at: &Place, row: &ShownCoin, script: &[u8]) -> u32
    ensures { IsPut (outpoint_of at.now) (coin_of row.now script.now) utxo.old utxo.new result }
{
    let mut bytes = Vec::new(alloc);
    if bytes.extend_from_slice(script).is_err() {
        return MEMORY;
    }
    let coin = Coin {
        value: row.value,
        script: Script::from_vec(bytes),
        height: row.height,
        coinbase: row.coinbase != 0,
    };
    match utxo.put(outpoint(at), coin) {
        Ok(()) => DONE,
        Err(Memory) => MEMORY,
    }
}

/// The coin at an outpoint. Its script is put at the front of `script`, where that is long enough.
#[unsafe(no_mangle)]
pub extern "C" fn ffi_utxo_coin(
    alloc: Global,
    slot: &mut UtxoSlot,
    at: &Place,
    coin: &mut ShownCoin,
    script: &mut [u8],
) -> u32
    ensures stays { slot.new.kept.value ≡ slot.old.kept.value }
    ensures told { IsOfKept slot.old.kept.value (λ u.
        IsCoinShown (coin_map.get u.coins (outpoint_of at.now)) coin.old coin.new
        script.old script.new result) ((coin.new ≡ coin.old) × (script.new ≡ script.old)) result }
{
    let Some(utxo) = take_utxo(alloc, slot) else {
        return CLOSED;
    };
    let code = show_coin(&utxo, at, coin, script);
    put_utxo(slot, utxo);
    code
}

fn show_coin(utxo: &Utxo, at: &Place, shown: &mut ShownCoin, script: &mut [u8]) -> u32
    ensures { IsCoinShown (coin_map.get utxo.now.coins (outpoint_of at.now)) shown.old shown.new
        script.old script.new result }
{
    match utxo.coin(&outpoint(at)) {
        Some(coin) => tell_coin(coin, shown, script),
        None => NONE,
    }
}

/// The coin at the least outpoint above `at`, or the least of all where `above` is 0, as `ffi_coin_after` has it.
#[unsafe(no_mangle)]
pub extern "C" fn ffi_utxo_coin_after(
    alloc: Global,
    slot: &mut UtxoSlot,
    above: u32,
    at: &mut Place,
    coin: &mut ShownCoin,
    script: &mut [u8],
) -> u32
    ensures stays { slot.new.kept.value ≡ slot.old.kept.value }
    ensures told { IsOfKept slot.old.kept.value (λ u. IsNextIn u.coins (above_of above at.old)
        (record { at = at.old; shown = coin.old; script = script.old })
        (record { at = at.new; shown = coin.new; script = script.new }) result)
        ((at.new ≡ at.old) × (coin.new ≡ coin.old) × (script.new ≡ script.old)) result }
{
    let Some(utxo) = take_utxo(alloc, slot) else {
        return CLOSED;
    };
    let code = show_next(&utxo, above, at, coin, script);
    put_utxo(slot, utxo);
    code
}

fn show_next(
    utxo: &Utxo,
    above: u32,
    at: &mut Place,
    shown: &mut ShownCoin,
    script: &mut [u8],
) -> u32
    ensures { IsNextIn utxo.now.coins (above_of above at.old)
        (record { at = at.old; shown = shown.old; script = script.old })
        (record { at = at.new; shown = shown.new; script = script.new }) result }
{
    let from = outpoint(at);
    let found = utxo.coin_after(if above == 0 { None } else { Some(&from) });
    tell_next(found, at, shown, script)
}

/// Takes the verdict on a signature, which is without its hash type: 0 where it isn't valid. One that is known stays.
#[unsafe(no_mangle)]
pub extern "C" fn ffi_utxo_learn(
    alloc: Global,
    slot: &mut UtxoSlot,
    key: &[u8],
    signature: &[u8],
    digest: &Name,
    valid: u32,
) -> u32
    ensures { let t = triple_of key.now signature.now digest.now.bytes in
        Becomes slot.old.kept.value slot.new.kept.value (λ before after.
        IsLearnt before after t (not (valid == 0)) (known_by before t) result) (Unit {0}) result }
{
    let Some(mut utxo) = take_utxo(alloc, slot) else {
        return CLOSED;
    };
    let bytes = digest.bytes;
    let code = utxo.learn(key, signature, &bytes, valid != 0);
    put_utxo(slot, utxo);
    code
}

/// The line of the signature at a place, from 0, of those that have to be found out before the last block has an answer.
#[unsafe(no_mangle)]
pub extern "C" fn ffi_utxo_want(
    alloc: Global,
    slot: &mut UtxoSlot,
    index: u64,
    asked: &mut [u8],
    count: &mut u64,
) -> u32
    ensures stays { slot.new.kept.value ≡ slot.old.kept.value }
    ensures told { let before = asked_of asked.old count.old in
        let after = asked_of asked.new count.new in
        IsOfKept slot.old.kept.value (λ u. IsWantShown (slice_get u.wanted index) before after
        result) (after ≡ before) result }
{
    let Some(utxo) = take_utxo(alloc, slot) else {
        return CLOSED;
    };
    let code = show_want(alloc, &utxo, index as usize, asked, count);
    put_utxo(slot, utxo);
    code
}

fn show_want(alloc: Global, utxo: &Utxo, index: usize, asked: &mut [u8], count: &mut u64) -> u32
    ensures { let before = asked_of asked.old count.old in
        let after = asked_of asked.new count.new in
        IsWantShown (slice_get utxo.now.wanted index) before after result }
{
    match utxo.wanted(index) {
        None => NONE,
        Some(triple) => tell_line(alloc, triple, asked, count),
    }
}

/// Connects the block of these bytes to the coins, as a block of this setting: the first rule that it breaks by itself or
/// over them, by what is known of signatures. Its place under its parent isn't asked. Where a relative lock counts from a median
/// that isn't given, it isn't looked at.
#[unsafe(no_mangle)]
pub extern "C" fn ffi_connect(
    alloc: Global,
    slot: &mut UtxoSlot,
    bytes: &[u8],
    setting: &BlockSetting,
    fault: &mut BrokenRule,
) -> u32
    ensures told { IsBlockTold bytes.now (block_of_bytes bytes.now) (λ block.
        Becomes slot.old.kept.value slot.new.kept.value (λ before after.
        IsConnectTold (setting_of setting.now) block fault.old fault.new result before after)
        (fault.new ≡ fault.old) result)
        ((slot.new.kept.value ≡ slot.old.kept.value) × (fault.new ≡ fault.old)) result }
    ensures refused { (e : ReadFault) → Faulty e bytes.now → IsFaultTold e result }
{
    match read(alloc, bytes) {
        Err(fault) => refusal(fault),
        Ok(block) => {
            let Some(mut utxo) = take_utxo(alloc, slot) else {
                return CLOSED;
            };
            let code = connect_block(alloc, &mut utxo, block, setting, fault);
            put_utxo(slot, utxo);
            code
        }
    }
}

fn connect_block(
    alloc: Global,
    utxo: &mut Utxo,
    block: Block,
    setting: &BlockSetting,
    fault: &mut BrokenRule,
) -> u32
    ensures { IsConnectTold (setting_of setting.now) block fault.old fault.new result
        utxo.old utxo.new }
{
    match with_cutoff(alloc, setting) {
        Err(Memory) => MEMORY,
        Ok(None) => connect_by(alloc, utxo, block, setting, setting.medians, fault),
        Ok(Some(all)) => connect_by(alloc, utxo, block, setting, all.as_slice(), fault),
    }
}

/// The medians with the parent's, which is the cutoff, where only that lacks.
fn with_cutoff(alloc: Global, setting: &BlockSetting) -> Result<Option<Vec<u32>>, Memory>
    ensures all { let s = setting.now in IfOk result (λ found. IfSome found (λ all.
        with_cutoff s.medians.now s.height s.cutoff ≡ all.items)) }
    ensures given { let s = setting.now in IfOk result (λ found. IfNone found
        (with_cutoff s.medians.now s.height s.cutoff ≡ s.medians.now)) }
{
    if setting.medians.len() != setting.height.saturating_sub(1) as usize {
        return Ok(None);
    }
    let mut all = Vec::new(alloc);
    all.extend_from_slice(setting.medians)?;
    all.push(setting.cutoff)?;
    Ok(Some(all))
}

/// The same by all medians.
fn connect_by(
    alloc: Global,
    utxo: &mut Utxo,
    block: Block,
    setting: &BlockSetting,
    medians: &[u32],
    fault: &mut BrokenRule,
) -> u32
    requires { let s = setting.now in
        with_cutoff s.medians.now s.height s.cutoff ≡ medians.now }
    ensures { IsConnectTold (setting_of setting.now) block fault.old fault.new result
        utxo.old utxo.new }
{
    let params = setting.heights.params();
    let context = Context {
        height: setting.height,
        cutoff: setting.cutoff,
        medians,
        params: &params,
    };
    if utxo.lacks_medians(&context, &block) {
        return MISMATCH;
    }
    match utxo.connect(alloc, &context, block) {
        Err(code) => code,
        Ok(found) => {
            *fault = fault_row(found);
            DONE
        }
    }
}

fn fault_row(found: Option<Reason>) -> BrokenRule
    ensures { result ≡ fault_row found }
{
    let mut row = BrokenRule {
        transaction: 0,
        input: 0,
        reason: 0,
    };
    if let Some(reason) = found {
        row.reason = reason.number() as u32;
        if let Reason::ScriptRefused { transaction, input } = reason {
            row.transaction = transaction as u64;
            row.input = input as u64;
        }
    }
    row
}

/// Takes back the block that was connected last, where nothing else has changed the coins since.
#[unsafe(no_mangle)]
pub extern "C" fn ffi_disconnect(alloc: Global, slot: &mut UtxoSlot) -> u32
    ensures { Becomes slot.old.kept.value slot.new.kept.value (λ before after.
        IsTakenBack before before.last after result) (Unit {0}) result }
{
    let Some(mut utxo) = take_utxo(alloc, slot) else {
        return CLOSED;
    };
    let code = utxo.disconnect(alloc);
    put_utxo(slot, utxo);
    code
}

/// The coins that the block spent that was connected last, as `ffi_spent` has them of an active one.
#[unsafe(no_mangle)]
pub extern "C" fn ffi_utxo_spent(
    alloc: Global,
    slot: &mut UtxoSlot,
    coins: &mut [ShownCoin],
    scripts: &mut [u8],
    size: &mut ShownSpent,
) -> u32
    ensures stays { slot.new.kept.value ≡ slot.old.kept.value }
    ensures told { IsOfKept slot.old.kept.value (λ u. IsSpentShown (spent_last u.last)
        (record { coins = coins.old; scripts = scripts.old; size = size.old })
        (record { coins = coins.new; scripts = scripts.new; size = size.new }) result)
        ((coins.new ≡ coins.old) × (scripts.new ≡ scripts.old) × (size.new ≡ size.old)) result }
{
    let Some(utxo) = take_utxo(alloc, slot) else {
        return CLOSED;
    };
    let code = show_spent(alloc, &utxo, coins, scripts, size);
    put_utxo(slot, utxo);
    code
}

fn show_spent(
    alloc: Global,
    utxo: &Utxo,
    coins: &mut [ShownCoin],
    scripts: &mut [u8],
    size: &mut ShownSpent,
) -> u32
    ensures { IsSpentShown (spent_last utxo.now.last)
        (record { coins = coins.old; scripts = scripts.old; size = size.old })
        (record { coins = coins.new; scripts = scripts.new; size = size.new }) result }
{
    match utxo.undo() {
        None => NONE,
        Some(undo) => tell_spent(alloc, undo, coins, scripts, size),
    }
}

/// What the transaction at the front of these bytes gives as its fee in a block of this height, or the first rule that it
/// breaks by itself or by its inputs, over the coins.
#[unsafe(no_mangle)]
pub extern "C" fn ffi_check_tx_inputs(
    alloc: Global,
    slot: &mut UtxoSlot,
    bytes: &[u8],
    height: u32,
    told: &mut InputsTold,
) -> u32
    ensures stays { slot.new.kept.value ≡ slot.old.kept.value }
    ensures told { IsTold (tx_at bytes.now) (λ tx. IsOfKept slot.old.kept.value (λ u.
        AreInputsTold u.coins tx height told.old told.new result) (told.new ≡ told.old) result)
        (told.new ≡ told.old) result }
{
    let mut cursor = Cursor::new(bytes);
    match front(alloc, &mut cursor) {
        Err(code) => code,
        Ok(tx) => {
            let Some(utxo) = take_utxo(alloc, slot) else {
                return CLOSED;
            };
            let code = tell_inputs(alloc, &utxo, &tx, height, told);
            put_utxo(slot, utxo);
            code
        }
    }
}

fn tell_inputs(alloc: Global, utxo: &Utxo, tx: &Tx, height: u32, told: &mut InputsTold) -> u32
    ensures { AreInputsTold utxo.now.coins tx.now height told.old told.new result }
{
    let (inputs, outputs) = (tx.inputs.len(), tx.outputs.len());
    if inputs > 1_000_000 || outputs > 1_000_000 - inputs {
        return TOO_LARGE;
    }
    match utxo.check_tx_inputs(alloc, tx, height) {
        Err(Memory) => MEMORY,
        Ok(found) => {
            *told = inputs_row(found);
            DONE
        }
    }
}

fn inputs_row(found: Result<i128, Reason>) -> InputsTold
    ensures fee { IfOk found (λ given. (result.fee ≡ nearest given) × (result.reason ≡ 0)) }
    ensures reason { IfErr found (λ reason.
        (result.fee ≡ pos 0) × (result.reason ≡ number_of reason)) }
{
    match found {
        Ok(fee) => InputsTold {
            fee: nearest(fee),
            reason: 0,
        },
        Err(reason) => InputsTold {
            fee: 0,
            reason: reason.number() as u32,
        },
    }
}

/// The number that is nearest among those of 64 bits.
fn nearest(fee: i128) -> i64
    ensures { result ≡ nearest fee }
{
    if fee > 9_223_372_036_854_775_807 {
        9_223_372_036_854_775_807
    } else if fee < -9_223_372_036_854_775_808 {
        -9_223_372_036_854_775_808
    } else {
        fee as i64
    }
}
