//! The calls, as C names them. A slot that holds no session is answered by a number, and nothing changes.

ghost use Rattle.std.specs.Prelude.{◌≡◌, ◌==◌, not, None, Some, slice_get};
ghost use Rattle.std.specs.FinMap as coin_map;
ghost use Rattle.signatures.specs.Lines.{lines};
ghost use Rattle.signatures.specs.Triple.{triple_of};
ghost use Rattle.model.specs.declared.command.Command.TheVariants as command;
ghost use Rattle.model.specs.Regtest.{ledger};
ghost use Rattle.model.specs.Replay.{coins};
ghost use Rattle.ffi.specs.Answers.{IsAnswered, IsBestShown, IsCoinShown, IsCoinTold, IsCopied, IsJudged, IsLearntIn, IsOpened, IsOpenedByNeed, IsTipTold, IsWantShown, IsWantTold, close_number, id_of, outpoint_of, params_of};
ghost use Rattle.ffi.specs.Known.{asked_of};
ghost use Rattle.ffi.specs.SessionState.{rules_of, tree_of};

use crate::answers::{
    Answer, BAD_TABLE, CLOSED, DONE, FULL, Heights, MEMORY, NONE, Name, Place, ShownCoin, ShownTip,
    as_told, shown_tip,
};
use crate::known::tell_line;
use crate::lists::{outpoint, tell_coin};
use crate::session::Session;
use crate::slot::{Slot, put, take};
use block::Bytes;
use hash::Id;
use model::Command;
use signatures::TableFault;
use std::alloc::Global;

/// Opens a session on genesis alone. Where a line of the table can't be read, `line` is its number, from 1.
#[unsafe(no_mangle)]
pub extern "C" fn ffi_open(
    alloc: Global,
    slot: &mut Slot,
    heights: &Heights,
    table: &[u8],
    line: &mut u64,
) -> u32
    ensures { IsOpened (params_of heights.now) (lines table.now) slot.old.kept.value
        slot.new.kept.value line.old line.new result }
{
    if slot.is_full() {
        return FULL;
    }
    let params = heights.params();
    match Session::open(alloc, params, table) {
        Err(TableFault::Memory) => MEMORY,
        Err(TableFault::BadLine(number)) => {
            *line = number as u64;
            BAD_TABLE
        }
        Ok(session) => match Box::new(alloc, session) {
            Err(_) => MEMORY,
            Ok(session) => {
                put(slot, session);
                DONE
            }
        },
    }
}

/// Opens a session on genesis alone, where signatures are found out by need.
#[unsafe(no_mangle)]
pub extern "C" fn ffi_open_by_need(alloc: Global, slot: &mut Slot, heights: &Heights) -> u32
    ensures { IsOpenedByNeed (params_of heights.now) slot.old.kept.value slot.new.kept.value
        result }
{
    if slot.is_full() {
        return FULL;
    }
    let params = heights.params();
    match Session::open_by_need(alloc, params) {
        Err(_) => MEMORY,
        Ok(session) => match Box::new(alloc, session) {
            Err(_) => MEMORY,
            Ok(session) => {
                put(slot, session);
                DONE
            }
        },
    }
}

/// Gives the session's memory back.
#[unsafe(no_mangle)]
pub extern "C" fn ffi_close(alloc: Global, slot: &mut Slot) -> u32
    ensures away { slot.new.kept.value ≡ None }
    ensures code { result ≡ close_number slot.old.kept.value }
{
    match take(alloc, slot) {
        None => CLOSED,
        Some(session) => {
            drop(session);
            DONE
        }
    }
}

/// One step of the session in a slot.
fn step(alloc: Global, slot: &mut Slot, asked: &Command, reply: &mut Answer) -> u32
    ensures { IsAnswered slot.old.kept.value slot.new.kept.value asked.now
        reply.old reply.new result }
{
    let Some(mut session) = take(alloc, slot) else {
        return CLOSED;
    };
    let told = session.step(alloc, asked);
    put(slot, session);
    match told {
        Err(code) => code,
        Ok(told) => {
            *reply = as_told(told);
            DONE
        }
    }
}

/// The reply that the session in a slot would give.
fn judge(alloc: Global, slot: &mut Slot, asked: &Command, reply: &mut Answer) -> u32
    ensures { IsJudged slot.old.kept.value slot.new.kept.value asked.now reply.old reply.new
        result }
{
    let Some(mut session) = take(alloc, slot) else {
        return CLOSED;
    };
    let told = session.judge(alloc, asked);
    put(slot, session);
    match told {
        Err(code) => code,
        Ok(found) => {
            *reply = as_told(found);
            DONE
        }
    }
}

/// Copies the session of a slot into another one, which holds none. The copy wants no signature.
#[unsafe(no_mangle)]
pub extern "C" fn ffi_copy(alloc: Global, slot: &mut Slot, other: &mut Slot) -> u32
    ensures kept { slot.new.kept.value ≡ slot.old.kept.value }
    ensures copied { IsCopied slot.old.kept.value other.old.kept.value other.new.kept.value
        result }
{
    if other.is_full() {
        return FULL;
    }
    let Some(session) = take(alloc, slot) else {
        return CLOSED;
    };
    let copy = session.copy(alloc);
    put(slot, session);
    match copy {
        Err(_) => MEMORY,
        Ok(copy) => match Box::new(alloc, copy) {
            Err(_) => MEMORY,
            Ok(copy) => {
                put(other, copy);
                DONE
            }
        },
    }
}

/// Takes the verdict on a signature, which is without its hash type: 0 where it isn't valid. One that is known stays.
#[unsafe(no_mangle)]
pub extern "C" fn ffi_learn(
    alloc: Global,
    slot: &mut Slot,
    key: &[u8],
    signature: &[u8],
    digest: &Name,
    valid: u32,
) -> u32
    ensures { IsLearntIn slot.old.kept.value slot.new.kept.value
        (triple_of key.now signature.now digest.now.bytes) (not (valid == 0)) result }
{
    let Some(mut session) = take(alloc, slot) else {
        return CLOSED;
    };
    let bytes = digest.bytes;
    let code = session.learn(key, signature, &bytes, valid != 0);
    put(slot, session);
    code
}

/// The line of the signature at a place, from 0, of those that have to be found out before the last step can be taken.
#[unsafe(no_mangle)]
pub extern "C" fn ffi_want(
    alloc: Global,
    slot: &mut Slot,
    index: u64,
    asked: &mut [u8],
    count: &mut u64,
) -> u32
    ensures kept { slot.new.kept.value ≡ slot.old.kept.value }
    ensures told { let before = asked_of asked.old count.old in
        let after = asked_of asked.new count.new in
        IsWantTold slot.old.kept.value index before after result }
{
    let Some(session) = take(alloc, slot) else {
        return CLOSED;
    };
    let code = show_want(alloc, &session, index as usize, asked, count);
    put(slot, session);
    code
}

fn show_want(
    alloc: Global,
    session: &Session,
    index: usize,
    asked: &mut [u8],
    count: &mut u64,
) -> u32
    ensures { let before = asked_of asked.old count.old in
        let after = asked_of asked.new count.new in
        IsWantShown (slice_get session.now.wanted index) before after result }
{
    match session.wanted(index) {
        None => NONE,
        Some(triple) => tell_line(alloc, triple, asked, count),
    }
}

/// Submits the block of these bytes at a moment in seconds since 1970.
#[unsafe(no_mangle)]
pub extern "C" fn ffi_submit(
    alloc: Global,
    slot: &mut Slot,
    bytes: &[u8],
    now: u64,
    reply: &mut Answer,
) -> u32
    ensures { IsAnswered slot.old.kept.value slot.new.kept.value (command.Submit bytes.now now)
        reply.old reply.new result }
{
    if !slot.is_full() {
        return CLOSED;
    }
    match Bytes::from_slice(alloc, bytes) {
        Err(_) => MEMORY,
        Ok(bytes) => step(alloc, slot, &Command::Submit(bytes, now), reply),
    }
}

/// The reply that the block of these bytes would get, if it were submitted at a moment in seconds since 1970.
#[unsafe(no_mangle)]
pub extern "C" fn ffi_judge(
    alloc: Global,
    slot: &mut Slot,
    bytes: &[u8],
    now: u64,
    reply: &mut Answer,
) -> u32
    ensures { IsJudged slot.old.kept.value slot.new.kept.value (command.Submit bytes.now now)
        reply.old reply.new result }
{
    if !slot.is_full() {
        return CLOSED;
    }
    match Bytes::from_slice(alloc, bytes) {
        Err(_) => MEMORY,
        Ok(bytes) => judge(alloc, slot, &Command::Submit(bytes, now), reply),
    }
}

/// Marks the block of this id as invalid.
#[unsafe(no_mangle)]
pub extern "C" fn ffi_invalidate(
    alloc: Global,
    slot: &mut Slot,
    id: &Name,
    reply: &mut Answer,
) -> u32
    ensures { IsAnswered slot.old.kept.value slot.new.kept.value (command.Invalidate (id_of id.now))
        reply.old reply.new result }
{
    let bytes = id.bytes;
    step(alloc, slot, &Command::Invalidate(Id(bytes)), reply)
}

/// Takes the marks from the block of this id, its ancestors and its descendants.
#[unsafe(no_mangle)]
pub extern "C" fn ffi_reconsider(
    alloc: Global,
    slot: &mut Slot,
    id: &Name,
    reply: &mut Answer,
) -> u32
    ensures { IsAnswered slot.old.kept.value slot.new.kept.value (command.Reconsider (id_of id.now))
        reply.old reply.new result }
{
    let bytes = id.bytes;
    step(alloc, slot, &Command::Reconsider(Id(bytes)), reply)
}

/// Prefers the block of this id to all that are as high.
#[unsafe(no_mangle)]
pub extern "C" fn ffi_precious(alloc: Global, slot: &mut Slot, id: &Name, reply: &mut Answer) -> u32
    ensures { IsAnswered slot.old.kept.value slot.new.kept.value (command.Precious (id_of id.now))
        reply.old reply.new result }
{
    let bytes = id.bytes;
    step(alloc, slot, &Command::Precious(Id(bytes)), reply)
}

/// The active block's id and height.
#[unsafe(no_mangle)]
pub extern "C" fn ffi_best(alloc: Global, slot: &mut Slot, id: &mut Name, height: &mut u64) -> u32
    ensures kept { slot.new.kept.value ≡ slot.old.kept.value }
    ensures told { IsBestShown slot.old.kept.value id.new height.new
        ((id.new ≡ id.old) × (height.new ≡ height.old)) result }
{
    let Some(session) = take(alloc, slot) else {
        return CLOSED;
    };
    let best = session.best().0;
    id.bytes = best;
    *height = session.height() as u64;
    put(slot, session);
    DONE
}

/// The tip at a place of the list of tips, from 0, by height downwards, then by arrival.
#[unsafe(no_mangle)]
pub extern "C" fn ffi_tip(alloc: Global, slot: &mut Slot, index: u64, tip: &mut ShownTip) -> u32
    ensures kept { slot.new.kept.value ≡ slot.old.kept.value }
    ensures told { IsTipTold slot.old.kept.value index tip.new (tip.new ≡ tip.old) result }
{
    let Some(session) = take(alloc, slot) else {
        return CLOSED;
    };
    let tips = session.tips(alloc);
    put(slot, session);
    match tips {
        Err(_) => MEMORY,
        Ok(tips) => match tips.as_slice().get(index as usize) {
            None => NONE,
            Some(found) => {
                *tip = shown_tip(found);
                DONE
            }
        },
    }
}

/// The coin at an outpoint. Its script is put at the front of `script`, where that is long enough.
#[unsafe(no_mangle)]
pub extern "C" fn ffi_coin(
    alloc: Global,
    slot: &mut Slot,
    at: &Place,
    coin: &mut ShownCoin,
    script: &mut [u8],
) -> u32
    ensures kept { slot.new.kept.value ≡ slot.old.kept.value }
    ensures told { IsCoinTold slot.old.kept.value (outpoint_of at.now) coin.old coin.new
        script.old script.new result }
{
    let Some(session) = take(alloc, slot) else {
        return CLOSED;
    };
    let code = show_coin(&session, at, coin, script);
    put(slot, session);
    code
}

fn show_coin(session: &Session, at: &Place, shown: &mut ShownCoin, script: &mut [u8]) -> u32
    ensures { let s = session.now in let o = outpoint_of at.now in
        IsCoinShown (coin_map.get (coins (rules_of s) ledger (tree_of s)) o) shown.old shown.new
        script.old script.new result }
{
    match session.coin(&outpoint(at)) {
        Some(coin) => tell_coin(coin, shown, script),
        None => NONE,
    }
}
