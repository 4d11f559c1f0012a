//! What is asked of a chainstate's blocks: ids by height, headers, forks, and the coins that a block spent.

ghost use Rattle.std.specs.Prelude.{◌≡◌, ◌⊎◌, ◌≤◌, ◌++◌, map, IfOk, IfSome, OnOk};
ghost use Rattle.std.specs.List.{flat_map};
ghost use Rattle.tree.specs.Branches.{place_of};
ghost use Rattle.tree.specs.Limits.{max_blocks};
ghost use Rattle.tree.specs.Names.{names};
ghost use Rattle.activate.specs.Lookups.{active_id, ancestor_of, fork_of};
ghost use Rattle.ffi.specs.Answers.{coin_row, id_of};
ghost use Rattle.ffi.specs.Lookups.{AreCoinsShown, IsHeaderShown, IsHeaderTold, IsIdShown, IsIdTold, IsSpentTold, coin_rows, coin_scripts, confirmations_number};
ghost use Rattle.ffi.specs.SessionState.{rules_of, tree_of};

use crate::answers::{
    CLOSED, DONE, MEMORY, NONE, Name, ShownCoin, ShownHeader, ShownSpent, TOO_SMALL,
};
use crate::lists::coin_row;
use crate::room::put as put_front;
use crate::session::Session;
use crate::slot::{Slot, put, take};
use coins::Coin;
use hash::Id;
use std::alloc::Global;
use undo::{BlockUndo, Spent};
use wire::Memory;

/// The id of the active block at a height.
#[unsafe(no_mangle)]
pub extern "C" fn ffi_id_at(alloc: Global, slot: &mut Slot, height: u64, id: &mut Name) -> u32
    ensures kept { slot.new.kept.value ≡ slot.old.kept.value }
    ensures told { IsIdTold slot.old.kept.value
        (λ s. active_id (rules_of s) (tree_of s) height) id.old id.new result }
{
    let Some(session) = take(alloc, slot) else {
        return CLOSED;
    };
    let found = session.id_at(height as usize);
    put(slot, session);
    tell_id(found, id)
}

/// The id of the block at a height of the branch of the block of an id.
#[unsafe(no_mangle)]
pub extern "C" fn ffi_ancestor(
    alloc: Global,
    slot: &mut Slot,
    id: &Name,
    height: u64,
    ancestor: &mut Name,
) -> u32
    ensures kept { slot.new.kept.value ≡ slot.old.kept.value }
    ensures told { IsIdTold slot.old.kept.value
        (λ s. ancestor_of (tree_of s).blocks (id_of id.now) height) ancestor.old ancestor.new
        result }
{
    let Some(session) = take(alloc, slot) else {
        return CLOSED;
    };
    let bytes = id.bytes;
    let found = session.ancestor(&Id(bytes), height as usize);
    put(slot, session);
    tell_id(found, ancestor)
}

/// The id of the last block that the branches of two blocks share.
#[unsafe(no_mangle)]
pub extern "C" fn ffi_fork(
    alloc: Global,
    slot: &mut Slot,
    one: &Name,
    other: &Name,
    fork: &mut Name,
) -> u32
    ensures kept { slot.new.kept.value ≡ slot.old.kept.value }
    ensures told { IsIdTold slot.old.kept.value
        (λ s. fork_of (tree_of s).blocks (id_of one.now) (id_of other.now)) fork.old fork.new
        result }
{
    let Some(session) = take(alloc, slot) else {
        return CLOSED;
    };
    let (left, right) = (one.bytes, other.bytes);
    let found = session.fork(&Id(left), &Id(right));
    put(slot, session);
    tell_id(found, fork)
}

fn tell_id(found: Option<Id>, told: &mut Name) -> u32
    ensures { IsIdShown found told.old told.new result }
{
    match found {
        None => NONE,
        Some(id) => {
            let bytes = id.0;
            *told = Name { bytes };
            DONE
        }
    }
}

/// The header of the block of this id, with its height and its confirmations.
#[unsafe(no_mangle)]
pub extern "C" fn ffi_header(
    alloc: Global,
    slot: &mut Slot,
    id: &Name,
    shown: &mut ShownHeader,
) -> u32
    ensures kept { slot.new.kept.value ≡ slot.old.kept.value }
    ensures told { IsHeaderTold slot.old.kept.value (id_of id.now) shown.old shown.new result }
{
    let Some(session) = take(alloc, slot) else {
        return CLOSED;
    };
    let code = show_header(&session, id, shown);
    put(slot, session);
    code
}

fn show_header(session: &Session, id: &Name, shown: &mut ShownHeader) -> u32
    ensures { let s = session.now in let i = id_of id.now in
        IsHeaderShown s i (place_of names (tree_of s).blocks i) shown.old shown.new result }
{
    let bytes = id.bytes;
    let id = Id(bytes);
    let Some(header) = session.header(&id) else {
        return NONE;
    };
    let Some(height) = session.height_of(&id) else {
        return NONE;
    };
    *shown = shown_header(header, height, session.confirmations(&id));
    DONE
}

fn shown_header(header: [u8; 80], height: usize, count: Option<usize>) -> ShownHeader
    requires { IfSome count (λ n. n ≤ max_blocks) }
    ensures header { result.header ≡ header }
    ensures height { result.height ≡ height }
    ensures confirmations { result.confirmations ≡ confirmations_number count }
{
    let mut shown = ShownHeader {
        header,
        height: height as u64,
        confirmations: -1,
    };
    if let Some(n) = count {
        shown.confirmations = n as i64;
    }
    shown
}

/// The coins that the active block of this id spent, in the order of its inputs: without their scripts, and these one
/// after the other. Nothing is written where a room is too small, but how many there are.
#[unsafe(no_mangle)]
pub extern "C" fn ffi_spent(
    alloc: Global,
    slot: &mut Slot,
    id: &Name,
    coins: &mut [ShownCoin],
    scripts: &mut [u8],
    size: &mut ShownSpent,
) -> u32
    ensures kept { slot.new.kept.value ≡ slot.old.kept.value }
    ensures told { IsSpentTold slot.old.kept.value (id_of id.now)
        (record { coins = coins.old; scripts = scripts.old; size = size.old })
        (record { coins = coins.new; scripts = scripts.new; size = size.new }) result }
{
    let Some(session) = take(alloc, slot) else {
        return CLOSED;
    };
    let bytes = id.bytes;
    let found = session.spent(alloc, &Id(bytes));
    put(slot, session);
    match found {
        Err(_) => MEMORY,
        Ok(None) => NONE,
        Ok(Some(undo)) => tell_spent(alloc, &undo, coins, scripts, size),
    }
}

/// Shows the coins that a block spent, without their scripts, and these, where there is room for both.
pub(crate) fn tell_spent(
    alloc: Global,
    undo: &BlockUndo,
    coins: &mut [ShownCoin],
    scripts: &mut [u8],
    size: &mut ShownSpent,
) -> u32
    ensures { AreCoinsShown undo.now
        (record { coins = coins.old; scripts = scripts.old; size = size.old })
        (record { coins = coins.new; scripts = scripts.new; size = size.new }) result
        ⊎ ((result ≡ 1) × (coins.new ≡ coins.old) × (scripts.new ≡ scripts.old)
        × (size.new ≡ size.old)) }
{
    let Ok(rows) = rows_of(alloc, undo.as_slice()) else {
        return MEMORY;
    };
    let Ok(bytes) = scripts_in(alloc, undo.as_slice()) else {
        return MEMORY;
    };
    *size = ShownSpent {
        coins: rows.len() as u64,
        scripts: bytes.len() as u64,
    };
    if rows.len() > coins.len() || bytes.len() > scripts.len() {
        return TOO_SMALL;
    }
    put_front(rows.as_slice(), coins);
    put_front(bytes.as_slice(), scripts);
    DONE
}

fn rows_of(alloc: Global, txs: &[Spent]) -> Result<Vec<ShownCoin>, Memory>
    ensures { IfOk result (λ rows. rows.items ≡ coin_rows txs.now) }
{
    let mut rows = Vec::new(alloc);
    for spent in txs {
        add_rows(spent.as_slice(), &mut rows)?;
    }
    Ok(rows)
}

fn add_rows(coins: &[Coin], rows: &mut Vec<ShownCoin>) -> Result<(), Memory>
    ensures { OnOk result (rows.new.items ≡ rows.old.items ++ map coin_row coins.now) }
{
    for coin in coins {
        rows.push(coin_row(coin))?;
    }
    Ok(())
}

fn scripts_in(alloc: Global, txs: &[Spent]) -> Result<Vec<u8>, Memory>
    ensures { IfOk result (λ bytes. bytes.items ≡ coin_scripts txs.now) }
{
    let mut bytes = Vec::new(alloc);
    for spent in txs {
        add_scripts(spent.as_slice(), &mut bytes)?;
    }
    Ok(bytes)
}

fn add_scripts(coins: &[Coin], bytes: &mut Vec<u8>) -> Result<(), Memory>
    ensures { OnOk result (bytes.new.items ≡ bytes.old.items
        ++ flat_map (λ coin. coin.script) coins.now) }
{
    for coin in coins {
        bytes.extend_from_slice(coin.script.as_slice())?;
    }
    Ok(())
}
