//! What a chainstate keeps, as C reads it: a block's bytes, and the coins one after the other.

ghost use Rattle.std.specs.Prelude.{◌≡◌, None, Some};
ghost use Rattle.std.specs.Map.Iter.{deref_pair};
ghost use Rattle.std.specs.Option.{option_copied, option_map};
ghost use Rattle.tree.specs.Branches.{place_of};
ghost use Rattle.tree.specs.Names.{names};
ghost use Rattle.ffi.specs.Answers.{IsBlockShown, IsBlockTold, IsNextOf, IsNextShown, IsNextTold, above_of, coin_row, id_of, outpoint_of};
ghost use Rattle.ffi.specs.Room.{IsFilled};

use crate::answers::{CLOSED, DONE, NONE, Name, Place, ShownCoin};
use crate::room::fill;
use crate::session::Session;
use crate::slot::{Slot, put, take};
use coins::Coin;
use hash::Id;
use std::alloc::Global;
use txn::OutPoint;

/// The outpoint that C names.
pub(crate) fn outpoint(at: &Place) -> OutPoint
    ensures { result ≡ outpoint_of at.now }
{
    let bytes = at.id.bytes;
    OutPoint {
        id: Id(bytes),
        index: at.index,
    }
}

/// Shows a coin, and its script where there is room for it.
pub(crate) fn tell_coin(coin: &Coin, shown: &mut ShownCoin, script: &mut [u8]) -> u32
    ensures shows { shown.new ≡ coin_row coin.now }
    ensures filled { IsFilled coin.now.script script.old script.new result }
{
    *shown = coin_row(coin);
    fill(coin.script.as_slice(), script)
}

/// A coin without its script.
pub(crate) fn coin_row(coin: &Coin) -> ShownCoin
    ensures { result ≡ coin_row coin.now }
{
    ShownCoin {
        value: coin.value,
        script: coin.script.len() as u64,
        height: coin.height,
        coinbase: coin.coinbase as u32,
    }
}

/// The coin at the least outpoint above `at`, or the least of all where `above` is 0, and its outpoint in the place of
/// `at`. Where the room is too small for its script, `at` stays.
#[unsafe(no_mangle)]
pub extern "C" fn ffi_coin_after(
    alloc: Global,
    slot: &mut Slot,
    above: u32,
    at: &mut Place,
    coin: &mut ShownCoin,
    script: &mut [u8],
) -> u32
    ensures kept { slot.new.kept.value ≡ slot.old.kept.value }
    ensures told { IsNextTold slot.old.kept.value (above_of above at.old)
        (record { at = at.old; shown = coin.old; script = script.old })
        (record { at = at.new; shown = coin.new; script = script.new }) result }
{
    let Some(session) = take(alloc, slot) else {
        return CLOSED;
    };
    let code = show_next(&session, above, at, coin, script);
    put(slot, session);
    code
}

fn show_next(
    session: &Session,
    above: u32,
    at: &mut Place,
    shown: &mut ShownCoin,
    script: &mut [u8],
) -> u32
    ensures { IsNextOf session.now (above_of above at.old)
        (record { at = at.old; shown = shown.old; script = script.old })
        (record { at = at.new; shown = shown.new; script = script.new }) result }
{
    let from = outpoint(at);
    let found = session.coin_after(if above == 0 { None } else { Some(&from) });
    tell_next(found, at, shown, script)
}

/// Shows the coin that comes next, if there is one. Where the room is too small for its script, `at` stays.
pub(crate) fn tell_next(
    found: Option<(&OutPoint, &Coin)>,
    at: &mut Place,
    shown: &mut ShownCoin,
    script: &mut [u8],
) -> u32
    ensures { IsNextShown (option_map deref_pair found.entry)
        (record { at = at.old; shown = shown.old; script = script.old })
        (record { at = at.new; shown = shown.new; script = script.new }) result }
{
    let Some((next, coin)) = found else {
        return NONE;
    };
    let code = tell_coin(coin, shown, script);
    if code == DONE {
        let bytes = next.id.0;
        *at = Place {
            id: Name { bytes },
            index: next.index,
        };
    }
    code
}

/// The bytes of the block of this id, where there is room for them, and how many they are. Of genesis none are kept.
#[unsafe(no_mangle)]
pub extern "C" fn ffi_kept_block(
    alloc: Global,
    slot: &mut Slot,
    id: &Name,
    bytes: &mut [u8],
    needed: &mut u64,
) -> u32
    ensures kept { slot.new.kept.value ≡ slot.old.kept.value }
    ensures told { IsBlockTold slot.old.kept.value (id_of id.now) needed.old needed.new
        bytes.old bytes.new result }
{
    let Some(session) = take(alloc, slot) else {
        return CLOSED;
    };
    let code = show_block(&session, id, bytes, needed);
    put(slot, session);
    code
}

fn show_block(session: &Session, id: &Name, bytes: &mut [u8], needed: &mut u64) -> u32
    ensures { IsBlockShown session.now (id_of id.now) needed.old needed.new
        bytes.old bytes.new result }
{
    let digits = id.bytes;
    let Some(found) = session.block(&Id(digits)) else {
        return NONE;
    };
    *needed = found.len() as u64;
    fill(found.as_slice(), bytes)
}
