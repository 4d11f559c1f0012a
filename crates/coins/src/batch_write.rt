//! Lists of changes written into a plain map.

ghost use Rattle.std.specs.Prelude.{◌≡◌, IfErr, OnOk, OnErr, IfOk, reverse};
ghost use Rattle.std.specs.FinMap as map;
ghost use Rattle.coins.specs.Coins.{Coins};
ghost use Rattle.coins.specs.Changes.{IsInOrder, after_changes};
ghost use Rattle.coins.specs.Entries.{named, own_coin};
ghost use Rattle.coins.specs.inside.Changes.{Undoes, comers, goers};

use crate::changes::{Change, Changes};
use crate::coin::Coin;
use crate::coin_map::CoinMap;
use crate::entry::{CacheEntry, holds_coin};
use std::alloc::Global;
use std::collections::BTreeMap;
use txn::{OutPoint, Script};
use wire::Memory;

impl CoinMap {
    /// Lays changes over this map: all of them, or none. Their coins are copied.
    ///
    /// The coins that come are put in first, since that may be refused memory, and the others are taken away after that.
    pub fn lay(&mut self, alloc: Global, changes: &Changes) -> Result<(), Memory>
        ensures ok { OnOk result (self.new ≡ after_changes self.old changes.now) }
        ensures err { OnErr result (self.new ≡ self.old) }
    {
        let mut before = Vec::new(alloc);
        if bring_all(self, &mut before, changes.entries()).is_err() {
            put_back(self, before);
            return Err(Memory);
        }
        take_away(self, changes.entries());
        Ok(())
    }

    /// The same, of a list that isn't needed any more. It is given back when memory runs out.
    pub fn lay_taken(&mut self, alloc: Global, changes: Changes) -> Result<(), Changes>
        ensures ok { OnOk result (self.new ≡ after_changes self.old changes) }
        ensures err { OnErr result (self.new ≡ self.old) }
        ensures given_back { IfErr result (λ back. back ≡ changes) }
    {
        match self.lay(alloc, &changes) {
            Ok(()) => Ok(()),
            Err(_) => Err(changes),
        }
    }
}

/// A coin that holds the place of another that is to come. It takes no memory of its own.
pub(crate) fn nothing(alloc: Global) -> Coin {
    Coin {
        value: 0,
        script: Script::from_vec(Vec::new(alloc)),
        height: 0,
        coinbase: false,
    }
}

/// Puts in all coins that come, and notes of each what was there before.
fn bring_all(
    coins: &mut CoinMap,
    before: &mut Vec<Change>,
    entries: &BTreeMap<OutPoint, CacheEntry>,
) -> Result<(), Memory>
    requires in_order { IsInOrder (named entries.now.entries) }
    ensures noted { (m : Coins) → Undoes m coins.old (reverse before.old.items) →
        Undoes m coins.new (reverse before.new.items) }
    ensures ok { OnOk result
        (coins.new ≡ after_changes coins.old (comers (named entries.now.entries))) }
{
    for (at, entry) in entries {
        if let Some(coin) = entry.own_coin()? {
            bring(coins, before, *at, coin)?;
        }
    }
    Ok(())
}

/// Puts in a coin, and notes what was there before.
fn bring(
    coins: &mut CoinMap,
    before: &mut Vec<Change>,
    at: OutPoint,
    coin: Coin,
) -> Result<(), Memory>
    ensures noted { (m : Coins) → Undoes m coins.old (reverse before.old.items) →
        Undoes m coins.new (reverse before.new.items) }
    ensures ok { OnOk result (coins.new ≡ map.insert coins.old at coin) }
{
    before.reserve(1)?;
    let old = coins.exchange(at, coin)?;
    before.push_reserved((at, old));
    Ok(())
}

/// Puts back what was noted, the last first, which takes no memory.
fn put_back(coins: &mut CoinMap, before: Vec<Change>)
    requires { (m : Coins) × Undoes m coins.old (reverse before.items) }
    ensures { (m : Coins) → Undoes m coins.old (reverse before.items) → coins.new ≡ m }
{
    let mut before = before;
    while let Some((at, coin)) = before.pop() {
        coins.set(at, coin);
    }
}

/// Takes away all coins that go.
fn take_away(coins: &mut CoinMap, entries: &BTreeMap<OutPoint, CacheEntry>)
    requires in_order { IsInOrder (named entries.now.entries) }
    ensures { coins.new ≡ after_changes coins.old (goers (named entries.now.entries)) }
{
    for (at, entry) in entries {
        if !holds_coin(Some(entry)) {
            coins.remove(at);
        }
    }
}
