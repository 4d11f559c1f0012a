//! Many small maps of coins, by the first bits of their transactions' ids.

ghost use Rattle.std.specs.Prelude.{◌≡◌, ◌<◌, ◌≤◌, IfOk, OnOk, OnErr, IsOk, Some, true, is_some};
ghost use Rattle.std.specs.Option.{option_copied, option_map};
ghost use Rattle.std.specs.FinMap as map;
ghost use Rattle.txn.specs.declared.outpoint.OutPoint.{OutPoint as OutPointValue};
ghost use Rattle.std.specs.Map.Iter.{deref_pair};
ghost use Rattle.coins.specs.Next.{IsAbove};
ghost use Rattle.coins.specs.inside.Next.{IsBeyond, IsNextBefore, IsNextEntry};
ghost use Rattle.coins.specs.inside.Shards.{place, IsOfBytes};

use crate::coin::Coin;
use std::alloc::Global;
use std::collections::BTreeMap;
use std::marker::Model;
use std::ops::Bound;
use txn::OutPoint;
use wire::Memory;

/// How many maps there are: one for each value of 13 bits.
const SHARDS: usize = 8192;

/// Coins in many maps, each with those whose ids begin alike, so that two nodes lead to one of a million. Who puts coins
/// in by rising outpoints goes through the maps once. A clause sees the finite map of all.
#[derive(Drop)]
pub(crate) struct Shards {
    maps: Vec<BTreeMap<OutPoint, Coin>>,
}

impl Model for Shards {
    ghost use Rattle.coins.specs.Coins.{Coins, coded_coins};
    ghost use Rattle.coins.specs.inside.Shards.{together, AreOfBytes, AreShards};

    ghost Value = { Coins };

    ghost coded = { coded_coins };

    ghost view = { λ s. together s.maps.items };

    ghost invariant = { λ s. AreShards s.maps.items × AreOfBytes (together s.maps.items) };
}

impl Shards {
    /// No coins.
    pub(crate) fn new(alloc: Global) -> Result<Shards, Memory>
        ensures { IfOk result (λ shards. shards ≡ map.empty) }
    {
        let mut maps = Vec::with_capacity(alloc, SHARDS)?;
        for _ in 0..SHARDS {
            maps.push(BTreeMap::new(alloc))?;
        }
        Ok(Shards { maps })
    }

    /// Equal maps.
    pub(crate) fn copy(&self) -> Result<Shards, Memory>
        ensures { IfOk result (λ copy. copy ≡ self.now) }
    {
        let maps = self.maps.clone()?;
        Ok(Shards { maps })
    }

    pub(crate) fn get(&self, at: &OutPoint) -> Option<&Coin>
        ensures { option_copied result ≡ map.get self.now at.now }
    {
        self.maps[shard_of(at)].get(at)
    }

    pub(crate) fn has(&self, at: &OutPoint) -> bool
        ensures { result ≡ is_some (map.get self.now at.now) }
    {
        self.get(at).is_some()
    }

    /// Puts a coin at an outpoint. Where there is one already, it takes no memory.
    pub(crate) fn insert(&mut self, at: OutPoint, coin: Coin) -> Result<(), Memory>
        ensures ok { OnOk result (self.new ≡ map.insert self.old at coin) }
        ensures err { OnErr result (self.new ≡ self.old) }
        ensures present { is_some (map.get self.old at) ≡ true → IsOk result }
    {
        self.exchange(at, coin)?;
        Ok(())
    }

    /// Puts a coin at an outpoint, and gives the one that was there, in which case it takes no memory.
    pub(crate) fn exchange(&mut self, at: OutPoint, coin: Coin) -> Result<Option<Coin>, Memory>
        ensures old { IfOk result (λ old. old ≡ map.get self.old at) }
        ensures ok { OnOk result (self.new ≡ map.insert self.old at coin) }
        ensures err { OnErr result (self.new ≡ self.old) }
        ensures present { is_some (map.get self.old at) ≡ true → IsOk result }
    {
        Ok(self.maps[shard_of(&at)].insert(at, coin)?)
    }

    pub(crate) fn remove(&mut self, at: &OutPoint)
        ensures { self.new ≡ map.remove self.old at.now }
    {
        self.maps[shard_of(at)].remove(at);
    }

    /// The coin at the least outpoint above another, with that outpoint. The maps behind the one in which coins at
    /// `before` stand aren't looked at.
    pub(crate) fn after(
        &self,
        at: Option<&OutPoint>,
        before: Option<&OutPoint>,
    ) -> Option<(&OutPoint, &Coin)>
        ensures { IsNextBefore (option_copied before.entry) self.now (option_copied at.entry)
            (option_map deref_pair result) }
    {
        let last = last_place(before);
        for index in first_place(at)..last + 1 {
            if let Some(found) = entry_after(&self.maps[index], at) {
                return Some(found);
            }
        }
        None
    }
}

/// The place in which an outpoint stands, and else the last one.
fn last_place(before: Option<&OutPoint>) -> usize
    ensures below { result < 8192 }
    ensures beyond { (q : OutPointValue) → IsOfBytes q → result < place q
        → IsBeyond (option_copied before.entry) q }
{
    match before {
        Some(before) => shard_of(before),
        None => SHARDS - 1,
    }
}

/// The first place in which outpoints above another stand.
fn first_place(at: Option<&OutPoint>) -> usize
    ensures { (q : OutPointValue) → IsOfBytes q → IsAbove (option_copied at.entry) q
        → result ≤ place q }
{
    match at {
        Some(at) => shard_of(at),
        None => 0,
    }
}

/// The entry at the least outpoint above another.
pub(crate) fn entry_after<'a>(
    entries: &'a BTreeMap<OutPoint, Coin>,
    at: Option<&OutPoint>,
) -> Option<(&'a OutPoint, &'a Coin)>
    ensures { IsNextEntry entries.now.entries (option_copied at.entry)
        (option_map deref_pair result) }
{
    match at {
        Some(at) => entries
            .range((Bound::Excluded(*at), Bound::Unbounded))
            .next(),
        None => entries.first_key_value(),
    }
}

/// The place of the map that has an outpoint's coin: its id's first bits.
fn shard_of(at: &OutPoint) -> usize
    ensures place { result ≡ place at.now }
    ensures below { result < 8192 }
    ensures bytes { IsOfBytes at.now }
{
    (usize::from(at.id.0[0]) * 256 + usize::from(at.id.0[1])) / 8 % SHARDS
}
