//! A layer of changes over a base, which can be the base of further layers.

ghost use Rattle.std.specs.Prelude.{◌≡◌, true, IfOk, OnOk, OnErr, None, Some, IsSome, is_some};
ghost use Rattle.std.specs.Option.{option_map};
ghost use Rattle.std.specs.FinMap as map;
ghost use Rattle.coins.specs.Changes.{AreChanges, after_changes};
ghost use Rattle.coins.specs.Entries.{over, IsSound};
ghost use Rattle.coins.specs.Lent.{lent};

use crate::base::Base;
use crate::changes::{Changes, changing};
use crate::coin::Coin;
use crate::entry::{CacheEntry, holds_coin, lay_all, make_room, put, take};
use crate::lent::{Lent, lend};
use crate::writes::Writes;
use std::alloc::Global;
use std::collections::BTreeMap;
use std::marker::Model;
use txn::OutPoint;
use wire::Memory;

/// A layer of changes over a base (Bitcoin Core's `CCoinsViewCache`). A clause sees the coins of the
/// base, and the layer's entries.
#[derive(Drop)]
pub struct Cache<'a, B: Base> {
    alloc: Global,
    base: &'a B,
    entries: BTreeMap<OutPoint, CacheEntry>,
}

impl<'a, B: Base> Model for Cache<'a, B> {
    ghost use Rattle.coins.specs.Coins.{Layer, coded_layer};

    ghost Value = { Layer };

    ghost coded = { coded_layer };

    ghost use Rattle.coins.specs.Entries.{over, IsSound};

    ghost view = { λ c. record {
      base = B.coins c.base.now;
      coins = over (B.coins c.base.now) c.entries.entries;
    } };

    ghost invariant = { λ c. IsSound (B.coins c.base.now) c.entries.entries };
}

impl<'a, B: Base> Cache<'a, B> {
    /// A layer that changes nothing.
    pub fn over(alloc: Global, base: &'a B) -> Cache<'a, B>
        ensures below { result.base ≡ B.coins base.now }
        ensures coins { result.coins ≡ B.coins base.now }
    {
        Cache {
            alloc,
            base,
            entries: BTreeMap::new(alloc),
        }
    }

    /// The coin at an outpoint, lent.
    pub fn get(&self, at: &OutPoint) -> Option<Lent<'_>>
        ensures { option_map lent result ≡ map.get self.now.coins at.now }
    {
        match self.entries.get(at) {
            Some(CacheEntry::Dirty(coin)) => lend(coin.as_ref()),
            Some(CacheEntry::Fresh(coin)) => Some(coin.lend()),
            Some(CacheEntry::Clean) => self.base.get(at),
            None => self.base.get(at),
        }
    }

    /// Whether the layer has a coin at an outpoint where its base has none: the base isn't looked at.
    pub fn has_above(&self, at: &OutPoint) -> bool
        requires { map.get self.now.base at.now ≡ None }
        ensures { result ≡ is_some (map.get self.now.coins at.now) }
    {
        holds_coin(self.entries.get(at))
    }

    /// Whether nothing was written on it, nor made ready. Then its coins are the base's.
    pub fn is_untouched(&self) -> bool
        ensures { result ≡ true → self.now.coins ≡ self.now.base }
    {
        self.entries.is_empty()
    }

    /// Puts a coin where there is none.
    pub fn add(&mut self, at: OutPoint, coin: Coin) -> Result<(), Memory>
        requires { map.get self.old.coins at ≡ None }
        ensures ok { OnOk result (self.new ≡
            record self.old { coins = map.insert self.old.coins at coin }) }
        ensures err { OnErr result (self.new ≡ self.old) }
    {
        put(&mut self.entries, at, coin)
    }

    /// Takes the coin at an outpoint, if there is one. It is copied only where it isn't this layer's own.
    pub fn take(&mut self, at: &OutPoint) -> Result<Option<Coin>, Memory>
        ensures coin { IfOk result (λ coin. coin ≡ map.get self.old.coins at.now) }
        ensures ok { OnOk result (self.new ≡
            record self.old { coins = map.remove self.old.coins at.now }) }
        ensures err { OnErr result (self.new ≡ self.old) }
    {
        take(self.alloc, &mut self.entries, self.base, at)
    }

    /// Takes the coin that is there.
    pub fn spend(&mut self, at: &OutPoint) -> Result<Coin, Memory>
        requires { IsSome (map.get self.old.coins at.now) }
        ensures coin { IfOk result (λ coin. map.get self.old.coins at.now ≡ Some coin) }
        ensures ok { OnOk result (self.new ≡
            record self.old { coins = map.remove self.old.coins at.now }) }
        ensures err { OnErr result (self.new ≡ self.old) }
    {
        Ok(self.take(at)?.unwrap())
    }

    /// The outpoints at which the base and this layer differ, in order, each with the coin that stands
    /// there now, or None where it is gone. They stay where the layer has them, so it takes no memory.
    pub fn into_changes(self) -> Changes
        ensures differences { AreChanges self.entry.base self.entry.coins result }
        // Laid over the base, they give the coins of this layer.
        ensures laid { after_changes self.entry.base result ≡ self.entry.coins }
    {
        let Cache {
            alloc: _,
            base,
            entries,
        } = self;
        Changes::from_entries(changing(entries, base))
    }

    /// What this layer wrote, without the base.
    pub fn into_writes(self) -> Writes
        ensures sound { IsSound self.entry.base result }
        ensures over { over self.entry.base result ≡ self.entry.coins }
    {
        let Cache {
            alloc: _,
            base: _,
            entries,
        } = self;
        Writes { entries }
    }

    /// Writes what a layer over these coins wrote: all of it, or nothing.
    pub fn absorb(&mut self, writes: Writes) -> Result<(), Memory>
        requires { IsSound self.old.coins writes }
        ensures ok { OnOk result (self.new ≡
            record self.old { coins = over self.old.coins writes }) }
        ensures err { OnErr result (self.new ≡ self.old) }
    {
        // Over none of its own they are taken as they are.
        if self.entries.is_empty() {
            self.entries = writes.entries;
            return Ok(());
        }
        make_room(&mut self.entries, &writes.entries)?;
        lay_all(&mut self.entries, writes.entries);
        Ok(())
    }
}

impl<'a, B: Base> Base for Cache<'a, B> {
    ghost coins = { λ c. c.coins };

    fn get(&self, at: &OutPoint) -> Option<Lent<'_>> {
        Cache::get(self, at)
    }
}
