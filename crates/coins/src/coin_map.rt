//! A plain map of coins.

ghost use Rattle.std.specs.Prelude.{◌≡◌, ◌↔◌, ◌⊎◌, ◌≤◌, ◌-◌, IfOk, IsTrue, OnOk, OnErr, None, Some, true, is_some, length, slice_get, IsSome};
ghost use Rattle.std.specs.FinMap as map;
ghost use Rattle.std.specs.Map.Iter.{deref_pair};
ghost use Rattle.std.specs.Option.{option_copied, option_map};
ghost use Rattle.txn.specs.declared.outpoint.OutPoint.{OutPoint as OutPointValue};
ghost use Rattle.coins.specs.Coins.{put, few_and_many, Coin as CoinValue};
ghost use Rattle.coins.specs.Next.{IsNext};
ghost use Rattle.coins.specs.inside.Changes.{Changed};
ghost use Rattle.coins.specs.inside.Shards.{many_from};
ghost use Rattle.coins.specs.laws.Lookups.{entry_for};

use crate::base::Base;
use crate::coin::Coin;
use crate::lent::{Lent, lend};
use crate::shards::{Shards, entry_after};
use std::alloc::Global;
use std::cmp::Ordering;
use std::collections::BTreeMap;
use std::marker::Model;
use txn::OutPoint;
use wire::Memory;

/// Where one map holds so many coins, many small maps are opened, and from then on each coin that comes brings one of
/// the one map's over. Once all are there, some 25 are in each. A node has room for fifteen, so with fewer in each much
/// of it would be empty.
const MANY: usize = 102_400;

/// A plain map of coins. A clause sees the finite map.
#[derive(Drop)]
pub struct CoinMap {
    alloc: Global,
    /// All coins, until there are many, and then those that aren't brought over yet.
    few: BTreeMap<OutPoint, Coin>,
    /// The other coins, once there are many.
    many: Option<Shards>,
}

impl Model for CoinMap {
    ghost use Rattle.coins.specs.Coins.{Coins, coded_coins, few_and_many};

    ghost Value = { Coins };

    ghost coded = { coded_coins };

    ghost view = { λ c. few_and_many c.few.entries c.many };
}

impl CoinMap {
    /// No coins.
    pub fn new(alloc: Global) -> CoinMap
        ensures { result ≡ map.empty }
    {
        CoinMap {
            alloc,
            few: BTreeMap::new(alloc),
            many: None,
        }
    }

    /// An equal map.
    pub fn copy(&self) -> Result<CoinMap, Memory>
        ensures { IfOk result (λ copy. copy ≡ self.now) }
    {
        let few = self.few.clone()?;
        let many = match &self.many {
            Some(shards) => Some(shards.copy()?),
            None => None,
        };
        Ok(CoinMap {
            alloc: self.alloc,
            few,
            many,
        })
    }

    /// The coin at an outpoint, lent.
    pub fn get(&self, at: &OutPoint) -> Option<&Coin>
        ensures { option_copied result ≡ map.get self.now at.now }
    {
        match &self.many {
            Some(shards) => find_among(shards, &self.few, at),
            None => self.few.get(at),
        }
    }

    /// Puts a coin at an outpoint.
    pub fn insert(&mut self, at: OutPoint, coin: Coin) -> Result<(), Memory>
        ensures ok { OnOk result (self.new ≡ map.insert self.old at coin) }
        ensures err { OnErr result (self.new ≡ self.old) }
    {
        self.exchange(at, coin)?;
        Ok(())
    }

    /// Puts a coin at an outpoint, and gives the one that was there.
    pub(crate) fn exchange(&mut self, at: OutPoint, coin: Coin) -> Result<Option<Coin>, Memory>
        ensures old { IfOk result (λ old. old ≡ map.get self.old at) }
        ensures ok { OnOk result (self.new ≡ map.insert self.old at coin) }
        ensures err { OnErr result (self.new ≡ self.old) }
    {
        spread(self.alloc, &mut self.few, &mut self.many)?;
        match &mut self.many {
            Some(shards) => exchange_among(shards, &mut self.few, at, coin),
            None => put(&mut self.few, at, coin),
        }
    }

    /// Takes away the coin at an outpoint, if there is one.
    pub fn remove(&mut self, at: &OutPoint)
        ensures { self.new ≡ map.remove self.old at.now }
    {
        match &mut self.many {
            Some(shards) => remove_among(shards, &mut self.few, at),
            None => erase(&mut self.few, at),
        }
    }

    /// The coin at the least outpoint above another, with that outpoint; above `None`, the least of all.
    pub fn after(&self, at: Option<&OutPoint>) -> Option<(&OutPoint, &Coin)>
        ensures { IsNext self.now (option_copied at.entry) (option_map deref_pair result) }
    {
        match &self.many {
            Some(shards) => after_among(shards, &self.few, at),
            None => entry_after(&self.few, at),
        }
    }

    /// What is to be at an outpoint. Where a coin is to come there is one, so it takes no memory.
    pub(crate) fn set(&mut self, at: OutPoint, coin: Option<Coin>)
        requires { is_some coin ≡ true → is_some (map.get self.old at) ≡ true }
        ensures { self.new ≡ put self.old at coin }
    {
        match coin {
            Some(coin) => self.replace(at, coin),
            None => self.remove(&at),
        }
    }

    fn replace(&mut self, at: OutPoint, coin: Coin)
        requires { is_some (map.get self.old at) ≡ true }
        ensures { self.new ≡ map.insert self.old at coin }
    {
        match &mut self.many {
            Some(shards) => replace_among(shards, &mut self.few, at, coin),
            None => replace(&mut self.few, at, coin),
        }
    }
}

/// Before a coin is put in: where the one map holds [`MANY`] coins or more, many maps are opened, and where there are
/// many maps one coin is brought over.
fn spread(
    alloc: Global,
    few: &mut BTreeMap<OutPoint, Coin>,
    many: &mut Option<Shards>,
) -> Result<(), Memory>
    ensures coins { few_and_many few.new.entries many.new ≡ few_and_many few.old.entries many.old }
    // There are many maps from then on, and not before.
    ensures moved { OnOk result (IsTrue (is_some many.new) ↔
        (IsTrue (is_some many.old) ⊎ (many_from ≤ length few.old.entries))) }
    ensures fewer { OnOk result (IsTrue (is_some many.old) →
        length few.new.entries ≡ length few.old.entries - 1) }
    ensures err { OnErr result
        ((few.new.entries ≡ few.old.entries) × (many.new ≡ many.old)) }
{
    match many {
        Some(shards) => bring_one(few, shards),
        None => {
            if few.len() >= MANY {
                *many = Some(Shards::new(alloc)?);
            }
            Ok(())
        }
    }
}

/// Brings the first coin of the one map into the many, if there is one.
fn bring_one(few: &mut BTreeMap<OutPoint, Coin>, shards: &mut Shards) -> Result<(), Memory>
    ensures coins { few_and_many few.new.entries (Some shards.new)
        ≡ few_and_many few.old.entries (Some shards.old) }
    ensures fewer { OnOk result (length few.new.entries ≡ length few.old.entries - 1) }
    ensures err { OnErr result
        ((few.new.entries ≡ few.old.entries) × (shards.new ≡ shards.old)) }
{
    let Some((at, coin)) = few.first_key_value() else {
        return Ok(());
    };
    if !shards.has(at) {
        shards.insert(*at, coin.copy()?)?;
    }
    drop_first(few);
    Ok(())
}

/// Puts a coin into the many maps, where it is alone then, and gives the one that was at its outpoint.
fn exchange_among(
    shards: &mut Shards,
    few: &mut BTreeMap<OutPoint, Coin>,
    at: OutPoint,
    coin: Coin,
) -> Result<Option<Coin>, Memory>
    ensures old { IfOk result (λ old.
        old ≡ map.get (few_and_many few.old.entries (Some shards.old)) at) }
    ensures ok { OnOk result (few_and_many few.new.entries (Some shards.new)
        ≡ map.insert (few_and_many few.old.entries (Some shards.old)) at coin) }
    ensures err { OnErr result
        ((few.new.entries ≡ few.old.entries) × (shards.new ≡ shards.old)) }
{
    let there = shards.exchange(at, coin)?;
    let left = take_out(few, &at);
    match there {
        Some(coin) => Ok(Some(coin)),
        None => Ok(left),
    }
}

/// Puts a coin in place of another, in the maps that have that one. It takes no memory.
fn replace_among(shards: &mut Shards, few: &mut BTreeMap<OutPoint, Coin>, at: OutPoint, coin: Coin)
    requires { is_some (map.get (few_and_many few.old.entries (Some shards.old)) at) ≡ true }
    ensures { few_and_many few.new.entries (Some shards.new)
        ≡ map.insert (few_and_many few.old.entries (Some shards.old)) at coin }
{
    if shards.has(&at) {
        let _ = shards.insert(at, coin);
    } else {
        replace(few, at, coin);
    }
}

/// Takes away the coin at an outpoint, if there is one.
fn remove_among(shards: &mut Shards, few: &mut BTreeMap<OutPoint, Coin>, at: &OutPoint)
    ensures { few_and_many few.new.entries (Some shards.new)
        ≡ map.remove (few_and_many few.old.entries (Some shards.old)) at.now }
{
    shards.remove(at);
    erase(few, at);
}

/// The coin at an outpoint, lent.
fn find_among<'a>(
    shards: &'a Shards,
    few: &'a BTreeMap<OutPoint, Coin>,
    at: &OutPoint,
) -> Option<&'a Coin>
    ensures { option_copied result
        ≡ map.get (few_and_many few.now.entries (Some shards.now)) at.now }
{
    match shards.get(at) {
        Some(coin) => Some(coin),
        None => few.get(at),
    }
}

/// The coin at the least outpoint above another. Maps behind the one map's next entry aren't looked at: while coins are
/// brought over these have few.
fn after_among<'a>(
    shards: &'a Shards,
    few: &'a BTreeMap<OutPoint, Coin>,
    at: Option<&OutPoint>,
) -> Option<(&'a OutPoint, &'a Coin)>
    ensures { IsNext (few_and_many few.now.entries (Some shards.now)) (option_copied at.entry)
        (option_map deref_pair result) }
{
    let Some(other) = entry_after(few, at) else {
        return shards.after(at, None);
    };
    let Some(one) = shards.after(at, Some(other.0)) else {
        return Some(other);
    };
    match other.0.cmp(one.0) {
        Ordering::Less => Some(other),
        Ordering::Equal | Ordering::Greater => Some(one),
    }
}

fn put(
    entries: &mut BTreeMap<OutPoint, Coin>,
    at: OutPoint,
    coin: Coin,
) -> Result<Option<Coin>, Memory>
    ensures old { IfOk result (λ old. old ≡ entry_for entries.old.entries at) }
    ensures ok { OnOk result (Changed entries.old.entries entries.new.entries at (Some coin)) }
    ensures err { OnErr result (entries.new.entries ≡ entries.old.entries) }
{
    Ok(entries.insert(at, coin)?)
}

fn replace(entries: &mut BTreeMap<OutPoint, Coin>, at: OutPoint, coin: Coin)
    requires { IsSome (entry_for entries.old.entries at) }
    ensures { Changed entries.old.entries entries.new.entries at (Some coin) }
{
    let _ = entries.insert(at, coin);
}

fn erase(entries: &mut BTreeMap<OutPoint, Coin>, at: &OutPoint)
    ensures { Changed entries.old.entries entries.new.entries at.now None }
{
    entries.remove(at);
}

fn take_out(entries: &mut BTreeMap<OutPoint, Coin>, at: &OutPoint) -> Option<Coin>
    ensures old { result ≡ entry_for entries.old.entries at.now }
    ensures changed { Changed entries.old.entries entries.new.entries at.now None }
{
    entries.remove(at)
}

fn drop_first(entries: &mut BTreeMap<OutPoint, Coin>)
    ensures changed { (k : OutPointValue) (c : CoinValue) →
        slice_get entries.old.entries 0 ≡ Some (k, c) →
        Changed entries.old.entries entries.new.entries k None }
    ensures len { length entries.new.entries ≡ length entries.old.entries - 1 }
{
    entries.pop_first();
}

impl Base for CoinMap {
    ghost coins = { λ m. m };

    fn get(&self, at: &OutPoint) -> Option<Lent<'_>> {
        lend(CoinMap::get(self, at))
    }
}
