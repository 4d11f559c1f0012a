//! Lists of the coins that change.

ghost use Rattle.std.specs.Prelude.{◌≡◌, ◌↔◌, IfOk, IsTrue, [], length, not};
ghost use Rattle.std.specs.Option.{option_copied, option_map};
ghost use Rattle.std.specs.List.Sorted.{IsStrictlySortedBy};
ghost use Rattle.std.specs.Map.{keys_of};
ghost use Rattle.std.specs.FinMap as map;
ghost use Rattle.coins.specs.Changes.{IsInOrder};
ghost use Rattle.coins.specs.Coins.{outpoint_cmp};
ghost use Rattle.coins.specs.Entries.{named};
ghost use Rattle.coins.specs.Lent.{lent};
ghost use Rattle.coins.specs.inside.Changes.{IsAsBelow, AreChanging};

use crate::base::Base;
use crate::coin::Coin;
use crate::entry::CacheEntry;
use crate::lent::Lent;
use std::alloc::Global;
use std::collections::BTreeMap;
use std::marker::Model;
use txn::OutPoint;
use wire::Memory;

/// A coin that changes: its outpoint, and the coin that is there after, or None where it is gone.
pub type Change = (OutPoint, Option<Coin>);

/// Coins that change, by rising outpoints: the entries of a layer, as they stood in it. A clause sees their list.
#[derive(Drop)]
pub struct Changes {
    entries: BTreeMap<OutPoint, CacheEntry>,
}

impl Model for Changes {
    ghost use Rattle.coins.specs.Changes.{Changes, IsInOrder};
    ghost use Rattle.coins.specs.Entries.{named};

    ghost Value = { Changes };

    ghost view = { λ c. named c.entries.entries };

    ghost invariant = { λ c. IsInOrder (named c.entries.entries) };
}

impl Changes {
    /// No changes.
    pub fn new(alloc: Global) -> Changes
        ensures { result ≡ [] }
    {
        Changes {
            entries: BTreeMap::new(alloc),
        }
    }

    /// The changes that these entries name, taken over.
    pub(crate) fn from_entries(entries: BTreeMap<OutPoint, CacheEntry>) -> Changes
        requires { IsInOrder (named entries.entries) }
        ensures { result ≡ named entries.entries }
    {
        Changes { entries }
    }

    /// Their entries.
    pub(crate) fn entries(&self) -> &BTreeMap<OutPoint, CacheEntry>
        ensures named { named result.now.entries ≡ self.now }
        ensures in_order { IsInOrder (named result.now.entries) }
    {
        &self.entries
    }

    /// Equal changes.
    pub fn copy(&self) -> Result<Changes, Memory>
        ensures { IfOk result (λ copy. copy ≡ self.now) }
    {
        Ok(Changes::from_entries(self.entries.clone()?))
    }

    /// Their list, copied.
    pub fn to_vec(&self, alloc: Global) -> Result<Vec<Change>, Memory>
        ensures { IfOk result (λ list. list.items ≡ self.now) }
    {
        list(alloc, &self.entries)
    }

    /// How many there are.
    pub fn len(&self) -> usize
        ensures { result ≡ length self.now }
    {
        self.entries.len()
    }

    /// Whether there is none.
    pub fn is_empty(&self) -> bool
        ensures { IsTrue result ↔ (self.now ≡ []) }
    {
        self.entries.is_empty()
    }
}

/// The list that entries name, copied.
fn list(alloc: Global, entries: &BTreeMap<OutPoint, CacheEntry>) -> Result<Vec<Change>, Memory>
    ensures { IfOk result (λ list. list.items ≡ named entries.now.entries) }
{
    let mut list = Vec::with_capacity(alloc, entries.len())?;
    for (at, entry) in entries {
        list.push((*at, entry.own_coin()?))?;
    }
    Ok(list)
}

/// The entries that change what is below. The others are dropped in place, which takes no memory.
pub(crate) fn changing<B: Base>(
    entries: BTreeMap<OutPoint, CacheEntry>,
    base: &B,
) -> BTreeMap<OutPoint, CacheEntry>
    ensures was_ordered { IsStrictlySortedBy outpoint_cmp (keys_of entries.entries) }
    ensures changing { AreChanging (B.coins base.now) entries.entries result.entries }
{
    let mut kept = entries;
    kept.retain(|at, entry| differs(entry, at, base));
    kept
}

/// Whether an entry changes what is below. Below a fresh entry nobody looks.
fn differs<B: Base>(entry: &CacheEntry, at: &OutPoint, base: &B) -> bool
    ensures { IsTrue (not result) ↔ IsAsBelow entry.now (map.get (B.coins base.now) at.now) }
{
    match entry {
        CacheEntry::Clean => false,
        CacheEntry::Fresh(_) => true,
        CacheEntry::Dirty(coin) => !same(coin.as_ref(), base.get(at)),
    }
}

fn same(a: Option<&Coin>, b: Option<Lent<'_>>) -> bool
    ensures { IsTrue result ↔ (option_copied a.entry ≡ option_map lent b.entry) }
{
    match (a, b) {
        (Some(a), Some(b)) => a.lend().same(&b),
        (None, None) => true,
        _ => false,
    }
}
