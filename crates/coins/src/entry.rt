//! The entries of a layer.

ghost use Rattle.std.specs.Prelude.{◌≡◌, ◌↔◌, IfOk, OnOk, OnErr, IsOk, IsTrue, None, Some, IsSome, is_some};
ghost use Rattle.std.specs.FinMap as map;
ghost use Rattle.std.specs.Option.{option_copied};
ghost use Rattle.txn.specs.declared.outpoint.OutPoint.{OutPoint};
ghost use Rattle.coins.specs.declared.entry.CacheEntry.TheVariants.{Clean};
ghost use Rattle.coins.specs.Entries.{entry_at, own_coin};
ghost use Rattle.coins.specs.inside.Entries.{added_entry, is_fresh, stands_at, entry_without_coin, Written, AreReadied, HasRoom, merge_entry, merge_entry_at};

use crate::base::Base;
use crate::coin::Coin;
use std::alloc::{AllocError, Global};
use std::collections::BTreeMap;
use std::collections::btree_map::Entry;
use txn::OutPoint;
use wire::Memory;

/// What a layer knows of an outpoint (Bitcoin Core's `CCoinsCacheEntry`).
#[derive(Debug, Drop)]
pub enum CacheEntry {
    /// As below: a place that is ready to be written.
    Clean,
    /// DIRTY: it may differ from below. A coin, or none where that was spent.
    Dirty(Option<Coin>),
    /// DIRTY and FRESH: a coin where the base has none, so that nothing is left once it is spent.
    Fresh(Coin),
}

// A clone is the same value, so that a map of entries can be cloned.
impl Clone for CacheEntry {
    ghost is_clone = { λ old new. new ≡ old };

    fn clone(&self) -> Result<CacheEntry, AllocError> {
        match self {
            CacheEntry::Clean => Ok(CacheEntry::Clean),
            CacheEntry::Dirty(None) => Ok(CacheEntry::Dirty(None)),
            CacheEntry::Dirty(Some(coin)) => Ok(CacheEntry::Dirty(Some(coin.clone()?))),
            CacheEntry::Fresh(coin) => Ok(CacheEntry::Fresh(coin.clone()?)),
        }
    }
}

impl CacheEntry {
    /// The coin that it holds, copied.
    pub(crate) fn own_coin(&self) -> Result<Option<Coin>, Memory>
        ensures { IfOk result (λ coin. coin ≡ own_coin (Some self.now)) }
    {
        match self {
            CacheEntry::Dirty(Some(coin)) | CacheEntry::Fresh(coin) => Ok(Some(coin.copy()?)),
            _ => Ok(None),
        }
    }
}

/// The entry of a coin that is added: fresh, unless one was spent here.
pub(crate) fn added(before: Option<&CacheEntry>, coin: Coin) -> CacheEntry
    ensures { result ≡ added_entry (option_copied before.entry) coin }
{
    match before {
        Some(CacheEntry::Dirty(_)) => CacheEntry::Dirty(Some(coin)),
        _ => CacheEntry::Fresh(coin),
    }
}

fn is_fresh(entry: Option<&CacheEntry>) -> bool
    ensures { result ≡ is_fresh (option_copied entry.entry) }
{
    matches!(entry, Some(CacheEntry::Fresh(_)))
}

pub(crate) fn holds_coin(entry: Option<&CacheEntry>) -> bool
    ensures { result ≡ is_some (own_coin (option_copied entry.entry)) }
{
    matches!(
        entry,
        Some(CacheEntry::Dirty(Some(_))) | Some(CacheEntry::Fresh(_))
    )
}

fn is_clean(entry: &CacheEntry) -> bool
    ensures { IsTrue result ↔ (entry.now ≡ Clean) }
{
    matches!(entry, CacheEntry::Clean)
}

pub(crate) fn coin_of(entry: Option<CacheEntry>) -> Option<Coin>
    ensures { result ≡ own_coin entry }
{
    match entry {
        Some(CacheEntry::Fresh(coin)) => Some(coin),
        Some(CacheEntry::Dirty(coin)) => coin,
        _ => None,
    }
}

/// Puts an entry at an outpoint. Where there is one already, it takes no memory.
pub(crate) fn write(
    entries: &mut BTreeMap<OutPoint, CacheEntry>,
    at: OutPoint,
    entry: CacheEntry,
) -> Result<(), Memory>
    ensures ok { OnOk result (Written entries.old.entries entries.new.entries at (Some entry)) }
    ensures err { OnErr result (entries.new.entries ≡ entries.old.entries) }
    ensures present { IsSome (entry_at entries.old.entries at) → IsOk result }
{
    entries.insert(at, entry)?;
    Ok(())
}

fn forget(entries: &mut BTreeMap<OutPoint, CacheEntry>, at: &OutPoint)
    ensures { Written entries.old.entries entries.new.entries at.now None }
{
    entries.remove(at);
}

/// Takes the coin at an outpoint, if there is one. It is copied only where it isn't the layer's own.
pub(crate) fn take<B: Base>(
    alloc: Global,
    entries: &mut BTreeMap<OutPoint, CacheEntry>,
    base: &B,
    at: &OutPoint,
) -> Result<Option<Coin>, Memory>
    ensures coin { IfOk result (λ coin. coin ≡
        stands_at (entry_at entries.old.entries at.now) (map.get (B.coins base.now) at.now)) }
    ensures taken { let before = entries.old.entries in
        let below = map.get (B.coins base.now) at.now in
        OnOk result (Written before entries.new.entries at.now
        (entry_without_coin (entry_at before at.now) below)) }
    ensures err { OnErr result (entries.new.entries ≡ entries.old.entries) }
{
    match entries.entry(*at)? {
        Entry::Vacant(place) => {
            let Some(coin) = base.get(at) else {
                return Ok(None);
            };
            let coin = coin.copy(alloc)?;
            place.insert(CacheEntry::Dirty(None));
            Ok(Some(coin))
        }
        Entry::Occupied(mut place) => {
            if is_fresh(Some(place.get())) {
                return Ok(coin_of(Some(place.remove())));
            }
            if is_clean(place.get()) {
                let Some(coin) = base.get(at) else {
                    return Ok(None);
                };
                let coin = coin.copy(alloc)?;
                place.insert(CacheEntry::Dirty(None));
                return Ok(Some(coin));
            }
            Ok(coin_of(Some(place.insert(CacheEntry::Dirty(None)))))
        }
    }
}

/// Puts a coin at an outpoint, where it is fresh unless one was spent here.
pub(crate) fn put(
    entries: &mut BTreeMap<OutPoint, CacheEntry>,
    at: OutPoint,
    coin: Coin,
) -> Result<(), Memory>
    ensures ok { OnOk result (Written entries.old.entries entries.new.entries at
        (Some (added_entry (entry_at entries.old.entries at) coin))) }
    ensures err { OnErr result (entries.new.entries ≡ entries.old.entries) }
{
    match entries.entry(at)? {
        Entry::Vacant(place) => {
            place.insert(CacheEntry::Fresh(coin));
        }
        Entry::Occupied(mut place) => {
            let entry = added(Some(place.get()), coin);
            place.insert(entry);
        }
    }
    Ok(())
}

/// Has an entry at each outpoint that is going to be written, a clean one where there was none.
pub(crate) fn make_room(
    entries: &mut BTreeMap<OutPoint, CacheEntry>,
    writes: &BTreeMap<OutPoint, CacheEntry>,
) -> Result<(), Memory>
    ensures readied { AreReadied entries.old.entries entries.new.entries }
    ensures room { OnOk result (HasRoom entries.new.entries writes.now.entries) }
{
    for (at, _) in writes {
        if !entries.contains_key(at) {
            write(entries, *at, CacheEntry::Clean)?;
        }
    }
    Ok(())
}

/// Lays an entry of the layer above over the one that is there, which takes no memory.
fn lay_one(entries: &mut BTreeMap<OutPoint, CacheEntry>, at: OutPoint, entry: CacheEntry)
    requires { IsSome (entry_at entries.old.entries at) }
    ensures { Written entries.old.entries entries.new.entries at
        (merge_entry (entry_at entries.old.entries at) entry) }
{
    match entry {
        CacheEntry::Clean => {}
        CacheEntry::Dirty(None) => {
            if is_fresh(entries.get(&at)) {
                forget(entries, &at);
            } else {
                let _ = write(entries, at, CacheEntry::Dirty(None));
            }
        }
        CacheEntry::Dirty(Some(coin)) => {
            if is_fresh(entries.get(&at)) {
                let _ = write(entries, at, CacheEntry::Fresh(coin));
            } else {
                let _ = write(entries, at, CacheEntry::Dirty(Some(coin)));
            }
        }
        CacheEntry::Fresh(coin) => {
            let entry = added(entries.get(&at), coin);
            let _ = write(entries, at, entry);
        }
    }
}

/// Lays all entries of the layer above over those that are there, which takes no memory.
pub(crate) fn lay_all(
    entries: &mut BTreeMap<OutPoint, CacheEntry>,
    writes: BTreeMap<OutPoint, CacheEntry>,
)
    requires { HasRoom entries.old.entries writes.entries }
    ensures { (q : OutPoint) → entry_at entries.new.entries q ≡
        merge_entry_at (entry_at entries.old.entries q) (entry_at writes.entries q) }
{
    for (at, entry) in writes {
        lay_one(entries, at, entry);
    }
}
