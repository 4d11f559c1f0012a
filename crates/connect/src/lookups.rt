//! Coins that an output would overwrite.

ghost use Rattle.std.specs.Prelude.{◌≡◌, ◌≤◌, false, length, map};
ghost use Rattle.std.specs.List.{list_any, range_with_len};
ghost use Rattle.txn.specs.Identity.{id_of};
ghost use Rattle.undo.specs.Effect.{outpoint_at};
ghost use Rattle.connect.specs.Faults.{has_coin, overwrites};
ghost use Rattle.connect.specs.declared.lookups.Lookup.TheVariants.{Above};

use coins::{Base, Cache};
use hash::Id;
use txn::{OutPoint, Tx};

/// Where the outputs of a transaction are looked for in its turn.
#[derive(Clone, Copy)]
pub(crate) enum Lookup {
    /// In what its layer wrote: none of them is a coin below.
    Above,
    /// In all coins of its layer, on which other blocks may have written before.
    Whole,
}

/// Whether an output of a transaction in its turn is a coin already.
pub(crate) fn overwrites_in_turn<B: Base>(
    layer: &Cache<'_, B>,
    tx: &Tx,
    id: Id,
    lookup: Lookup,
) -> bool
    requires id { id ≡ id_of tx.now }
    requires numbered { length tx.now.outputs ≤ 1000000 }
    requires below { lookup ≡ Above → overwrites layer.now.base tx.now ≡ false }
    ensures { result ≡ overwrites layer.now.coins tx.now }
{
    match lookup {
        Lookup::Above => overwrites_above(layer, tx, id),
        Lookup::Whole => overwrites(layer, tx, id),
    }
}

/// Whether an output of a transaction of this id is a coin already (BIP 30).
#[tactic(auto, unfolding(crate::specs::Faults::overwrites))]
pub(crate) fn overwrites<B: Base>(layer: &Cache<'_, B>, tx: &Tx, id: Id) -> bool
    requires id { id ≡ id_of tx.now }
    requires numbered { length tx.now.outputs ≤ 1000000 }
    ensures { result ≡ overwrites layer.now.coins tx.now }
{
    has_coin_below(layer, id, tx.outputs.len() as u32)
}

/// Whether one of the first outpoints of an id is a coin.
fn has_coin_below<B: Base>(layer: &Cache<'_, B>, id: Id, count: u32) -> bool
    ensures { result ≡
        list_any (has_coin layer.now.coins) (map (outpoint_at id) (range_with_len 0 count)) }
{
    for index in 0..count {
        if layer.get(&OutPoint { id, index }).is_some() {
            return true;
        }
    }
    false
}

/// The same where none of its outputs is a coin below the layer, which isn't looked at again.
#[tactic(auto, unfolding(crate::specs::Faults::overwrites))]
fn overwrites_above<B: Base>(layer: &Cache<'_, B>, tx: &Tx, id: Id) -> bool
    requires id { id ≡ id_of tx.now }
    requires numbered { length tx.now.outputs ≤ 1000000 }
    requires below { overwrites layer.now.base tx.now ≡ false }
    ensures { result ≡ overwrites layer.now.coins tx.now }
{
    has_coin_above(layer, id, tx.outputs.len() as u32)
}

/// Whether one of the first outpoints of an id is a coin, where none of them is one below.
fn has_coin_above<B: Base>(layer: &Cache<'_, B>, id: Id, count: u32) -> bool
    requires { list_any (has_coin layer.now.base) (map (outpoint_at id) (range_with_len 0 count)) ≡
        false }
    ensures { result ≡
        list_any (has_coin layer.now.coins) (map (outpoint_at id) (range_with_len 0 count)) }
{
    for index in 0..count {
        if layer.has_above(&OutPoint { id, index }) {
            return true;
        }
    }
    false
}
