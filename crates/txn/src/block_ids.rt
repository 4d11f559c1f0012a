//! The ids of a block's transactions with their witnesses.

ghost use Rattle.std.specs.Prelude.{◌≡◌, IfOk};
ghost use Rattle.txn.specs.Weight.{witness_ids_of};

use crate::tx::Tx;
use hash::Id;
use std::alloc::Global;
use wire::Memory;

/// The ids with witnesses of a block's transactions, in order: the leaves of its witness root (BIP 141, Bitcoin Core's
/// `BlockWitnessMerkleRoot`). 32 zero bytes stand for the first, the coinbase.
pub fn witness_ids(alloc: Global, txs: &[Tx]) -> Result<Vec<Id>, Memory>
    ensures { IfOk result (λ ids. ids.items ≡ witness_ids_of txs.now) }
{
    let Some((_, others)) = txs.split_first() else {
        return Ok(Vec::new(alloc));
    };
    let mut ids = Vec::with_capacity(alloc, txs.len())?;
    ids.push(Id([0; 32]))?;
    for tx in others {
        ids.push(tx.witness_id())?;
    }
    Ok(ids)
}
