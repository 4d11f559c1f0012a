//! What a block spent, packed.

ghost use Rattle.std.specs.Prelude.{◌≡◌, IfOk};

use crate::block_undo::BlockUndo;
use crate::packed_txs::PackedTxs;
use std::alloc::Global;
use std::marker::Model;
use wire::Memory;

/// A [`BlockUndo`] in a few pieces of memory, however many coins it has: 8 bytes for a block that spends nothing, and
/// else some 80, with 8 for each transaction, and 24 and its script for each coin. A clause sees the same list of lists.
#[derive(Debug, Drop)]
pub struct PackedUndo {
    /// None where there is no transaction but the first.
    txs: Option<Box<PackedTxs>>,
}

impl Model for PackedUndo {
    ghost use Rattle.std.specs.Prelude.{List, []};
    ghost use Rattle.std.specs.Option.{option_map_or};
    ghost use Rattle.coins.specs.declared.coin.Coin.{Coin};

    ghost Value = { List (List Coin) };

    ghost view = { λ p. option_map_or (λ b. b.value) p.txs [] };
}

impl BlockUndo {
    /// The same, packed.
    pub fn pack(&self, alloc: Global) -> Result<PackedUndo, Memory>
        ensures { IfOk result (λ packed. packed ≡ self.now) }
    {
        if self.is_empty() {
            return Ok(PackedUndo { txs: None });
        }
        let txs = Box::new(alloc, PackedTxs::of(alloc, self.as_slice())?)?;
        Ok(PackedUndo { txs: Some(txs) })
    }
}

impl PackedUndo {
    /// The same, packed as it is.
    pub fn copy(&self, alloc: Global) -> Result<PackedUndo, Memory>
        ensures { IfOk result (λ packed. packed ≡ self.now) }
    {
        match &self.txs {
            Some(txs) => {
                let copy = Box::new(alloc, txs.copy(alloc)?)?;
                Ok(PackedUndo { txs: Some(copy) })
            }
            None => Ok(PackedUndo { txs: None }),
        }
    }

    /// The same, as it was before it was packed.
    pub fn unpack(&self, alloc: Global) -> Result<BlockUndo, Memory>
        ensures { IfOk result (λ undo. undo ≡ self.now) }
    {
        match &self.txs {
            Some(txs) => txs.unpack(alloc),
            None => Ok(BlockUndo::new(alloc)),
        }
    }
}
