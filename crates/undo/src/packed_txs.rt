//! What transactions spent, in less memory than each by itself.

ghost use Rattle.std.specs.Prelude.{◌≡◌, IfOk};

use crate::block_undo::{BlockUndo, Spent};
use crate::packed_coins::PackedCoins;
use std::alloc::Global;
use std::marker::Model;
use wire::Memory;

/// How many coins there are, and how long their scripts are together.
#[derive(Clone, Copy)]
struct Room {
    coins: usize,
    scripts: usize,
}

impl Room {
    /// What these transactions' coins take, so that their lists have no room to give back.
    fn of(txs: &[Spent]) -> Room {
        let (mut coins, mut scripts) = (0usize, 0usize);
        for spent in txs {
            coins = coins.saturating_add(spent.len());
            scripts = scripts.saturating_add(scripts_of(spent));
        }
        Room { coins, scripts }
    }
}

/// How long the scripts of these coins are together.
fn scripts_of(spent: &Spent) -> usize {
    let (coins, mut bytes) = (spent.as_slice(), 0usize);
    for coin in coins {
        bytes = bytes.saturating_add(coin.script.as_slice().len());
    }
    bytes
}

/// The coins that transactions spent, in one list, with how many are of each. A clause sees the list of their lists.
#[derive(Debug, Drop)]
pub(crate) struct PackedTxs {
    counts: Vec<usize>,
    coins: PackedCoins,
}

impl Model for PackedTxs {
    ghost use Rattle.std.specs.Prelude.{◌≡◌, List, length, sum};
    ghost use Rattle.coins.specs.declared.coin.Coin.{Coin};
    ghost use Rattle.undo.specs.inside.PackedCoins.{grouped};

    ghost Value = { List (List Coin) };

    ghost view = { λ p. grouped p.counts.items p.coins };

    ghost invariant = { λ p. sum p.counts.items ≡ length p.coins };
}

impl PackedTxs {
    /// The coins that these transactions spent.
    pub(crate) fn of(alloc: Global, txs: &[Spent]) -> Result<PackedTxs, Memory>
        ensures { IfOk result (λ packed. packed ≡ txs.now) }
    {
        let mut counts = Vec::with_capacity(alloc, txs.len())?;
        let room = Room::of(txs);
        let mut coins = PackedCoins::with_room(alloc, room.coins, room.scripts)?;
        for spent in txs {
            counts.push(spent.len())?;
            coins.add(spent)?;
        }
        Ok(PackedTxs { counts, coins })
    }

    /// The same, packed as it is.
    pub(crate) fn copy(&self, alloc: Global) -> Result<PackedTxs, Memory>
        ensures { IfOk result (λ packed. packed ≡ self.now) }
    {
        let counts = Vec::from_slice(alloc, self.counts.as_slice())?;
        let coins = self.coins.copy(alloc)?;
        Ok(PackedTxs { counts, coins })
    }

    /// The same, as it was before it was packed.
    pub(crate) fn unpack(&self, alloc: Global) -> Result<BlockUndo, Memory>
        ensures { IfOk result (λ undo. undo ≡ self.now) }
    {
        let mut coins = self.coins.reader();
        let mut undo = BlockUndo::new(alloc);
        let counts = self.counts.as_slice();
        for count in counts {
            undo.push(coins.take(alloc, *count)?)?;
        }
        Ok(undo)
    }
}
