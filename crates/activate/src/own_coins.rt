//! Who takes the coins that a command changes.

ghost use Rattle.std.specs.Prelude.{◌≡◌, IfOk};
ghost use Rattle.std.specs.FinMap as coin_map;
ghost use Rattle.coins.specs.Changes.{after_changes};

use coins::{Changes, CoinMap};
use std::alloc::Global;
use std::marker::Model;
use tree::Lays;
use wire::Memory;

/// The coins of a chainstate that keeps them itself.
#[derive(Drop)]
pub(crate) struct OwnCoins {
    map: CoinMap,
}

impl Model for OwnCoins {
    ghost use Rattle.coins.specs.Coins.{Coins, coded_coins};

    ghost Value = { Coins };

    ghost coded = { coded_coins };

    ghost view = { λ c. c.map };
}

impl OwnCoins {
    /// No coins.
    pub(crate) fn new(alloc: Global) -> OwnCoins
        ensures { result ≡ coin_map.empty }
    {
        OwnCoins {
            map: CoinMap::new(alloc),
        }
    }

    /// The same coins.
    pub(crate) fn copy(&self) -> Result<OwnCoins, Memory>
        ensures { IfOk result (λ coins. coins ≡ self.now) }
    {
        Ok(OwnCoins {
            map: self.map.copy()?,
        })
    }

    /// The coins, lent.
    pub(crate) fn map(&self) -> &CoinMap
        ensures { result.now ≡ self.now }
    {
        &self.map
    }
}

impl Lays<Changes> for OwnCoins {
    ghost laid = { after_changes };

    fn lay(&mut self, alloc: Global, step: Changes) -> Result<(), Memory> {
        self.map.lay(alloc, &step)
    }
}

/// The list of what changes, for whoever lent the coins. It refuses nothing.
#[derive(Drop)]
pub(crate) struct ChangesToLay {
    pub(crate) list: Changes,
}

impl Lays<Changes> for ChangesToLay {
    ghost laid = { λ _ step. record { list = step } };

    fn lay(&mut self, _: Global, step: Changes) -> Result<(), Memory> {
        self.list = step;
        Ok(())
    }
}
