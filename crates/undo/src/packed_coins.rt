//! Coins in less memory than each by itself.

ghost use Rattle.std.specs.Prelude.{◌≡◌, ◌≤◌, ◌<◌, IfOk, OnOk, [], ◌∷◌, ◌++◌, length, take, drop};

use crate::block_undo::Spent;
use crate::coin_head::CoinHead;
use coins::Coin;
use std::alloc::Global;
use std::marker::Model;
use txn::Script;
use wire::Memory;

/// Coins, of which the scripts lie one after the other. A clause sees their list.
#[derive(Debug, Drop)]
pub(crate) struct PackedCoins {
    heads: Vec<CoinHead>,
    scripts: Vec<u8>,
}

impl Model for PackedCoins {
    ghost use Rattle.std.specs.Prelude.{List};
    ghost use Rattle.coins.specs.declared.coin.Coin.{Coin};
    ghost use Rattle.undo.specs.inside.PackedCoins.{packed_coins, AreWhole};

    ghost Value = { List Coin };

    ghost view = { λ p. packed_coins p.heads.items p.scripts.items };

    ghost invariant = { λ p. AreWhole p.heads.items p.scripts.items };
}

impl PackedCoins {
    /// No coins, with room for so many, and for scripts that are so long together.
    pub(crate) fn with_room(
        alloc: Global,
        coins: usize,
        scripts: usize,
    ) -> Result<PackedCoins, Memory>
        ensures { IfOk result (λ packed. packed ≡ []) }
    {
        let heads = Vec::with_capacity(alloc, coins)?;
        let scripts = Vec::with_capacity(alloc, scripts)?;
        Ok(PackedCoins { heads, scripts })
    }

    /// The same coins.
    pub(crate) fn copy(&self, alloc: Global) -> Result<PackedCoins, Memory>
        ensures { IfOk result (λ coins. coins ≡ self.now) }
    {
        let heads = Vec::from_slice(alloc, self.heads.as_slice())?;
        let scripts = Vec::from_slice(alloc, self.scripts.as_slice())?;
        Ok(PackedCoins { heads, scripts })
    }

    /// The coins that a transaction spent, at the end.
    pub(crate) fn add(&mut self, spent: &Spent) -> Result<(), Memory>
        ensures { OnOk result (self.new ≡ self.old ++ spent.now) }
    {
        let coins = spent.as_slice();
        for coin in coins {
            self.push(coin)?;
        }
        Ok(())
    }

    /// One coin more, at the end.
    fn push(&mut self, coin: &Coin) -> Result<(), Memory>
        ensures { OnOk result (self.new ≡ self.old ++ coin.now ∷ []) }
    {
        let head = CoinHead::of(coin);
        self.heads.reserve(1)?;
        self.scripts.extend_from_slice(coin.script.as_slice())?;
        self.heads.push_reserved(head);
        Ok(())
    }

    /// Its coins, to be read from the front.
    pub(crate) fn reader(&self) -> CoinReader<'_>
        ensures { result ≡ self.now }
    {
        CoinReader {
            heads: self.heads.as_slice(),
            scripts: self.scripts.as_slice(),
        }
    }
}

/// A place in packed coins: what is left of them.
#[derive(Drop)]
pub(crate) struct CoinReader<'a> {
    heads: &'a [CoinHead],
    scripts: &'a [u8],
}

impl<'a> Model for CoinReader<'a> {
    ghost use Rattle.std.specs.Prelude.{List};
    ghost use Rattle.coins.specs.declared.coin.Coin.{Coin};
    ghost use Rattle.undo.specs.inside.PackedCoins.{packed_coins, AreWhole};

    ghost Value = { List Coin };

    ghost view = { λ r. packed_coins r.heads.now r.scripts.now };

    ghost invariant = { λ r. AreWhole r.heads.now r.scripts.now };
}

impl<'a> CoinReader<'a> {
    /// The next so many coins, as a transaction spent them.
    pub(crate) fn take(&mut self, alloc: Global, count: usize) -> Result<Spent, Memory>
        requires { count ≤ length self.old }
        ensures spent { IfOk result (λ spent. spent ≡ take count self.old) }
        ensures left { OnOk result (self.new ≡ drop count self.old) }
    {
        let mut spent = Spent::with_room(alloc, count)?;
        for _ in 0..count {
            spent.push(self.next(alloc)?)?;
        }
        Ok(spent)
    }

    /// The next coin.
    fn next(&mut self, alloc: Global) -> Result<Coin, Memory>
        requires { 0 < length self.old }
        ensures { IfOk result (λ coin. self.old ≡ coin ∷ self.new) }
    {
        let head = self.heads[0];
        let (script, scripts) = self.scripts.split_at(head.script_len);
        let script = Script::from_slice(alloc, script)?;
        self.heads = &self.heads[1..];
        self.scripts = scripts;
        Ok(Coin {
            value: head.value,
            script,
            height: head.height,
            coinbase: head.coinbase,
        })
    }
}
