//! Coins that are read where they lie.

ghost use Rattle.std.specs.Prelude.{◌≡◌};
ghost use Rattle.std.specs.Option.{option_copied, option_map};
ghost use Rattle.coins.specs.Lent.{lent};

use crate::coin::Coin;
use std::alloc::Global;
use txn::Script;
use wire::Memory;

/// A coin that isn't copied: its value in satoshis, its script's bytes where they lie, the height of its block, and
/// whether a coinbase made it. In a clause `lent` is the coin.
#[derive(Clone, Copy)]
pub struct Lent<'a> {
    pub value: i64,
    pub script: &'a [u8],
    pub height: u32,
    pub coinbase: bool,
}

impl<'a> Lent<'a> {
    ghost use Rattle.std.specs.Prelude.{◌↔◌, IfOk, IsTrue};
    ghost use Rattle.coins.specs.Lent.{lent};

    /// The coin, copied.
    pub fn copy(&self, alloc: Global) -> Result<Coin, Memory>
        ensures { IfOk result (λ coin. coin ≡ lent self.now) }
    {
        Ok(Coin {
            value: self.value,
            script: Script::from_slice(alloc, self.script)?,
            height: self.height,
            coinbase: self.coinbase,
        })
    }

    /// Whether all fields are equal.
    pub fn same(&self, other: &Lent<'_>) -> bool
        ensures { IsTrue result ↔ (lent self.now ≡ lent other.now) }
    {
        self.value == other.value
            && self.height == other.height
            && self.coinbase == other.coinbase
            && self.script == other.script
    }
}

/// A coin, lent, if there is one.
pub(crate) fn lend(coin: Option<&Coin>) -> Option<Lent<'_>>
    ensures { option_map lent result ≡ option_copied coin.entry }
{
    match coin {
        Some(coin) => Some(coin.lend()),
        None => None,
    }
}
