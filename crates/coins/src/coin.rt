//! Outputs that aren't spent.

ghost use Rattle.std.specs.Prelude.{◌≡◌, ◌↔◌, IfOk, IsTrue};

use crate::lent::Lent;
use std::alloc::AllocError;
use txn::Script;
use wire::Memory;

/// An output that isn't spent (Bitcoin Core's `Coin`): its value in satoshis, its script, the height of
/// its block, and whether a coinbase made it.
#[derive(Debug, Drop)]
pub struct Coin {
    pub value: i64,
    pub script: Script,
    pub height: u32,
    pub coinbase: bool,
}

// A clone is the same value, so that a map of coins can be cloned.
impl Clone for Coin {
    ghost is_clone = { λ old new. new ≡ old };

    fn clone(&self) -> Result<Coin, AllocError> {
        Ok(Coin {
            value: self.value,
            script: self.script.clone()?,
            height: self.height,
            coinbase: self.coinbase,
        })
    }
}

impl Coin {
    ghost use Rattle.coins.specs.Lent.{lent};

    /// The coin, lent.
    pub fn lend(&self) -> Lent<'_>
        ensures { lent result ≡ self.now }
    {
        Lent {
            value: self.value,
            script: self.script.as_slice(),
            height: self.height,
            coinbase: self.coinbase,
        }
    }

    /// An equal coin.
    pub fn copy(&self) -> Result<Coin, Memory>
        ensures { IfOk result (λ coin. coin ≡ self.now) }
    {
        Ok(self.clone()?)
    }

    /// Whether all fields are equal.
    pub fn same(&self, other: &Coin) -> bool
        ensures { IsTrue result ↔ (self.now ≡ other.now) }
    {
        self.lend().same(&other.lend())
    }
}
