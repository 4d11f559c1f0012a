//! What the calls of a seat answer.

ghost use Rattle.std.specs.Prelude.{◌≡◌, IfOk};

use coins::Lent;
use std::alloc::Global;
use txn::Script;
use wire::Memory;

/// An answer with its stamp. For a read the stamp is the number of steps before it, and for a step its
/// own place, from 1.
#[derive(Clone, Debug, Drop, PartialEq, Eq)]
pub struct Stamped<T> {
    pub at: u64,
    pub value: T,
}

/// What became of a verdict on a signature ([`Seat::learn`](crate::Seat::learn)).
#[derive(Clone, Copy, Debug, PartialEq, Eq)]
pub enum Learning {
    /// None was known: it is a step of its own.
    New,
    /// It was known already. No step was taken.
    Known,
    /// The other verdict is known. No step was taken.
    Contradicted,
}

/// An output that isn't spent (Bitcoin Core's `gettxout`): its value in satoshis, its script, the height of
/// its block, whether a coinbase made it, and how many blocks of the active branch there are from its own on.
#[derive(Debug, Drop)]
pub struct UnspentOutput {
    pub value: i64,
    pub script: Script,
    pub height: u32,
    pub coinbase: bool,
    pub confirmations: u32,
}

impl UnspentOutput {
    ghost use Rattle.coins.specs.Lent.{lent};
    ghost use Rattle.node.specs.Told.{unspent_output};

    /// What is told of a coin that so many blocks confirm.
    pub(crate) fn of(
        alloc: Global,
        coin: &Lent<'_>,
        confirmations: u32,
    ) -> Result<UnspentOutput, Memory>
        ensures { IfOk result (λ output. output ≡ unspent_output (lent coin.now, confirmations)) }
    {
        Ok(UnspentOutput {
            value: coin.value,
            script: Script::from_slice(alloc, coin.script)?,
            height: coin.height,
            coinbase: coin.coinbase,
            confirmations,
        })
    }
}
