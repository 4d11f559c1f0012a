//! Transactions and their ids.

ghost use Rattle.std.specs.Prelude.{◌≡◌, IfOk, IsTrue, ◌↔◌};
ghost use Rattle.txn.specs.Coinbase.{IsCoinbase, is_coinbase};
ghost use Rattle.txn.specs.Identity.{id_of};
ghost use Rattle.txn.specs.Weight.{witness_id_of};
ghost use Rattle.txn.specs.WitnessGrammar.{has_witness};

use crate::hasher_input::{feed_tx, feed_witness_tx};
use crate::input::Inputs;
use crate::output::Outputs;
use crate::witness_decode::is_any_there;
use hash::{Id, finish};
use sha2::{Digest, Sha256};
use std::alloc::AllocError;
use std::marker::Model;
use wire::Memory;

/// A lock time below it is a height, and else seconds since 1970 (Bitcoin Core's `LOCKTIME_THRESHOLD`).
pub const LOCKTIME_THRESHOLD: u32 = 500_000_000;

/// A transaction. `lock_time` is a height below [`LOCKTIME_THRESHOLD`], and else seconds since 1970.
#[derive(Debug, Drop)]
pub struct Tx {
    pub version: i32,
    pub inputs: Inputs,
    pub outputs: Outputs,
    pub lock_time: u32,
}

// A clause sees the witnesses beside the inputs, as a field of their own.
impl Model for Tx {
    ghost use Rattle.txn.specs.Tx as value;

    ghost Value = { value.Tx };

    ghost view = { λ tx. record {
      version = tx.version;
      inputs = tx.inputs.list;
      outputs = tx.outputs;
      lock_time = tx.lock_time;
      witnesses = tx.inputs.witnesses;
    } };
}

// A clone is the same value, which a type that contains transactions can build on.
impl Clone for Tx {
    ghost is_clone = { λ old new. new ≡ old };

    fn clone(&self) -> Result<Tx, AllocError> {
        Ok(Tx {
            version: self.version,
            inputs: self.inputs.clone()?,
            outputs: self.outputs.clone()?,
            lock_time: self.lock_time,
        })
    }
}

impl PartialEq for Tx {
    ghost use Rattle.std.specs.Cmp.{decided, partial_equiv_from_equiv};
    ghost use Rattle.txn.specs.Equality.{same_tx};
    ghost use Rattle.txn.specs.laws.Equality.{same_tx-decides};

    ghost eq = { same_tx };

    ghost laws = { partial_equiv_from_equiv (decided same_tx same_tx-decides) };

    fn eq(&self, other: &Tx) -> bool
        ensures fields { result ≡ same_tx self.now other.now }
        ensures equal { IsTrue result ↔ (self.now ≡ other.now) }
    {
        self.version == other.version
            && self.inputs == other.inputs
            && self.outputs == other.outputs
            && self.lock_time == other.lock_time
    }
}

impl Eq for Tx {
    ghost use Rattle.std.specs.Cmp.{decided};
    ghost use Rattle.txn.specs.Equality.{same_tx};
    ghost use Rattle.txn.specs.laws.Equality.{same_tx-decides};

    ghost laws = { decided same_tx same_tx-decides };
}

impl Tx {
    /// An equal transaction.
    pub fn copy(&self) -> Result<Tx, Memory>
        ensures { IfOk result (λ tx. tx ≡ self.now) }
    {
        Ok(self.clone()?)
    }

    /// The transaction's id: double SHA-256 of its bytes, which are fed to the hasher as they are spelled.
    pub fn id(&self) -> Id
        ensures { result ≡ id_of self.now }
    {
        let mut hasher = Sha256::new();
        feed_tx(&mut hasher, self);
        Id(finish(hasher))
    }

    /// The id with its witnesses (BIP 141, Bitcoin Core's `GetWitnessHash`): double SHA-256 of its bytes with them. Where
    /// there is an input and no witness it is [`id`](Tx::id).
    pub fn witness_id(&self) -> Id
        ensures { result ≡ witness_id_of self.now }
    {
        let mut hasher = Sha256::new();
        feed_witness_tx(&mut hasher, self);
        Id(finish(hasher))
    }

    /// Whether one of its witnesses isn't empty (Bitcoin Core's `HasWitness`).
    pub fn has_witness(&self) -> bool
        ensures { result ≡ has_witness self.now.witnesses }
    {
        is_any_there(self.inputs.witnesses())
    }

    /// Whether it makes new coins, as the first transaction of a block does (Bitcoin Core's `IsCoinBase`).
    pub fn is_coinbase(&self) -> bool
        ensures coinbase { IsTrue result ↔ IsCoinbase self.now }
        // The same, as a test.
        ensures test { result ≡ is_coinbase self.now }
    {
        match self.inputs.as_slice() {
            [input] => input.prev.is_null(),
            _ => false,
        }
    }
}
