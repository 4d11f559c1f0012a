//! A transaction with what the digests of its inputs share.

ghost use Rattle.std.specs.Prelude.{◌≡◌, IfOk};
ghost use Rattle.sighash.specs.inside.MessageFront.{AreMidstates, AreMidstates-prop};

use crate::midstates::{Midstates, states_worth_keeping};
use crate::spent::SpentScripts;
use sha2::Sha256;
use std::alloc::Global;
use txn::Tx;
use wire::Memory;

/// A transaction for many calls, with the hasher's states at every 16th of its inputs (Bitcoin Core's
/// `PrecomputedTransactionData`). Digests that are found ahead rest on the scripts that are spent, and aren't kept.
#[derive(Drop)]
pub struct PrecomputedTx {
    pub tx: Tx,
    states: Vec<Sha256>,
    ghost fed: { AreMidstates tx states.items } by { AreMidstates-prop tx states.items },
}

impl PrecomputedTx {
    /// Hashes the inputs of a transaction once. Of one with fewer than 32 inputs no state is kept, and no memory taken.
    pub fn of(alloc: Global, tx: Tx) -> Result<PrecomputedTx, Memory>
        ensures { IfOk result (λ found. found.tx ≡ tx) }
    {
        let states = states_worth_keeping(alloc, &tx)?;
        Ok(PrecomputedTx { tx, states })
    }

    /// The transaction's midstates. They take no memory, and find no digest ahead.
    pub fn midstates(&self, alloc: Global) -> Midstates<'_>
        ensures { result.tx.now ≡ self.now.tx }
    {
        Midstates::lent(alloc, &self.tx, self.states.as_slice())
    }

    /// The same for all of its inputs, which spend these scripts, as [`Midstates::of`] with place 0 finds them.
    pub fn midstates_of_all<S: SpentScripts>(
        &self,
        alloc: Global,
        spent: &S,
    ) -> Result<Midstates<'_>, Memory>
        ensures { IfOk result (λ midstates. midstates.tx.now ≡ self.now.tx) }
    {
        Midstates::lent_ahead(alloc, &self.tx, 0, self.states.as_slice(), spent)
    }
}
