//! A transaction that later lines may name.

ghost use Rattle.std.specs.Prelude.{◌≡◌};
ghost use Rattle.txn.specs.Identity.{id_of};

use hash::Id;
use txn::Tx;

/// A transaction with its id.
#[derive(Drop)]
pub struct Known {
    pub tx: Tx,
    pub id: Id,
}

impl Known {
    pub fn from_tx(tx: Tx) -> Known
        ensures tx { result.tx ≡ tx }
        ensures id { result.id ≡ id_of tx }
    {
        let id = tx.id();
        Known { tx, id }
    }
}
