//! Outpoints.

ghost use Rattle.std.specs.Prelude.{◌≡◌, IsTrue, ◌↔◌};

use hash::Id;

/// An output of a transaction, by the transaction's id and the output's place in it, from 0.
#[derive(Clone, Copy, Debug, PartialEq, Eq, PartialOrd, Ord, Hash)]
pub struct OutPoint {
    pub id: Id,
    pub index: u32,
}

impl OutPoint {
    ghost use Rattle.txn.specs.Coinbase.{null, is_null};

    /// The outpoint that names no output: a coinbase's input has it.
    pub const NULL: OutPoint = OutPoint {
        id: Id([0; 32]),
        index: u32::MAX,
    };

    /// Whether it is [`OutPoint::NULL`] (Bitcoin Core's `COutPoint::IsNull`).
    pub fn is_null(&self) -> bool
        ensures null { IsTrue result ↔ (self.now ≡ null) }
        // The same, as a test.
        ensures test { result ≡ is_null self.now }
    {
        *self == OutPoint::NULL
    }
}
