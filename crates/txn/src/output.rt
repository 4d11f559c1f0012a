//! Outputs.

ghost use Rattle.std.specs.Prelude.{◌≡◌, IfOk, IsTrue, ◌↔◌};

use crate::script::Script;
use wire::{Memory, Parts};

/// An output of a transaction: its value in satoshis, and its script.
#[derive(Clone, Debug, Drop)]
pub struct TxOut {
    pub value: i64,
    pub script: Script,
}

/// The outputs of a transaction, in order.
pub type Outputs = Parts<TxOut>;

impl PartialEq for TxOut {
    ghost use Rattle.std.specs.Cmp.{decided, partial_equiv_from_equiv};
    ghost use Rattle.txn.specs.Equality.{same_output};
    ghost use Rattle.txn.specs.laws.Equality.{same_output-decides};

    ghost eq = { same_output };

    ghost laws = { partial_equiv_from_equiv (decided same_output same_output-decides) };

    fn eq(&self, other: &TxOut) -> bool
        ensures fields { result ≡ same_output self.now other.now }
        ensures equal { IsTrue result ↔ (self.now ≡ other.now) }
    {
        self.value == other.value && self.script == other.script
    }
}

impl Eq for TxOut {
    ghost use Rattle.std.specs.Cmp.{decided};
    ghost use Rattle.txn.specs.Equality.{same_output};
    ghost use Rattle.txn.specs.laws.Equality.{same_output-decides};

    ghost laws = { decided same_output same_output-decides };
}

impl TxOut {
    /// An equal output.
    pub fn copy(&self) -> Result<TxOut, Memory>
        ensures { IfOk result (λ output. output ≡ self.now) }
    {
        Ok(self.clone()?)
    }
}
