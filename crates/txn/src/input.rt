//! Inputs, and their witnesses.

ghost use Rattle.std.specs.Prelude.{◌≡◌, IfOk, IsTrue, ◌↔◌, [], length};

use crate::outpoint::OutPoint;
use crate::script::Script;
use std::alloc::Global;
use wire::{Memory, Parts};

/// An input of a transaction: the output that it spends, its script, and its sequence number.
#[derive(Clone, Debug, Drop)]
pub struct TxIn {
    pub prev: OutPoint,
    pub script: Script,
    pub sequence: u32,
}

/// An input's witness (BIP 141): a stack of strings of bytes, the bottom first.
pub type Witness = Parts<Script>;

/// The inputs of a transaction, in order, and its witnesses: none, or one for each input (BIP 141).
#[derive(Clone, Debug, Drop)]
pub struct Inputs {
    pub(crate) list: Parts<TxIn>,
    pub(crate) witnesses: Parts<Witness>,
}

impl Inputs {
    /// These inputs, without witnesses.
    pub fn from_vec(items: Vec<TxIn>) -> Inputs
        ensures list { result.list ≡ items.items }
        ensures witnesses { result.witnesses ≡ [] }
    {
        let alloc = *items.allocator();
        Inputs::of_parts(alloc, Parts::from_vec(items))
    }

    /// These inputs, each with the witness at its place.
    pub fn with_witnesses(items: Vec<TxIn>, witnesses: Vec<Witness>) -> Inputs
        ensures list { result.list ≡ items.items }
        ensures witnesses { result.witnesses ≡ witnesses.items }
    {
        Inputs {
            list: Parts::from_vec(items),
            witnesses: Parts::from_vec(witnesses),
        }
    }

    /// The same as `from_vec`, of a list whose allocator isn't at hand.
    pub(crate) fn of_parts(alloc: Global, list: Parts<TxIn>) -> Inputs
        ensures list { result.list ≡ list }
        ensures witnesses { result.witnesses ≡ [] }
    {
        Inputs {
            list,
            witnesses: Parts::from_vec(Vec::new(alloc)),
        }
    }

    /// The inputs, lent.
    pub fn as_slice(&self) -> &[TxIn]
        ensures { result.now ≡ self.now.list }
    {
        self.list.as_slice()
    }

    /// The witnesses, lent: none, or one for each input.
    pub fn witnesses(&self) -> &[Witness]
        ensures { result.now ≡ self.now.witnesses }
    {
        self.witnesses.as_slice()
    }

    /// How many inputs there are.
    pub fn len(&self) -> usize
        ensures { result ≡ length self.now.list }
    {
        self.list.len()
    }

    /// Whether there is no input.
    pub fn is_empty(&self) -> bool
        ensures { IsTrue result ↔ (self.now.list ≡ []) }
    {
        self.list.is_empty()
    }
}

impl PartialEq for Inputs {
    ghost use Rattle.std.specs.Cmp.{decided, partial_equiv_from_equiv};
    ghost use Rattle.txn.specs.Equality.{same_inputs};
    ghost use Rattle.txn.specs.laws.Equality.{same_inputs-decides};

    ghost eq = { same_inputs };

    ghost laws = { partial_equiv_from_equiv (decided same_inputs same_inputs-decides) };

    fn eq(&self, other: &Inputs) -> bool
        ensures fields { result ≡ same_inputs self.now other.now }
        ensures equal { IsTrue result ↔ (self.now ≡ other.now) }
    {
        self.list == other.list && self.witnesses == other.witnesses
    }
}

impl Eq for Inputs {
    ghost use Rattle.std.specs.Cmp.{decided};
    ghost use Rattle.txn.specs.Equality.{same_inputs};
    ghost use Rattle.txn.specs.laws.Equality.{same_inputs-decides};

    ghost laws = { decided same_inputs same_inputs-decides };
}

impl PartialEq for TxIn {
    ghost use Rattle.std.specs.Cmp.{decided, partial_equiv_from_equiv};
    ghost use Rattle.txn.specs.Equality.{same_input};
    ghost use Rattle.txn.specs.laws.Equality.{same_input-decides};

    ghost eq = { same_input };

    ghost laws = { partial_equiv_from_equiv (decided same_input same_input-decides) };

    fn eq(&self, other: &TxIn) -> bool
        ensures fields { result ≡ same_input self.now other.now }
        ensures equal { IsTrue result ↔ (self.now ≡ other.now) }
    {
        self.prev == other.prev && self.script == other.script && self.sequence == other.sequence
    }
}

impl Eq for TxIn {
    ghost use Rattle.std.specs.Cmp.{decided};
    ghost use Rattle.txn.specs.Equality.{same_input};
    ghost use Rattle.txn.specs.laws.Equality.{same_input-decides};

    ghost laws = { decided same_input same_input-decides };
}

impl TxIn {
    /// An equal input.
    pub fn copy(&self) -> Result<TxIn, Memory>
        ensures { IfOk result (λ input. input ≡ self.now) }
    {
        Ok(self.clone()?)
    }
}
