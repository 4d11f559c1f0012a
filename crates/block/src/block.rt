//! Blocks.

ghost use Rattle.std.specs.Prelude.{◌≡◌, IfOk, IsTrue, ◌↔◌};
ghost use Rattle.block.specs.Identity.{id_of};

use crate::header::Header;
use crate::txs::Txs;
use hash::Id;
use wire::Memory;

/// A block: its header and its transactions.
#[derive(Clone, Debug, Drop)]
pub struct Block {
    pub header: Header,
    pub txs: Txs,
}

impl PartialEq for Block {
    ghost use Rattle.std.specs.Cmp.{decided, partial_equiv_from_equiv};
    ghost use Rattle.block.specs.Equality.{same_block};
    ghost use Rattle.block.specs.laws.Equality.{same_block-decides};

    ghost eq = { same_block };

    ghost laws = { partial_equiv_from_equiv (decided same_block same_block-decides) };

    fn eq(&self, other: &Block) -> bool
        ensures fields { result ≡ same_block self.now other.now }
        ensures equal { IsTrue result ↔ (self.now ≡ other.now) }
    {
        self.header == other.header && self.txs == other.txs
    }
}

impl Eq for Block {
    ghost use Rattle.std.specs.Cmp.{decided};
    ghost use Rattle.block.specs.Equality.{same_block};
    ghost use Rattle.block.specs.laws.Equality.{same_block-decides};

    ghost laws = { decided same_block same_block-decides };
}

impl Block {
    /// The block's id, which is its header's.
    pub fn id(&self) -> Id
        ensures { result ≡ id_of self.now.header }
    {
        self.header.id()
    }

    /// An equal block.
    pub fn copy(&self) -> Result<Block, Memory>
        ensures { IfOk result (λ block. block ≡ self.now) }
    {
        Ok(self.clone()?)
    }
}
