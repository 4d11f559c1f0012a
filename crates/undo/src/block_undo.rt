//! The coins that are kept so that a block can be taken back.

ghost use Rattle.std.specs.Prelude.{◌≡◌, ◌↔◌, IfOk, OnOk, OnErr, IsTrue, [], ◌∷◌, ◌++◌, length};

use coins::Coin;
use std::alloc::Global;
use std::marker::Model;
use wire::Memory;

/// The coins that a transaction spent, all fields, in the order of its inputs (Bitcoin Core's
/// `CTxUndo`). A clause sees their list.
#[derive(Debug, Drop)]
pub struct Spent {
    coins: Vec<Coin>,
}

impl Model for Spent {
    ghost use Rattle.std.specs.Prelude.{List};
    ghost use Rattle.coins.specs.declared.coin.Coin.{Coin};

    ghost Value = { List Coin };

    ghost view = { λ s. s.coins.items };
}

impl Spent {
    /// Equal coins.
    pub fn copy(&self) -> Result<Spent, Memory>
        ensures { IfOk result (λ spent. spent ≡ self.now) }
    {
        Ok(Spent {
            coins: self.coins.clone()?,
        })
    }

    /// No coins.
    pub fn new(alloc: Global) -> Spent
        ensures { result ≡ [] }
    {
        Spent {
            coins: Vec::new(alloc),
        }
    }

    /// No coins, with room for so many and no more.
    pub fn with_room(alloc: Global, count: usize) -> Result<Spent, Memory>
        ensures { IfOk result (λ spent. spent ≡ []) }
    {
        Ok(Spent {
            coins: Vec::with_capacity(alloc, count)?,
        })
    }

    /// One more, at the end.
    pub fn push(&mut self, coin: Coin) -> Result<(), Memory>
        ensures ok { OnOk result (self.new ≡ self.old ++ coin ∷ []) }
        ensures err { OnErr result (self.new ≡ self.old) }
    {
        self.coins.push(coin)?;
        Ok(())
    }

    /// The coins, lent.
    pub fn as_slice(&self) -> &[Coin]
        ensures { result.now ≡ self.now }
    {
        self.coins.as_slice()
    }

    /// How many there are.
    pub fn len(&self) -> usize
        ensures { result ≡ length self.now }
    {
        self.coins.len()
    }

    /// Whether there is none.
    pub fn is_empty(&self) -> bool
        ensures { IsTrue result ↔ (self.now ≡ []) }
    {
        self.coins.is_empty()
    }
}

/// The coins that the transactions of a block but the first spent, in order (Bitcoin Core's
/// `CBlockUndo`). A clause sees the list of their lists.
#[derive(Debug, Drop)]
pub struct BlockUndo {
    txs: Vec<Spent>,
}

impl Model for BlockUndo {
    ghost use Rattle.std.specs.Prelude.{List};
    ghost use Rattle.coins.specs.declared.coin.Coin.{Coin};

    ghost Value = { List (List Coin) };

    ghost view = { λ u. u.txs.items };
}

impl BlockUndo {
    /// The same, for each transaction.
    pub fn copy(&self, alloc: Global) -> Result<BlockUndo, Memory>
        ensures { IfOk result (λ undo. undo ≡ self.now) }
    {
        let mut txs = Vec::with_capacity(alloc, self.txs.len())?;
        for spent in self.txs.as_slice() {
            txs.push(spent.copy()?)?;
        }
        Ok(BlockUndo { txs })
    }

    /// Of a block with no transaction but the first.
    pub fn new(alloc: Global) -> BlockUndo
        ensures { result ≡ [] }
    {
        BlockUndo {
            txs: Vec::new(alloc),
        }
    }

    /// What one more transaction spent, at the end.
    pub fn push(&mut self, spent: Spent) -> Result<(), Memory>
        ensures ok { OnOk result (self.new ≡ self.old ++ spent ∷ []) }
        ensures err { OnErr result (self.new ≡ self.old) }
    {
        self.txs.push(spent)?;
        Ok(())
    }

    /// What each transaction but the first spent, lent.
    pub fn as_slice(&self) -> &[Spent]
        ensures { result.now ≡ self.now }
    {
        self.txs.as_slice()
    }

    /// How many transactions there are but the first.
    pub fn len(&self) -> usize
        ensures { result ≡ length self.now }
    {
        self.txs.len()
    }

    /// Whether there is none.
    pub fn is_empty(&self) -> bool
        ensures { IsTrue result ↔ (self.now ≡ []) }
    {
        self.txs.is_empty()
    }
}
