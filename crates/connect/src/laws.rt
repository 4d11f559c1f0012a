//! What holds of connecting blocks.

ghost use Rattle.std.specs.Prelude.{◌≡◌, ◌↔◌, ◌≤ℤ◌, ◌+ℤ◌, List, Option, None, pos};
ghost use Rattle.txn.specs.Tx.{Tx};
ghost use Rattle.txn.specs.declared.reason.Reason.{Reason};
ghost use Rattle.txn.specs.First.{first_broken};
ghost use Rattle.block.specs.declared.block.Block.{Block};
ghost use Rattle.block.specs.Reward.{subsidy_of};
ghost use Rattle.signatures.specs.Triple.{Triples};
ghost use Rattle.coins.specs.Coins.{Coins, total};
ghost use Rattle.rules.specs.Alone.{alone_rules};
ghost use Rattle.connect.specs.BlockContext.{Setting};
ghost use Rattle.connect.specs.Turns.{effect};
ghost use Rattle.connect.specs.Faults.{connect_rules};
ghost use Rattle.connect.specs.Scripts.{IsConnectFault};
ghost use Rattle.connect.specs.computed.Scripts.{connect_fault};

/// A block has one first fault over some coins, or none, and it can be computed.
pub fn the_fault_is_computed()
    ensures { (s : Setting) (coins : Coins) (txs : List Tx) (triples : Triples)
        (fault : Option Reason) → IsConnectFault s coins txs triples fault ↔
        (fault ≡ connect_fault s coins txs triples) }
{}

/// A block that is connected raises the total of the coins by at most its subsidy.
pub fn a_block_adds_at_most_its_subsidy()
    ensures { (s : Setting) (coins : Coins) (block : Block) →
        first_broken (alone_rules block) ≡ None →
        first_broken (connect_rules s coins block.txs) ≡ None →
        total (effect s.height coins block.txs) ≤ℤ (total coins +ℤ pos (subsidy_of s.height)) }
{}
