//! How many bytes a block has, and its weight. A sum stops at the highest `u64`, far above what any block has.

ghost use Rattle.std.specs.Prelude.{◌≡◌, ◌-◌, ◌^◌, true, length, min, sum_by};
ghost use Rattle.txn.specs.WitnessGrammar.{transaction_by};
ghost use Rattle.block.specs.Sizes.{size_of, size_by, weight_of};

use crate::block::Block;
use txn::Tx;
use txn::sizes::{count_size, id_size};

/// How many bytes the block has without witnesses, without writing them (Bitcoin Core's `GetSerializeSize`).
pub fn size(block: &Block) -> u64
    ensures { result ≡ min (size_of block.now) (2 ^ 64 - 1) }
{
    bytes(block, false)
}

/// The same, with witnesses (BIP 144).
pub fn total_size(block: &Block) -> u64
    ensures { result ≡ min (size_by true block.now) (2 ^ 64 - 1) }
{
    bytes(block, true)
}

/// Three times the bytes without witnesses, and once those with them (BIP 141; Bitcoin Core's `GetBlockWeight`).
pub fn weight(block: &Block) -> u64
    ensures { result ≡ min (weight_of block.now) (2 ^ 64 - 1) }
{
    size(block)
        .saturating_mul(3)
        .saturating_add(total_size(block))
}

fn bytes(block: &Block, has_flag: bool) -> u64
    ensures { result ≡ min (size_by has_flag block.now) (2 ^ 64 - 1) }
{
    let txs = block.txs.as_slice();
    let header = &block.header;
    let header_size = id_size(&header.prev) + id_size(&header.root) + 16;
    txs_size(txs, has_flag)
        .saturating_add(count_size(txs.len()))
        .saturating_add(header_size)
}

/// The bytes of transactions.
fn txs_size(txs: &[Tx], has_flag: bool) -> u64
    ensures { result ≡ min (sum_by (λ tx. length ((transaction_by has_flag).spell tx)) txs.now)
        (2 ^ 64 - 1) }
{
    let mut sum = 0u64;
    for tx in txs {
        sum = sum.saturating_add(tx_size(tx, has_flag));
    }
    sum
}

fn tx_size(tx: &Tx, has_flag: bool) -> u64
    ensures { result ≡ min (length ((transaction_by has_flag).spell tx.now)) (2 ^ 64 - 1) }
{
    if has_flag {
        return txn::sizes::total_size(tx);
    }
    txn::sizes::size(tx)
}
