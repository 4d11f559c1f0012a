//! Blocks over coins that they spend, and blocks as bytes and in files.

use crate::inputs::branch::bytes_of;
use crate::inputs::fault::InputsFault;
use crate::inputs::hoard::{put_coin, put_new};
use crate::inputs::lists::{one, put, put_bytes, put_made};
use crate::inputs::payments::{TRUE, block_of, block_with, input, outputs, transaction};
use crate::inputs::spends::Spend;
use block::{Block, GENESIS};
use coins::{Coin, CoinMap};
use hash::Id;
use std::alloc::Global;
use txn::{OutPoint, Script, Tx, TxIn};

/// What a record of a regtest blk file begins with.
const MAGIC: [u8; 4] = [0xfa, 0xbf, 0xb5, 0xda];

/// The bytes of a block of so many payments.
pub fn block_bytes(alloc: Global, size: usize) -> Result<Vec<u8>, InputsFault> {
    let block = block_of(alloc, size)?;
    bytes_of(alloc, &block)
}

/// A file that has the genesis block so often.
pub fn blk_file(alloc: Global, count: usize) -> Result<Vec<u8>, InputsFault> {
    let record = record();
    let mut file = Vec::new(alloc);
    for _ in 0..count {
        put_bytes(&mut file, record.as_slice())?;
    }
    Ok(file)
}

/// The genesis block's record.
fn record() -> [u8; 293] {
    let mut bytes = [0; 293];
    bytes[..4].copy_from_slice(MAGIC.as_slice());
    bytes[4..8].copy_from_slice((GENESIS.len() as u32).to_le_bytes().as_slice());
    bytes[8..].copy_from_slice(GENESIS.as_slice());
    bytes
}

/// Puts in the coins that payments spend, and gives the block of these payments.
pub fn block_over(
    alloc: Global,
    map: &mut CoinMap,
    list: Vec<Spend>,
) -> Result<Block, InputsFault> {
    let mut txs = Vec::new(alloc);
    for spend in list {
        put_payment(map, &mut txs, spend)?;
    }
    block_with(alloc, txs)
}

/// Puts a payment behind others, and the coin that it spends into a map.
fn put_payment(map: &mut CoinMap, txs: &mut Vec<Tx>, spend: Spend) -> Result<(), InputsFault> {
    let Spend { tx, spent } = spend;
    put_spent(map, &tx, spent)?;
    put(txs, tx)
}

/// Puts in the coin that a payment spends, with this script.
fn put_spent(map: &mut CoinMap, tx: &Tx, spent: Vec<u8>) -> Result<(), InputsFault> {
    let coin = Coin {
        value: 5000,
        script: Script::from_vec(spent),
        height: 7,
        coinbase: false,
    };
    match tx.inputs.as_slice() {
        [input, ..] => put_coin(map, input.prev, coin),
        [] => Ok(()),
    }
}

/// A block whose one transaction spends so many coins whose script accepts, after they were put in.
pub fn wide_block(alloc: Global, map: &mut CoinMap, size: usize) -> Result<Block, InputsFault> {
    block_with(alloc, one(alloc, wide_tx(alloc, map, size))?)
}

/// A transaction that spends so many coins whose script accepts, after they were put in.
fn wide_tx(alloc: Global, map: &mut CoinMap, size: usize) -> Result<Tx, InputsFault> {
    let mut inputs = Vec::new(alloc);
    for index in 0..size.min(1_000_000) as u32 {
        put_made(&mut inputs, input_of(alloc, map, index))?;
    }
    Ok(transaction(inputs, outputs(alloc, 1, 5000, TRUE)?))
}

/// An input that spends the coin of this place, after that was put in.
fn input_of(alloc: Global, map: &mut CoinMap, index: u32) -> Result<TxIn, InputsFault> {
    let id = Id([7; 32]);
    let prev = OutPoint { id, index };
    put_new(alloc, map, prev, 5000, TRUE)?;
    input(alloc, prev, &[], 0xffff_ffff)
}
