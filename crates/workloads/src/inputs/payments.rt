//! Transactions and coins, and blocks of payments with one input and two outputs.

use crate::inputs::fault::InputsFault;
use crate::inputs::lists::{copied, one, put_first, put_made};
use crate::inputs::random_bytes::Filling;
use block::{Block, Header, Txs, meets_target, merkle};
use coins::Coin;
use hash::Id;
use rules::REGTEST_BITS;
use std::alloc::Global;
use txn::{Inputs, OutPoint, Outputs, Script, Tx, TxIn, TxOut, ids};

/// A script that accepts.
pub const TRUE: &[u8] = &[0x51];

/// The script that pays to the hash of [`TRUE`] (BIP 16): `HASH160 20 EQUAL`.
pub const TO_TRUE_HASH: &[u8] = &[
    0xa9, 0x14, 0xda, 0x17, 0x45, 0xe9, 0xb5, 0x49, 0xbd, 0x0b, 0xfa, 0x1a, 0x56, 0x99, 0x71, 0xc7,
    0x7e, 0xba, 0x30, 0xcd, 0x5a, 0x4b, 0x87,
];

/// The input script that spends such an output: the push of [`TRUE`].
pub const SPENDS_TRUE_HASH: &[u8] = &[1, 0x51];

/// A script of these bytes.
fn script(alloc: Global, bytes: &[u8]) -> Result<Script, InputsFault> {
    Ok(Script::from_vec(copied(alloc, bytes)?))
}

/// `DUP HASH160 20 EQUALVERIFY CHECKSIG`.
pub fn to_key_hash(hash: &[u8; 20]) -> [u8; 25] {
    let mut bytes = [0x76; 25];
    bytes[1] = 0xa9;
    bytes[2] = 20;
    bytes[3..23].copy_from_slice(hash.as_slice());
    bytes[23] = 0x88;
    bytes[24] = 0xac;
    bytes
}

/// An output of this worth and script.
pub fn output(alloc: Global, value: i64, bytes: &[u8]) -> Result<TxOut, InputsFault> {
    let script = script(alloc, bytes)?;
    Ok(TxOut { value, script })
}

/// This many outputs of this worth and script.
pub fn outputs(
    alloc: Global,
    count: usize,
    worth: i64,
    bytes: &[u8],
) -> Result<Vec<TxOut>, InputsFault> {
    let mut outputs = Vec::new(alloc);
    for _ in 0..count {
        put_made(&mut outputs, output(alloc, worth, bytes))?;
    }
    Ok(outputs)
}

/// An output of this worth to the hash of a key.
pub fn output_to_key(
    alloc: Global,
    filling: &mut Filling,
    value: i64,
) -> Result<TxOut, InputsFault> {
    let hash: [u8; 20] = filling.bytes();
    output(alloc, value, to_key_hash(&hash).as_slice())
}

/// A coin of height 7 of this worth and script.
pub fn coin(alloc: Global, value: i64, bytes: &[u8]) -> Result<Coin, InputsFault> {
    let script = script(alloc, bytes)?;
    Ok(Coin {
        value,
        script,
        height: 7,
        coinbase: false,
    })
}

/// An input with this script and sequence.
pub fn input(
    alloc: Global,
    prev: OutPoint,
    bytes: &[u8],
    sequence: u32,
) -> Result<TxIn, InputsFault> {
    let script = script(alloc, bytes)?;
    Ok(TxIn {
        prev,
        script,
        sequence,
    })
}

/// A transaction of these inputs and outputs.
pub fn transaction(inputs: Vec<TxIn>, outputs: Vec<TxOut>) -> Tx {
    Tx {
        version: 1,
        inputs: Inputs::from_vec(inputs),
        outputs: Outputs::from_vec(outputs),
        lock_time: 0,
    }
}

/// A transaction of one input, where its outputs were made.
pub fn spending(
    alloc: Global,
    prev: OutPoint,
    bytes: &[u8],
    outputs: Result<Vec<TxOut>, InputsFault>,
) -> Result<Tx, InputsFault> {
    let outputs = outputs?;
    let inputs = one(alloc, input(alloc, prev, bytes, 0xffff_ffff))?;
    Ok(transaction(inputs, outputs))
}

/// An input script of the usual length: the push of a signature and of a key.
pub fn signed(filling: &mut Filling) -> [u8; 106] {
    let mut bytes: [u8; 106] = filling.bytes();
    bytes[0] = 71;
    bytes[72] = 33;
    bytes
}

/// The first output of a transaction that is nowhere.
pub fn nowhere(filling: &mut Filling) -> OutPoint {
    OutPoint {
        id: Id(filling.bytes()),
        index: 0,
    }
}

/// A payment of a coin that is nowhere.
fn payment(alloc: Global, filling: &mut Filling) -> Result<Tx, InputsFault> {
    let prev = nowhere(filling);
    let input = signed(filling);
    let outputs = outputs_to_keys(alloc, filling);
    spending(alloc, prev, input.as_slice(), outputs)
}

/// The two outputs of a payment.
fn outputs_to_keys(alloc: Global, filling: &mut Filling) -> Result<Vec<TxOut>, InputsFault> {
    let mut outputs = one(alloc, output_to_key(alloc, filling, 1000))?;
    put_made(&mut outputs, output_to_key(alloc, filling, 2000))?;
    Ok(outputs)
}

/// A transaction that makes the subsidy of the first blocks.
fn coinbase(alloc: Global) -> Result<Tx, InputsFault> {
    let outputs = outputs(alloc, 1, 5_000_000_000, TRUE);
    spending(alloc, OutPoint::NULL, &[0x51, 0x51], outputs)
}

/// A block of a coinbase and so many payments, which breaks no rule by itself.
pub fn block_of(alloc: Global, size: usize) -> Result<Block, InputsFault> {
    let mut filling = Filling::new(5);
    let mut txs = one(alloc, coinbase(alloc))?;
    for _ in 0..size {
        put_made(&mut txs, payment(alloc, &mut filling))?;
    }
    under(alloc, ORPHAN, Ok(txs))
}

/// A block of a coinbase and these payments.
pub fn block_with(alloc: Global, payments: Vec<Tx>) -> Result<Block, InputsFault> {
    under(alloc, ORPHAN, put_first(payments, coinbase(alloc)))
}

/// What a header has beside the root and the nonce, where its parent is none.
const ORPHAN: Header = Header {
    version: 1,
    prev: Id([0; 32]),
    root: Id([0; 32]),
    time: 1_296_688_602,
    bits: REGTEST_BITS,
    nonce: 0,
};

/// A block of these transactions, where they were made, under this header with their root and the first nonce that
/// meets the target.
pub fn under(
    alloc: Global,
    header: Header,
    txs: Result<Vec<Tx>, InputsFault>,
) -> Result<Block, InputsFault> {
    let txs = txs?;
    let root = root_of(alloc, txs.as_slice())?;
    let header = mined(Header { root, ..header });
    let txs = Txs::from_vec(txs);
    Ok(Block { header, txs })
}

/// The Merkle root of these transactions.
fn root_of(alloc: Global, txs: &[Tx]) -> Result<Id, InputsFault> {
    let ids = ids(alloc, txs)?;
    let (root, _) = merkle(alloc, ids.as_slice())?;
    Ok(root)
}

/// The header with the first nonce that meets the target.
fn mined(header: Header) -> Header {
    for nonce in 0..1000 {
        let mined = Header { nonce, ..header };
        if meets_target(&mined.id()) {
            return mined;
        }
    }
    header
}
