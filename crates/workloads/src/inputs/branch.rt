//! Branches of blocks on genesis.

use crate::inputs::fault::InputsFault;
use crate::inputs::lists::{one, put_bytes, put_first, put_made, put_times};
use crate::inputs::payments::{TRUE, outputs, spending, under};
use block::{Block, GENESIS_ID, GENESIS_TIME, Header, subsidy};
use hash::Id;
use rules::REGTEST_BITS;
use script::Num;
use std::alloc::Global;
use txn::{OutPoint, Script, Tx, TxOut};

/// How many bytes of data stand in a heavy block, which makes it almost as long as a block may be.
const DATA: usize = 999_000;

/// The branch of this number, as far as it was made.
#[derive(Clone, Copy)]
pub struct Branch {
    pub number: u32,
    pub last: Id,
    pub height: u32,
    /// How many bytes of data stand in each block; none where it is 0.
    pub data: usize,
}

impl Branch {
    /// Genesis alone.
    pub fn new(number: u32) -> Branch {
        Branch {
            number,
            last: GENESIS_ID,
            height: 0,
            data: 0,
        }
    }

    /// The same, of blocks of almost a megabyte.
    pub fn heavy(number: u32) -> Branch {
        Branch {
            data: DATA,
            ..Branch::new(number)
        }
    }

    /// A block on the last one, of a coinbase and these payments.
    pub fn next_block(&mut self, alloc: Global, payments: Vec<Tx>) -> Result<Block, InputsFault> {
        self.height = self.height.wrapping_add(1);
        let txs = put_first(payments, self.coinbase(alloc));
        let block = under(alloc, self.header(), txs)?;
        self.last = block.header.id();
        Ok(block)
    }

    /// What its next header has beside the root and the nonce.
    fn header(&self) -> Header {
        Header {
            version: 4,
            prev: self.last,
            root: self.last,
            time: GENESIS_TIME.wrapping_add(self.height),
            bits: REGTEST_BITS,
            nonce: 0,
        }
    }

    /// The bytes of such a block.
    pub fn next_bytes(&mut self, alloc: Global, payments: Vec<Tx>) -> Result<Vec<u8>, InputsFault> {
        let block = self.next_block(alloc, payments)?;
        bytes_of(alloc, &block)
    }

    /// A coinbase that pushes the height (BIP 34) and the branch's number.
    fn coinbase(&self, alloc: Global) -> Result<Tx, InputsFault> {
        let mut bytes = self.height_push(alloc)?;
        put_bytes(&mut bytes, self.number_push().as_slice())?;
        spending(alloc, OutPoint::NULL, bytes.as_slice(), self.outputs(alloc))
    }

    fn height_push(&self, alloc: Global) -> Result<Vec<u8>, InputsFault> {
        match self.height {
            1..=16 => one(alloc, Ok(0x50 + self.height as u8)),
            height => {
                let spelled = Num(i64::from(height)).spell(alloc)?;
                let count = (spelled.len() % 76) as u8;
                put_first(spelled, Ok(count))
            }
        }
    }

    fn number_push(&self) -> [u8; 5] {
        let mut bytes = [4; 5];
        bytes[1..].copy_from_slice(self.number.to_le_bytes().as_slice());
        bytes
    }

    /// What its next coinbase pays, and the data that stands there.
    fn outputs(&self, alloc: Global) -> Result<Vec<TxOut>, InputsFault> {
        let mut outputs = outputs(alloc, 1, subsidy(self.height), TRUE)?;
        if self.data > 0 {
            put_made(&mut outputs, data_output(alloc, self.data))?;
        }
        Ok(outputs)
    }
}

/// A block's bytes.
pub fn bytes_of(alloc: Global, block: &Block) -> Result<Vec<u8>, InputsFault> {
    let mut bytes = Vec::new(alloc);
    block::write(block, &mut bytes)?;
    Ok(bytes)
}

/// An output of no worth that holds so many bytes and can't be spent.
fn data_output(alloc: Global, size: usize) -> Result<TxOut, InputsFault> {
    let mut bytes = Vec::new(alloc);
    put_times(&mut bytes, 0x6a, size)?;
    Ok(TxOut {
        value: 0,
        script: Script::from_vec(bytes),
    })
}
