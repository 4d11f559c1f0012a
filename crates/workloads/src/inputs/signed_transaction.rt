//! A transaction of many inputs, each of which is signed by itself.

use crate::inputs::fault::InputsFault;
use crate::inputs::lists::put_made;
use crate::inputs::payments::{input, nowhere, transaction};
use crate::inputs::random_bytes::Filling;
use crate::inputs::spends::{Signer, add_valid, digest, key, key_push, signature, signature_push};
use signatures::Table;
use std::alloc::Global;
use txn::Tx;

const OP_CHECKSIG: u8 = 0xac;

/// A transaction of so many inputs of one script, and no output.
pub fn of_inputs(alloc: Global, size: usize, script: &[u8]) -> Result<Tx, InputsFault> {
    let mut filling = Filling::new(12);
    let mut inputs = Vec::new(alloc);
    for _ in 0..size {
        let prev = nowhere(&mut filling);
        put_made(&mut inputs, input(alloc, prev, script, 0))?;
    }
    Ok(transaction(inputs, Vec::new(alloc)))
}

/// A transaction whose inputs all have one signature, and the script of a key that they spend.
#[derive(Drop)]
pub struct Signed {
    signer: Signer,
    pub tx: Tx,
    /// The script that each of them spends.
    pub spent: [u8; 35],
}

impl Signed {
    /// One of so many inputs.
    pub fn new(alloc: Global, size: usize) -> Result<Signed, InputsFault> {
        let mut filling = Filling::new(13);
        let key = key(&mut filling, 0);
        let signer = (key, signature(&mut filling));
        let tx = of_inputs(alloc, size, signature_push(&signer.1).as_slice())?;
        Ok(Signed {
            signer,
            tx,
            spent: to_key(&key),
        })
    }

    /// The table in which the signature is valid for each of these inputs.
    pub fn table(&self, alloc: Global) -> Result<Table, InputsFault> {
        let mut table = Table::new(alloc);
        for number in 0..self.tx.inputs.len() {
            let digest = digest(&self.tx, number, self.spent.as_slice());
            add_valid(&mut table, &self.signer, &digest)?;
        }
        Ok(table)
    }
}

/// The push of a key, and CHECKSIG.
fn to_key(key: &[u8; 33]) -> [u8; 35] {
    let mut bytes = [OP_CHECKSIG; 35];
    bytes[..34].copy_from_slice(key_push(key).as_slice());
    bytes
}
