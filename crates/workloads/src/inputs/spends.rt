//! Inputs with the scripts that they spend, and the signatures that are valid for them.

use crate::inputs::fault::InputsFault;
use crate::inputs::lists::{copied, one, put};
use crate::inputs::payments::{nowhere, output_to_key, spending, to_key_hash};
use crate::inputs::random_bytes::Filling;
use hash::hash160;
use interp::{Flags, Job};
use signatures::Table;
use std::alloc::Global;
use txn::Tx;

/// The hash type ALL.
pub const ALL: u8 = 1;

/// A key, and a signature that is valid for it.
pub type Signer = ([u8; 33], [u8; 70]);

/// A transaction, whose only input spends a script.
#[derive(Drop)]
pub struct Spend {
    pub tx: Tx,
    pub spent: Vec<u8>,
}

impl Spend {
    /// Of a transaction and a script, where they were made.
    pub fn of(
        tx: Result<Tx, InputsFault>,
        spent: Result<Vec<u8>, InputsFault>,
    ) -> Result<Spend, InputsFault> {
        let tx = tx?;
        let spent = spent?;
        Ok(Spend { tx, spent })
    }
}

/// Such transactions, and the signatures that are valid for them.
#[derive(Drop)]
pub struct Spends {
    pub list: Vec<Spend>,
    pub table: Table,
}

impl Spends {
    fn new(alloc: Global) -> Spends {
        Spends {
            list: Vec::new(alloc),
            table: Table::new(alloc),
        }
    }

    /// A spend that these sign.
    pub fn one(
        alloc: Global,
        spend: Result<Spend, InputsFault>,
        signers: &[Signer],
    ) -> Result<Spends, InputsFault> {
        let mut spends = Spends::new(alloc);
        spends.add(spend, signers)?;
        Ok(spends)
    }

    /// Adds a spend that these sign.
    fn add(
        &mut self,
        spend: Result<Spend, InputsFault>,
        signers: &[Signer],
    ) -> Result<(), InputsFault> {
        let spend = spend?;
        self.sign(&spend, signers)?;
        put(&mut self.list, spend)
    }

    /// Makes signatures valid for the input of a spend.
    fn sign(&mut self, spend: &Spend, signers: &[Signer]) -> Result<(), InputsFault> {
        let digest = digest(&spend.tx, 0, spend.spent.as_slice());
        for signer in signers {
            add_valid(&mut self.table, signer, &digest)?;
        }
        Ok(())
    }

    /// A job for each of them, with all rules in force.
    pub fn jobs(&self, alloc: Global) -> Result<Vec<Job<'_>>, InputsFault> {
        let mut jobs = Vec::new(alloc);
        for spend in self.list.as_slice() {
            put(&mut jobs, job(spend))?;
        }
        Ok(jobs)
    }
}

fn job(spend: &Spend) -> Job<'_> {
    Job {
        tx: &spend.tx,
        input: 0,
        spent: spend.spent.as_slice(),
        flags: Flags::ALL,
        midstates: None,
    }
}

/// Makes a key's signature of a digest valid.
pub fn add_valid(table: &mut Table, signer: &Signer, digest: &[u8; 32]) -> Result<(), InputsFault> {
    table.add(signer.0.as_slice(), signer.1.as_slice(), digest)?;
    Ok(())
}

/// A compressed key of this number, in whose order the keys are.
pub fn key(filling: &mut Filling, number: u64) -> [u8; 33] {
    let mut key: [u8; 33] = filling.bytes();
    key[0] = 2;
    key[1..9].copy_from_slice(number.to_be_bytes().as_slice());
    key
}

/// A signature of the strict encoding, without a hash type.
pub fn signature(filling: &mut Filling) -> [u8; 70] {
    let mut bytes: [u8; 70] = filling.bytes();
    bytes[0] = 0x30;
    bytes[1] = 68;
    for at in [2, 36] {
        bytes[at] = 2;
        bytes[at + 1] = 32;
        bytes[at + 2] = bytes[at + 2] % 127 + 1;
    }
    bytes
}

/// The push of a signature with its hash type.
pub fn signature_push(signature: &[u8; 70]) -> [u8; 72] {
    let mut bytes = [71; 72];
    bytes[1..71].copy_from_slice(signature.as_slice());
    bytes[71] = ALL;
    bytes
}

/// The push of a key.
pub fn key_push(key: &[u8; 33]) -> [u8; 34] {
    let mut bytes = [33; 34];
    bytes[1..].copy_from_slice(key.as_slice());
    bytes
}

/// A transaction with one input of this script, and one output.
pub fn spender(alloc: Global, filling: &mut Filling, input: &[u8]) -> Result<Tx, InputsFault> {
    let prev = nowhere(filling);
    let outputs = one(alloc, output_to_key(alloc, filling, 1000));
    spending(alloc, prev, input, outputs)
}

/// What a signature of an input signs, by ALL. Where there is no such input, zeros.
pub fn digest(tx: &Tx, input: usize, code: &[u8]) -> [u8; 32] {
    if input < tx.inputs.len() {
        return sighash::digest(tx, input, &[code], u32::from(ALL));
    }
    [0; 32]
}

/// The push of a signature with its hash type, and of its key.
pub fn signed_input(signer: &Signer) -> [u8; 106] {
    let mut bytes = [0; 106];
    bytes[..72].copy_from_slice(signature_push(&signer.1).as_slice());
    bytes[72..].copy_from_slice(key_push(&signer.0).as_slice());
    bytes
}

/// Payments to the hash of a key.
pub fn to_keys(alloc: Global, size: usize) -> Result<Spends, InputsFault> {
    let mut filling = Filling::new(6);
    let mut spends = Spends::new(alloc);
    for number in 0..size {
        spends.add_to_key(alloc, &mut filling, number as u64)?;
    }
    Ok(spends)
}

/// The bare script of two of three keys.
fn two_of_three(keys: &[[u8; 33]; 3]) -> [u8; 105] {
    let mut bytes = [0x53; 105];
    bytes[0] = 0x52;
    bytes[1..69].copy_from_slice(two_pushes(&keys[0], &keys[1]).as_slice());
    bytes[69..103].copy_from_slice(key_push(&keys[2]).as_slice());
    bytes[104] = 0xae;
    bytes
}

/// The pushes of two keys. Of a third part of one array its end wouldn't be known.
fn two_pushes(first: &[u8; 33], second: &[u8; 33]) -> [u8; 68] {
    let mut bytes = [0; 68];
    bytes[..34].copy_from_slice(key_push(first).as_slice());
    bytes[34..].copy_from_slice(key_push(second).as_slice());
    bytes
}

/// The pushes of two signatures, behind the element that CHECKMULTISIG takes too much.
fn input_of_two(signatures: &[[u8; 70]; 2]) -> [u8; 145] {
    let mut bytes = [0; 145];
    bytes[1..73].copy_from_slice(signature_push(&signatures[0]).as_slice());
    bytes[73..].copy_from_slice(signature_push(&signatures[1]).as_slice());
    bytes
}

/// Payments to two of three keys, signed by the first two.
pub fn to_two_of_three(alloc: Global, size: usize) -> Result<Spends, InputsFault> {
    let mut filling = Filling::new(7);
    let mut spends = Spends::new(alloc);
    for number in 0..size {
        let first = (number as u64).wrapping_mul(3);
        spends.add_to_two_of_three(alloc, &mut filling, first)?;
    }
    Ok(spends)
}

impl Spends {
    /// Adds a payment to the hash of the key of this number.
    fn add_to_key(
        &mut self,
        alloc: Global,
        filling: &mut Filling,
        number: u64,
    ) -> Result<(), InputsFault> {
        let key = key(filling, number);
        let signer = (key, signature(filling));
        let tx = spender(alloc, filling, signed_input(&signer).as_slice());
        let spent = copied(alloc, to_key_hash(&hash160(key.as_slice())).as_slice());
        self.add(Spend::of(tx, spent), &[signer])
    }

    /// Adds a payment to two of the three keys from this number on.
    fn add_to_two_of_three(
        &mut self,
        alloc: Global,
        filling: &mut Filling,
        first: u64,
    ) -> Result<(), InputsFault> {
        let keys = [
            key(filling, first),
            key(filling, first.wrapping_add(1)),
            key(filling, first.wrapping_add(2)),
        ];
        let signatures = [signature(filling), signature(filling)];
        let tx = spender(alloc, filling, input_of_two(&signatures).as_slice());
        let spent = copied(alloc, two_of_three(&keys).as_slice());
        let signers = [(keys[0], signatures[0]), (keys[1], signatures[1])];
        self.add(Spend::of(tx, spent), &signers)
    }
}
