//! A transaction whose lines are being read.

use crate::fault::LineFault;
use crate::line::{I32, I64, U32, bytes, number, signed};
use std::alloc::Global;
use txn::{Inputs, OutPoint, Outputs, Script, Tx, TxIn, TxOut};

/// A transaction as far as its lines were read.
#[derive(Drop)]
pub struct Draft {
    pub name: String,
    alloc: Global,
    version: i32,
    lock_time: u32,
    inputs: Vec<TxIn>,
    outputs: Vec<TxOut>,
}

impl Draft {
    /// A transaction of this name, with no input or output yet.
    pub fn new(
        alloc: Global,
        name: &str,
        version: &str,
        lock_time: &str,
    ) -> Result<Draft, LineFault> {
        Ok(Draft {
            name: String::from_str(alloc, name)?,
            alloc,
            version: signed(alloc, version, I32)?,
            lock_time: number(alloc, lock_time, U32)?,
            inputs: Vec::new(alloc),
            outputs: Vec::new(alloc),
        })
    }

    /// Adds an input, with the greatest sequence where none is said.
    pub fn input(
        &mut self,
        prev: OutPoint,
        script: &str,
        sequence: Option<&str>,
    ) -> Result<(), LineFault> {
        let input = TxIn {
            prev,
            script: Script::from_vec(bytes(self.alloc, script)?),
            sequence: match sequence {
                Some(sequence) => number(self.alloc, sequence, U32)?,
                None => u32::MAX,
            },
        };
        self.inputs.push(input)?;
        Ok(())
    }

    /// Adds an output.
    pub fn output(&mut self, value: &str, script: &str) -> Result<(), LineFault> {
        let output = TxOut {
            value: signed(self.alloc, value, I64)?,
            script: Script::from_vec(bytes(self.alloc, script)?),
        };
        self.outputs.push(output)?;
        Ok(())
    }

    /// Its name, and the transaction with the lines read so far.
    pub fn finish(self) -> (String, Tx) {
        let Draft {
            name,
            version,
            lock_time,
            inputs,
            outputs,
            ..
        } = self;
        let tx = Tx {
            version,
            inputs: Inputs::from_vec(inputs),
            outputs: Outputs::from_vec(outputs),
            lock_time,
        };
        (name, tx)
    }
}
