//! What a `block` line says of its block. Where it says nothing there is None, and the default holds.

use crate::complaint::Complaint;
use crate::fault::LineFault;
use crate::line::{I32, REWARD, U32, array, bytes, id, number, signed};
use hash::Id;
use std::alloc::Global;
use txn::{Script, Tx};

/// What is said of the header.
#[derive(Clone, Copy, Default)]
pub struct HeaderRecipe {
    pub version: Option<i32>,
    pub root: Option<Id>,
    /// In seconds since 1970.
    pub time: Option<u32>,
    pub bits: Option<u32>,
    pub nonce: Option<u32>,
}

/// What is said of the coinbase.
#[derive(Drop)]
pub struct CoinbaseRecipe {
    /// The whole script of its input.
    pub script: Option<Script>,
    pub reward: Option<i64>,
    /// The script of its output.
    pub pay: Option<Script>,
}

/// What is said of a block.
#[derive(Drop)]
pub struct Recipe {
    pub header: HeaderRecipe,
    pub has_coinbase: bool,
    pub coinbase: CoinbaseRecipe,
    /// The transactions after the coinbase.
    pub transactions: Vec<Tx>,
}

impl Recipe {
    /// A block of which nothing is said.
    pub fn new(alloc: Global) -> Recipe {
        Recipe {
            header: HeaderRecipe::default(),
            has_coinbase: true,
            coinbase: CoinbaseRecipe {
                script: None,
                reward: None,
                pay: None,
            },
            transactions: Vec::new(alloc),
        }
    }

    /// Takes an option of the line, each of which may be given once.
    pub fn set(&mut self, alloc: Global, option: &str, value: &str) -> Result<(), LineFault> {
        let is_new = match option {
            "version" => once(&mut self.header.version, signed(alloc, value, I32)?),
            "root" => once(&mut self.header.root, id(alloc, value)?),
            "time" => once(&mut self.header.time, number(alloc, value, U32)?),
            "bits" => once(
                &mut self.header.bits,
                u32::from_be_bytes(array(alloc, value)?),
            ),
            "nonce" => once(&mut self.header.nonce, number(alloc, value, U32)?),
            "reward" => once(&mut self.coinbase.reward, reward(alloc, value)?),
            "pay" => once(&mut self.coinbase.pay, script(alloc, value)?),
            "cb" => self.set_coinbase(alloc, value)?,
            _ => return Err(LineFault::of_word(alloc, option, Complaint::NoOption)),
        };
        if !is_new {
            return Err(LineFault::of_word(alloc, option, Complaint::Twice));
        }
        Ok(())
    }

    /// Takes what `cb` says. Whether nothing was said of it before.
    fn set_coinbase(&mut self, alloc: Global, value: &str) -> Result<bool, LineFault> {
        if !self.has_coinbase {
            return Ok(false);
        }
        if value != "none" {
            return Ok(once(&mut self.coinbase.script, script(alloc, value)?));
        }
        self.has_coinbase = false;
        Ok(self.coinbase.script.is_none())
    }
}

fn script(alloc: Global, word: &str) -> Result<Script, LineFault> {
    Ok(Script::from_vec(bytes(alloc, word)?))
}

/// A value that isn't below zero.
fn reward(alloc: Global, word: &str) -> Result<i64, LineFault> {
    number(alloc, word, REWARD)
}

/// Puts a value where none is. Whether none was there.
fn once<T: Drop>(slot: &mut Option<T>, value: T) -> bool {
    if slot.is_some() {
        return false;
    }
    *slot = Some(value);
    true
}
