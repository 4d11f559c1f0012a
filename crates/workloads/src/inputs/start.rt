//! Chains with coins for payments.

use crate::inputs::branch::{Branch, bytes_of};
use crate::inputs::fault::InputsFault;
use crate::inputs::lists::{copied, put, put_made};
use crate::inputs::payments::{SPENDS_TRUE_HASH, TO_TRUE_HASH, TRUE, outputs, signed, spending};
use crate::inputs::random_bytes::Filling;
use hash::Id;
use std::alloc::Global;
use txn::{OutPoint, Tx, ids};

/// How many blocks stand below the first that spends a coinbase.
const UNRIPE: usize = 100;

/// The most outputs of a transaction that spends a coinbase.
const FAN: usize = 20_000;

/// The most payments of a block that spreads coins.
const SPREAD: usize = 3000;

/// What a coin is worth that a coinbase is spent for.
pub const WORTH: i64 = 100_000;

/// What a payment spends and pays: its input script, or one of the usual length, and `outputs` of a worth with a script.
#[derive(Clone, Copy)]
struct Paid<'s> {
    input: Option<&'s [u8]>,
    outputs: usize,
    worth: i64,
    script: &'s [u8],
}

/// One output to a script that accepts whatever the input script pushes.
const TO_TRUE: Paid<'static> = Paid {
    input: None,
    outputs: 1,
    worth: WORTH,
    script: TRUE,
};

/// One output to the hash of a script, spent from such a one.
const TO_HASH: Paid<'static> = Paid {
    input: Some(SPENDS_TRUE_HASH),
    outputs: 1,
    worth: WORTH,
    script: TO_TRUE_HASH,
};

/// A payment of each coin.
fn payments(
    alloc: Global,
    filling: &mut Filling,
    coins: &[OutPoint],
    paid: &Paid<'_>,
) -> Result<Vec<Tx>, InputsFault> {
    let mut payments = Vec::new(alloc);
    for prev in coins {
        put_made(&mut payments, payment(alloc, filling, *prev, paid))?;
    }
    Ok(payments)
}

fn payment(
    alloc: Global,
    filling: &mut Filling,
    prev: OutPoint,
    paid: &Paid<'_>,
) -> Result<Tx, InputsFault> {
    let outputs = outputs(alloc, paid.outputs, paid.worth, paid.script);
    match paid.input {
        Some(input) => spending(alloc, prev, input, outputs),
        None => spending(alloc, prev, signed(filling).as_slice(), outputs),
    }
}

/// Puts the outpoints that payments made behind others.
fn put_outpoints(
    alloc: Global,
    made: &mut Vec<OutPoint>,
    payments: &[Tx],
) -> Result<(), InputsFault> {
    let ids = ids(alloc, payments)?;
    put_each(made, payments, ids.as_slice())
}

/// Puts the outpoints of transactions of these ids behind others.
fn put_each(made: &mut Vec<OutPoint>, payments: &[Tx], ids: &[Id]) -> Result<(), InputsFault> {
    for (tx, id) in payments.iter().zip(ids.iter()) {
        put_outputs(made, id, tx.outputs.len())?;
    }
    Ok(())
}

/// Puts so many outputs of a transaction behind others.
fn put_outputs(made: &mut Vec<OutPoint>, id: &Id, count: usize) -> Result<(), InputsFault> {
    for index in 0..count.min(1_000_000) as u32 {
        put(made, OutPoint { id: *id, index })?;
    }
    Ok(())
}

/// A chain from genesis on, as far as it was made, and the coins that it leaves.
#[derive(Drop)]
pub struct Start {
    pub branch: Branch,
    filling: Filling,
    /// The bytes of its blocks.
    pub blocks: Vec<Vec<u8>>,
    /// Coins that coinbases were spent for.
    pub coins: Vec<OutPoint>,
    /// Coins that those were spent for.
    pub spread: Vec<OutPoint>,
    /// The outputs of the first coinbases, which nothing spends yet.
    unripe: Vec<OutPoint>,
}

impl Start {
    /// A chain whose first coinbases are ripe, some of which are spent for so many coins of a script.
    pub fn new(alloc: Global, coins: usize, script: &[u8]) -> Result<Start, InputsFault> {
        let mut start = Start {
            branch: Branch::new(1),
            filling: Filling::new(16),
            blocks: Vec::new(alloc),
            coins: Vec::new(alloc),
            spread: Vec::new(alloc),
            unripe: Vec::new(alloc),
        };
        start.begin(alloc, coins, script)?;
        Ok(start)
    }

    /// A chain that leaves so many coins for payments, and so many to be read, whose places stand in another order.
    pub fn shuffled(alloc: Global, payments: usize, coins: usize) -> Result<Start, InputsFault> {
        let mut start = Start::new(alloc, payments.saturating_add(coins / 10), TRUE)?;
        start.spread(alloc, coins)?;
        shuffle(start.spread.as_mut_slice());
        Ok(start)
    }

    fn begin(&mut self, alloc: Global, coins: usize, script: &[u8]) -> Result<(), InputsFault> {
        for _ in 0..UNRIPE {
            self.ripen(alloc)?;
        }
        self.fan(alloc, coins, script)
    }

    /// One more block without payments, whose coinbase is spent later.
    fn ripen(&mut self, alloc: Global) -> Result<(), InputsFault> {
        let block = self.branch.next_block(alloc, Vec::new(alloc))?;
        put_made(&mut self.blocks, bytes_of(alloc, &block))?;
        put_outpoints(alloc, &mut self.unripe, block.txs.as_slice())
    }

    /// One more block, of these payments.
    fn add(&mut self, alloc: Global, payments: Vec<Tx>) -> Result<(), InputsFault> {
        let bytes = self.branch.next_bytes(alloc, payments);
        put_made(&mut self.blocks, bytes)
    }

    /// This many more blocks without payments.
    pub fn add_empty(&mut self, alloc: Global, count: usize) -> Result<(), InputsFault> {
        for _ in 0..count {
            self.add(alloc, Vec::new(alloc))?;
        }
        Ok(())
    }

    /// Spends coinbases for so many coins of a script, in blocks of up to 20,000.
    fn fan(&mut self, alloc: Global, count: usize, script: &[u8]) -> Result<(), InputsFault> {
        self.unripe.as_mut_slice().reverse();
        for made in (0..count).step_by(FAN) {
            let Some(prev) = self.unripe.pop() else {
                return Err(InputsFault::TooManyCoins);
            };
            let outputs = count.saturating_sub(made).min(FAN);
            self.fan_one(alloc, prev, outputs, script)?;
        }
        Ok(())
    }

    fn fan_one(
        &mut self,
        alloc: Global,
        prev: OutPoint,
        outputs: usize,
        script: &[u8],
    ) -> Result<(), InputsFault> {
        let paid = Paid {
            outputs,
            script,
            ..TO_TRUE
        };
        let payments = payments(alloc, &mut self.filling, &[prev], &paid)?;
        put_outpoints(alloc, &mut self.coins, payments.as_slice())?;
        self.add(alloc, payments)
    }

    /// Spends the last coins, each for ten, until there are so many.
    pub fn spread(&mut self, alloc: Global, count: usize) -> Result<(), InputsFault> {
        let keep = self.coins.len().saturating_sub(count / 10);
        for _ in (keep..self.coins.len()).step_by(SPREAD) {
            let from = self.coins.len().saturating_sub(SPREAD).max(keep);
            self.spread_from(alloc, from)?;
        }
        Ok(())
    }

    fn spread_from(&mut self, alloc: Global, from: usize) -> Result<(), InputsFault> {
        let paid = Paid {
            outputs: 10,
            worth: WORTH / 10,
            ..TO_TRUE
        };
        let (_, coins) = self.coins.as_slice().split_at(from.min(self.coins.len()));
        let payments = payments(alloc, &mut self.filling, coins, &paid)?;
        self.coins.truncate(from);
        put_outpoints(alloc, &mut self.spread, payments.as_slice())?;
        self.add(alloc, payments)
    }
}

/// The bytes of so many blocks on a branch, each of one payment of each coin that the block before made of these.
pub fn paying(
    alloc: Global,
    branch: Branch,
    coins: &[OutPoint],
    count: usize,
) -> Result<Vec<Vec<u8>>, InputsFault> {
    paying_as(alloc, branch, coins, count, &TO_TRUE)
}

/// The same of coins that pay to the hash of a script ([`TO_TRUE_HASH`]), and so do the payments.
pub fn paying_to_hashes(
    alloc: Global,
    branch: Branch,
    coins: &[OutPoint],
    count: usize,
) -> Result<Vec<Vec<u8>>, InputsFault> {
    paying_as(alloc, branch, coins, count, &TO_HASH)
}

fn paying_as(
    alloc: Global,
    branch: Branch,
    coins: &[OutPoint],
    count: usize,
    paid: &Paid<'_>,
) -> Result<Vec<Vec<u8>>, InputsFault> {
    let mut branch = branch;
    let mut filling = Filling::new(u64::from(branch.number).wrapping_add(20));
    let mut coins = copied(alloc, coins)?;
    let mut blocks = Vec::new(alloc);
    for _ in 0..count {
        let bytes = next_paying(alloc, &mut branch, &mut filling, &mut coins, paid);
        put_made(&mut blocks, bytes)?;
    }
    Ok(blocks)
}

/// The bytes of a branch's next block, which pays each of these coins, in whose place its outputs come.
fn next_paying(
    alloc: Global,
    branch: &mut Branch,
    filling: &mut Filling,
    coins: &mut Vec<OutPoint>,
    paid: &Paid<'_>,
) -> Result<Vec<u8>, InputsFault> {
    let payments = payments(alloc, filling, coins.as_slice(), paid)?;
    coins.clear();
    put_outpoints(alloc, coins, payments.as_slice())?;
    branch.next_bytes(alloc, payments)
}

/// Puts places into another order.
pub fn shuffle(places: &mut [OutPoint]) {
    let mut filling = Filling::new(15);
    for at in 0..places.len() {
        let other = (filling.next() % places.len() as u64) as usize;
        places.swap(at, other);
    }
}

/// This many branches on one base, numbered from 2 on, each of `count` blocks that pay these coins.
pub fn branches(
    alloc: Global,
    base: Branch,
    coins: &[OutPoint],
    branches: u32,
    count: usize,
) -> Result<Vec<Vec<Vec<u8>>>, InputsFault> {
    let mut made = Vec::new(alloc);
    for number in 0..branches {
        let branch = Branch {
            number: number.wrapping_add(2),
            ..base
        };
        put_made(&mut made, paying(alloc, branch, coins, count))?;
    }
    Ok(made)
}
