//! The workloads by their names.

use crate::chain_work::{ChainGrowth, grown};
use crate::clock::Outcome;
use crate::fault::BenchFault;
use crate::node_work::at_node;
use crate::plan::Plan;
use crate::queues::{Runner, checked};
use crate::read_work::ReadKind;
use crate::{codec, coin_work, connections, early_work, hashes, plan, signed_inputs};
use std::alloc::Global;
use std::rt::Clock;
use std::sync::Wait;
use std::thread::Threads;
use workloads::inputs;
use workloads::inputs::branch::Branch;
use workloads::inputs::scripts;
use workloads::inputs::spends::{to_keys, to_two_of_three};

/// What is timed.
#[derive(Clone, Copy)]
pub enum Workload {
    DoubleSha,
    Ripemd,
    RipemdLong,
    Merkle,
    Decode,
    Write,
    Ids,
    Alone,
    Records,
    KeyHash,
    TwoOfThree,
    Swaps,
    Hashes,
    LongCode,
    Conditions,
    Digests,
    EachInput,
    Queue(usize),
    QueueStart,
    CoinsInsert,
    CoinsLookUp,
    CoinsSpend,
    Connect(usize),
    EarlyWide,
    Chain,
    ChainHeavy,
    ChainBeside,
    BlocksAbove,
    Reorganise,
    ReadMap,
    ReadCoin(usize),
    ReadBest(usize),
    ReadBeside(usize),
    Slowest,
    Publish(usize),
    Seats(usize),
    Turns(usize),
    Submit,
    Workers(usize),
    Keep,
    KeepHeavy,
    KeepCoins,
    HoldCoins,
}

/// Each workload with its name, and the small size at which it is done without words.
pub const ALL: [(Workload, &str, usize); 62] = [
    (Workload::DoubleSha, "double-sha", 3),
    (Workload::Ripemd, "ripemd", 3),
    (Workload::RipemdLong, "ripemd-long", 200),
    (Workload::Merkle, "merkle", 45),
    (Workload::Decode, "decode", 3),
    (Workload::Write, "write", 3),
    (Workload::Ids, "ids", 20),
    (Workload::Alone, "alone", 20),
    (Workload::Records, "records", 3),
    (Workload::KeyHash, "key-hash", 3),
    (Workload::TwoOfThree, "two-of-three", 3),
    (Workload::Swaps, "swaps", 2),
    (Workload::Hashes, "hashes", 2),
    (Workload::LongCode, "long-code", 1),
    (Workload::Conditions, "conditions", 2),
    (Workload::Digests, "digests", 2),
    (Workload::EachInput, "each-input", 3),
    (Workload::Queue(1), "queue-1", 3),
    (Workload::Queue(2), "queue-2", 3),
    (Workload::Queue(4), "queue-4", 3),
    (Workload::Queue(8), "queue-8", 3),
    (Workload::QueueStart, "queue-start", 2),
    (Workload::CoinsInsert, "coins-insert", 5),
    (Workload::CoinsLookUp, "coins-look-up", 5),
    (Workload::CoinsSpend, "coins-spend", 5),
    (Workload::Connect(1), "connect-1", 5),
    (Workload::Connect(4), "connect-4", 5),
    (Workload::EarlyWide, "early-wide", 5),
    (Workload::Chain, "chain", 20),
    (Workload::ChainHeavy, "chain-heavy", 1),
    (Workload::ChainBeside, "chain-beside", 20),
    (Workload::BlocksAbove, "blocks-above", 5),
    (Workload::Reorganise, "reorganise", 3),
    (Workload::ReadMap, "read-map", 20),
    (Workload::ReadCoin(1), "read-coin-1", 20),
    (Workload::ReadCoin(2), "read-coin-2", 20),
    (Workload::ReadCoin(4), "read-coin-4", 20),
    (Workload::ReadCoin(8), "read-coin-8", 20),
    (Workload::ReadBest(1), "read-best-1", 20),
    (Workload::ReadBest(2), "read-best-2", 20),
    (Workload::ReadBest(4), "read-best-4", 20),
    (Workload::ReadBest(8), "read-best-8", 20),
    (Workload::ReadBeside(1), "read-beside-1", 20),
    (Workload::ReadBeside(2), "read-beside-2", 20),
    (Workload::ReadBeside(4), "read-beside-4", 20),
    (Workload::ReadBeside(8), "read-beside-8", 20),
    (Workload::Slowest, "slowest", 3),
    (Workload::Publish(0), "publish-1", 20),
    (Workload::Publish(50), "publish-100", 20),
    (Workload::Publish(5000), "publish-10000", 20),
    (Workload::Seats(1), "seats-1", 1),
    (Workload::Seats(2), "seats-2", 1),
    (Workload::Seats(4), "seats-4", 1),
    (Workload::Turns(1), "turns-1", 2),
    (Workload::Turns(4), "turns-4", 2),
    (Workload::Submit, "submit", 2),
    (Workload::Workers(1), "workers-1", 3),
    (Workload::Workers(4), "workers-4", 3),
    (Workload::Keep, "keep", 3),
    (Workload::KeepHeavy, "keep-heavy", 1),
    (Workload::KeepCoins, "keep-coins", 20),
    (Workload::HoldCoins, "hold-coins", 5),
];

impl Workload {
    pub fn named(name: &str) -> Option<Workload> {
        for (workload, own, _) in &ALL {
            if *own == name {
                return Some(*workload);
            }
        }
        None
    }

    pub fn run<R>(self, rt: &R, size: usize) -> Result<Outcome, BenchFault>
    where
        R: AllocGlobal + Clock + Threads + Wait + Sync,
    {
        match self {
            Workload::DoubleSha => hashes::double_sha_chain(rt, size),
            Workload::Ripemd => hashes::ripemd_chain(rt, size),
            Workload::RipemdLong => hashes::ripemd_long(rt, size),
            Workload::Merkle => hashes::merkle_root(rt, size),
            Workload::Decode => codec::decode(rt, size),
            Workload::Write => codec::write(rt, size),
            Workload::Ids => codec::payment_ids(rt, size),
            Workload::Alone => codec::alone(rt, size),
            Workload::Records => codec::records(rt, size),
            _ => self.run_scripts(rt, size),
        }
    }

    /// Workloads of scripts and digests, or of what is above them.
    fn run_scripts<R>(self, rt: &R, size: usize) -> Result<Outcome, BenchFault>
    where
        R: AllocGlobal + Clock + Threads + Wait + Sync,
    {
        let alloc = rt.alloc();
        match self {
            Workload::KeyHash => checked(rt, to_keys(alloc, size), Runner::Alone, 1),
            Workload::TwoOfThree => checked(rt, to_two_of_three(alloc, size), Runner::Alone, 1),
            Workload::Swaps => checked(rt, scripts::swaps(alloc), Runner::Alone, size),
            Workload::Hashes => checked(rt, scripts::hashes(alloc), Runner::Alone, size),
            Workload::LongCode => checked(rt, scripts::long_code(alloc), Runner::Alone, size),
            Workload::Conditions => checked(rt, scripts::conditions(alloc), Runner::Alone, size),
            Workload::Digests => signed_inputs::digests(rt, size),
            Workload::EachInput => signed_inputs::each_input(rt, size),
            Workload::Queue(workers) => {
                checked(rt, to_keys(alloc, size), Runner::Queue(workers), 1)
            },
            Workload::QueueStart => checked(rt, to_keys(alloc, 4), Runner::Queue(4), size),
            _ => self.run_coins(rt, size),
        }
    }

    /// Workloads of coins, or of what is above them.
    fn run_coins<R>(self, rt: &R, size: usize) -> Result<Outcome, BenchFault>
    where
        R: AllocGlobal + Clock + Threads + Wait + Sync,
    {
        match self {
            Workload::CoinsInsert => coin_work::inserted(rt, size),
            Workload::CoinsLookUp => coin_work::looked_up(rt, size),
            Workload::CoinsSpend => coin_work::spent(rt, size),
            Workload::HoldCoins => coin_work::held(rt, size),
            Workload::ReadMap => coin_work::read_from_a_map(rt, size),
            Workload::Connect(workers) => connections::connected(rt, size, workers),
            Workload::EarlyWide => early_work::wide(rt, size),
            _ => match self.growth(size) {
                Some(growth) => grown(rt, growth),
                None => at_node(rt, self.plan(rt.alloc(), size)),
            },
        }
    }

    /// What is submitted to a chainstate.
    fn growth(self, size: usize) -> Option<ChainGrowth> {
        match self {
            Workload::Chain => Some(ChainGrowth::Above(Branch::new(1), 0, size)),
            Workload::ChainHeavy => Some(ChainGrowth::Above(Branch::heavy(1), 0, size)),
            Workload::ChainBeside => Some(ChainGrowth::Beside(size)),
            Workload::BlocksAbove => Some(ChainGrowth::hundred_above(size)),
            Workload::Reorganise => Some(ChainGrowth::Reorganised(size)),
            _ => None,
        }
    }

    /// What a node's seats do.
    fn plan(self, alloc: Global, size: usize) -> Result<Plan, inputs::InputsFault> {
        match self {
            Workload::ReadCoin(readers) => plan::reads(alloc, size, readers, ReadKind::Coin),
            Workload::ReadBest(readers) => plan::reads(alloc, size, readers, ReadKind::Best),
            Workload::ReadBeside(readers) => plan::reads_beside(alloc, size, readers),
            Workload::Slowest => plan::slowest(alloc, size),
            Workload::Publish(payments) => plan::published(alloc, size, payments),
            Workload::Seats(seats) => plan::branches(alloc, size, seats),
            Workload::Turns(seats) => plan::turns(alloc, size, seats),
            Workload::Submit => plan::submitted(alloc, size),
            Workload::Workers(workers) => plan::worked(alloc, size, workers),
            Workload::KeepHeavy => Ok(plan::kept(alloc, Branch::heavy(1), size)),
            Workload::KeepCoins => plan::kept_coins(alloc, size),
            _ => Ok(plan::kept(alloc, Branch::new(1), size)),
        }
    }
}
