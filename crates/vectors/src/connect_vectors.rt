//! A block over a coin of its own coinbase, which a chain has at an output of that alone.

use block::{Block, GENESIS, read};
use coins::{Base, Cache, Coin, CoinMap};
use connect::{BlockWithIds, Context, Env, connect};
use hash::Id;
use queue::{Alone, Open};
use rules::{Params, block_alone_with};
use signatures::Table;
use std::alloc::Global;
use std::test::*;
use txn::{OutPoint, Reason, Script, ids};
use wire::Memory;

/// A coin at this index of a block's coinbase, which the block's own output would overwrite if it stood there.
fn coin_at(alloc: Global, id: &Id, index: u32) -> Result<CoinMap, Memory> {
    let mut map = CoinMap::new(alloc);
    let coin = Coin {
        value: 1,
        script: Script::from_vec(Vec::new(alloc)),
        height: 10,
        coinbase: false,
    };
    map.insert(OutPoint { id: *id, index }, coin)?;
    Ok(map)
}

/// The first rule that a block of height 1 breaks.
fn broken<B: Base>(
    alloc: Global,
    cache: &mut Cache<'_, B>,
    block: &Block,
) -> Result<Option<Reason>, Memory> {
    let ids = ids(alloc, block.txs.as_slice())?;
    if let Some(reason) = block_alone_with(alloc, block, &block.id(), &ids)? {
        return Ok(Some(reason));
    }
    let context = Context {
        height: 1,
        cutoff: 0,
        medians: &[],
        params: &Params::regtest(),
    };
    let env = Env {
        signatures: &Table::new(alloc),
        workers: 1,
        early: &[],
        crew: &Alone,
    };
    let of = BlockWithIds {
        block,
        ids: ids.as_slice(),
    };
    Ok(connect(alloc, cache, &context, &of, &env, &Open)?.err())
}

#[test]
fn a_coin_beyond_the_outputs(rt: HostRuntime) -> Result<(), Fail> {
    let alloc = rt.alloc();
    let block = read(alloc, &GENESIS)?;
    let coinbase = block.txs.as_slice().first().ok_or("a coinbase")?;
    let id = coinbase.id();
    for (index, reason) in [(0, Some(Reason::OverwritesCoin)), (1, None)] {
        let map = coin_at(alloc, &id, index)?;
        let found = broken(alloc, &mut Cache::over(alloc, &map), &block)?;
        assert!(rt; found == reason, "{index}: {found:?}");
    }
    Ok(())
}
