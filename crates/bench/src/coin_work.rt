//! Coins in a map, and layers over it.

use crate::check::Check;
use crate::clock::{Outcome, Timer};
use crate::fault::BenchFault;
use coins::{Base, Cache, Coin, CoinMap};
use std::alloc::Global;
use std::rt::Clock;
use txn::OutPoint;
use workloads::inputs::hoard::{Hoard, fill, hoarded, put_coin, put_next, put_spread};
use workloads::inputs::start::Start;

/// Coins are put into a map.
pub fn inserted<R: AllocGlobal + Clock>(rt: &R, size: usize) -> Result<Outcome, BenchFault> {
    let coins = hoarded(rt.alloc(), size)?;
    let mut map = CoinMap::new(rt.alloc());
    let timer = Timer::start(rt);
    timer.stop(rt, put_each(&mut map, coins))
}

/// Puts coins into a map: what they are worth.
fn put_each(map: &mut CoinMap, coins: Vec<(OutPoint, Coin)>) -> Result<Check, BenchFault> {
    let mut sum = 0u64;
    for (at, coin) in coins {
        sum = sum.wrapping_add(coin.value.unsigned_abs());
        put_coin(map, at, coin)?;
    }
    Ok(Check::Count(sum))
}

/// What the coins at these places are worth, which are looked up one by one.
fn looks(clock: &impl Clock, base: &impl Base, places: &[OutPoint]) -> Result<Outcome, BenchFault> {
    let mut sum = 0u64;
    let timer = Timer::start(clock);
    for at in places {
        if let Some(coin) = base.get(at) {
            sum = sum.wrapping_add(coin.value.unsigned_abs());
        }
    }
    timer.stop(clock, Ok(Check::Count(sum)))
}

/// Each of so many coins of a map, looked up through a layer.
pub fn looked_up<R: AllocGlobal + Clock>(rt: &R, size: usize) -> Result<Outcome, BenchFault> {
    let mut map = CoinMap::new(rt.alloc());
    let places = fill(rt.alloc(), &mut map, size)?;
    looks(rt, &Cache::over(rt.alloc(), &map), places.as_slice())
}

/// Coins are looked up in a map by itself, at the places that the readers of a node have.
pub fn read_from_a_map<R: AllocGlobal + Clock>(rt: &R, size: usize) -> Result<Outcome, BenchFault> {
    let Start { spread, .. } = Start::shuffled(rt.alloc(), 0, size)?;
    read_spread(rt, spread.as_slice())
}

/// The coins that a chain leaves at these places, looked up in a map.
fn read_spread<R: AllocGlobal + Clock>(rt: &R, spread: &[OutPoint]) -> Result<Outcome, BenchFault> {
    let mut map = CoinMap::new(rt.alloc());
    put_spread(rt.alloc(), &mut map, spread)?;
    looks(rt, &map, spread)
}

/// Each of so many coins of a map, looked for and spent in a layer.
pub fn spent<R: AllocGlobal + Clock>(rt: &R, size: usize) -> Result<Outcome, BenchFault> {
    let mut map = CoinMap::new(rt.alloc());
    let places = fill(rt.alloc(), &mut map, size)?;
    spent_over(rt, &map, places.as_slice())
}

/// The coins at these places, looked for and spent in a layer over a map.
fn spent_over<R: AllocGlobal + Clock>(
    rt: &R,
    map: &CoinMap,
    places: &[OutPoint],
) -> Result<Outcome, BenchFault> {
    let mut layer = Cache::over(rt.alloc(), map);
    let timer = Timer::start(rt);
    timer.stop(rt, taken(&mut layer, places))
}

/// Takes the coins at these places: what they are worth.
fn taken<B: Base>(layer: &mut Cache<'_, B>, places: &[OutPoint]) -> Result<Check, BenchFault> {
    let mut sum = 0u64;
    for at in places {
        if let Some(coin) = layer.take(at)? {
            sum = sum.wrapping_add(coin.value.unsigned_abs());
        }
    }
    Ok(Check::Count(sum))
}

/// Coins are put into a map, and nothing else is kept.
pub fn held<R: AllocGlobal + Clock>(rt: &R, size: usize) -> Result<Outcome, BenchFault> {
    let mut map = CoinMap::new(rt.alloc());
    let timer = Timer::start(rt);
    timer.stop(rt, put_hoarded(rt.alloc(), &mut map, size))
}

/// Puts so many coins into a map, each as it is made: what they are worth.
fn put_hoarded(alloc: Global, map: &mut CoinMap, size: usize) -> Result<Check, BenchFault> {
    let mut hoard = Hoard::new();
    let mut sum = 0u64;
    for _ in 0..size {
        let (_, worth) = put_next(alloc, &mut hoard, map)?;
        sum = sum.wrapping_add(worth);
    }
    Ok(Check::Count(sum))
}
