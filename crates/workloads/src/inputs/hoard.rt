//! Coins, and maps of them.

use crate::inputs::fault::InputsFault;
use crate::inputs::lists::put_made;
use crate::inputs::payments::{TRUE, coin, to_key_hash};
use crate::inputs::random_bytes::Filling;
use crate::inputs::start::{WORTH, shuffle};
use coins::{Coin, CoinMap};
use hash::Id;
use std::alloc::Global;
use txn::OutPoint;

/// Random outpoints and coins.
#[derive(Drop)]
pub struct Hoard {
    filling: Filling,
}

impl Hoard {
    pub fn new() -> Hoard {
        Hoard {
            filling: Filling::new(14),
        }
    }

    /// The next outpoint with its coin, which a key's hash locks.
    pub fn next(&mut self, alloc: Global) -> Result<(OutPoint, Coin), InputsFault> {
        let at = OutPoint {
            id: Id(self.filling.bytes()),
            index: (self.filling.next() % 4) as u32,
        };
        let hash: [u8; 20] = self.filling.bytes();
        let value = (self.filling.next() % 5_000_000_000) as i64;
        Ok((at, coin(alloc, value, to_key_hash(&hash).as_slice())?))
    }
}

/// This many coins.
pub fn hoarded(alloc: Global, size: usize) -> Result<Vec<(OutPoint, Coin)>, InputsFault> {
    let mut hoard = Hoard::new();
    let mut coins = Vec::new(alloc);
    for _ in 0..size {
        put_made(&mut coins, hoard.next(alloc))?;
    }
    Ok(coins)
}

/// Puts a coin into a map.
pub fn put_coin(map: &mut CoinMap, at: OutPoint, coin: Coin) -> Result<(), InputsFault> {
    map.insert(at, coin)?;
    Ok(())
}

/// Puts a coin of this worth and script into a map.
pub fn put_new(
    alloc: Global,
    map: &mut CoinMap,
    at: OutPoint,
    value: i64,
    script: &[u8],
) -> Result<(), InputsFault> {
    put_coin(map, at, coin(alloc, value, script)?)
}

/// Puts the next of a hoard's coins into a map: where it is, and what it is worth.
pub fn put_next(
    alloc: Global,
    hoard: &mut Hoard,
    map: &mut CoinMap,
) -> Result<(OutPoint, u64), InputsFault> {
    let (at, coin) = hoard.next(alloc)?;
    let worth = coin.value.unsigned_abs();
    put_coin(map, at, coin)?;
    Ok((at, worth))
}

/// Puts so many coins into a map: where they are, in another order than they came in.
pub fn fill(alloc: Global, map: &mut CoinMap, size: usize) -> Result<Vec<OutPoint>, InputsFault> {
    let mut hoard = Hoard::new();
    let mut places = Vec::new(alloc);
    for _ in 0..size {
        put_made(&mut places, put_place(alloc, &mut hoard, map))?;
    }
    shuffle(places.as_mut_slice());
    Ok(places)
}

/// Puts the next of a hoard's coins into a map: where it is.
fn put_place(alloc: Global, hoard: &mut Hoard, map: &mut CoinMap) -> Result<OutPoint, InputsFault> {
    let (at, _) = put_next(alloc, hoard, map)?;
    Ok(at)
}

/// Puts the coins that a chain leaves at these places into a map.
pub fn put_spread(
    alloc: Global,
    map: &mut CoinMap,
    places: &[OutPoint],
) -> Result<(), InputsFault> {
    for at in places {
        put_new(alloc, map, *at, WORTH / 10, TRUE)?;
    }
    Ok(())
}
