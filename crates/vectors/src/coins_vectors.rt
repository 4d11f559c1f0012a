//! What no clause says of coins: each call once.

ghost use Rattle.std.specs.Prelude.{◌≡◌, ◌<◌, IfOk, IfSome};
ghost use Rattle.coins.specs.Entries.{IsSound};

use coins::{Base, Cache, Change, Changes, Coin, CoinMap, Writes};
use hash::Id;
use std::alloc::Global;
use std::test::*;
use txn::{OutPoint, Script};
use wire::Memory;

fn place(number: u8) -> OutPoint {
    OutPoint {
        id: Id([number / 3; 32]),
        index: (number % 3) as u32,
    }
}

fn coin(alloc: Global, value: i64) -> Result<Coin, Memory> {
    Ok(Coin {
        value,
        script: Script::from_vec(vec![in alloc; 0x51]?),
        height: 7,
        coinbase: value % 2 == 0,
    })
}

fn value_at<B: Base>(base: &B, number: u8) -> Option<i64> {
    base.get(&place(number)).map(|coin| coin.value)
}

/// The values at so many places.
type Values = [Option<i64>; 24];

/// A random run (xorshift64) over layers, with the values that have to be at the places.
#[derive(Drop)]
struct LayerRun {
    random: u64,
    values: Values,
    /// Whether all was as expected so far.
    holds: bool,
}

impl LayerRun {
    fn below(&mut self, end: u8) -> u8
        requires { 0 < end }
        ensures { result < end }
    {
        self.random ^= self.random << 13;
        self.random ^= self.random >> 7;
        self.random ^= self.random << 17;
        (self.random % end as u64) as u8
    }

    /// Compares what a base shows.
    fn look<B: Base>(&mut self, base: &B) {
        for number in 0..24u8 {
            if value_at(base, number) != self.values[number as usize] {
                self.holds = false;
            }
        }
    }

    /// Spends the coin at a place, or adds one where there is none.
    fn turn<B: Base>(&mut self, alloc: Global, layer: &mut Cache<'_, B>) -> Result<(), Memory>
        ensures { layer.new.base ≡ layer.old.base }
    {
        let number = self.below(24);
        let at = place(number);
        if layer.get(&at).is_some() {
            let spent = layer.spend(&at)?;
            if self.values[number as usize] != Some(spent.value) {
                self.holds = false;
            }
            self.values[number as usize] = None;
            return Ok(());
        }
        let value = self.below(3) as i64;
        layer.add(at, coin(alloc, value)?)?;
        self.values[number as usize] = Some(value);
        Ok(())
    }

    fn turns<B: Base>(&mut self, alloc: Global, layer: &mut Cache<'_, B>) -> Result<(), Memory>
        ensures { layer.new.base ≡ layer.old.base }
    {
        for _ in 0..100u8 {
            self.turn(alloc, layer)?;
            self.look(&*layer);
        }
        Ok(())
    }

    /// The highest layer, which is dropped or kept at random.
    fn high<B: Base>(&mut self, alloc: Global, base: &B) -> Result<Option<Writes>, Memory>
        ensures { IfOk result (λ kept. IfSome kept (λ writes. IsSound (B.coins base.now) writes)) }
    {
        let before = self.values;
        let mut layer = Cache::over(alloc, base);
        self.turns(alloc, &mut layer)?;
        if self.below(3) == 0 {
            self.values = before;
            return Ok(None);
        }
        Ok(Some(layer.into_writes()))
    }

    fn middle<B: Base>(&mut self, alloc: Global, base: &B) -> Result<Writes, Memory>
        ensures { IfOk result (λ writes. IsSound (B.coins base.now) writes) }
    {
        let mut layer = Cache::over(alloc, base);
        self.turns(alloc, &mut layer)?;
        if let Some(writes) = self.high(alloc, &layer)? {
            layer.absorb(writes)?;
        }
        self.turns(alloc, &mut layer)?;
        Ok(layer.into_writes())
    }

    fn low<B: Base>(&mut self, alloc: Global, base: &B) -> Result<Changes, Memory> {
        let mut layer = Cache::over(alloc, base);
        self.turns(alloc, &mut layer)?;
        let writes = self.middle(alloc, &layer)?;
        layer.absorb(writes)?;
        self.turns(alloc, &mut layer)?;
        Ok(layer.into_changes())
    }

    /// Compares a list of changes with the values before and now, place by place, and their sums.
    fn compare(&mut self, before: &Values, changes: &[Change]) {
        let mut next: usize = 0;
        let mut total = sum(before);
        for number in 0..24u8 {
            let old = before[number as usize];
            let new = self.values[number as usize];
            if old != new {
                if !is_change(changes.get(next), number, new) {
                    self.holds = false;
                    return;
                }
                total = total
                    .wrapping_add(new.unwrap_or(0))
                    .wrapping_sub(old.unwrap_or(0));
                next += 1;
            }
        }
        if next != changes.len() || total != sum(&self.values) {
            self.holds = false;
        }
    }
}

fn is_change(change: Option<&Change>, number: u8, value: Option<i64>) -> bool {
    match change {
        Some((at, coin)) => *at == place(number) && coin.as_ref().map(|coin| coin.value) == value,
        None => false,
    }
}

fn sum(values: &Values) -> i64 {
    let mut sum = 0i64;
    for value in values {
        sum = sum.wrapping_add(value.unwrap_or(0));
    }
    sum
}

#[test]
fn layers_over_layers_by_chance(rt: HostRuntime) -> Result<(), Fail> {
    let mut map = CoinMap::new(rt.alloc());
    let mut trial = LayerRun {
        random: 20_260_101,
        values: [None; 24],
        holds: true,
    };
    for round in 0..40u8 {
        let before = trial.values;
        let changes = trial.low(rt.alloc(), &map)?;
        trial.compare(&before, &changes.to_vec(rt.alloc())?);
        let copy = changes.copy()?;
        trial.compare(&before, &copy.to_vec(rt.alloc())?);
        assert!(rt; copy.len() == changes.len() && copy.is_empty() == changes.is_empty());
        if round % 2 == 0 {
            map.lay(rt.alloc(), &changes)?;
        } else {
            assert!(rt; map.lay_taken(rt.alloc(), copy).is_ok());
        }
        trial.look(&map);
        assert!(rt; trial.holds);
    }
    Ok(())
}
