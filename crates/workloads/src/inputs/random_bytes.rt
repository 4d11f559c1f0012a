//! Random bytes, the same in each run.

use crate::inputs::fault::InputsFault;
use crate::inputs::lists::put;
use hash::Id;
use rand_core::{Rng, SeedableRng};
use rand_xoshiro::SplitMix64;
use std::alloc::Global;

/// A generator (SplitMix64), which the baseline of `bench` has too.
#[derive(Drop)]
pub struct Filling {
    random: SplitMix64,
}

impl Filling {
    pub fn new(seed: u64) -> Filling {
        Filling {
            random: SplitMix64::seed_from_u64(seed),
        }
    }

    /// The next 64 bits.
    pub fn next(&mut self) -> u64 {
        self.random.next_u64()
    }

    /// Overwrites bytes, each with the lowest eight bits of the next number.
    pub fn fill(&mut self, bytes: &mut [u8]) {
        for byte in bytes.iter_mut() {
            *byte = (self.next() % 256) as u8;
        }
    }

    pub fn bytes<const N: usize>(&mut self) -> [u8; N] {
        let mut bytes = [0; N];
        self.fill(bytes.as_mut_slice());
        bytes
    }
}

/// This many random ids.
pub fn some_ids(alloc: Global, size: usize) -> Result<Vec<Id>, InputsFault> {
    let mut filling = Filling::new(4);
    let mut ids = Vec::new(alloc);
    for _ in 0..size {
        put(&mut ids, Id(filling.bytes()))?;
    }
    Ok(ids)
}
