//! Digests of short and long messages, and Merkle roots.

use crate::check::Check;
use crate::clock::{Outcome, Timer};
use crate::fault::BenchFault;
use block::merkle;
use hash::{Id, double_sha};
use std::alloc::Global;
use std::rt::Clock;
use workloads::inputs::random_bytes::{Filling, some_ids};

/// Double SHA-256 of 80 bytes, so often, each message with the digest before in it.
pub fn double_sha_chain(clock: &impl Clock, size: usize) -> Result<Outcome, BenchFault> {
    let mut message: [u8; 80] = Filling::new(1).bytes();
    let mut digest = [0; 32];
    let timer = Timer::start(clock);
    for _ in 0..size {
        digest = double_sha(message.as_slice());
        put_front(&mut message, &digest);
    }
    timer.stop(clock, Ok(Check::of_digest(digest)))
}

fn put_front(message: &mut [u8; 80], digest: &[u8; 32]) {
    message[..32].copy_from_slice(digest.as_slice());
}

/// RIPEMD-160 of 32 bytes, so often, each message with the digest before in it.
pub fn ripemd_chain(clock: &impl Clock, size: usize) -> Result<Outcome, BenchFault> {
    let mut message: [u8; 32] = Filling::new(2).bytes();
    let mut digest = [0; 20];
    let timer = Timer::start(clock);
    for _ in 0..size {
        digest = ripemd::digest(message.as_slice());
        message[..20].copy_from_slice(digest.as_slice());
    }
    timer.stop(clock, Ok(Check::of_short(digest)))
}

/// RIPEMD-160 of a message of so many bytes.
pub fn ripemd_long<R: AllocGlobal + Clock>(rt: &R, size: usize) -> Result<Outcome, BenchFault> {
    let mut message = vec![in rt.alloc(); 0; size]?;
    Filling::new(3).fill(message.as_mut_slice());
    let timer = Timer::start(rt);
    let digest = ripemd::digest(message.as_slice());
    timer.stop(rt, Ok(Check::of_short(digest)))
}

/// The Merkle root of so many ids.
pub fn merkle_root<R: AllocGlobal + Clock>(rt: &R, size: usize) -> Result<Outcome, BenchFault> {
    let ids = some_ids(rt.alloc(), size)?;
    let timer = Timer::start(rt);
    timer.stop(rt, root_of(rt.alloc(), ids.as_slice()))
}

fn root_of(alloc: Global, ids: &[Id]) -> Result<Check, BenchFault> {
    let (root, _) = merkle(alloc, ids)?;
    Ok(Check::of_id(root))
}
