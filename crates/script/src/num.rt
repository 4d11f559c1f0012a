//! Numbers of scripts.

ghost use Rattle.std.specs.Prelude.{◌≡◌, ◌<◌, ◌≤◌, ◌^◌, ◌+◌, ◌*◌, ◌++◌, ◌%◌, ◌/◌, List, ℕ, ℤ, length, min, nat_le, option_map, IfOk, OnOk};
ghost use Rattle.wire.specs.Grammar.{IsBytes};
ghost use Rattle.script.specs.Num.{magnitude, with_sign, num_value, operand, shortest_bytes, shortest_bytes_with};

use std::alloc::Global;
use wire::Memory;

/// How many bytes a number that is read has at most.
const MAX_LEN: usize = 8;

/// A number that a script computes with (Bitcoin Core's `CScriptNum`).
#[derive(Clone, Copy, Debug, PartialEq, Eq, PartialOrd, Ord)]
pub struct Num(pub i64);

impl Num {
    /// The number that at most `most` bytes spell, be it needlessly long: the lowest byte first, the highest
    /// bit of the last byte the sign. None where there are more bytes, or more than the 8 of an `i64`.
    pub fn read(bytes: &[u8], most: usize) -> Option<Num>
        ensures { option_map (λ n. n.0) result ≡ operand (min most 8) bytes.now }
    {
        if bytes.len() > most.min(MAX_LEN) {
            return None;
        }
        Some(Num(value(bytes)))
    }

    /// Its shortest spelling.
    #[tactic(auto, unfolding(crate::specs::Num::shortest_bytes))]
    pub fn spell(self, alloc: Global) -> Result<Vec<u8>, Memory>
        ensures { IfOk result (λ bytes. bytes.items ≡ shortest_bytes self.0) }
    {
        let mut bytes = Vec::new(alloc);
        if self.0 < 0 {
            spell(&mut bytes, self.0.unsigned_abs(), 128)?;
            return Ok(bytes);
        }
        if self.0 > 0 {
            spell(&mut bytes, self.0.unsigned_abs(), 0)?;
        }
        Ok(bytes)
    }
}

/// The number that bytes spell.
#[tactic(auto, unfolding(crate::specs::Num::num_value))]
fn value(bytes: &[u8]) -> i64
    requires { length bytes.now ≤ 8 }
    ensures { result ≡ num_value bytes.now }
{
    let n = magnitude(bytes) as i64;
    match bytes.last() {
        Some(last) if *last >= 128 => -n,
        _ => n,
    }
}

/// The same without its sign.
fn magnitude(bytes: &[u8]) -> u64
    requires { length bytes.now ≤ 8 }
    ensures value { result ≡ magnitude bytes.now }
    ensures bound { result < 2 ^ 63 }
{
    match bytes {
        [] => 0,
        [last] => u64::from(*last % 128),
        [low, others @ ..] => u64::from(*low) + 256 * magnitude(others),
    }
}

/// Spells a number, with `sign` added to its last byte.
fn spell(bytes: &mut Vec<u8>, n: u64, sign: u8) -> Result<(), Memory>
    requires { sign ≤ 128 }
    ensures { OnOk result (bytes.new.items ≡ bytes.old.items ++ shortest_bytes_with 9 sign n) }
{
    let mut left = n;
    while left >= 128 {
        bytes.push((left % 256) as u8)?;
        left /= 256;
    }
    bytes.push(left as u8 + sign)?;
    Ok(())
}
