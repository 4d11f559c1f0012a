//! The spelling of counts.

ghost use Rattle.std.specs.Prelude.{◌≡◌};
ghost use Rattle.wire.specs.Numbers.{compact_size};

use std::marker::Model;

/// The spelling of a count: Bitcoin's CompactSize, in the shortest of its forms (Bitcoin Core's
/// `WriteCompactSize`). A clause sees its bytes.
#[derive(Debug, Drop)]
pub struct CompactSize {
    bytes: [u8; 9],
    len: usize,
}

impl Model for CompactSize {
    ghost use Rattle.std.specs.Prelude.{List, ℕ, ◌≤◌, take};

    ghost Value = { List ℕ };

    ghost view = { λ s. take s.len s.bytes };

    ghost invariant = { λ s. s.len ≤ 9 };
}

impl CompactSize {
    /// The spelling of this count, of which the longest form has the lowest 64 bits.
    #[tactic(auto, unfolding(crate::specs::Numbers::compact_size))]
    pub fn of(n: u128) -> CompactSize
        ensures { result ≡ compact_size n }
    {
        if n < 253 {
            return CompactSize {
                bytes: [n as u8, 0, 0, 0, 0, 0, 0, 0, 0],
                len: 1,
            };
        }
        if n < 0x1_0000 {
            let [a, b] = (n as u16).to_le_bytes();
            return CompactSize {
                bytes: [253, a, b, 0, 0, 0, 0, 0, 0],
                len: 3,
            };
        }
        if n < 0x1_0000_0000 {
            let [a, b, c, d] = (n as u32).to_le_bytes();
            return CompactSize {
                bytes: [254, a, b, c, d, 0, 0, 0, 0],
                len: 5,
            };
        }
        let low = (n % 0x1_0000_0000_0000_0000) as u64;
        let [a, b, c, d, e, f, g, h] = low.to_le_bytes();
        CompactSize {
            bytes: [255, a, b, c, d, e, f, g, h],
            len: 9,
        }
    }

    /// Its bytes, lent.
    pub fn as_slice(&self) -> &[u8]
        ensures { result.now ≡ self.now }
    {
        &self.bytes[..self.len]
    }
}
