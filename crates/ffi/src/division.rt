//! Numbers of 256 bits, and the quotient that is a block's work.

ghost use Rattle.std.specs.Prelude.{◌≡◌, ◌<◌, ◌≤◌, ◌+◌, ◌-◌, ◌*◌, ◌/◌, ◌^◌, ◌==◌, nat_lt};
ghost use Rattle.ffi.specs.Bits.{number};
ghost use Rattle.ffi.specs.inside.Wide.{value};

/// The least bit that is lost when the lower half is doubled.
const HALF: u128 = 1 << 127;

/// A number of 256 bits.
#[derive(Clone, Copy, Drop)]
pub(crate) struct Wide {
    high: u128,
    low: u128,
}

const ZERO: Wide = Wide { high: 0, low: 0 };

const ONE: Wide = Wide { high: 0, low: 1 };

impl Wide {
    pub(crate) fn of_bytes(bytes: &[u8; 32]) -> Wide
        ensures { value result ≡ number bytes.now }
    {
        let mut low = [0; 16];
        low.copy_from_slice(&bytes[..16]);
        let mut high = [0; 16];
        high.copy_from_slice(&bytes[16..]);
        Wide {
            high: u128::from_le_bytes(high),
            low: u128::from_le_bytes(low),
        }
    }

    pub(crate) fn bytes(self) -> [u8; 32]
        ensures { number result ≡ value self }
    {
        let mut bytes = [0; 32];
        bytes[..16].copy_from_slice(&self.low.to_le_bytes());
        bytes[16..].copy_from_slice(&self.high.to_le_bytes());
        bytes
    }

    pub(crate) fn is_zero(&self) -> bool
        ensures { result ≡ (value self.now == 0) }
    {
        self.high == 0 && self.low == 0
    }

    fn is_below(&self, other: &Wide) -> bool
        ensures { result ≡ nat_lt (value self.now) (value other.now) }
    {
        let is_lower = self.low < other.low;
        self.high < other.high || self.high == other.high && is_lower
    }

    fn minus(&self, other: &Wide) -> Wide
        requires { value other.now ≤ value self.now }
        ensures { value result ≡ value self.now - value other.now }
    {
        if self.low < other.low {
            Wide {
                high: self.high - other.high - 1,
                low: self.low + (u128::MAX - other.low) + 1,
            }
        } else {
            Wide {
                high: self.high - other.high,
                low: self.low - other.low,
            }
        }
    }

    fn twice(&self) -> Wide
        requires { 2 * value self.now < 2 ^ 256 }
        ensures { value result ≡ 2 * value self.now }
    {
        if self.low < HALF {
            Wide {
                high: self.high * 2,
                low: self.low * 2,
            }
        } else {
            Wide {
                high: self.high * 2 + 1,
                low: (self.low - HALF) * 2,
            }
        }
    }

    /// Twice the number, and one.
    fn twice_and_one(&self) -> Wide
        requires { 2 * value self.now + 1 < 2 ^ 256 }
        ensures { value result ≡ 2 * value self.now + 1 }
    {
        let twice = self.twice();
        Wide {
            high: twice.high,
            low: twice.low + 1,
        }
    }
}

/// A quotient and what is left.
#[derive(Clone, Copy, Drop)]
struct Divided {
    quotient: Wide,
    rest: Wide,
}

/// One bit more of the quotient by a number one above this one.
fn next(by: Wide, found: &Divided) -> Divided
    requires rest { value found.now.rest ≤ value by }
    requires room { 2 * value found.now.quotient + 1 < 2 ^ 256 }
    ensures sum { value result.quotient * (value by + 1) + value result.rest
        ≡ 2 * (value found.now.quotient * (value by + 1) + value found.now.rest) }
    ensures rest { value result.rest ≤ value by }
{
    let room = by.minus(&found.rest);
    if room.is_below(&found.rest) {
        Divided {
            quotient: found.quotient.twice_and_one(),
            rest: found.rest.minus(&room).minus(&ONE),
        }
    } else {
        Divided {
            quotient: found.quotient.twice(),
            rest: found.rest.twice(),
        }
    }
}

/// 2 ^ 256 divided by a number one above this one, by long division.
pub(crate) fn share(by: Wide) -> Wide
    requires { 0 < value by }
    ensures { value result ≡ 2 ^ 256 / (value by + 1) }
{
    let mut found = Divided {
        quotient: ZERO,
        rest: ONE,
    };
    for _ in 0..256_u32 {
        found = next(by, &found);
    }
    found.quotient
}
