//! How many values a line has, counted while it comes in.

ghost use Rattle.std.specs.Prelude.{◌≡◌, false, nat_lt};

use memchr::memchr2;

/// How many values a line may have. A request has some ten.
const MAX_VALUES: usize = 1_000;

/// What was counted of a line so far: each value of a JSON text, but the first, stands behind a comma or an opening
/// bracket of its own.
#[derive(Clone, Copy)]
pub struct Tally {
    /// The commas and opening brackets outside of strings.
    values: usize,
    is_in_string: bool,
    is_escaped: bool,
}

impl Tally {
    /// Of a line of which nothing has come in.
    pub fn new() -> Tally
        ensures values { result.values ≡ 0 }
        ensures outside { (result.is_in_string ≡ false) × (result.is_escaped ≡ false) }
    {
        Tally {
            values: 0,
            is_in_string: false,
            is_escaped: false,
        }
    }

    /// The next bytes of the line have come in.
    pub fn add(&mut self, bytes: &[u8]) {
        let mut rest = bytes;
        for _ in 0..bytes.len() {
            if self.is_in_string && !self.is_escaped {
                match memchr2(b'"', b'\\', rest) {
                    Some(place) => rest = &rest[place..],
                    None => return,
                }
            }
            let Some((byte, behind)) = rest.split_first() else {
                return;
            };
            self.take(*byte);
            rest = behind;
        }
    }

    fn take(&mut self, byte: u8) {
        if self.is_escaped {
            self.is_escaped = false;
            return;
        }
        match byte {
            b'"' => self.is_in_string = !self.is_in_string,
            b'\\' => self.is_escaped = self.is_in_string,
            b',' | b'[' | b'{' if !self.is_in_string => {
                self.values = self.values.saturating_add(1);
            }
            _ => {}
        }
    }

    /// Whether the line has more values than a line may have.
    pub fn is_above(&self) -> bool
        ensures { result ≡ nat_lt 1000 self.now.values }
    {
        self.values > MAX_VALUES
    }
}
