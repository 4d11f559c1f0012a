//! The order of ids.

ghost use Rattle.std.specs.Prelude.{◌≡◌, ◌≤◌, ◌+◌};
ghost use Rattle.std.specs.Cmp.Lexicographic.{slice_cmp};
ghost use Rattle.std.specs.Ordering.{nat_cmp};
ghost use Rattle.hash.specs.inside.Order.{word_at};

use std::cmp::Ordering;

/// The order of these bytes, of which eight are compared at once.
pub(crate) fn order(a: &[u8; 32], b: &[u8; 32]) -> Ordering
    ensures { result ≡ slice_cmp nat_cmp a.now b.now }
{
    let (x, y) = (word(a, 0), word(b, 0));
    if x != y {
        return x.cmp(&y);
    }
    let (x, y) = (word(a, 8), word(b, 8));
    if x != y {
        return x.cmp(&y);
    }
    let (x, y) = (word(a, 16), word(b, 16));
    if x != y {
        return x.cmp(&y);
    }
    word(a, 24).cmp(&word(b, 24))
}

/// The eight bytes from a place on as a number, the first the greatest.
fn word(bytes: &[u8; 32], at: usize) -> u64
    requires { at + 8 ≤ 32 }
    ensures { result ≡ word_at at bytes.now }
{
    u64::from_be_bytes([
        bytes[at],
        bytes[at + 1],
        bytes[at + 2],
        bytes[at + 3],
        bytes[at + 4],
        bytes[at + 5],
        bytes[at + 6],
        bytes[at + 7],
    ])
}
