//! Targets, and the bits that spell them in a header.

ghost use Rattle.std.specs.Prelude.{◌≡◌, ◌<◌, ◌≤◌, ◌+◌, ◌*◌, ◌/◌, ◌%◌, ◌^◌, ◌==◌, not, nat_le};
ghost use Rattle.ffi.specs.Bits.{IsCompact, IsSize, compact, front, is_negative, number, overflows, packed, scaled, target};
ghost use Rattle.ffi.specs.Refusals.{bit};

use crate::shown::{Uint256, bit};

/// The sign's bit.
const SIGN: u32 = 0x80_0000;

/// The target that bits spell, its lowest 256 bits alone, and 1 for each of its faults.
#[unsafe(no_mangle)]
pub extern "C" fn ffi_read_bits(
    bits: u32,
    found: &mut Uint256,
    negative: &mut u32,
    overflow: &mut u32,
)
    ensures value { number found.new.bytes ≡ target bits }
    ensures negative { negative.new ≡ bit (is_negative bits) }
    ensures overflow { overflow.new ≡ bit (overflows bits) }
{
    let read = target_of(bits);
    *negative = bit(read.negative);
    *overflow = bit(read.overflow);
    let bytes = read.bytes;
    found.bytes = bytes;
}

/// The bits of a target, which lose what is below its three highest bytes. The sign is set where the second number isn't 0.
#[unsafe(no_mangle)]
pub extern "C" fn ffi_write_bits(value: &Uint256, negative: u32) -> u32
    ensures { IsCompact (number value.now.bytes) (not (negative == 0)) result }
{
    let bytes = value.bytes;
    bits_of(negative != 0, &leading_of(&bytes))
}

/// What bits spell: the lowest 256 bits of a number, and its faults.
#[derive(Drop)]
pub(crate) struct Target {
    pub(crate) bytes: [u8; 32],
    pub(crate) negative: bool,
    pub(crate) overflow: bool,
}

pub(crate) fn target_of(bits: u32) -> Target
    ensures value { number result.bytes ≡ target bits }
    ensures negative { result.negative ≡ is_negative bits }
    ensures overflow { result.overflow ≡ overflows bits }
{
    let size = (bits >> 24) as usize;
    let word = bits % SIGN;
    Target {
        bytes: digits(size, word),
        negative: !is_nought(size, word) && bits % (2 * SIGN) >= SIGN,
        overflow: is_above(size, word),
    }
}

/// The lowest 256 bits of the number of so many bytes whose three highest are a word.
fn digits(size: usize, word: u32) -> [u8; 32]
    requires size { size < 256 }
    requires word { word < 2 ^ 23 }
    ensures { number result ≡ scaled size word % 2 ^ 256 }
{
    let mut bytes = [0; 32];
    for place in 0..32 {
        bytes[place] = digit(size, word, place);
    }
    bytes
}

/// The byte of that number at a place.
fn digit(size: usize, word: u32, place: usize) -> u8
    requires size { size < 256 }
    requires word { word < 2 ^ 23 }
    requires place { place < 32 }
    ensures { result ≡ scaled size word / 256 ^ place % 256 }
{
    let behind = place + 3;
    if behind < size {
        return 0;
    }
    match behind - size {
        0 => (word % 256) as u8,
        1 => ((word >> 8) % 256) as u8,
        2 => (word >> 16) as u8,
        _ => 0,
    }
}

/// Whether that number is 0.
fn is_nought(size: usize, word: u32) -> bool
    requires size { size < 256 }
    requires word { word < 2 ^ 23 }
    ensures { result ≡ (scaled size word == 0) }
{
    match size {
        0 => true,
        1 => word >> 16 == 0,
        2 => word >> 8 == 0,
        _ => word == 0,
    }
}

/// Whether that number has more than 256 bits.
fn is_above(size: usize, word: u32) -> bool
    requires size { size < 256 }
    requires word { word < 2 ^ 23 }
    ensures { result ≡ nat_le (2 ^ 256) (scaled size word) }
{
    match size {
        0..=32 => false,
        33 => word > 0xffff,
        34 => word > 0xff,
        _ => word > 0,
    }
}

/// How many bytes a number has, and the three highest of them.
#[derive(Drop)]
struct Leading {
    size: u32,
    word: u32,
}

fn leading_of(bytes: &[u8; 32]) -> Leading
    ensures size { IsSize (number bytes.now) result.size }
    ensures word { result.word ≡ front result.size (number bytes.now) }
    ensures within { result.size ≤ 32 }
    ensures below { result.word < 2 ^ 24 }
{
    let mut found = Leading { size: 0, word: 0 };
    let mut window = 0;
    for place in 0..32 {
        window = moved(window, bytes[place]);
        if bytes[place] != 0 {
            found.size = place as u32 + 1;
            found.word = window;
        }
    }
    found
}

/// The three highest bytes of a number that has one byte more.
fn moved(window: u32, byte: u8) -> u32
    requires { window < 2 ^ 24 }
    ensures { result ≡ (window + byte * 2 ^ 24) / 256 }
{
    (window >> 8) + (u32::from(byte) << 16)
}

fn bits_of(negative: bool, found: &Leading) -> u32
    requires size { found.now.size ≤ 32 }
    requires word { found.now.word < 2 ^ 24 }
    ensures { result ≡ compact negative found.now.size found.now.word }
{
    if found.word < SIGN {
        packed(negative, found.size, found.word)
    } else {
        packed(negative, found.size + 1, found.word >> 8)
    }
}

fn packed(negative: bool, size: u32, word: u32) -> u32
    requires size { size ≤ 33 }
    requires word { word < 2 ^ 23 }
    ensures { result ≡ packed negative size word }
{
    if negative && word != 0 {
        (size << 24) + SIGN + word
    } else {
        (size << 24) + word
    }
}
