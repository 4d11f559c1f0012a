//! Reading from the front of bytes.

ghost use Rattle.std.specs.Prelude.{◌≡◌, ℕ, ◌≤◌, ◌<◌, ◌/◌, min, ◌++◌, List, length, Err, IfOk, IfErr, OnErr, IsOkAnd};
ghost use Rattle.wire.specs.declared.fault.WireFault.{WireFault};
ghost use Rattle.wire.specs.Grammar.{IsBytes, piece, number, signed32, signed64, count};
ghost use Rattle.wire.specs.computed.Reader.{Reads, number_at, i32_at, i64_at, piece_at, compact_at, long_at};

use crate::fault::WireFault;
use byteorder::{ByteOrder, LittleEndian};
use std::marker::Model;

/// The greatest count or length that is read (Bitcoin Core's `MAX_SIZE`).
pub const LIMIT: u64 = 33_554_432;

/// A place in bytes: what is left of them.
///
/// A call that refuses leaves the cursor where it was. No call takes memory.
#[derive(Drop)]
pub struct Cursor<'a> {
    rest: &'a [u8],
}

impl<'a> Model for Cursor<'a> {
    ghost Value = { List ℕ };

    ghost view = { λ c. c.rest.now };
}

impl<'a> Cursor<'a> {
    pub fn new(bytes: &'a [u8]) -> Cursor<'a>
        ensures { result ≡ bytes.now }
    {
        Cursor { rest: bytes }
    }

    /// The bytes that are left.
    pub fn rest(&self) -> &'a [u8]
        ensures rest { result.now ≡ self.now }
        ensures bytes { IsBytes self.now }
    {
        in_range(self.rest)
    }

    /// The room that a list of `count` parts can need, each of at least `least` bytes.
    ///
    /// However great the count, no more parts are left than the bytes have room for.
    pub fn room(&self, count: u64, least: usize) -> usize
        requires { 0 < least }
        ensures { result ≡ min count (length self.now / least) }
    {
        let most = self.rest.len() / least;
        most.min(count as usize)
    }

    /// The next `len` bytes.
    pub fn take(&mut self, len: usize) -> Result<&'a [u8], WireFault>
        ensures found { IfOk result (λ bytes. (length bytes.now ≡ len)
            × (self.old ≡ bytes.now ++ self.new)) }
        ensures refused { IfErr result (λ fault. (piece len).Faulty fault self.old) }
        ensures kept { OnErr result (self.new ≡ self.old) }
        ensures exact { Reads (λ bytes. bytes.now) result self.old self.new
            (piece_at len self.old) }
    {
        if self.rest.len() < len {
            return Err(WireFault::Short);
        }
        let (piece, rest) = self.rest.split_at(len);
        self.rest = rest;
        Ok(piece)
    }

    /// A number in four bytes, the lowest first.
    pub fn u32le(&mut self) -> Result<u32, WireFault>
        ensures found { IfOk result (λ n. (number 4).Lawful n
            × (self.old ≡ (number 4).spell n ++ self.new)) }
        ensures refused { IfErr result (λ fault. (number 4).Faulty fault self.old) }
        ensures kept { OnErr result (self.new ≡ self.old) }
        ensures exact { Reads (λ n. n) result self.old self.new (number_at 4 self.old) }
    {
        let _front = self.rest();
        Ok(LittleEndian::read_u32(self.take(4)?))
    }

    /// A signed number in four bytes, the lowest first, in two's complement.
    pub fn i32le(&mut self) -> Result<i32, WireFault>
        ensures found { IfOk result (λ n. signed32.Lawful n
            × (self.old ≡ signed32.spell n ++ self.new)) }
        ensures refused { IfErr result (λ fault. signed32.Faulty fault self.old) }
        ensures kept { OnErr result (self.new ≡ self.old) }
        ensures exact { Reads (λ n. n) result self.old self.new (i32_at self.old) }
    {
        let _front = self.rest();
        Ok(LittleEndian::read_i32(self.take(4)?))
    }

    /// A signed number in eight bytes, the lowest first, in two's complement.
    pub fn i64le(&mut self) -> Result<i64, WireFault>
        ensures found { IfOk result (λ n. signed64.Lawful n
            × (self.old ≡ signed64.spell n ++ self.new)) }
        ensures refused { IfErr result (λ fault. signed64.Faulty fault self.old) }
        ensures kept { OnErr result (self.new ≡ self.old) }
        ensures exact { Reads (λ n. n) result self.old self.new (i64_at self.old) }
    {
        let _front = self.rest();
        Ok(LittleEndian::read_i64(self.take(8)?))
    }

    /// A count or a length: Bitcoin's CompactSize, in the shortest of its forms.
    pub fn compact(&mut self) -> Result<u64, WireFault>
        // What is read is lawful, and spelled at the front.
        ensures found { IfOk result (λ n. count.Lawful n × (self.old ≡ count.spell n ++ self.new)) }
        // A refusal names a fault that the bytes have.
        ensures refused { IfErr result (λ fault. count.Faulty fault self.old) }
        ensures kept { OnErr result (self.new ≡ self.old) }
        // What is spelled at the front is read.
        ensures reads { (n : ℕ) (rest : List ℕ) → count.Lawful n → self.old ≡ count.spell n ++ rest
            → IsOkAnd result (λ x. x ≡ n) × (self.new ≡ rest) }
        // What has a fault is refused with it.
        ensures refuses { (fault : WireFault) → count.Faulty fault self.old → result ≡ Err fault }
        // The same, as reading from left to right.
        ensures exact { Reads (λ n. n) result self.old self.new (compact_at self.old) }
    {
        let _front = self.rest();
        self.count()
    }

    #[tactic(auto, unfolding(crate::specs::computed::Reader::compact_at, crate::specs::computed::Reader::long_at))]
    fn count(&mut self) -> Result<u64, WireFault>
        ensures { Reads (λ n. n) result self.old self.new (compact_at self.old) }
    {
        let [lead, rest @ ..] = self.rest else {
            return Err(WireFault::Short);
        };
        let mut ahead = Cursor::new(rest);
        let n = match *lead {
            253 => ahead.long(253, 2)?,
            254 => ahead.long(0x1_0000, 4)?,
            255 => ahead.long(0x1_0000_0000, 8)?,
            n => u64::from(n),
        };
        *self = ahead;
        Ok(n)
    }

    /// A count in the long form of `len` bytes, which is for those from `least` on.
    #[tactic(auto, unfolding(crate::specs::computed::Reader::long_at))]
    fn long(&mut self, least: u64, len: usize) -> Result<u64, WireFault>
        requires { (1 ≤ len) × (len ≤ 8) }
        ensures { Reads (λ n. n) result self.old self.new (long_at least len self.old) }
    {
        let mut ahead = Cursor::new(self.rest);
        let n = LittleEndian::read_uint(ahead.take(len)?, len);
        if n < least {
            return Err(WireFault::LongForm);
        }
        if n > LIMIT {
            return Err(WireFault::TooLarge);
        }
        *self = ahead;
        Ok(n)
    }
}

/// The same bytes, of which a proof then knows that each is below 256: of a field's bytes it doesn't.
pub fn in_range(bytes: &[u8]) -> &[u8]
    ensures same { result.now ≡ bytes.now }
    ensures bytes { IsBytes bytes.now }
{
    bytes
}
