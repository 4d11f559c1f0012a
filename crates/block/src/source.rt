//! Where the bytes of a blk file come from.

ghost use Rattle.std.specs.Prelude.{◌≡◌, ◌⊎◌, ℕ, ◌+◌, ◌<◌, ◌≤◌, ◌^◌, List, [], ◌++◌, length, take, IfOk, IfErr, OnErr, is_ok, if◌then◌else◌, MatchBool};
ghost use Rattle.block.specs.declared.blk_fault.BlkFault.TheVariants.{Read, Memory};
ghost use Rattle.block.specs.Blk.{Remain, CountsFailures};

use crate::blk_fault::BlkFault;
use std::error::Error;
use std::fmt;

/// A read of a source failed.
#[derive(Clone, Copy, Debug, PartialEq, Eq)]
pub struct ReadFailed;

impl fmt::Display for ReadFailed {
    fn fmt<W: fmt::Write>(&self, f: &mut fmt::Formatter<W>) -> fmt::Result {
        f.write_str("a read failed")
    }
}

impl Error for ReadFailed {}

/// What gives bytes in order, some at each read, until its end.
pub trait Source {
    /// The bytes to come.
    ghost to_come: { Self → List ℕ };

    /// How many reads have failed.
    ghost failed: { Self → ℕ };

    /// Puts the first bytes to come into the front of the buffer, and returns how many.
    fn read(&mut self, buffer: &mut [u8]) -> Result<usize, ReadFailed>
        ensures room { IfOk result (λ count. count ≤ length buffer.new) }
        ensures came { IfOk result (λ count. to_come self.old
            ≡ take count buffer.new ++ to_come self.new) }
        // Nothing comes into a buffer that isn't empty only at the end.
        ensures end { IfOk result (λ count. count ≡ 0 → 0 < length buffer.new
            → to_come self.old ≡ []) }
        // Where a read fails, nothing comes.
        ensures kept { OnErr result (to_come self.new ≡ to_come self.old) }
        ensures failed { failed self.new
            ≡ (if is_ok result then failed self.old else failed self.old + 1) }
        // The buffer stays as long.
        ensures len { length buffer.new ≡ length buffer.old };

    /// Puts the next `want` bytes behind those that are there, or all that are to come where those are fewer. Returns
    /// whether they all came.
    fn append(&mut self, bytes: &mut Vec<u8>, want: usize) -> Result<bool, BlkFault>
        requires { length bytes.old.items + want < 2 ^ 64 }
        ensures within { IfOk result (λ all.
            length bytes.new.items ≤ length bytes.old.items + want) }
        ensures all { IfOk result (λ all. MatchBool all
            (length bytes.new.items ≡ length bytes.old.items + want) (to_come self.new ≡ [])) }
        ensures came { IfOk result (λ all. bytes.old.items ++ to_come self.old
            ≡ bytes.new.items ++ to_come self.new) }
        ensures remain { Remain (to_come self.old) (to_come self.new) }
        ensures fault { IfErr result (λ e. (e ≡ Read) ⊎ (e ≡ Memory)) }
        ensures failed { CountsFailures result (failed self.old) (failed self.new) };

    /// A number of 64 bits counts them.
    ghost countable: { (source : Self) → length (to_come source) < 2 ^ 64 };
}

/// Bytes in memory, of which no read fails.
#[derive(Drop)]
pub struct SliceSource<'a> {
    rest: &'a [u8],
    ghost countable: { length rest.now < 2 ^ 64 },
}

impl<'a> SliceSource<'a> {
    /// The source of these bytes.
    pub fn new(bytes: &'a [u8]) -> SliceSource<'a>
        ensures to_come { ⟦<SliceSource<'a> as Source>⟧.to_come result ≡ bytes.now }
        ensures failed { ⟦<SliceSource<'a> as Source>⟧.failed result ≡ 0 }
    {
        SliceSource { rest: bytes }
    }
}

impl<'a> Source for SliceSource<'a> {
    ghost to_come = { λ source. source.rest.now };

    ghost failed = { λ _. 0 };

    fn read(&mut self, buffer: &mut [u8]) -> Result<usize, ReadFailed> {
        let count = self.rest.len().min(buffer.len());
        let (front, rest) = self.rest.split_at(count);
        buffer[..count].copy_from_slice(front);
        self.rest = rest;
        Ok(count)
    }

    /// The bytes are at hand: no room for them has to be filled first.
    fn append(&mut self, bytes: &mut Vec<u8>, want: usize) -> Result<bool, BlkFault> {
        let count = self.rest.len().min(want);
        let (front, rest) = self.rest.split_at(count);
        bytes.extend_from_slice(front)?;
        self.rest = rest;
        Ok(count == want)
    }

    ghost countable = { λ source. source.countable };
}
