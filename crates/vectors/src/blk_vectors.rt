//! Blk files read byte by byte, by a source whose read fails, and what memory a block takes.

use block::{BlkFault, BlkReader, GENESIS, ReadFailed, SliceSource, Source};
use std::alloc::{AllocError, Global};
use std::test::*;

/// The head of the genesis block's record: the magic, and its length of 285 bytes.
const HEAD: [u8; 8] = [0xfa, 0xbf, 0xb5, 0xda, 0x1d, 0x01, 0x00, 0x00];

/// A source that gives at most one byte at each read.
#[derive(Drop)]
struct ByteByByte<S> {
    inner: S,
}

impl<S: Source> Source for ByteByByte<S> {
    ghost to_come = { λ source. S.to_come source.inner };

    ghost failed = { λ source. S.failed source.inner };

    fn read(&mut self, buffer: &mut [u8]) -> Result<usize, ReadFailed> {
        let room = buffer.len().min(1);
        self.inner.read(&mut buffer[..room])
    }

    fn append(&mut self, bytes: &mut Vec<u8>, want: usize) -> Result<bool, BlkFault> {
        let whole = bytes.len() + want;
        while bytes.len() < whole {
            if !self.inner.append(bytes, 1)? {
                return Ok(false);
            }
        }
        Ok(true)
    }

    ghost countable = { λ source. S.countable source.inner };
}

/// A source of which one read fails, after `left` bytes.
#[derive(Drop)]
struct FailsOnce<S> {
    inner: S,
    left: usize,
    has_failed: bool,
}

impl<S: Source> Source for FailsOnce<S> {
    ghost use Rattle.std.specs.Prelude.{◌+◌, if◌then◌else◌};

    ghost to_come = { λ source. S.to_come source.inner };

    ghost failed = { λ source. S.failed source.inner + (if source.has_failed then 1 else 0) };

    fn read(&mut self, buffer: &mut [u8]) -> Result<usize, ReadFailed> {
        if self.has_failed {
            return self.inner.read(buffer);
        }
        if self.left == 0 {
            self.has_failed = true;
            return Err(ReadFailed);
        }
        let room = buffer.len().min(self.left);
        let count = self.inner.read(&mut buffer[..room])?;
        self.left -= count;
        Ok(count)
    }

    fn append(&mut self, bytes: &mut Vec<u8>, want: usize) -> Result<bool, BlkFault> {
        if self.has_failed {
            return self.inner.append(bytes, want);
        }
        let room = want.min(self.left);
        let all = self.inner.append(bytes, room)?;
        self.left -= room;
        if room < want {
            self.has_failed = true;
            return Err(BlkFault::Read);
        }
        Ok(all)
    }

    ghost countable = { λ source. S.countable source.inner };
}

/// The genesis block's record, and these bytes after it.
fn record(alloc: Global, after: &[u8]) -> Result<Vec<u8>, AllocError> {
    let mut file = Vec::new(alloc);
    for part in [HEAD.as_slice(), GENESIS.as_slice(), after] {
        put(&mut file, part)?;
    }
    Ok(file)
}

fn put(file: &mut Vec<u8>, part: &[u8]) -> Result<(), AllocError> {
    file.extend_from_slice(part)
}

#[test]
fn records_follow_byte_by_byte(rt: HostRuntime) -> Result<(), Fail> {
    let more = record(rt.alloc(), &[0, 0, 0, 0, 0, 0, 0, 0, 0])?;
    let file = record(rt.alloc(), &more)?;
    let inner = SliceSource::new(&file);
    let mut reader = BlkReader::new(rt.alloc(), ByteByByte { inner });
    for _ in 0..2 {
        let block = reader.next()?.ok_or("a block")?;
        assert!(rt; block.as_slice() == GENESIS.as_slice());
    }
    assert!(rt; reader.next()?.is_none());
    Ok(())
}

#[test]
fn a_failed_read_stops_the_reader(rt: HostRuntime) -> Result<(), Fail> {
    let file = record(rt.alloc(), &[])?;
    for left in 0..293 {
        let source = FailsOnce {
            inner: SliceSource::new(&file),
            left,
            has_failed: false,
        };
        let mut reader = BlkReader::new(rt.alloc(), source);
        let faults = [reader.next().err(), reader.next().err()];
        assert!(rt;
            faults == [Some(BlkFault::Read), Some(BlkFault::Stopped)],
            "{left}: {faults:?}"
        );
    }
    Ok(())
}

/// A file of one record: this head, and after it so many bytes.
fn file_of(alloc: Global, head: &[u8], len: usize) -> Result<Vec<u8>, Fail> {
    let mut file = Vec::from_slice(alloc, head)?;
    file.resize(head.len().saturating_add(len), 0x5a)?;
    Ok(file)
}

/// A block that comes in two pieces has room for no third.
#[test]
fn a_block_has_room_for_what_has_come(rt: HostRuntime) -> Result<(), Fail> {
    let head = [0xfa, 0xbf, 0xb5, 0xda, 0x70, 0x11, 1, 0];
    let file = file_of(rt.alloc(), &head, 70_000)?;
    let mut reader = BlkReader::new(rt.alloc(), SliceSource::new(&file));
    let block = reader.next()?.ok_or("a block")?;
    assert!(rt; block.len() == 70_000 && block.capacity() <= 131_072);
    Ok(())
}
