//! Blk files, record by record.

ghost use Rattle.std.specs.Prelude.{◌≡◌, ◌≢◌, ◌⊎◌, ◌+◌, ◌<◌, ◌≤◌, ◌^◌, ℕ, List, [], ◌++◌, length, IfOk, IfErr, IfSome, IfNone, OnOk, OnErr, Ok, Err, None, MatchOption, MatchResult};
ghost use Rattle.wire.specs.Numbers.{limit};
ghost use Rattle.block.specs.declared.blk_fault.BlkFault.{BlkFault};
ghost use Rattle.block.specs.declared.blk_fault.BlkFault.TheVariants as faults;
ghost use Rattle.block.specs.declared.blk.Stage.TheVariants as stages;
ghost use Rattle.block.specs.Blk.{magic, head, record_bytes, IsRecord, IsEnd, IsFault, IsOutside, failures, CountsFailures, Remain};

use crate::blk_fault::BlkFault;
use crate::pieces::{ends, fill, take};
use crate::source::Source;
use crate::target::is_zero;
use std::alloc::Global;
use std::marker::Model;
use wire::Cursor;

/// What each of regtest's records begins with (Bitcoin Core's message start).
const MAGIC: [u8; 4] = [0xfa, 0xbf, 0xb5, 0xda];

/// How many bytes come before a record's block: the magic, and the block's length in four.
const HEAD: usize = 8;

/// Whether a reader of a blk file goes on.
#[derive(Clone, Copy, Debug, PartialEq, Eq)]
pub enum Stage {
    /// A record's place is next.
    Reading,
    /// The file has ended.
    Ended,
    /// There was a fault.
    Stopped,
}

/// The length that a record's head says, or none where these bytes don't begin with the magic.
fn block_len(front: &[u8], place: u64) -> Result<Option<usize>, BlkFault>
    requires { length front.now ≤ 8 }
    ensures found { IfOk result (λ found.
        IfSome found (λ len. (len ≤ limit) × (front.now ≡ head len))) }
    // Without the magic, or with a fault, whatever more there is: none where the head is short.
    ensures none { IfOk result (λ found. IfNone found ((more after : List ℕ)
        → (length front.now < 8 → more ≡ []) → front.now ++ more ≢ magic ++ after)) }
    ensures refused { IfErr result (λ e. (more : List ℕ) → (length front.now < 8 → more ≡ [])
        → IsFault place (front.now ++ more) e) }
    ensures failed { IfErr result (λ e. failures e ≡ 0) }
{
    let mut cursor = Cursor::new(front);
    let Ok(magic) = cursor.take(MAGIC.len()) else {
        return Ok(None);
    };
    if magic != MAGIC.as_slice() {
        return Ok(None);
    }
    let Ok(len) = cursor.u32le() else {
        return Err(BlkFault::Cut(place));
    };
    if u64::from(len) > wire::LIMIT {
        return Err(BlkFault::TooLong(place));
    }
    Ok(Some(len as usize))
}

/// Succeeds where zero bytes alone are left, these and those to come.
fn end<R: Source>(source: &mut R, front: &[u8], place: u64) -> Result<(), BlkFault>
    ensures found { OnOk result (IsEnd (front.now ++ R.to_come source.old)
        × (R.to_come source.new ≡ [])) }
    ensures refused { IfErr result (λ e.
        ((e ≡ faults.Foreign place) × (IsEnd (front.now ++ R.to_come source.old) → ⊥))
        ⊎ (e ≡ faults.Read)) }
    ensures remain { Remain (R.to_come source.old) (R.to_come source.new) }
    ensures failed { CountsFailures result (R.failed source.old) (R.failed source.new) }
{
    if !is_zero(front) || !ends(source)? {
        return Err(BlkFault::Foreign(place));
    }
    Ok(())
}

/// The next record's block, or none at the file's end. The place is where the bytes to come begin.
fn next_record<R: Source>(
    alloc: Global,
    source: &mut R,
    place: u64,
) -> Result<Option<Vec<u8>>, BlkFault>
    ensures found { IfOk result (λ found. MatchOption found
        (IsEnd (R.to_come source.old) × (R.to_come source.new ≡ []))
        (λ block. IsRecord block.items (R.to_come source.old) (R.to_come source.new))) }
    ensures refused { IfErr result (λ e. IsFault place (R.to_come source.old) e) }
    ensures remain { Remain (R.to_come source.old) (R.to_come source.new) }
    ensures failed { CountsFailures result (R.failed source.old) (R.failed source.new) }
{
    let mut front = [0; HEAD];
    let count = fill(source, &mut front)?;
    let front = &front[..count];
    let Some(len) = block_len(front, place)? else {
        end(source, front, place)?;
        return Ok(None);
    };
    let block = take(alloc, source, len)?;
    if block.len() < len {
        return Err(BlkFault::Cut(place));
    }
    Ok(Some(block))
}

/// A reader of the blocks of a blk file, in order.
///
/// After a fault it has stopped. A record's memory grows with the bytes that come, whatever length the
/// record says.
#[derive(Drop)]
pub struct BlkReader<R: Source> {
    source: R,
    offset: u64,
    stage: Stage,
    alloc: Global,
}

impl<R: Source> Model for BlkReader<R> {
    ghost use Rattle.std.specs.Prelude.{◌≡◌, ◌+◌, ◌<◌, ◌^◌, [], length};
    ghost use Rattle.block.specs.declared.blk.Stage.TheVariants as stages;
    ghost use Rattle.block.specs.Progress.{Progress};

    ghost Value = { Progress };

    ghost view = { λ r. record {
      offset = r.offset;
      to_come = R.to_come r.source;
      failed = R.failed r.source;
      stage = r.stage;
    } };

    ghost invariant = { λ r. (r.offset + length (R.to_come r.source) < 2 ^ 64)
        × (r.stage ≡ stages.Ended → R.to_come r.source ≡ []) };
}

impl<R: Source> BlkReader<R> {
    /// A reader of what is to come of the source.
    pub fn new(alloc: Global, source: R) -> BlkReader<R>
        ensures { result ≡ record {
          offset = 0;
          to_come = R.to_come source;
          failed = R.failed source;
          stage = stages.Reading;
        } }
    {
        BlkReader {
            source,
            offset: 0,
            stage: Stage::Reading,
            alloc,
        }
    }

    /// The next record's block, or none at the file's end.
    pub fn next(&mut self) -> Result<Option<Vec<u8>>, BlkFault>
        // A block: its record was next, and comes no more.
        ensures block { IfOk result (λ found. IfSome found
            (λ block. IsRecord block.items self.old.to_come self.new.to_come
            × (self.new.offset ≡ self.old.offset + length (record_bytes block.items))
            × (self.new.stage ≡ stages.Reading))) }
        // None: nothing or zero bytes alone were left.
        ensures none { IfOk result (λ found. IfNone found
            (IsEnd self.old.to_come × (self.new.to_come ≡ [])
            × (self.new.offset ≡ self.old.offset) × (self.new.stage ≡ stages.Ended))) }
        // A fault is of the bytes at the record's place, and the reader has stopped.
        ensures refused { IfErr result (λ e. self.old.stage ≡ stages.Reading
            → IsFault self.old.offset self.old.to_come e) }
        // What is at the record's place is what is answered, unless a read fails or memory runs out.
        ensures reads { (block after : List ℕ) → self.old.stage ≡ stages.Reading
            → IsRecord block self.old.to_come after
            → MatchResult result (λ found. MatchOption found
            ⊥ (λ b. (b.items ≡ block) × (self.new.to_come ≡ after))) IsOutside }
        ensures ends { self.old.stage ≡ stages.Reading → IsEnd self.old.to_come
            → MatchResult result (λ found. IfSome found (λ _. ⊥)) IsOutside }
        ensures refuses { (e : BlkFault) → self.old.stage ≡ stages.Reading
            → IsFault self.old.offset self.old.to_come e → (IsOutside e → ⊥)
            → MatchResult result (λ _. ⊥) (λ f. (f ≡ e) ⊎ IsOutside f) }
        ensures stops { OnErr result ((self.new.offset ≡ self.old.offset)
            × (self.new.stage ≡ stages.Stopped)) }
        // Nothing comes of a reader that has stopped, or of one at the end.
        ensures stopped { self.old.stage ≡ stages.Stopped
            → (result ≡ Err faults.Stopped) × (self.new ≡ self.old) }
        ensures ended { self.old.stage ≡ stages.Ended → (result ≡ Ok None) × (self.new ≡ self.old) }
        // Read says that one read of this call failed. Else none did.
        ensures failed { CountsFailures result self.old.failed self.new.failed }
        ensures remain { Remain self.old.to_come self.new.to_come }
    {
        match self.stage {
            Stage::Ended => return Ok(None),
            Stage::Stopped => return Err(BlkFault::Stopped),
            Stage::Reading => {}
        }
        let found = next_record(self.alloc, &mut self.source, self.offset);
        match &found {
            Ok(Some(block)) => self.offset += (HEAD + block.len()) as u64,
            Ok(None) => self.stage = Stage::Ended,
            Err(_) => self.stage = Stage::Stopped,
        }
        found
    }
}
