//! Medians of times.

ghost use Rattle.std.specs.Prelude.{◌≡◌, ◌≤◌, length};
ghost use Rattle.locks.specs.MedianTime.{IsMedian, median_of};

/// Of so many blocks at most the median time past is taken: a block and its nearest ancestors (Bitcoin Core's
/// `nMedianTimeSpan`).
pub const MEDIAN_TIME_SPAN: usize = 11;

/// The median of the times of a block and of its nearest ancestors, in any order (BIP 113; Bitcoin Core's
/// `GetMedianTimePast`): of an even number of times the later of the two in the middle.
pub fn median(times: &[u32]) -> u32
    requires some { 1 ≤ length times.now }
    requires few { length times.now ≤ 11 }
    ensures middle { IsMedian times.now result }
    ensures value { result ≡ median_of times.now }
{
    let mut space = [0; MEDIAN_TIME_SPAN];
    let sorted = &mut space[..times.len()];
    sorted.copy_from_slice(times);
    sorted.sort_unstable();
    sorted[times.len() / 2]
}
