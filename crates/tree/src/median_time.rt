//! Median times past.

ghost use Rattle.std.specs.Prelude.{◌≡◌, ◌<◌, ◌∷◌, length, map, take};
ghost use Rattle.locks.specs.MedianTime.{median_of};
ghost use Rattle.tree.specs.Branches.{blocks_at, branch};
ghost use Rattle.tree.specs.MedianTime.{time_of};
ghost use Rattle.tree.specs.Names.{names};
ghost use Rattle.tree.specs.Nodes.{blocks_of};
ghost use Rattle.tree.specs.inside.Nodes.{AreNodes};

use crate::block_index::BlockIndex;
use locks::{MEDIAN_TIME_SPAN, median};

/// The median time past of a new block of this time on this parent (Bitcoin Core's `GetMedianTimePast`).
pub(crate) fn median_on(nodes: &[BlockIndex], parent: usize, time: u32) -> u32
    requires nodes { AreNodes (blocks_of nodes.now) nodes.now }
    requires kept { parent < length nodes.now }
    ensures { let t = blocks_of nodes.now in result ≡
        median_of (take 11 (time ∷ map time_of (blocks_at names t (branch t parent)))) }
{
    let mut times = [time; MEDIAN_TIME_SPAN];
    let mut next = parent;
    for count in 1..MEDIAN_TIME_SPAN {
        times[count] = nodes[next].block.time();
        if next == 0 {
            return median(&times[..count + 1]);
        }
        next = nodes[next].parent;
    }
    median(&times)
}
