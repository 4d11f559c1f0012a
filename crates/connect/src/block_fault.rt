//! Why connecting a block ends before its scripts.

ghost use Rattle.std.specs.Prelude.{◌≡◌};

use txn::Reason;
use wire::Memory;

/// A rule is broken, or memory is wanted.
#[derive(Clone, Copy, Debug, PartialEq, Eq)]
pub(crate) enum BlockFault {
    Broken(Reason),
    Memory,
}

impl From<Memory> for BlockFault {
    ghost use Rattle.connect.specs.declared.block_fault.BlockFault.TheVariants as variants;

    ghost from_gives = { λ _ stop. stop ≡ variants.Memory };

    fn from(_fault: Memory) -> BlockFault {
        BlockFault::Memory
    }
}
