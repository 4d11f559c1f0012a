//! The subsidy of a height.

ghost use Rattle.std.specs.Prelude.{◌≡◌, pos};
ghost use Rattle.block.specs.Reward.{subsidy_of};

/// The subsidy of the first blocks, in satoshis.
const FIRST_SUBSIDY: i64 = 50 * 100_000_000;

/// After so many blocks the subsidy is halved: on regtest, 150.
const HALVING_INTERVAL: u32 = 150;

/// The new coins that a block of this height may make, in satoshis (Bitcoin Core's `GetBlockSubsidy`).
pub fn subsidy(height: u32) -> i64
    ensures { result ≡ pos (subsidy_of height) }
{
    let halvings = height / HALVING_INTERVAL;
    if halvings >= 64 {
        return 0;
    }
    FIRST_SUBSIDY >> halvings
}
