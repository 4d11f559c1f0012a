//! Which places a claim takes.

ghost use Rattle.std.specs.Prelude.{◌≡◌, ◌≤◌};
ghost use Rattle.queue.specs.inside.ClaimedPlaces.{begin_of, claims_in, wide};

/// How many places a claim takes while many are left: each claim moves the words' cache line to another processor.
const WIDE: usize = 8;

/// How many of the last places, or some more, are claimed one by one, so that the workers end together, and as many jobs
/// as workers are run by one each.
const NARROW: usize = 256;

/// How many claims take several places. They are the first.
fn wide(count: usize) -> usize
    ensures { result ≡ wide count }
{
    count.saturating_sub(NARROW) / WIDE
}

/// How many claims take all places.
pub(crate) fn claims_in(count: usize) -> usize
    ensures { result ≡ claims_in count }
{
    count - (WIDE - 1) * wide(count)
}

/// The first place of a claim, and behind the last claim how many there are.
pub(crate) fn begin_of(count: usize, claim: usize) -> usize
    requires { claim ≤ claims_in count }
    ensures { result ≡ begin_of count claim }
{
    let wide = wide(count);
    if claim < wide {
        return WIDE * claim;
    }
    claim + (WIDE - 1) * wide
}
