//! What decides which of two blocks is the better one.

ghost use Rattle.std.specs.Prelude.{◌≡◌, ◌&&◌, ◌||◌, ◌==◌, nat_lt};

/// What decides which of two blocks is the better one (Bitcoin Core's `CBlockIndexWorkComparator`).
#[derive(Clone, Copy, Debug)]
pub(crate) struct Standing {
    pub(crate) height: usize,
    pub(crate) rank: usize,
    pub(crate) place: usize,
}

impl Standing {
    /// Higher; or as high and of a higher rank; or as high, of the same rank, and earlier.
    pub(crate) fn is_above(&self, other: &Standing) -> bool
        ensures { result ≡ (nat_lt other.now.height self.now.height ||
            ((self.now.height == other.now.height) &&
            (nat_lt other.now.rank self.now.rank ||
            ((self.now.rank == other.now.rank) && nat_lt self.now.place other.now.place)))) }
    {
        self.height > other.height
            || (self.height == other.height
                && (self.rank > other.rank
                    || (self.rank == other.rank && self.place < other.place)))
    }
}
