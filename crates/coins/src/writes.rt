//! What a layer wrote, apart from its base.

use crate::entry::CacheEntry;
use std::collections::BTreeMap;
use std::marker::Model;
use txn::OutPoint;

/// What a layer wrote, taken out of it. A clause sees the list of its entries.
#[derive(Drop)]
pub struct Writes {
    pub(crate) entries: BTreeMap<OutPoint, CacheEntry>,
}

impl Model for Writes {
    ghost use Rattle.coins.specs.Entries.{Entries};

    ghost Value = { Entries };

    ghost view = { λ w. w.entries.entries };
}
