//! What a seat has seen, to be told to another.

ghost use Rattle.std.specs.Prelude.{◌≡◌, length};

use std::marker::{Model, PhantomData};
use view::Naming;

/// What a seat has seen of the history. It may go to another thread, through a channel or a lock, whose seat is told it.
#[derive(Drop)]
pub struct Note<J: Naming> {
    pub(crate) seen: view::SeenHistory,
    pub(crate) of: PhantomData<J>,
}

impl<J: Naming> Model for Note<J> {
    ghost use Rattle.std.specs.Prelude.{◌≡◌};
    ghost use Rattle.std.specs.Coded.{codes};
    ghost use Rattle.std.specs.FinSet as set;
    ghost use Rattle.signatures.specs.Triple.{triple_cmp, coded_triple};
    ghost use Rattle.view.specs.ViewState.{IsLegal};
    ghost use Rattle.node.specs.Pass.{Heard};

    ghost Value = { Heard };

    ghost coded = { Prim.hlevel (codes, set.code {R = triple_cmp} coded_triple) };

    ghost view = { λ n. record { origin = J.origin; seen = n.seen.entries } };

    ghost invariant = { λ n. (n.seen.book ≡ J.origin.book) × IsLegal J.origin n.seen.entries };
}

impl<J: Naming> Note<J> {
    /// How many entries it has.
    pub fn len(&self) -> u64
        ensures { result ≡ length self.now.seen }
    {
        self.seen.len()
    }
}
