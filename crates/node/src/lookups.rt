//! A seat's look-up of a block, under the lock: what is published has neither blocks nor undo.

ghost use Rattle.std.specs.Prelude.{◌≡◌, IfOk, IfErr};
ghost use Rattle.node.specs.Calls.{IsReadFault};
ghost use Rattle.node.specs.Told.{undo_in};

use crate::answer::Stamped;
use crate::fault::Fault;
use crate::node::Node;
use crate::published_history::PublishedHistory;
use crate::seat::Seat;
use hash::Id;
use std::sync::Wait;
use undo::BlockUndo;
use view::Naming;

impl<'t, J: Naming> Seat<'t, J> {
    ghost use Rattle.node.specs.Pass.{IsLater, IsOwn, IsRead};

    /// The coins that the block with this id spent, transaction by transaction from the second on, after all that the seat has
    /// then seen (Bitcoin Core's undo data). None where the block isn't active; of genesis an empty list.
    ///
    /// It runs no script. Seat and node are of one [`Node::open`](crate::Node::open).
    pub fn spent<R: Wait>(
        &mut self,
        rt: &R,
        node: &Node<'_, J>,
        id: &Id,
    ) -> Result<Stamped<Option<BlockUndo>>, Fault>
        ensures later { IsLater self.old self.new }
        ensures answer { let coins = undo_in self.old.origin id.now in
            IfOk result (λ r. IsRead self.old self.new coins r.at r.value) }
        ensures own { IsOwn self.new }
        ensures fault { IfErr result (λ fault. IsReadFault self.old self.new fault) }
    {
        let mut history = node.history.lock(rt);
        self.spent_under_lock(rt, &mut history, id)
    }

    /// Looks the block up under the lock, where nobody publishes meanwhile. A step that is owed is published first.
    #[tactic(auto, using(crate::proofs::OwnEntries::own_begins))]
    fn spent_under_lock<R: Wait>(
        &mut self,
        rt: &R,
        history: &mut PublishedHistory<J>,
        id: &Id,
    ) -> Result<Stamped<Option<BlockUndo>>, Fault>
        ensures later { IsLater self.old self.new }
        ensures answer { let coins = undo_in self.old.origin id.now in
            IfOk result (λ r. IsRead self.old self.new coins r.at r.value) }
        ensures own { IsOwn self.new }
        ensures fault { IfErr result (λ fault. IsReadFault self.old self.new fault) }
    {
        let _ = &self.params;
        if !history.publish_pending(rt) {
            return Err(Fault::Memory);
        }
        let value = history.spent(id)?;
        let at = self.see_all(history)?;
        Ok(Stamped { at, value })
    }
}
