//! The request to save.

ghost use Rattle.std.specs.Prelude.{IfOk};
ghost use Rattle.server.specs.inside.Answers.{IsSaveTold};

use crate::board::Board;
use crate::turn::Blank;
use crate::words::Facts;
use node::{Naming, Seat};
use serving::{Answer, Refusal};
use std::alloc::AllocError;
use std::sync::Wait;

/// Answers how many steps are on the disk when the answer goes out, where the history is kept: all that anyone was told
/// of. Else what happened is saved at the end alone.
pub fn saved<J: Naming, R>(
    rt: &R,
    board: &Board<J>,
    facts: &Facts<'_>,
    blank: Blank,
    seat: &mut Seat<'_, J>,
) -> Result<Vec<u8>, AllocError>
where
    R: AllocGlobal + Wait,
    ensures { IfOk result (λ line. IsSaveTold seat.old seat.new blank line.items) }
{
    board.tell_all(rt, seat);
    if !facts.is_kept {
        return blank.refuse(Refusal::NotSaved("datadir"));
    }
    if facts.is_unsynced {
        return blank.refuse(Refusal::NotSaved("no-sync"));
    }
    blank.answer(rt.alloc(), seat.note().len(), Answer::Place)
}
