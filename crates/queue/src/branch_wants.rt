//! What several blocks of a branch want, found out in one round.

ghost use Rattle.std.specs.Prelude.{IfSome};
ghost use Rattle.queue.specs.Jobs.{told_by};
ghost use Rattle.queue.specs.FirstAnswer.{AreOfBoth};

use crate::no_answer::Undecided;

/// How many signatures suffice for one round: those of a block are told all, and no further block is looked at.
pub const MAX_WANTS: usize = 65_536;

/// What two stops tell, one behind the other. Without memory for that neither is told.
pub fn joined(first: Undecided, other: Undecided) -> Undecided
    ensures { IfSome (told_by result) (AreOfBoth (told_by first) (told_by other)) }
{
    match (first, other) {
        (Undecided::Unknown(mut wants), Undecided::Unknown(mut others)) => {
            match wants.append(&mut others) {
                Ok(()) => Undecided::Unknown(wants),
                Err(_) => Undecided::Memory,
            }
        }
        _ => Undecided::Memory,
    }
}

/// Whether a stop tells enough signatures for one round; also out of memory.
pub fn are_enough(stop: &Undecided) -> bool {
    match stop {
        Undecided::Memory => true,
        Undecided::Unknown(wants) => wants.len() >= MAX_WANTS,
    }
}
