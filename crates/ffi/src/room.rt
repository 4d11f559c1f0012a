//! The room that C passes for what is reported.

ghost use Rattle.std.specs.Prelude.{◌≡◌, ◌≤◌, ◌++◌, length, drop};
ghost use Rattle.ffi.specs.Room.{IsFilled};

use crate::answers::{DONE, TOO_SMALL};

/// Puts these at the front of the room.
pub(crate) fn put<T: Copy>(found: &[T], room: &mut [T])
    requires { length found.now ≤ length room.old }
    ensures { room.new ≡ found.now ++ drop (length found.now) room.old }
{
    room[..found.len()].copy_from_slice(found);
}

/// Puts these at the front of the room, where they fit.
pub(crate) fn fill<T: Copy>(found: &[T], room: &mut [T]) -> u32
    ensures { IsFilled found.now room.old room.new result }
{
    if found.len() > room.len() {
        return TOO_SMALL;
    }
    put(found, room);
    DONE
}
