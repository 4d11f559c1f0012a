//! Lists that only grow.

ghost use Rattle.std.specs.Prelude.{◌≡◌, ◌<◌, OnOk, vec_capacity, vec_len};

use std::alloc::AllocError;

/// The fewest places that are asked for.
const LEAST: usize = 16;

/// Room for one more. Where there is none the list gets an eighth more, and not twice as much: at most a ninth of it is
/// empty then, but for so many places.
pub(crate) fn reserve_one<T>(list: &mut Vec<T>) -> Result<(), AllocError>
    ensures items { list.new.items ≡ list.old.items }
    ensures room { OnOk result (vec_len list.new < vec_capacity list.new) }
{
    if list.len() < list.capacity() {
        return Ok(());
    }
    list.reserve_exact(list.len() / 8 + LEAST)
}
