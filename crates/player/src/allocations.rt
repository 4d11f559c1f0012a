//! The library under the program, which counts allocations and refuses some (`tests/refusals/shim.c`). A program has no
//! other door to it than the environment: it answers the look-up of these names, which takes no memory.

use std::alloc::{AllocError, Global};
use std::rt::Env;
use std::str;

/// From now on allocations count, until `OFF`.
const ON: &str = "REFUSALS_ON";

/// No more do. The answer is how many were refused since `ON`.
const OFF: &str = "REFUSALS_OFF";

/// Has the library refuse the allocation of this number, from 1, and so many in all: whether there is such a library.
pub fn refuse<R: Env>(rt: &R, alloc: Global, first: u64, count: u64) -> Result<bool, AllocError> {
    let name = format!(in alloc; "REFUSE_{first}_{count}")?;
    Ok(ask(rt, name.as_str()).is_some())
}

/// Counts, if that is asked for.
pub fn begin<R: Env>(rt: &R, is_counted: bool) {
    if is_counted {
        ask(rt, ON);
    }
}

/// Counts no more: how many allocations were refused since `begin`; none where there is no library.
pub fn end<R: Env>(rt: &R) -> u64 {
    ask(rt, OFF).unwrap_or(0)
}

/// The number that a name has in the environment.
fn ask<R: Env>(rt: &R, name: &str) -> Option<u64> {
    let mut buffer = [0; 20];
    let length = rt.var(name, &mut buffer).ok()?;
    let text = str::from_utf8(buffer.get(..length)?).ok()?;
    text.parse().ok()
}
