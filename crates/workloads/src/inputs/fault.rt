//! Why inputs can't be made.

use std::alloc::{AllocError, AllocFailed};
use wire::Memory;

/// Why inputs can't be made.
#[derive(Drop)]
pub enum InputsFault {
    Memory,
    /// More coins are asked for than the first hundred coinbases are spent for, which is two million.
    TooManyCoins,
}

impl From<Memory> for InputsFault {
    fn from(_fault: Memory) -> Self {
        InputsFault::Memory
    }
}

impl From<AllocError> for InputsFault {
    fn from(_error: AllocError) -> Self {
        InputsFault::Memory
    }
}

impl<T: Drop> From<AllocFailed<T>> for InputsFault {
    fn from(_error: AllocFailed<T>) -> Self {
        InputsFault::Memory
    }
}
