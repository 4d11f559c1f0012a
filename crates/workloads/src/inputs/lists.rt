//! Lists that grow. What a workload does with them has no promise, so nothing is said here of what is in them.
//!
//! What is put into a list is mostly what a call made, and its failure is handed on here. So a body that makes a list
//! has one early return for an item and not two, each of which would drop all that the body owns.

use crate::inputs::fault::InputsFault;
use std::alloc::Global;

/// A list of one item, where it was made.
pub fn one<T: Drop>(alloc: Global, item: Result<T, InputsFault>) -> Result<Vec<T>, InputsFault> {
    let mut list = Vec::new(alloc);
    put_made(&mut list, item)?;
    Ok(list)
}

/// A list of these items.
pub fn copied<T: Copy>(alloc: Global, items: &[T]) -> Result<Vec<T>, InputsFault> {
    Ok(Vec::from_slice(alloc, items)?)
}

/// Puts an item behind others.
pub fn put<T: Drop>(list: &mut Vec<T>, item: T) -> Result<(), InputsFault> {
    list.push(item)?;
    Ok(())
}

/// Puts an item behind others, where it was made.
pub fn put_made<T: Drop>(
    list: &mut Vec<T>,
    item: Result<T, InputsFault>,
) -> Result<(), InputsFault> {
    put(list, item?)
}

/// Puts an item before others, where it was made.
pub fn put_first<T: Drop>(
    mut list: Vec<T>,
    item: Result<T, InputsFault>,
) -> Result<Vec<T>, InputsFault> {
    list.insert(0, item?)?;
    Ok(list)
}

/// Puts bytes behind others.
pub fn put_bytes(list: &mut Vec<u8>, bytes: &[u8]) -> Result<(), InputsFault> {
    list.extend_from_slice(bytes)?;
    Ok(())
}

/// Puts a byte so often behind others.
pub fn put_times(list: &mut Vec<u8>, byte: u8, times: usize) -> Result<(), InputsFault> {
    list.resize(list.len().saturating_add(times), byte)?;
    Ok(())
}
