//! What is copied, and written again.

use block::{GENESIS, read, write};
use std::test::*;

#[test]
fn a_copy_written(rt: HostRuntime) -> Result<(), Fail> {
    let copy = read(rt.alloc(), &GENESIS)?.copy()?;
    let mut out = Vec::new(rt.alloc());
    write(&copy, &mut out)?;
    assert!(rt; out.as_slice() == GENESIS.as_slice());
    Ok(())
}
