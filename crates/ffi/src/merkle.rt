//! The root of the Merkle tree over a list of ids.

ghost use Rattle.std.specs.Prelude.{◌≡◌, IfOk, map};
ghost use Rattle.ffi.specs.Answers.{id_of};
ghost use Rattle.ffi.specs.Merkle.{IsMerkleTold};

use crate::answers::{DONE, MEMORY, Name};
use crate::shown::bit;
use block::merkle;
use hash::Id;
use std::alloc::Global;
use wire::Memory;

/// The root of the Merkle tree of these ids, 32 zero bytes of none, and 1 in `twin` where another list has it too.
#[unsafe(no_mangle)]
pub extern "C" fn ffi_merkle(alloc: Global, ids: &[Name], root: &mut Name, twin: &mut u32) -> u32
    ensures { IsMerkleTold (map id_of ids.now) root.old root.new twin.old twin.new result }
{
    let Ok(ids) = ids_of(alloc, ids) else {
        return MEMORY;
    };
    match merkle(alloc, ids.as_slice()) {
        Err(_) => MEMORY,
        Ok((found, has_twin)) => {
            let bytes = found.0;
            root.bytes = bytes;
            *twin = bit(has_twin);
            DONE
        }
    }
}

fn ids_of(alloc: Global, names: &[Name]) -> Result<Vec<Id>, Memory>
    ensures { IfOk result (λ ids. ids.items ≡ map id_of names.now) }
{
    let mut ids = Vec::new(alloc);
    for name in names {
        let bytes = name.bytes;
        ids.push(Id(bytes))?;
    }
    Ok(ids)
}
