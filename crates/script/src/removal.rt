//! Scripts without some of their opcodes.

ghost use Rattle.std.specs.Prelude.{◌≡◌, IfOk};
ghost use Rattle.std.specs.List.{concat};
ghost use Rattle.script.specs.Removal.{bytes_of, is_among, without};

use crate::ops::Ops;
use std::alloc::Global;
use wire::Memory;

/// A script without the opcodes that equal one of the pieces, as the parts of it that stay, in order.
///
/// An opcode is compared with all its bytes, and what a push carries is no opcode. A push that is cut short
/// stays. The parts are slices of the script, one more than opcodes are taken out.
pub fn without<'a>(
    alloc: Global,
    script: &'a [u8],
    pieces: &[&[u8]],
) -> Result<Vec<&'a [u8]>, Memory>
    ensures { IfOk result (λ parts. concat (bytes_of parts.items)
        ≡ without (bytes_of pieces.now) script.now) }
{
    let mut parts = Vec::new(alloc);
    let mut ahead = script;
    let mut kept = 0;
    let mut ops = Ops::new(script);
    while let Some(op) = ops.next() {
        if is_among(op, pieces) {
            let (part, _) = ahead.split_at(kept);
            parts.push(part)?;
            ahead = ops.rest();
            kept = 0;
        } else {
            kept += op.len();
        }
    }
    parts.push(ahead)?;
    Ok(parts)
}

/// Whether an opcode equals one of the pieces.
#[tactic(auto, unfolding(crate::specs::Removal::is_among))]
fn is_among(op: &[u8], pieces: &[&[u8]]) -> bool
    ensures { result ≡ is_among (bytes_of pieces.now) op.now }
{
    pieces.iter().any(|piece| *piece == op)
}
