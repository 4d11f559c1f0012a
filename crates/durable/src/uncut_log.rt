//! A log's file before anything of it is cut.

ghost use Rattle.std.specs.Prelude.{◌≡◌, ◌&&◌, not, is_err, length, IfOk, IfErr};
ghost use Rattle.std.proofs.Props.{props};
ghost use Rattle.durable.specs.inside.Props.{whole-prop};
ghost use Rattle.durable.specs.Lines.{lines, IsEnd, is_spoiled, first_zero};
ghost use Rattle.durable.specs.Log.{opened, IsUncut};

use crate::host::Host;
use crate::lines::{Found, spoiled_at, whole_lines};
use crate::lost::Lost;

/// A log's file that was opened and read, and is as it was.
#[derive(Drop)]
pub struct UncutLog<H: Host> {
    pub host: H,
    /// Its whole lines.
    pub found: Found,
    /// How long it is.
    pub len: u64,
    ghost is: { IsUncut H.calls host found.count found.end len } by { Prim.hlevel (props, whole-prop) },
}

/// A whole line stands behind a zero byte, which is the first.
#[derive(Clone, Copy, Debug, PartialEq, Eq)]
pub struct Spoiled {
    pub place: u64,
}

impl<H: Host> UncutLog<H> {
    /// Of a file that was opened with these bytes. Refused if a whole line stands behind a zero byte, and may not be cut.
    pub fn read(host: H, bytes: &[u8], may_cut: bool) -> Result<UncutLog<H>, Lost<Spoiled, H>>
        requires { H.calls host ≡ opened bytes.now }

        ensures refused { is_err result ≡ (is_spoiled bytes.now && not may_cut) }
        ensures place { IfErr result (λ lost. lost.fault.place ≡ first_zero bytes.now) }
        ensures same { IfErr result (λ lost. lost.host ≡ host) }
        ensures host { IfOk result (λ log. log.host ≡ host) }
        ensures len { IfOk result (λ log. log.len ≡ length bytes.now) }
        ensures count { IfOk result (λ log. log.found.count ≡ length (lines bytes.now)) }
        ensures end { IfOk result (λ log. IsEnd bytes.now log.found.end) }
    {
        if !may_cut {
            if let Some(place) = spoiled_at(bytes) {
                return Err(Lost {
                    fault: Spoiled { place },
                    host,
                });
            }
        }
        Ok(UncutLog {
            host,
            found: whole_lines(bytes),
            len: bytes.len() as u64,
        })
    }
}
