//! The work of a block, by its header's bits.

ghost use Rattle.std.specs.Prelude.{◌≡◌};
ghost use Rattle.ffi.specs.Bits.{number};
ghost use Rattle.ffi.specs.Work.{work};

use crate::bits::target_of;
use crate::division::{Wide, share};
use crate::shown::Uint256;

/// How many hashes it takes on average to meet the target of these bits, 0 where it is 0 or has a fault.
#[unsafe(no_mangle)]
pub extern "C" fn ffi_work(bits: u32, found: &mut Uint256)
    ensures { number found.new.bytes ≡ work bits }
{
    let bytes = work_of(bits);
    found.bytes = bytes;
}

fn work_of(bits: u32) -> [u8; 32]
    ensures { number result ≡ work bits }
{
    let target = target_of(bits);
    let value = Wide::of_bytes(&target.bytes);
    if target.negative || target.overflow || value.is_zero() {
        return [0; 32];
    }
    share(value).bytes()
}
