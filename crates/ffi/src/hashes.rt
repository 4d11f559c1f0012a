//! Hashes, and how ids are printed.

ghost use Rattle.std.specs.Prelude.{◌≡◌};
ghost use Rattle.hash.specs.Double.{double_sha};
ghost use Rattle.hash.specs.Id.{hex_of_id};
ghost use Rattle.hash.specs.KeyHash.{hash160};
ghost use Rattle.ripemd.specs.Ripemd160.{ripemd160};
ghost use Rattle.sha1.specs.Sha1.{sha1};
ghost use Rattle.sha2.specs.Sha256.{sha256};
ghost use Rattle.ffi.specs.Answers.{id_of};
ghost use Rattle.ffi.specs.Hashes.{IsIdRead};

use crate::answers::{DONE, NONE, Name};
use crate::shown::{Digits, KeyName};
use hash::{Id, double_sha, hash160};
use sha1::Sha1;
use sha2::{Digest, Sha256};

#[unsafe(no_mangle)]
pub extern "C" fn ffi_sha1(bytes: &[u8], found: &mut KeyName)
    ensures { found.new.bytes ≡ sha1 bytes.now }
{
    let digest = Sha1::digest(bytes);
    found.bytes = digest;
}

#[unsafe(no_mangle)]
pub extern "C" fn ffi_sha256(bytes: &[u8], found: &mut Name)
    ensures { found.new.bytes ≡ sha256 bytes.now }
{
    let digest = Sha256::digest(bytes);
    found.bytes = digest;
}

#[unsafe(no_mangle)]
pub extern "C" fn ffi_ripemd160(bytes: &[u8], found: &mut KeyName)
    ensures { found.new.bytes ≡ ripemd160 bytes.now }
{
    let digest = ripemd::digest(bytes);
    found.bytes = digest;
}

#[unsafe(no_mangle)]
pub extern "C" fn ffi_hash160(bytes: &[u8], found: &mut KeyName)
    ensures { found.new.bytes ≡ hash160 bytes.now }
{
    let digest = hash160(bytes);
    found.bytes = digest;
}

#[unsafe(no_mangle)]
pub extern "C" fn ffi_double_sha(bytes: &[u8], found: &mut Name)
    ensures { found.new.bytes ≡ double_sha bytes.now }
{
    let digest = double_sha(bytes);
    found.bytes = digest;
}

/// An id's digits, as it is printed.
#[unsafe(no_mangle)]
pub extern "C" fn ffi_id_show(id: &Name, digits: &mut Digits)
    ensures { digits.new.bytes ≡ hex_of_id (id_of id.now) }
{
    let bytes = id.bytes;
    let shown = Id(bytes).show();
    digits.bytes = shown;
}

/// The id that is printed so, if these are 64 digits.
#[unsafe(no_mangle)]
pub extern "C" fn ffi_id_read(text: &[u8], id: &mut Name) -> u32
    ensures { IsIdRead text.now id.old id.new result }
{
    match Id::read(text) {
        None => NONE,
        Some(found) => {
            let bytes = found.0;
            id.bytes = bytes;
            DONE
        }
    }
}
