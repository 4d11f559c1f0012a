//! Opcodes that hash.

ghost use Rattle.std.specs.Prelude.{◌≡◌, IfOk};
ghost use Rattle.sha1.specs.Sha1.{sha1};
ghost use Rattle.sha2.specs.Sha256.{sha256};
ghost use Rattle.interp.specs.inside.Outcomes.{Gives};
ghost use Rattle.interp.specs.Effects.{digest};
ghost use Rattle.interp.specs.computed.Groups.{hash_of};

use crate::element::Element;
use crate::pile::Pile;
use hash::{double_sha, hash160};
use sha2::Digest;
use std::alloc::Global;
use wire::Memory;

/// Opcodes that put a digest in place of the top.
#[derive(Clone, Copy, Debug, PartialEq, Eq)]
pub enum Hash {
    Ripemd160,
    Sha1,
    Sha256,
    Hash160,
    DoubleSha256,
}

fn sha1(bytes: &[u8]) -> [u8; 20]
    ensures { result ≡ sha1 bytes.now }
{
    sha1::Sha1::digest(bytes)
}

pub fn sha256(bytes: &[u8]) -> [u8; 32]
    ensures { result ≡ sha256 bytes.now }
{
    sha2::Sha256::digest(bytes)
}

/// The digest of some bytes.
fn digest_of(alloc: Global, bytes: &[u8], by: Hash) -> Result<Element, Memory>
    ensures { IfOk result (λ digest. digest ≡ hash_of by bytes.now) }
{
    match by {
        Hash::Ripemd160 => Element::from_slice(alloc, &ripemd::digest(bytes)),
        Hash::Sha1 => Element::from_slice(alloc, &sha1(bytes)),
        Hash::Sha256 => Element::from_slice(alloc, &sha256(bytes)),
        Hash::Hash160 => Element::from_slice(alloc, &hash160(bytes)),
        Hash::DoubleSha256 => Element::from_slice(alloc, &double_sha(bytes)),
    }
}

/// Puts a digest in place of the top, if there is one.
#[inline(never)]
pub fn digest_top(alloc: Global, stack: &mut Pile<Element>, by: Hash) -> Result<bool, Memory>
    ensures { IfOk result (λ there. Gives there
        (digest (hash_of by) stack.old) stack.new) }
{
    if stack.len() == 0 {
        return Ok(false);
    }
    let top = stack.pop();
    stack.push(digest_of(alloc, top.as_slice(), by)?)?;
    Ok(true)
}
