//! Merkle roots.

ghost use Rattle.std.specs.Prelude.{◌≡◌, ◌<◌, IfOk, length};
ghost use Rattle.block.specs.Merkle as tree;

use crate::block::Block;
use hash::{Id, finish};
use lanes::pairs;
use sha2::{Digest, Sha256};
use std::alloc::Global;
use txn::witness_ids;
use wire::Memory;

/// The root of the Merkle tree of these ids, and whether two equal ids are paired in it: another list, in
/// which such a pair is repeated, then has this root too (CVE-2012-2459).
///
/// It is computed in place, over one copy of the ids.
pub fn merkle(alloc: Global, ids: &[Id]) -> Result<(Id, bool), Memory>
    ensures root { IfOk result (λ m. m.0 ≡ tree.root ids.now) }
    ensures twin { IfOk result (λ m. m.1 ≡ tree.twin ids.now) }
{
    let mut level = Vec::from_slice(alloc, ids)?;
    let mut twin = false;
    while level.len() > 1 {
        twin |= has_twin(level.as_slice());
        go_up(&mut level);
    }
    let root = last(level.as_slice());
    Ok((root, twin))
}

/// The root of the Merkle tree of a block's ids with witnesses, which its coinbase commits to (BIP 141, Bitcoin Core's
/// `BlockWitnessMerkleRoot`).
pub fn witness_root(alloc: Global, block: &Block) -> Result<Id, Memory>
    ensures { IfOk result (λ root. root ≡ tree.witness_root block.now.txs) }
{
    let ids = witness_ids(alloc, block.txs.as_slice())?;
    let (root, _) = merkle(alloc, ids.as_slice())?;
    Ok(root)
}

/// The root of the highest level.
fn last(level: &[Id]) -> Id
    requires { length level.now < 2 }
    ensures { result ≡ tree.root level.now }
{
    match level {
        [] => Id([0; 32]),
        [root, ..] => *root,
    }
}

/// Double SHA-256 of two ids.
fn pair(left: &Id, right: &Id) -> Id
    ensures { result ≡ tree.pair left.now right.now }
{
    let mut hasher = Sha256::new();
    hasher.update(left.0);
    hasher.update(right.0);
    Id(finish(hasher))
}

/// Whether a pair of this level has equal ids.
fn has_twin(level: &[Id]) -> bool
    ensures { result ≡ tree.has_twin level.now }
{
    for k in 0..level.len() / 2 {
        if level[2 * k] == level[2 * k + 1] {
            return true;
        }
    }
    false
}

/// Puts the level above in the place of this one: its pairs hashed, eight at once, and an odd level's last
/// id with itself.
fn go_up(level: &mut Vec<Id>)
    ensures { level.new.items ≡ tree.next level.old.items }
{
    let len = level.len();
    let half = len / 2;
    pairs(level.as_mut_slice());
    if len % 2 == 0 {
        level.truncate(half);
    } else {
        let last = level[len - 1];
        level[half] = pair(&last, &last);
        level.truncate(half + 1);
    }
}
