//! A block, kept as its bytes.

ghost use Rattle.std.specs.Prelude.{◌≡◌, ◌∷◌, IfOk, MatchOption, Some, [], None, true};
ghost use Rattle.txn.specs.Identity.{ids_of};
ghost use Rattle.block.specs.BlockOfBytes.{block_of_bytes};
ghost use Rattle.block.specs.StoredBlock.{genesis_alone};

use crate::block::Block;
use crate::bytes::Bytes;
use crate::decode::read;
use crate::fault::ReadFault;
use crate::genesis::{GENESIS_ROOT, GENESIS_TIME};
use crate::header::Header;
use crate::txs::Txs;
use hash::Id;
use std::alloc::Global;
use std::marker::Model;
use txn::ids;
use wire::Memory;

/// A block, kept as the bytes that were submitted, and decoded where it is needed (as Bitcoin Core's
/// `ReadBlockFromDisk`). Its time is at hand. A clause sees the block.
#[derive(Debug, Drop)]
pub struct StoredBlock {
    time: u32,
    /// Whether the id of its only transaction is known: its header's root.
    has_known_id: bool,
    /// Without them it is genesis.
    bytes: Option<Bytes>,
}

impl Model for StoredBlock {
    ghost use Rattle.block.specs.StoredBlock.{block_stored};
    ghost use Rattle.block.specs.declared.block.Block.{Block};
    ghost use Rattle.block.specs.BlockOfBytes.{block_of_bytes};
    ghost use Rattle.std.specs.Prelude.{◌≡◌, ◌∷◌, [], true, IfSome, IsSome};
    ghost use Rattle.txn.specs.Identity.{ids_of};

    ghost Value = { Block };

    ghost view = { λ s. block_stored s.bytes };

    ghost invariant = { λ s. ((block_stored s.bytes).header.time ≡ s.time)
        × IfSome s.bytes (λ bytes. IsSome (block_of_bytes bytes))
        × (s.has_known_id ≡ true →
        ids_of (block_stored s.bytes).txs ≡ (block_stored s.bytes).header.root ∷ []) };
}

impl StoredBlock {
    /// The block of these bytes, which the caller has decoded.
    pub fn of(bytes: Bytes, block: &Block) -> StoredBlock
        requires { block_of_bytes bytes ≡ Some block.now }
        ensures { result ≡ block.now }
    {
        StoredBlock {
            time: block.header.time,
            has_known_id: false,
            bytes: Some(bytes),
        }
    }

    /// The same, whose transactions have these ids. A block that has a coinbase alone isn't hashed again by
    /// `read_with_ids`, since its Merkle root is that one's id.
    pub fn with_ids(bytes: Bytes, block: &Block, ids: &[Id]) -> StoredBlock
        requires block { block_of_bytes bytes ≡ Some block.now }
        requires ids { ids.now ≡ ids_of block.now.txs }
        ensures { result ≡ block.now }
    {
        StoredBlock {
            time: block.header.time,
            has_known_id: is_only_id(ids, &block.header.root),
            bytes: Some(bytes),
        }
    }

    /// Regtest's genesis block without its transaction, which makes no coin.
    pub fn genesis() -> StoredBlock
        ensures { result ≡ genesis_alone }
    {
        StoredBlock {
            time: GENESIS_TIME,
            has_known_id: false,
            bytes: None,
        }
    }

    /// The same block. Its bytes are shared.
    pub fn copy(&self) -> Result<StoredBlock, Memory>
        ensures { IfOk result (λ block. block ≡ self.now) }
    {
        let bytes = match &self.bytes {
            Some(bytes) => Some(bytes.copy()?),
            None => None,
        };
        Ok(StoredBlock {
            time: self.time,
            has_known_id: self.has_known_id,
            bytes,
        })
    }

    /// The header's time, in seconds since 1970.
    pub fn time(&self) -> u32
        ensures { result ≡ self.now.header.time }
    {
        self.time
    }

    /// The bytes that were submitted. Genesis has none here.
    pub fn bytes(&self) -> Option<&Bytes>
        ensures { MatchOption result (self.now ≡ genesis_alone)
            (λ bytes. block_of_bytes bytes.now ≡ Some self.now) }
    {
        self.bytes.as_ref()
    }

    /// The block, decoded.
    pub fn read(&self, alloc: Global) -> Result<Block, Memory>
        ensures { IfOk result (λ block. block ≡ self.now) }
    {
        if let Some(bytes) = &self.bytes {
            match read(alloc, bytes.as_slice()) {
                Ok(block) => return Ok(block),
                Err(ReadFault::Memory) => return Err(Memory),
                Err(_) => {}
            }
        }
        Ok(genesis_without_transaction(alloc))
    }

    /// The block, decoded, and the ids of its transactions.
    pub fn read_with_ids(&self, alloc: Global) -> Result<(Block, Vec<Id>), Memory>
        ensures block { IfOk result (λ found. found.0 ≡ self.now) }
        ensures ids { IfOk result (λ found. found.1.items ≡ ids_of self.now.txs) }
    {
        let block = self.read(alloc)?;
        let ids = if self.has_known_id {
            Vec::from_slice(alloc, &[block.header.root])?
        } else {
            ids(alloc, block.txs.as_slice())?
        };
        Ok((block, ids))
    }
}

/// Whether a list of ids has this one alone.
fn is_only_id(ids: &[Id], id: &Id) -> bool
    ensures { result ≡ true → ids.now ≡ id.now ∷ [] }
{
    match ids {
        [only] => only == id,
        _ => false,
    }
}

fn genesis_without_transaction(alloc: Global) -> Block
    ensures { result ≡ genesis_alone }
{
    Block {
        header: Header {
            version: 1,
            prev: Id([0; 32]),
            root: GENESIS_ROOT,
            time: GENESIS_TIME,
            bits: 0x207f_ffff,
            nonce: 2,
        },
        txs: Txs::from_vec(Vec::new(alloc)),
    }
}
