//! The header of a block, as its bytes.

ghost use Rattle.std.specs.Prelude.{◌≡◌, ◌≤◌, Some, length, take};
ghost use Rattle.block.specs.declared.block.Block.{Block};
ghost use Rattle.block.specs.BlockOfBytes.{block_of_bytes};
ghost use Rattle.block.specs.Genesis as genesis;
ghost use Rattle.block.specs.Grammar.{header};

use block::laws::{genesis_is_its_parts, what_is_read_is_spelled};
use block::{GENESIS, StoredBlock};

/// The 80 bytes of a block's header.
pub(crate) fn header_bytes(block: &StoredBlock) -> [u8; 80]
    ensures { result ≡ header.spell block.now.header }
{
    match block.bytes() {
        Some(bytes) => header_of_block(bytes.as_slice()),
        None => genesis_header(),
    }
}

/// The 80 bytes of the header of the block that these bytes spell.
fn header_of_block(bytes: &[u8]) -> [u8; 80]
    requires { (b : Block) × (block_of_bytes bytes.now ≡ Some b) }
    ensures { (b : Block) → block_of_bytes bytes.now ≡ Some b → result ≡ header.spell b.header }
{
    what_is_read_is_spelled();
    header_at_front(bytes)
}

/// The 80 bytes of the header of regtest's genesis block.
fn genesis_header() -> [u8; 80]
    ensures { result ≡ header.spell genesis.header }
{
    genesis_is_its_parts();
    header_at_front(&GENESIS)
}

/// The 80 bytes at the front.
fn header_at_front(bytes: &[u8]) -> [u8; 80]
    requires { 80 ≤ length bytes.now }
    ensures { result ≡ take 80 bytes.now }
{
    let mut header = [0; 80];
    header.copy_from_slice(&bytes[..80]);
    header
}
