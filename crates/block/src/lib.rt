//! Blocks: their bytes, their ids, the proof of work, the subsidy, and the genesis block.
#![tactic(auto)]

mod blk;
mod blk_fault;
mod block;
mod bytes;
mod decode;
mod encode;
mod fault;
mod genesis;
mod header;
pub mod laws;
mod pieces;
mod reward;
mod root;
mod sizes;
mod source;
mod stored_block;
mod target;
mod txs;

pub use blk::{BlkReader, Stage};
pub use blk_fault::BlkFault;
pub use block::Block;
pub use bytes::Bytes;
pub use decode::{header_of, read, read_by};
pub use encode::{write, write_by};
pub use fault::ReadFault;
pub use genesis::{GENESIS, GENESIS_ID, GENESIS_ROOT, GENESIS_TIME};
pub use header::Header;
pub use reward::subsidy;
pub use root::{merkle, witness_root};
pub use sizes::{size, total_size, weight};
pub use source::{ReadFailed, SliceSource, Source};
pub use stored_block::StoredBlock;
pub use target::meets_target;
pub use txs::Txs;
