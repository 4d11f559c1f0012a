//! What the calls without a chainstate take and tell.

ghost use Rattle.std.specs.Prelude.{◌≡◌};
ghost use Rattle.ffi.specs.Refusals.{bit};

use crate::answers::{Heights, Name};

/// A yes or a no as a number.
pub(crate) fn bit(yes: bool) -> u32
    ensures { result ≡ bit yes }
{
    yes as u32
}

/// A transaction, but for its parts: its id, its bytes, how many inputs and outputs it has, its signature operations,
/// and the first rule that it breaks by itself, 0 where there is none.
#[repr(C)]
#[derive(Clone, Copy, Drop)]
pub struct ShownTx {
    pub id: Name,
    pub size: u64,
    pub inputs: u64,
    pub outputs: u64,
    pub sigops: u64,
    pub version: i32,
    pub lock_time: u32,
    pub coinbase: u32,
    pub reason: u32,
}

/// An input: the output that it spends, how many bytes its script has, and its sequence number.
#[repr(C)]
#[derive(Clone, Copy, Drop)]
pub struct InputRow {
    pub id: Name,
    pub script: u64,
    pub index: u32,
    pub sequence: u32,
}

/// An output: its value, and how many bytes its script has.
#[repr(C)]
#[derive(Clone, Copy, Drop)]
pub struct OutputRow {
    pub value: i64,
    pub script: u64,
}

/// From where the lock of an input counts: its coin's height, and the median time past of the block before that one.
#[repr(C)]
#[derive(Clone, Copy, Drop)]
pub struct Start {
    pub height: u32,
    pub median: u32,
}

/// A block, but for its transactions: its header's fields, its id, the root of its transactions' ids and whether
/// another list has it too, how many they are, its bytes, whether its id meets the target, and the first rule that it
/// breaks by itself, 0 where there is none.
#[repr(C)]
#[derive(Clone, Copy, Drop)]
pub struct ShownBlock {
    pub id: Name,
    pub parent: Name,
    pub root: Name,
    pub merkle: Name,
    pub size: u64,
    pub transactions: u64,
    pub version: i32,
    pub time: u32,
    pub bits: u32,
    pub nonce: u32,
    pub twin: u32,
    pub target: u32,
    pub reason: u32,
}

/// A header by itself: its id, and its fields.
#[repr(C)]
#[derive(Clone, Copy, Drop)]
pub struct HeaderRow {
    pub id: Name,
    pub parent: Name,
    pub root: Name,
    pub version: i32,
    pub time: u32,
    pub bits: u32,
    pub nonce: u32,
}

/// An opcode: its number, all its bytes, and how many of these it pushes, which are the last.
#[repr(C)]
#[derive(Clone, Copy, Drop)]
pub struct ShownOp {
    pub length: u64,
    pub pushed: u64,
    pub number: u32,
}

/// A script's signature operations, counted plainly and accurately, and its kind.
#[repr(C)]
#[derive(Clone, Copy, Drop)]
pub struct ShownScript {
    pub plain: u64,
    pub accurate: u64,
    pub push_only: u32,
    pub p2sh: u32,
    pub unspendable: u32,
}

/// What a script left: how many elements its stack has, and their bytes together; or the number of its failure, which is
/// 0 where there is none.
#[repr(C)]
#[derive(Clone, Copy, Drop)]
pub struct ShownStack {
    pub elements: u64,
    pub size: u64,
    pub error: u32,
}

/// Which rules of scripts are in force: those whose number isn't 0.
#[repr(C)]
#[derive(Clone, Copy, Drop)]
pub struct ShownFlags {
    pub dersig: u32,
    pub cltv: u32,
    pub csv: u32,
}

/// A digest of 20 bytes.
#[repr(C)]
#[derive(Clone, Copy, Drop)]
pub struct KeyName {
    pub bytes: [u8; 20],
}

/// A number of 256 bits, its lowest byte first, as Bitcoin Core's `uint256` is kept.
#[repr(C)]
#[derive(Clone, Copy, Drop)]
pub struct Uint256 {
    pub bytes: [u8; 32],
}

/// The digits of an id.
#[repr(C)]
#[derive(Clone, Copy, Drop)]
pub struct Digits {
    pub bytes: [u8; 64],
}

/// What is asked of an input: its number, the script that it spends, the rules that are in force by Bitcoin Core's bits,
/// and two tables: of signatures that are valid and of others that aren't.
#[repr(C)]
#[derive(Clone, Copy)]
pub struct InputQuestion<'a> {
    pub input: u64,
    pub spent: &'a [u8],
    pub valid: &'a [u8],
    pub invalid: &'a [u8],
    pub flags: u32,
}

/// What is asked of an input by verdicts that are kept: the input, the script that it spends, and bits of rules.
#[repr(C)]
#[derive(Clone, Copy, Drop)]
pub struct KnownQuestion<'a> {
    pub input: u64,
    pub spent: &'a [u8],
    pub flags: u32,
}

/// What is reported about an input: the number of the line that can't be read, how many bytes the line has that is asked for, and
/// the number of the failure.
#[repr(C)]
#[derive(Clone, Copy, Drop)]
pub struct InputTold {
    pub line: u64,
    pub count: u64,
    pub error: u32,
}

/// Where a block is connected: the medians time past of its parent's branch by height, genesis first, from which heights
/// soft forks are in force, its height, and its parent's median time past.
#[repr(C)]
#[derive(Clone, Copy)]
pub struct BlockSetting<'a> {
    pub medians: &'a [u32],
    pub heights: Heights,
    pub height: u32,
    pub cutoff: u32,
}

/// The first rule that a block breaks, 0 where there is none, with the transaction and the input whose script isn't accepted.
#[repr(C)]
#[derive(Clone, Copy, Drop)]
pub struct BrokenRule {
    pub transaction: u64,
    pub input: u64,
    pub reason: u32,
}

/// A transaction's fee in satoshis, and the first rule that it breaks over coins, 0 where there is none.
#[repr(C)]
#[derive(Clone, Copy, Drop)]
pub struct InputsTold {
    pub fee: i64,
    pub reason: u32,
}

/// What is asked of all inputs: the scripts that they spend, one after the other, and how many bytes each has; the rules that
/// are in force by Bitcoin Core's bits; and two tables.
#[repr(C)]
#[derive(Clone, Copy)]
pub struct AllQuestion<'a> {
    pub scripts: &'a [u8],
    pub sizes: &'a [u64],
    pub valid: &'a [u8],
    pub invalid: &'a [u8],
    pub flags: u32,
}

/// What is reported about all inputs: the number of the line that can't be read, how many bytes the line has that is asked for, the
/// first input that is refused, and the number of its failure.
#[repr(C)]
#[derive(Clone, Copy, Drop)]
pub struct AllTold {
    pub line: u64,
    pub count: u64,
    pub input: u64,
    pub error: u32,
}
