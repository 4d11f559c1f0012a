//! The texts of reasons and faults, each with all its forms.

use block::{BlkFault, ReadFault};
use node::{Fault, OpenFault};
use signatures::TableFault;
use txn::Reason;
use wire::{Memory, WireFault};

/// Each reason of its own, in the order of their numbers.
const REASONS: [Reason; 28] = [
    Reason::HighHash,
    Reason::BadMerkleRoot,
    Reason::DuplicateTransactions,
    Reason::BadBlockLength,
    Reason::CoinbaseMissing,
    Reason::CoinbaseMultiple,
    Reason::NoInputs,
    Reason::NoOutputs,
    Reason::OutputNegative,
    Reason::OutputTooLarge,
    Reason::OutputSumTooLarge,
    Reason::DuplicateInputs,
    Reason::CoinbaseLength,
    Reason::NullPrevout,
    Reason::TooManySigops,
    Reason::ParentNotFound,
    Reason::ParentInvalid,
    Reason::WrongBits,
    Reason::TimeTooOld,
    Reason::TimeTooNew,
    Reason::BadVersion,
    Reason::NonFinal,
    Reason::CoinbaseHeight,
    Reason::OverwritesCoin,
    Reason::InputsMissingOrSpent,
    Reason::PrematureCoinbaseSpend,
    Reason::InputsBelowOutputs,
    Reason::CoinbaseAmount,
];

const RECORDS: [BlkFault; 6] = [
    BlkFault::Foreign(293),
    BlkFault::Cut(0),
    BlkFault::TooLong(8),
    BlkFault::Read,
    BlkFault::Memory,
    BlkFault::Stopped,
];

/// Prints them, and each reason's number.
pub fn print_texts<R: Print>(rt: &R) -> anyhow::Result<()> {
    for reason in &REASONS {
        println!(rt; "{} {reason}", reason.number())?;
    }
    for fault in &RECORDS {
        println!(rt; "{fault}")?;
    }
    print_faults(rt)?;
    print_node_faults(rt)
}

fn print_faults<R: Print>(rt: &R) -> anyhow::Result<()> {
    let script = Reason::ScriptRefused {
        transaction: 2,
        input: 7,
    };
    println!(rt; "{script}\n{Memory}\n{}", WireFault::Short)?;
    println!(rt; "{}\n{}", ReadFault::Extra, ReadFault::LongForm)?;
    println!(rt; "{}\n{}", TableFault::BadLine(3), TableFault::Memory)?;
    Ok(())
}

fn print_node_faults<R: Print>(rt: &R) -> anyhow::Result<()> {
    println!(rt; "{}\n{}", OpenFault::Workers, OpenFault::Seats)?;
    println!(rt; "{}\n{}", OpenFault::Readers, OpenFault::Memory)?;
    println!(rt; "{}\n{}", Fault::Memory, Fault::Owed)?;
    println!(rt; "{}\n{}", Fault::Closed, Fault::Unknown)?;
    Ok(())
}
