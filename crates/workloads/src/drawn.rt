//! Lists of commands drawn at random.

use rand_core::{Rng, SeedableRng};
use rand_xoshiro::SplitMix64;
use std::alloc::{AllocError, Global};
use std::fmt::Write;

/// Options of a block: most of them break a rule, each its own.
const OPTIONS: [&str; 12] = [
    "root=00000000000000000000000000000000000000000000000000000000000000aa",
    "time=1296688602",
    "time=1296699999",
    "version=3",
    "cb=0110",
    "bits=207ffffe",
    "genesis.cb",
    "cb=none",
    "reward=5000000001",
    "reward=5000000001",
    "reward=1",
    "version=5",
];

/// Of an input, a script that fails, a script that is none, and sequences that lock relatively.
const INPUTS: [&str; 4] = ["6a", "- 1", "- 3", "- 4194305"];

/// An output that a transaction may spend: how a scenario names it, and its value in satoshis.
#[derive(Drop)]
struct DrawnOutput {
    name: String,
    value: u64,
}

/// A list of commands, and the blocks that they speak of.
#[derive(Drop)]
pub struct Drawn {
    alloc: Global,
    random: SplitMix64,
    /// How many blocks the chain has that the list begins with.
    below: usize,
    /// The scenario's lines that define the blocks.
    definitions: String,
    /// The commands, each on its line.
    commands: String,
    /// The parent's place of each block; the first is genesis.
    parents: Vec<usize>,
    /// The places of blocks that may well be kept, from the last ones of the first chain on.
    plain: Vec<usize>,
    /// The block that was invalidated last.
    marked: usize,
    outputs: Vec<DrawnOutput>,
    /// How many transactions there are, of two outputs each.
    transactions: usize,
}

/// The time of genesis, in seconds since 1970.
const GENESIS_TIME: u64 = 1_296_688_602;

impl Drawn {
    /// A list that begins with a chain of so many blocks, and has so many commands more.
    pub fn new(alloc: Global, seed: u64, below: usize, count: usize) -> Result<Drawn, AllocError> {
        let mut drawn = Drawn {
            alloc,
            random: SplitMix64::seed_from_u64(seed),
            below,
            definitions: String::new(alloc),
            commands: String::new(alloc),
            parents: vec![in alloc; 0]?,
            plain: Vec::new(alloc),
            marked: 0,
            outputs: Vec::new(alloc),
            transactions: 0,
        };
        drawn.begin()?;
        for _ in 0..count {
            drawn.add_command()?;
        }
        drawn.ask_all()?;
        drawn.ask_all()?;
        Ok(drawn)
    }

    /// The list as the program reads it: the blocks, and a client with the commands.
    pub fn text(&self) -> Result<String, AllocError> {
        format!(in self.alloc; "{}client a\n{}", self.definitions, self.commands)
    }

    /// How the block of this place is named.
    fn name(&self, place: usize) -> Result<String, AllocError> {
        if place == 0 {
            return String::from_str(self.alloc, "genesis");
        }
        if place <= self.below {
            return format!(in self.alloc; "c{place}");
        }
        format!(in self.alloc; "b{place}")
    }

    /// A number below another, or 0.
    fn number(&mut self, end: usize) -> usize {
        let word = self.random.next_u64() as usize;
        word.checked_rem(end).unwrap_or(0)
    }

    /// The chain that the list begins with, and its submissions.
    fn begin(&mut self) -> Result<(), AllocError> {
        let below = self.below;
        if below == 0 {
            return Ok(self.plain.push(0)?);
        }
        writeln!(self.definitions, "chain c {below} genesis")?;
        for place in 1..=below {
            self.parents.push(place - 1)?;
            self.submit(place)?;
            if place <= 2 {
                self.add_coinbase(place)?;
            }
            if place.saturating_add(3) > below {
                self.plain.push(place)?;
            }
        }
        Ok(())
    }

    fn add_command(&mut self) -> Result<(), AllocError> {
        match self.number(20) {
            0..=11 => {
                let place = self.add_block()?;
                self.submit(place)
            }
            12 => {
                self.add_block()?;
                let late = self.number(20_000) as u64;
                writeln!(self.commands, "now {}", GENESIS_TIME.wrapping_add(late))
            }
            13 | 14 => {
                let last = self.parents.len().saturating_sub(1);
                let back = self.number(8);
                self.submit(last.saturating_sub(back))
            }
            15 => {
                self.marked = self.some_block();
                self.mark("invalidate", self.marked)
            }
            16 => {
                let place = self.some_block();
                self.mark("reconsider", place)
            }
            17 | 18 => self.mark("reconsider", self.marked),
            _ => {
                let place = self.some_block();
                self.mark("precious", place)
            }
        }
    }

    /// Submits each block but genesis, the ones below first.
    fn ask_all(&mut self) -> Result<(), AllocError> {
        for place in 1..self.parents.len() {
            self.submit(place)?;
        }
        Ok(())
    }

    fn submit(&mut self, place: usize) -> Result<(), AllocError> {
        let name = self.name(place)?;
        writeln!(self.commands, "submit {name}")
    }

    fn mark(&mut self, word: &str, place: usize) -> Result<(), AllocError> {
        let name = self.name(place)?;
        writeln!(self.commands, "{word} {name}")
    }

    /// The place of a block that may well be kept, often of a late one; seldom of any other.
    fn some_block(&mut self) -> usize {
        let last = self.parents.len().saturating_sub(1);
        let count = self.plain.len();
        let span = match self.number(16) {
            0 => return last.saturating_sub(self.number(4)),
            1..=8 => 3,
            _ => count,
        };
        let back = self.number(span.min(count));
        self.plain_block(back)
    }

    /// The place of the plain block so far from the last one.
    fn plain_block(&self, back: usize) -> usize {
        self.plain.iter().rev().nth(back).copied().unwrap_or(0)
    }

    /// A block on some other one, with up to two transactions.
    fn add_block(&mut self) -> Result<usize, AllocError> {
        let below = self.some_block();
        let parent = self.name(below)?;
        let mut words = String::new(self.alloc);
        let count = self.few();
        for _ in 0..count {
            let name = self.transaction()?;
            write!(words, " {name}")?;
        }
        let option = self.number(60);
        let option = OPTIONS.get(option).copied().unwrap_or("");
        let place = self.parents.len();
        self.parents.push(below)?;
        writeln!(self.definitions, "block b{place} {parent}{words} {option}")?;
        if option.is_empty() && (count == 0 || self.number(4) == 0) {
            self.plain.push(place)?;
        }
        if option != "cb=none" && (self.below == 0 || self.number(4) == 0) {
            self.add_coinbase(place)?;
        }
        Ok(place)
    }

    /// How many transactions a block has. On genesis nothing that is spent is ripe, so there they are rare.
    fn few(&mut self) -> usize {
        let most = match self.below {
            0 => 12,
            _ => 4,
        };
        match self.number(most) {
            0 => 2,
            1 => 1,
            _ => 0,
        }
    }

    /// The coinbase of a block may be spent.
    fn add_coinbase(&mut self, place: usize) -> Result<(), AllocError> {
        let name = self.name(place)?;
        self.outputs.push(DrawnOutput {
            name: format!(in self.alloc; "{name}.cb:0")?,
            value: 5_000_000_000,
        })?;
        Ok(())
    }

    /// The name of a transaction: sometimes of one that there was before.
    fn transaction(&mut self) -> Result<String, AllocError> {
        if self.transactions > 0 && self.number(4) == 0 {
            let again = self.number(self.transactions);
            return format!(in self.alloc; "t{again}");
        }
        let number = self.transactions;
        self.transactions = number.wrapping_add(1);
        let lock = match self.number(10) {
            0 => 105,
            _ => 0,
        };
        writeln!(self.definitions, "tx t{number} 2 {lock}")?;
        let value = self.input()?;
        let half = value / 2;
        self.output(number, 0, half)?;
        let more = self.number(10) / 9;
        self.output(number, 1, (value - half).wrapping_add(more as u64))?;
        format!(in self.alloc; "t{number}")
    }

    /// An input, which spends some output that any block made, and the value of that.
    fn input(&mut self) -> Result<u64, AllocError> {
        let count = self.outputs.len();
        let place = self.number(count);
        let script = self.number(20);
        let script = INPUTS.get(script).copied().unwrap_or("-");
        let DrawnOutput { name, value } = self.made(place)?;
        writeln!(self.definitions, "in {name} {script}")?;
        Ok(value)
    }

    /// The output of this number, by default genesis's, which is no coin.
    fn made(&self, number: usize) -> Result<DrawnOutput, AllocError> {
        match self.outputs.get(number) {
            Some(output) => Ok(DrawnOutput {
                name: output.name.clone()?,
                value: output.value,
            }),
            None => Ok(DrawnOutput {
                name: String::from_str(self.alloc, "genesis.cb:0")?,
                value: 5_000_000_000,
            }),
        }
    }

    /// An output that anyone may spend; it may be taken for one more that isn't there.
    fn output(&mut self, number: usize, index: usize, value: u64) -> Result<(), AllocError> {
        writeln!(self.definitions, "out {value} 51")?;
        self.outputs.push(DrawnOutput {
            name: format!(in self.alloc; "t{number}:{index}")?,
            value,
        })?;
        if self.number(10) == 0 {
            self.outputs.push(DrawnOutput {
                name: format!(in self.alloc; "t{number}:2")?,
                value,
            })?;
        }
        Ok(())
    }
}
