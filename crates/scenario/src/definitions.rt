//! The definitions of a scenario: its blocks and transactions, by their names, and its valid signatures.

ghost use Rattle.std.specs.Prelude.{◌≤◌, length, OnOk};

use crate::complaint::Complaint;
use crate::defined_blocks::{Named, genesis, made};
use crate::draft::Draft;
use crate::fault::{LineFault, ScenarioFault};
use crate::known::Known;
use crate::label::Label;
use crate::line::{Line, U8, U32, U64, bytes, id, is_id_long, is_name, number};
use crate::line_forms::no_definition;
use crate::recipe::Recipe;
use crate::valid_signature::{ValidSignature, add_valid_signature};
use hash::Id;
use signatures::Table;
use std::alloc::Global;
use std::collections::BTreeMap;
use txn::OutPoint;
use wire::Memory;

/// The most blocks that a `chain` line has.
const MAX_CHAIN: u64 = 1000;

/// How many blocks a `chain` line can have.
const COUNT: &str = "1 to 1000";

/// What ends the name of a block where its coinbase is meant.
const COINBASE: &str = "cb";

/// What the lines of a scenario define.
#[derive(Drop)]
pub struct Definitions {
    alloc: Global,
    blocks: BTreeMap<String, Named>,
    transactions: BTreeMap<String, Known>,
    /// The first name of each block's id.
    names: BTreeMap<Id, String>,
    /// The names that the lines define, in their order.
    order: Vec<String>,
    /// The valid signatures.
    table: Table,
    /// The transaction whose lines are being read.
    draft: Option<Draft>,
}

impl Definitions {
    /// What these lines define, each of which names earlier ones alone. `genesis` is given, and so are the
    /// valid signatures of this table.
    pub fn read(
        alloc: Global,
        lines: &[Line<'_>],
        table: Table,
    ) -> Result<Definitions, ScenarioFault> {
        let mut definitions = Definitions {
            alloc,
            blocks: BTreeMap::new(alloc),
            transactions: BTreeMap::new(alloc),
            names: BTreeMap::new(alloc),
            order: Vec::new(alloc),
            table,
            draft: None,
        };
        definitions.insert(genesis(alloc)?)?;
        definitions.order.clear();
        for line in lines {
            if let Err(fault) = definitions.define(line) {
                return Err(fault.at(line.number));
            }
        }
        definitions.finish_draft()?;
        Ok(definitions)
    }

    /// The block of this name.
    pub fn find(&self, name: &str) -> Result<&Named, LineFault> {
        match self.blocks.get(name) {
            Some(block) => Ok(block),
            None => Err(self.refused(name, Complaint::NoBlock)),
        }
    }

    /// That a word has this fault.
    fn refused(&self, word: &str, complaint: Complaint) -> LineFault {
        LineFault::of_word(self.alloc, word, complaint)
    }

    /// The id of the block that a word names: by its name, or by the id's digits, of which nothing is asked.
    pub fn block_id(&self, word: &str) -> Result<Id, LineFault> {
        if is_id_long(word) {
            return id(self.alloc, word);
        }
        Ok(self.find(word)?.id)
    }

    /// How the block of this id is printed.
    pub fn label(&self, id: Id) -> Label<'_> {
        match self.names.get(&id) {
            Some(name) => Label::Name(name.as_str()),
            None => Label::Digits(id),
        }
    }

    /// The signatures that are valid.
    pub fn table(&self) -> &Table {
        &self.table
    }

    fn define(&mut self, line: &Line<'_>) -> Result<(), LineFault> {
        line.check(self.alloc)?;
        let words = line.words.as_slice();
        match words {
            ["in", ..] | ["out", ..] => self.draft_line(words),
            _ => {
                self.finish_draft()?;
                self.definition(words)
            }
        }
    }

    /// A line of its own, which ends a transaction's lines.
    fn definition(&mut self, words: &[&str]) -> Result<(), LineFault> {
        match words {
            ["tx", name, version, lock_time] => self.begin_draft(name, version, lock_time),
            ["block", name, parent, options @ ..] => {
                let recipe = self.recipe(options)?;
                self.block(name, parent, recipe)
            }
            ["chain", name, count, parent] => self.chain(name, count, parent),
            ["verdict", key, signature, tx, input, code, kind] => {
                self.verdict(key, signature, tx, input, code, kind)
            }
            _ => Err(no_definition(self.alloc, words)),
        }
    }

    fn begin_draft(&mut self, name: &str, version: &str, lock_time: &str) -> Result<(), LineFault> {
        self.check_free(name)?;
        self.draft = Some(Draft::new(self.alloc, name, version, lock_time)?);
        Ok(())
    }

    /// A line of the transaction that is being read.
    fn draft_line(&mut self, words: &[&str]) -> Result<(), LineFault> {
        if self.draft.is_none() {
            let word = words.first().copied().unwrap_or("");
            return Err(self.refused(word, Complaint::Loose));
        }
        match words {
            ["in", prev, script] => self.draft_input(prev, script, None),
            ["in", prev, script, sequence] => self.draft_input(prev, script, Some(*sequence)),
            ["out", value, script] => self.draft_output(value, script),
            _ => Err(no_definition(self.alloc, words)),
        }
    }

    fn draft_input(
        &mut self,
        prev: &str,
        script: &str,
        sequence: Option<&str>,
    ) -> Result<(), LineFault> {
        let prev = self.outpoint(prev)?;
        match &mut self.draft {
            Some(draft) => draft.input(prev, script, sequence),
            None => Ok(()),
        }
    }

    fn draft_output(&mut self, value: &str, script: &str) -> Result<(), LineFault> {
        match &mut self.draft {
            Some(draft) => draft.output(value, script),
            None => Ok(()),
        }
    }

    /// From now on the transaction that was read can be named.
    fn finish_draft(&mut self) -> Result<(), Memory> {
        if let Some(draft) = self.draft.take() {
            let (name, tx) = draft.finish();
            let known = Known::from_tx(tx);
            self.order.push(name.clone()?)?;
            self.transactions.insert(name, known)?;
        }
        Ok(())
    }

    /// What these words say of a block: options, and the names of transactions.
    fn recipe(&self, words: &[&str]) -> Result<Recipe, LineFault> {
        let mut recipe = Recipe::new(self.alloc);
        for word in words {
            match word.split_once('=') {
                Some((option, value)) => recipe.set(self.alloc, option, value)?,
                None => recipe
                    .transactions
                    .push(self.transaction(word)?.tx.copy()?)?,
            }
        }
        Ok(recipe)
    }

    fn block(&mut self, name: &str, parent: &str, recipe: Recipe) -> Result<(), LineFault> {
        let block = self.made(name, parent, recipe)?;
        Ok(self.insert(block)?)
    }

    fn made(&self, name: &str, parent: &str, recipe: Recipe) -> Result<Named, LineFault> {
        self.check_free(name)?;
        made(self.alloc, name, self.find(parent)?, recipe)
    }

    /// This many blocks, one on the other, under the name and the numbers from 1 on.
    fn chain(&mut self, name: &str, word: &str, parent: &str) -> Result<(), LineFault> {
        let count = number(self.alloc, word, COUNT)?;
        if count < 1 || count > MAX_CHAIN {
            return Err(self.refused(word, Complaint::Number(COUNT)));
        }
        let mut above = String::from_str(self.alloc, parent)?;
        for place in 1..=count {
            above = self.chained(name, place, above.as_str())?;
        }
        Ok(())
    }

    /// The block of a name and a number on a parent. Its whole name is given back.
    fn chained(&mut self, name: &str, place: u64, parent: &str) -> Result<String, LineFault> {
        let numbered = format!(in self.alloc; "{name}{place}")?;
        self.block(numbered.as_str(), parent, Recipe::new(self.alloc))?;
        Ok(numbered)
    }

    /// Makes a signature valid.
    fn verdict(
        &mut self,
        key: &str,
        signature: &str,
        tx: &str,
        word: &str,
        code: &str,
        kind: &str,
    ) -> Result<(), LineFault> {
        let input: usize = number(self.alloc, word, U64)?;
        let kind = number(self.alloc, kind, U8)?;
        let pieces = Pieces::read(self.alloc, key, signature, code)?;
        let tx = self.transaction(tx)?.tx.copy()?;
        if input >= tx.inputs.len() {
            return Err(self.refused(word, Complaint::NoInput));
        }
        let valid = ValidSignature {
            key: pieces.key.as_slice(),
            signature: pieces.signature.as_slice(),
            tx: &tx,
            input,
            code: pieces.code.as_slice(),
            kind,
        };
        Ok(add_valid_signature(&mut self.table, self.alloc, &valid)?)
    }

    /// The transaction of this name; the coinbase of the block B is `B.cb`.
    fn transaction(&self, name: &str) -> Result<&Known, LineFault> {
        let known = match name.split_once('.') {
            Some((block, COINBASE)) => self.find(block)?.coinbase.as_ref(),
            _ => self.transactions.get(name),
        };
        match known {
            Some(known) => Ok(known),
            None => Err(self.refused(name, Complaint::NoTransaction)),
        }
    }

    /// The outpoint that a word names: `null`, or an output.
    pub fn outpoint(&self, word: &str) -> Result<OutPoint, LineFault> {
        match word {
            "null" => Ok(OutPoint::NULL),
            _ => self.output(word),
        }
    }

    /// The output that a word names: a transaction, by its name or its id's digits, and a number. That there is such
    /// an output isn't asked.
    pub fn output(&self, word: &str) -> Result<OutPoint, LineFault> {
        let Some((tx, index)) = word.split_once(':') else {
            return Err(self.refused(word, Complaint::NoOutput));
        };
        Ok(OutPoint {
            id: self.transaction_id(tx)?,
            index: number(self.alloc, index, U32)?,
        })
    }

    fn transaction_id(&self, word: &str) -> Result<Id, LineFault> {
        if is_id_long(word) {
            return id(self.alloc, word);
        }
        Ok(self.transaction(word)?.id)
    }

    /// A name that is given once: to a block or to a transaction.
    fn check_free(&self, name: &str) -> Result<(), LineFault>
        ensures { OnOk result (length name.now ≤ 32) }
    {
        if name == "null" {
            return Err(self.refused(name, Complaint::Reserved));
        }
        if self.blocks.contains_key(name) || self.transactions.contains_key(name) {
            return Err(self.refused(name, Complaint::Taken));
        }
        if !is_name(name) {
            return Err(self.refused(name, Complaint::NoName));
        }
        Ok(())
    }

    fn insert(&mut self, block: Named) -> Result<(), Memory> {
        let name = block.name.clone()?;
        self.put_name(block.id, &name)?;
        self.blocks.insert(name, block)?;
        Ok(())
    }

    /// Puts the name of the block of this id behind the others.
    fn put_name(&mut self, id: Id, name: &String) -> Result<(), Memory> {
        if !self.names.contains_key(&id) {
            self.names.insert(id, name.clone()?)?;
        }
        self.order.push(name.clone()?)?;
        Ok(())
    }

    /// The names that the lines define, in their order.
    pub fn names(&self) -> &[String] {
        self.order.as_slice()
    }

    /// The block or the transaction of this name: its id, and its bytes in hexadecimal digits.
    pub fn shown(&self, name: &str) -> Result<Shown, LineFault> {
        if let Some(block) = self.blocks.get(name) {
            let digits = hex::encode(self.alloc, block.bytes.as_slice())?;
            return Ok(Shown {
                id: block.id,
                digits,
            });
        }
        let known = self.transaction(name)?;
        let mut bytes = Vec::new(self.alloc);
        txn::write(&known.tx, &mut bytes)?;
        let digits = hex::encode(self.alloc, bytes.as_slice())?;
        Ok(Shown {
            id: known.id,
            digits,
        })
    }
}

/// What a `verdict` line gives in hexadecimal digits.
#[derive(Drop)]
struct Pieces {
    key: Vec<u8>,
    signature: Vec<u8>,
    code: Vec<u8>,
}

impl Pieces {
    fn read(alloc: Global, key: &str, signature: &str, code: &str) -> Result<Pieces, LineFault> {
        Ok(Pieces {
            key: bytes(alloc, key)?,
            signature: bytes(alloc, signature)?,
            code: bytes(alloc, code)?,
        })
    }
}

/// What a name means, for another program.
#[derive(Drop)]
pub struct Shown {
    pub id: Id,
    /// Its bytes in hexadecimal.
    pub digits: String,
}
