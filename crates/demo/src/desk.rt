//! The chainstate, and the names of its blocks.

use crate::request::Request;
use activate::Chainstate;
use coins::Coin;
use connect::Env;
use hash::Id;
use model::{Bytes, Command, PreparedCommand, Reply, SubmitReply};
use queue::{Alone, Open};
use signatures::Table;
use std::alloc::Global;
use std::marker::Model;
use wire::Memory;

/// The moment of all submissions, in seconds since 1970: no block is ahead of it.
const NOW: u64 = 0xffff_ffff;

/// A chainstate, the table of all its steps, and the names of the blocks that came.
#[derive(Drop)]
pub struct Desk<'t> {
    chain: Chainstate,
    table: &'t Table,
    names: Vec<(Id, String)>,
}

impl<'t> Model for Desk<'t> {
    ghost use Rattle.std.specs.Prelude.{ℕ};
    ghost use Rattle.activate.specs.CoreState.{IsChainstate};

    ghost Value = { ℕ };

    ghost view = { λ _. 0 };

    ghost invariant = { λ desk. IsChainstate desk.chain desk.table.now };
}

impl<'t> Desk<'t> {
    /// Genesis alone.
    pub fn new(alloc: Global, table: &'t Table) -> Result<Desk<'t>, Memory> {
        let chain = Chainstate::new(alloc)?;
        let names = Vec::new(alloc);
        Ok(Desk {
            chain,
            table,
            names,
        })
    }

    /// Prints a request and its answer.
    pub fn answer<R: AllocGlobal + Print>(
        &mut self,
        rt: &R,
        request: &Request<'_>,
    ) -> anyhow::Result<()> {
        match request {
            Request::Submit(name, bytes) => {
                let reply = self.submit(rt.alloc(), *name, bytes.as_slice())?;
                println!(rt; "submit {name} = {reply}")?;
            }
            Request::Coin(name, at) => match self.chain.coins().get(at) {
                Some(Coin { value, height, .. }) => {
                    println!(rt; "coin {name} = {value} satoshis, made at height {height}")?
                }
                None => println!(rt; "coin {name} = none")?,
            },
            Request::Tips => self.show_tips(rt)?,
        }
        Ok(())
    }

    fn submit(&mut self, alloc: Global, name: &str, bytes: &[u8]) -> anyhow::Result<Reply> {
        if let Ok(block) = block::read(alloc, bytes) {
            self.names
                .push((block.id(), String::from_str(alloc, name)?))?;
        }
        let command = Command::Submit(Bytes::from_slice(alloc, bytes)?, NOW);
        Ok(self.step(alloc, &command)?)
    }

    fn step(&mut self, alloc: Global, command: &Command) -> Result<Reply, Memory> {
        let env = Env {
            signatures: self.table,
            workers: 1,
            early: &[],
            crew: &Alone,
        };
        let command = PreparedCommand::of(alloc, command)?;
        self.chain.step(alloc, &command, &env, &Open)
    }

    fn show_tips<R: AllocGlobal + Print>(&self, rt: &R) -> anyhow::Result<()> {
        println!(rt; "tips")?;
        for tip in self.chain.tips(rt.alloc())?.as_slice() {
            let name = self.name_of(&tip.id);
            println!(rt; "    {name} at height {}, {:?}", tip.height, tip.status)?;
        }
        Ok(())
    }

    /// The name of the block of an id.
    fn name_of(&self, id: &Id) -> &str {
        match self.names.iter().find(|(own, _)| own == id) {
            Some((_, name)) => name.as_str(),
            None => "?",
        }
    }
}
