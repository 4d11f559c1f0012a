//! The chainstate of one thread, and the one that is lent its coins.

ghost use Rattle.std.specs.Prelude.{◌≡◌, IfOk, OnErr, OnOk};
ghost use Rattle.coins.specs.Changes.{after_changes};
ghost use Rattle.activate.specs.CoreState.{Follows, coins_of};

use crate::allocations::{begin, end};
use crate::log::PlayLog;
use crate::seat_calls::MOST_TRIES;
use crate::state::coins_text;
use activate::{Chainstate, Core};
use coins::{Changes, CoinMap};
use connect::Env as Environment;
use hash::Id;
use model::{Command, PreparedCommand, Reply};
use queue::{Alone, Open};
use rules::Params;
use scenario::Call;
use signatures::Table;
use std::alloc::Global;
use std::marker::Model;
use std::rt::Env;
use tree::Tip;
use wire::Memory;

/// A chainstate, and the table of all its steps.
#[derive(Drop)]
pub struct Whole<'t> {
    chain: Chainstate,
    table: &'t Table,
}

impl<'t> Model for Whole<'t> {
    ghost use Rattle.std.specs.Prelude.{ℕ};
    ghost use Rattle.activate.specs.CoreState.{IsChainstate};

    ghost Value = { ℕ };

    ghost view = { λ _. 0 };

    ghost invariant = { λ w. IsChainstate w.chain w.table.now };
}

/// A chainstate that is lent its coins, which lie beside, and the table of all its steps.
#[derive(Drop)]
pub struct LentChain<'t> {
    core: Core,
    coins: CoinMap,
    table: &'t Table,
}

impl<'t> Model for LentChain<'t> {
    ghost use Rattle.std.specs.Prelude.{ℕ, ◌≡◌};
    ghost use Rattle.activate.specs.CoreState.{Follows, coins_of};

    ghost Value = { ℕ };

    ghost view = { λ _. 0 };

    ghost invariant = { λ l. Follows l.core l.table.now × (l.coins ≡ coins_of l.core) };
}

/// Either of them.
#[derive(Drop)]
pub enum AnyChain<'t> {
    Whole(Whole<'t>),
    Lent(LentChain<'t>),
}

/// A chainstate after a command, and the reply, if there was memory for it.
type AfterCommand<'t> = (AnyChain<'t>, Option<Reply>);

/// How a command is taken.
#[derive(Clone, Copy)]
pub struct ChainDesk<'p> {
    /// Allocations count.
    pub is_counted: bool,
    /// The outputs that are looked at.
    pub outputs: &'p [Call<'p, 'p>],
    /// The coins at them before.
    pub coins: &'p str,
}

/// What a chainstate shows.
#[derive(Drop)]
pub struct ChainLook<'c> {
    pub best: Id,
    pub height: usize,
    pub undo_kept: usize,
    pub tips: Vec<Tip>,
    pub coins: &'c CoinMap,
}

impl<'t> Whole<'t> {
    /// Genesis alone.
    pub fn new(alloc: Global, params: Params, table: &'t Table) -> Result<Whole<'t>, Memory> {
        let chain = Chainstate::with(alloc, params)?;
        Ok(Whole { chain, table })
    }

    /// Takes commands: their replies.
    pub fn run(&mut self, alloc: Global, commands: &[Command]) -> Result<Vec<Reply>, Memory> {
        let env = Environment {
            signatures: self.table,
            workers: 1,
            early: &[],
            crew: &Alone,
        };
        self.chain.run(alloc, commands, &env, &Open)
    }

    pub fn look(&self, alloc: Global) -> Result<ChainLook<'_>, Memory> {
        Ok(ChainLook {
            best: self.chain.best(),
            height: self.chain.height(),
            undo_kept: self.chain.undo_kept(),
            tips: self.chain.tips(alloc)?,
            coins: self.chain.coins(),
        })
    }
}

impl<'t> LentChain<'t> {
    /// Genesis alone.
    pub fn new(alloc: Global, params: Params, table: &'t Table) -> Result<LentChain<'t>, Memory> {
        let core = Core::with(alloc, params)?;
        let coins = CoinMap::new(alloc);
        Ok(LentChain { core, coins, table })
    }

    pub fn look(&self, alloc: Global) -> Result<ChainLook<'_>, Memory> {
        Ok(ChainLook {
            best: self.core.best(),
            height: self.core.height(),
            undo_kept: self.core.undo_kept(),
            tips: self.core.tips(alloc)?,
            coins: &self.coins,
        })
    }

    /// Takes a command over the coins, and lays the step's list over them.
    fn take<R>(
        self,
        rt: &R,
        command: &Command,
        desk: &ChainDesk<'_>,
        log: &mut PlayLog,
    ) -> Result<AfterCommand<'t>, Memory>
    where
        R: AllocGlobal + Env,
    {
        let LentChain {
            mut core,
            mut coins,
            table,
        } = self;
        begin(rt, desk.is_counted);
        let done = step_over(rt.alloc(), &mut core, &coins, command, table);
        let refused = end(rt);
        let Ok((reply, changes)) = done else {
            log.refused(refused, "step_over", "memory")?;
            return Ok((AnyChain::Lent(LentChain { core, coins, table }), None));
        };
        log.refused(refused, "step_over", "answered")?;
        log.answer(&"changes", changes.len())?;
        lay(rt, &mut coins, &changes, desk, log)?;
        Ok((
            AnyChain::Lent(LentChain { core, coins, table }),
            Some(reply),
        ))
    }
}

/// Takes a command over coins: the reply, and the coins that change.
fn step_over(
    alloc: Global,
    core: &mut Core,
    coins: &CoinMap,
    command: &Command,
    table: &Table,
) -> Result<(Reply, Changes), Memory>
    requires follows { Follows core.old table.now }
    requires coins { coins.now ≡ coins_of core.old }
    ensures follows { Follows core.new table.now }
    ensures laid { IfOk result (λ done. after_changes coins.now done.1 ≡ coins_of core.new) }
    ensures err { OnErr result (core.new ≡ core.old) }
{
    let command = PreparedCommand::of(alloc, command)?;
    let env = Environment {
        signatures: table,
        workers: 1,
        early: &[],
        crew: &Alone,
    };
    core.step_over(alloc, coins, &command, &env, &Open)
}

/// Lays a list over coins. A refusal that leaves other coins is written.
fn lay<R>(
    rt: &R,
    coins: &mut CoinMap,
    changes: &Changes,
    desk: &ChainDesk<'_>,
    log: &mut PlayLog,
) -> Result<(), Memory>
where
    R: AllocGlobal + Env,
    ensures { OnOk result (coins.new ≡ after_changes coins.old changes.now) }
{
    let alloc = rt.alloc();
    for _ in 0..MOST_TRIES {
        begin(rt, desk.is_counted);
        let done = coins.lay(alloc, changes);
        let refused = end(rt);
        if done.is_ok() {
            log.refused(refused, "lay", "answered")?;
            return Ok(());
        }
        log.refused(refused, "lay", "memory")?;
        let left = coins_text(alloc, coins, desk.outputs)?;
        if left.as_str() != desk.coins {
            writeln!(log.text, "lay leaves other coins\n{left}")?;
        }
    }
    Err(Memory)
}

impl<'t> Whole<'t> {
    /// Takes a list of one command.
    fn take<R>(
        mut self,
        rt: &R,
        command: &[Command],
        desk: &ChainDesk<'_>,
        log: &mut PlayLog,
    ) -> Result<AfterCommand<'t>, Memory>
    where
        R: AllocGlobal + Env,
    {
        begin(rt, desk.is_counted);
        let done = self.run(rt.alloc(), command);
        let refused = end(rt);
        let outcome = if done.is_ok() { "answered" } else { "memory" };
        log.refused(refused, "run", outcome)?;
        let reply = match done {
            Ok(replies) => replies.first().copied(),
            Err(Memory) => None,
        };
        Ok((AnyChain::Whole(self), reply))
    }
}

impl<'t> AnyChain<'t> {
    /// A chainstate of genesis alone.
    pub fn new(
        alloc: Global,
        params: Params,
        table: &'t Table,
        is_lent: bool,
    ) -> Result<AnyChain<'t>, Memory> {
        if is_lent {
            return Ok(AnyChain::Lent(LentChain::new(alloc, params, table)?));
        }
        Ok(AnyChain::Whole(Whole::new(alloc, params, table)?))
    }

    pub fn look(&self, alloc: Global) -> Result<ChainLook<'_>, Memory> {
        match self {
            AnyChain::Whole(whole) => whole.look(alloc),
            AnyChain::Lent(lent) => lent.look(alloc),
        }
    }

    /// Takes a command: the chainstate after it, and the reply, if there was memory for it.
    pub fn take<R>(
        self,
        rt: &R,
        command: Command,
        desk: &ChainDesk<'_>,
        log: &mut PlayLog,
    ) -> Result<AfterCommand<'t>, Memory>
    where
        R: AllocGlobal + Env,
    {
        match self {
            AnyChain::Whole(whole) => whole.take(rt, &[command], desk, log),
            AnyChain::Lent(lent) => lent.take(rt, &command, desk, log),
        }
    }
}
